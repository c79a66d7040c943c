//! Tables of the rows whose variables are true.
ghost use Rattle.std.specs.Prelude.{◌≡◌, ◌<◌, ◌+◌, ◌*◌, ◌++◌, ◌∷◌, [], ◌^◌, map, length, IfOk, OnOk};
ghost use Rattle.kb_logic.specs.Structures.{tuples_of, domain_at};
ghost use Rattle.lit_core.specs.Literals.{valuation};
ghost use Rattle.term_values.specs.GroundBases.{true_values};
ghost use Rattle.atom_numbers.specs.Numbers.{AreNumbered};
ghost use Rattle.atom_numbers.specs.Tables.{true_rows, valued_rows, relation_tables, function_tables};

use crate::places::{tuple_at, tuple_count};
use kb_logic::tuples::all_tuples;
use kb_logic::values::domain_in;
use kb_logic::{Elem, ElemList, Memory, RowList, Symbol, Table, TableList};
use lit_core::{Lit, Values, Var};
use std::alloc::Global;

/// Whether the variable is true. One that has no value is false.
fn is_true(values: &Values, var: u64) -> bool
    ensures { result ≡ valuation values.now var }
{
    let lit = Lit {
        var: Var(var),
        positive: true,
    };
    var < values.len() as u64 && values.holds(lit)
}

// Of the atoms of most predicates few are true, so that a tuple is made only where its variable is.
/// The rows whose variables are true, where there are `count` tuples over these types.
fn predicate_rows(
    alloc: Global,
    domains: &[ElemList],
    types: &[u32],
    count: u64,
    values: &Values,
    first: u64,
) -> Result<RowList, Memory>
    requires count { count ≡ length (tuples_of domains.now types.now) }
    requires few { first + count < 2 ^ 64 }
    ensures { IfOk result (λ rows. rows ≡ true_rows (valuation values.now) first (tuples_of domains.now types.now)) }
{
    let mut rows = Vec::new(alloc);
    for place in 0..count {
        if !is_true(values, first + place) {
            continue;
        }
        rows.push(tuple_at(alloc, domains, types, count, place)?)?;
    }
    Ok(RowList::from_vec(rows))
}

/// Pushes the arguments with each element whose variable is true.
fn push_valued(
    alloc: Global,
    front: &ElemList,
    domain: &[Elem],
    values: &Values,
    first: u64,
    rows: &mut Vec<ElemList>,
) -> Result<(), Memory>
    requires { first + length domain.now < 2 ^ 64 }
    ensures { OnOk result (rows.new.items ≡ rows.old.items ++ map (λ x. front.now ++ x ∷ [])
        (true_values (valuation values.now) first domain.now)) }
{
    for k in 0..domain.len() {
        if !is_true(values, first + k as u64) {
            continue;
        }
        let mut row = front.copy(alloc)?;
        row.push(domain[k].copy(alloc)?)?;
        rows.push(row)?;
    }
    Ok(())
}

/// The arguments with the elements whose variables are true.
fn function_rows(
    alloc: Global,
    tuples: &[ElemList],
    domain: &[Elem],
    values: &Values,
    first: u64,
) -> Result<RowList, Memory>
    requires { first + length tuples.now * length domain.now < 2 ^ 64 }
    ensures { IfOk result (λ rows. rows ≡ valued_rows (valuation values.now) first domain.now tuples.now) }
{
    let mut rows = Vec::new(alloc);
    let mut var = first;
    for tuple in tuples {
        push_valued(alloc, tuple, domain, values, var, &mut rows)?;
        var += domain.len() as u64;
    }
    Ok(RowList::from_vec(rows))
}

/// The table of a predicate, whose first atom has the variable `first`.
fn relation(
    alloc: Global,
    domains: &[ElemList],
    symbol: &Symbol,
    first: u64,
    values: &Values,
) -> Result<RowList, Memory>
    requires { first + length (tuples_of domains.now symbol.now.args) < 2 ^ 64 }
    ensures { IfOk result (λ rows. rows ≡ true_rows (valuation values.now) first
        (tuples_of domains.now symbol.now.args)) }
{
    let types = symbol.args.as_slice();
    let Some(count) = tuple_count(domains, types) else {
        return Err(Memory);
    };
    predicate_rows(alloc, domains, types, count, values, first)
}

/// The table of a function with values of this type, in the same way.
fn function(
    alloc: Global,
    domains: &[ElemList],
    symbol: &Symbol,
    ty: u32,
    first: u64,
    values: &Values,
) -> Result<RowList, Memory>
    requires { first + length (tuples_of domains.now symbol.now.args) * length (domain_at domains.now ty) < 2 ^ 64 }
    ensures { IfOk result (λ rows. rows ≡ valued_rows (valuation values.now) first (domain_at domains.now ty)
        (tuples_of domains.now symbol.now.args)) }
{
    let tuples = all_tuples(alloc, domains, symbol.args.as_slice())?;
    function_rows(
        alloc,
        tuples.as_slice(),
        domain_in(domains, ty),
        values,
        first,
    )
}

fn table_of(symbol: u32, rows: RowList) -> Table
    ensures { result ≡ record { symbol = symbol; rows = rows } }
{
    Table { symbol, rows }
}

/// The tables of the predicates.
pub(crate) fn relations(
    alloc: Global,
    domains: &[ElemList],
    symbols: &[Symbol],
    firsts: &[u64],
    values: &Values,
) -> Result<TableList, Memory>
    requires { AreNumbered domains.now symbols.now firsts.now }
    ensures { IfOk result (λ ts. ts ≡ relation_tables domains.now symbols.now (valuation values.now)
        (length symbols.now)) }
{
    let mut tables = Vec::new(alloc);
    for number in 0..symbols.len() {
        let symbol = &symbols[number];
        if symbol.value.is_some() {
            continue;
        }
        let rows = relation(alloc, domains, symbol, firsts[number], values)?;
        tables.push(table_of(number as u32, rows))?;
    }
    Ok(TableList::from_vec(tables))
}

/// The tables of the functions.
pub(crate) fn functions(
    alloc: Global,
    domains: &[ElemList],
    symbols: &[Symbol],
    firsts: &[u64],
    values: &Values,
) -> Result<TableList, Memory>
    requires { AreNumbered domains.now symbols.now firsts.now }
    ensures { IfOk result (λ ts. ts ≡ function_tables domains.now symbols.now (valuation values.now)
        (length symbols.now)) }
{
    let mut tables = Vec::new(alloc);
    for number in 0..symbols.len() {
        let symbol = &symbols[number];
        let Some(ty) = symbol.value else {
            continue;
        };
        let rows = function(alloc, domains, symbol, ty, firsts[number], values)?;
        tables.push(table_of(number as u32, rows))?;
    }
    Ok(TableList::from_vec(tables))
}
