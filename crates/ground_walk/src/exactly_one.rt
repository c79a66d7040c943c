//! That exactly one of some variables is true. Each two of them take a clause, which is as good as anything for
//! few of them; many take one constraint in place of that.
ghost use Rattle.std.specs.Prelude.{◌≡◌, ◌≤◌, ◌+◌, ◌^◌, ◌++◌, [], length, if◌then◌else◌, IfOk, OnOk};
ghost use Rattle.ground_core.specs.Problems.{IsLitOf, AreLitsOf};
ghost use Rattle.ground_core.specs.Growth.{with_constraint};
ghost use Rattle.def_ground.specs.Cases.{with_clauses};
ghost use Rattle.def_ground.specs.Problems.{with_open, open_variables, pairs_with, pair_clauses, first_pairs, are_many};
ghost use Rattle.def_ground.specs.Problems.{at_most_one_beside, first_sum, one_of_clauses, one_of_sums, saying};

use ground_core::{AggCon, LitList, Memory, Part, PartList, Problem};
use kb_logic::{AggKind, Elem, ExtInt};
use lit_core::{Clause, Lit, Var};
use std::alloc::Global;
use term_values::GroundData;

/// So many literals, at most, take a clause for each two of them.
const MOST_IN_PAIRS: u64 = 256;

/// And none do if they times the number of all ground atoms are more than this, so that a base of many functions has
/// memory for all such clauses.
const MOST_BY_ATOMS: u64 = 33_554_432;

/// Whether the literals, of a function's atoms among all those, are too many for a clause for each two of them.
fn are_many(atoms: u64, lits: &[Lit]) -> bool
    ensures { result ≡ are_many atoms lits.now }
{
    let len = lits.len() as u64;
    match len.checked_mul(atoms) {
        Some(product) => len > MOST_IN_PAIRS || product > MOST_BY_ATOMS,
        None => true,
    }
}

/// Pushes the variable, unless its atom is known to be false.
fn push_open(known: Option<bool>, var: u64, lits: &mut LitList) -> Result<(), Memory>
    ensures { OnOk result (lits.new ≡ lits.old ++ with_open known var []) }
{
    match known {
        Some(false) => Ok(()),
        _ => {
            lits.push(Lit {
                var: Var(var),
                positive: true,
            })?;
            Ok(())
        }
    }
}

/// Those of the variables from `first` on, one for each value, whose atoms are not known to be false.
fn variables(
    alloc: Global,
    base: &GroundData<'_>,
    first: u64,
    values: &[Elem],
) -> Result<LitList, Memory>
    requires few { first + length values.now ≤ 2 ^ 63 }
    ensures { IfOk result (λ ls. ls ≡ open_variables base.now first values.now) }
{
    let mut lits = LitList::new(alloc);
    for place in 0..values.len() {
        let var = first + place as u64;
        push_open(base.known(var), var, &mut lits)?;
    }
    Ok(lits)
}

/// Adds that the literal is not true together with one of the others.
fn push_pairs_with(
    alloc: Global,
    lit: Lit,
    others: &[Lit],
    problem: &mut Problem,
) -> Result<(), Memory>
    requires first { IsLitOf problem.old.vars lit }
    requires second { AreLitsOf problem.old.vars others.now }
    ensures { OnOk result (problem.new ≡ with_clauses problem.old (pairs_with lit others.now)) }
{
    for other in others {
        let lits = [lit.negated(), other.negated()];
        problem.add_clause_of(&lits)?;
    }
    Ok(())
}

/// Adds that no two of the literals are true.
#[tactic(auto, using(def_ground::proofs::WithClauses::with_none, def_ground::proofs::WithClauses::with_more))]
fn push_pairs(alloc: Global, lits: &[Lit], problem: &mut Problem) -> Result<(), Memory>
    requires { AreLitsOf problem.old.vars lits.now }
    ensures { OnOk result (problem.new ≡ with_clauses problem.old (pair_clauses lits.now)) }
{
    let mut rest = lits;
    while let Some((first, others)) = rest.split_first() {
        push_pairs_with(alloc, *first, others, problem)?;
        rest = others;
    }
    Ok(())
}

/// The parts of the constraint on the first literal and the others.
fn parts_beside(alloc: Global, first: Lit, others: &[Lit]) -> Result<PartList, Memory>
    ensures { IfOk result (λ ps. ps ≡ (at_most_one_beside first others.now).parts) }
{
    let mut parts = PartList::new(alloc);
    parts.push(Part {
        lit: first,
        weight: -2,
    })?;
    for other in others {
        parts.push(Part {
            lit: *other,
            weight: -1,
        })?;
    }
    Ok(parts)
}

/// Adds that where the first literal is false at most one of the others is true.
fn push_at_most_one(
    alloc: Global,
    first: Lit,
    others: &[Lit],
    problem: &mut Problem,
) -> Result<(), Memory>
    requires first { IsLitOf problem.old.vars first }
    requires second { AreLitsOf problem.old.vars others.now }
    ensures { OnOk result (problem.new ≡ with_constraint problem.old (at_most_one_beside first others.now)) }
{
    let parts = parts_beside(alloc, first, others)?;
    problem.add_constraint(AggCon {
        out: first.negated(),
        kind: AggKind::Sum,
        parts,
        least: ExtInt::Num(-1),
    })
}

/// Adds that no two of the literals are true, by the pairs of the first one and one constraint.
fn push_many(alloc: Global, lits: &[Lit], problem: &mut Problem) -> Result<(), Memory>
    requires { AreLitsOf problem.old.vars lits.now }
    ensures { OnOk result (problem.new ≡ saying problem.old (first_pairs lits.now) (first_sum lits.now)) }
{
    let Some((first, others)) = lits.split_first() else {
        return Ok(());
    };
    push_pairs_with(alloc, *first, others, problem)?;
    push_at_most_one(alloc, *first, others, problem)
}

/// Adds that no two of the literals are true.
fn push_no_two(alloc: Global, atoms: u64, lits: &[Lit], problem: &mut Problem) -> Result<(), Memory>
    requires { AreLitsOf problem.old.vars lits.now }
    ensures { OnOk result (problem.new ≡ saying problem.old
        (if are_many atoms lits.now then first_pairs lits.now else pair_clauses lits.now)
        (one_of_sums atoms lits.now)) }
{
    if are_many(atoms, lits) {
        push_many(alloc, lits, problem)
    } else {
        push_pairs(alloc, lits, problem)
    }
}

/// Adds that exactly one of the variables from `first` on is true, one for each value. What is known to be false is
/// left out, so that known values take no pairs.
pub fn push_one_of(
    alloc: Global,
    base: &GroundData<'_>,
    first: u64,
    values: &[Elem],
    problem: &mut Problem,
) -> Result<(), Memory>
    requires few { first + length values.now ≤ 2 ^ 63 }
    requires within { AreLitsOf problem.old.vars (open_variables base.now first values.now) }
    ensures { OnOk result (problem.new ≡ saying problem.old
        (one_of_clauses (length base.now.known) (open_variables base.now first values.now))
        (one_of_sums (length base.now.known) (open_variables base.now first values.now))) }
{
    let lits = variables(alloc, base, first, values)?;
    problem.add_clause_of(lits.as_slice())?;
    push_no_two(alloc, base.atoms(), lits.as_slice(), problem)
}
