//! The ground atoms, in their order.
ghost use Rattle.std.specs.Prelude.{◌≡◌, ◌≤◌, ◌^◌, true, [], ◌∷◌, ◌++◌, Some, length, map, IfOk, OnOk, IfSome, IsSome};
ghost use Rattle.kb_logic.specs.Structures.{domain_at};
ghost use Rattle.ground_core.specs.Atoms.{atom_of, atoms_at, atoms_of_symbol, ground_atoms};

use kb_logic::tuples::all_tuples;
use kb_logic::values::domain_in;
use kb_logic::{Elem, ElemList, Literal, LiteralList, Symbol};
use std::alloc::{AllocError as Memory, Global};

fn atom(number: u32, args: ElemList, value: Option<Elem>) -> Literal
    ensures { result ≡ atom_of number args value }
{
    Literal {
        positive: true,
        symbol: number,
        args,
        value,
    }
}

/// Pushes the atom with each of these values. The last one takes the arguments themselves.
fn push_values(
    alloc: Global,
    number: u32,
    args: ElemList,
    values: &[Elem],
    atoms: &mut Vec<Literal>,
) -> Result<(), Memory>
    ensures { OnOk result (atoms.new.items ≡ atoms.old.items ++ map (λ x. atom_of number args (Some x)) values.now) }
{
    let Some((last, others)) = values.split_last() else {
        return Ok(());
    };
    for value in others {
        let copy = args.copy(alloc)?;
        atoms.push(atom(number, copy, Some(value.copy(alloc)?)))?;
    }
    atoms.push(atom(number, args, Some(last.copy(alloc)?)))?;
    Ok(())
}

/// Pushes the atoms with these arguments.
fn push_at(
    alloc: Global,
    domains: &[ElemList],
    number: u32,
    value: Option<u32>,
    args: ElemList,
    atoms: &mut Vec<Literal>,
) -> Result<(), Memory>
    ensures { OnOk result (atoms.new.items ≡ atoms.old.items ++ atoms_at domains.now number value args) }
{
    match value {
        Some(ty) => push_values(alloc, number, args, domain_in(domains, ty), atoms),
        None => {
            atoms.push(atom(number, args, None))?;
            Ok(())
        }
    }
}

/// Whether the symbol has no atom whatever its arguments are, since it has no value.
fn has_no_value(domains: &[ElemList], value: Option<u32>) -> bool
    ensures { result ≡ true → IfSome value (λ ty. domain_at domains.now ty ≡ []) × IsSome value }
{
    match value {
        Some(ty) => domain_in(domains, ty).is_empty(),
        None => false,
    }
}

/// Pushes the atoms of a symbol.
fn push_symbol(
    alloc: Global,
    domains: &[ElemList],
    number: u32,
    symbol: &Symbol,
    atoms: &mut Vec<Literal>,
) -> Result<(), Memory>
    ensures { OnOk result (atoms.new.items ≡ atoms.old.items ++ atoms_of_symbol domains.now number symbol.now) }
{
    if has_no_value(domains, symbol.value) {
        return Ok(());
    }
    for args in all_tuples(alloc, domains, symbol.args.as_slice())? {
        push_at(alloc, domains, number, symbol.value, args, atoms)?;
    }
    Ok(())
}

/// All ground atoms over these symbols and domains. What it takes is linear in what it answers.
pub(crate) fn all_atoms(
    alloc: Global,
    symbols: &[Symbol],
    domains: &[ElemList],
) -> Result<LiteralList, Memory>
    requires few { length symbols.now ≤ 2 ^ 32 }
    ensures { IfOk result (λ atoms. atoms ≡ ground_atoms symbols.now domains.now) }
{
    let mut atoms = Vec::new(alloc);
    for number in 0..symbols.len() {
        push_symbol(alloc, domains, number as u32, &symbols[number], &mut atoms)?;
    }
    Ok(LiteralList::from_vec(atoms))
}
