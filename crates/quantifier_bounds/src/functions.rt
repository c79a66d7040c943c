//! What functions fix: the last value that is left.
ghost use Rattle.std.specs.Prelude.{◌≡◌, ◌≤◌, true, fold, IfOk, Some, length, slice_get, ◌^◌};
ghost use Rattle.std.specs.List.{AllByRecursion};
ghost use Rattle.partial_structures.specs.KnownAtoms.{IsAtomOver, atom_of, value_at};
ghost use Rattle.bound_laws.specs.Closures.{opposes, value_atom, ObeysFunctions};
ghost use Rattle.quantifier_bounds.specs.Steps.{Narrows};
ghost use Rattle.quantifier_bounds.specs.Walks.{HasLone, SymbolHas, ValueDemand, left_with};
ghost use Rattle.quantifier_bounds.specs.declared.left.Left.TheVariants.{None as NoneLeft, One as OneLeft};

use crate::atoms::settle;
use crate::fault::BoundFault;
use crate::left::{Left, are_many, one_more};
use crate::places::atom;
use crate::walk::{Setting, either};
use kb_logic::tuples::all_tuples;
use kb_logic::values::domain_in;
use kb_logic::{Elem, ElemList, Literal, Memory, Symbol};
use partial_structures::{Partial, Truth};
use std::alloc::Global;

pub(crate) fn is_no(truth: Truth) -> bool
    ensures { result ≡ opposes true truth }
{
    match truth {
        Truth::No => true,
        _ => false,
    }
}

/// The literal that gives the function this value.
pub(crate) fn value_literal(
    alloc: Global,
    symbol: u32,
    args: &ElemList,
    value: &Elem,
) -> Result<Literal, Memory>
    ensures { IfOk result (λ l. atom_of l ≡ value_atom symbol args.now value.now) }
{
    let args = args.copy(alloc)?;
    let value = value.copy(alloc)?;
    Ok(atom(symbol, args, Some(value)))
}

/// How many of the values are left at the arguments.
fn values_left(
    alloc: Global,
    known: &Partial,
    symbol: u32,
    args: &ElemList,
    values: &[Elem],
) -> Result<Left, Memory>
    requires { AllByRecursion (λ x. IsAtomOver known.now.symbols known.now.domains (value_atom symbol args.now x))
        values.now }
    ensures { IfOk result (λ l. l ≡ fold (λ u x. left_with u (opposes true (value_at known.now
        (value_atom symbol args.now x)))) NoneLeft values.now) }
{
    let mut left = Left::None;
    for at in 0..values.len() {
        if are_many(left) {
            return Ok(left);
        }
        let atom = value_literal(alloc, symbol, args, &values[at])?;
        left = one_more(left, is_no(known.value(&atom)));
    }
    Ok(left)
}

/// The one value that is left must be the function's.
fn lone_value(
    alloc: Global,
    known: &mut Partial,
    symbol: u32,
    args: &ElemList,
    values: &[Elem],
) -> Result<bool, BoundFault>
    requires over { AllByRecursion (λ x. IsAtomOver known.old.symbols known.old.domains
        (value_atom symbol args.now x)) values.now }
    requires one { fold (λ u x. left_with u (opposes true (value_at known.old (value_atom symbol args.now x))))
        NoneLeft values.now ≡ OneLeft }
    ensures { Narrows known.old known.new result
        (λ q. AllByRecursion (ValueDemand known.old symbol args.now q) values.now) }
{
    for at in 0..values.len() {
        let atom = value_literal(alloc, symbol, args, &values[at])?;
        if is_no(known.value(&atom)) {
            continue;
        }
        return settle(known, &atom, true);
    }
    Ok(false)
}

/// The function must have a value at the arguments.
fn function_must(
    alloc: Global,
    known: &mut Partial,
    symbol: u32,
    args: &ElemList,
    values: &[Elem],
) -> Result<bool, BoundFault>
    requires { AllByRecursion (λ x. IsAtomOver known.old.symbols known.old.domains (value_atom symbol args.now x))
        values.now }
    ensures { Narrows known.old known.new result (λ q. HasLone q symbol args.now values.now) }
{
    match values_left(alloc, &*known, symbol, args, values)? {
        Left::None => Err(BoundFault::Contradiction),
        Left::One => lone_value(alloc, known, symbol, args, values),
        Left::Many => Ok(false),
    }
}

/// The function must have a value at each of the tuples.
fn tuples_must(
    alloc: Global,
    known: &mut Partial,
    symbol: u32,
    tuples: &[ElemList],
    values: &[Elem],
) -> Result<bool, BoundFault>
    requires { AllByRecursion (λ r. AllByRecursion (λ x. IsAtomOver known.old.symbols known.old.domains
        (value_atom symbol r x)) values.now) tuples.now }
    ensures { Narrows known.old known.new result
        (λ q. AllByRecursion (λ r. HasLone q symbol r values.now) tuples.now) }
{
    let mut changed = false;
    for at in 0..tuples.len() {
        let more = function_must(alloc, known, symbol, &tuples[at], values)?;
        changed = either(changed, more);
    }
    Ok(changed)
}

/// The symbol, where it is a function, must have a value everywhere.
fn symbol_must<'a>(
    known: &mut Partial,
    setting: Setting<'a>,
    symbol: u32,
    declared: &'a Symbol,
) -> Result<bool, BoundFault>
    requires domains { setting.domains.now ≡ known.old.domains }
    requires there { slice_get known.old.symbols symbol ≡ Some declared.now }
    ensures { Narrows known.old known.new result (λ q. SymbolHas q symbol declared.now) }
{
    let Some(ty) = declared.value else {
        return Ok(false);
    };
    let tuples = all_tuples(setting.alloc, setting.domains, declared.args.as_slice())?;
    let values = domain_in(setting.domains, ty);
    tuples_must(setting.alloc, known, symbol, &tuples, values)
}

/// Each function must have a value everywhere.
pub fn functions_must(known: &mut Partial, setting: Setting<'_>) -> Result<bool, BoundFault>
    requires symbols { setting.symbols.now ≡ known.old.symbols }
    requires domains { setting.domains.now ≡ known.old.domains }
    requires few { length known.old.symbols ≤ 2 ^ 32 }
    ensures { Narrows known.old known.new result ObeysFunctions }
{
    let mut changed = false;
    for at in 0..setting.symbols.len() {
        let more = symbol_must(known, setting, at as u32, &setting.symbols[at])?;
        changed = either(changed, more);
    }
    Ok(changed)
}
