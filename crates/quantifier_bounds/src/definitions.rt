//! What definitions fix: atoms of defined symbols.
ghost use Rattle.std.specs.Prelude.{◌≡◌, ◌==◌, ◌≤◌, ◌^◌, map, length, slice_get, Some, Contains};
ghost use Rattle.std.specs.List.{AllByRecursion, list_any};
ghost use Rattle.kb_logic.specs.Structures.{tuples_of};
ghost use Rattle.kb_logic.specs.Trees.{DefinitionTree, RuleTree};
ghost use Rattle.kb_logic.specs.Views.{rule_view, definition_view};
ghost use Rattle.partial_structures.specs.KnownAtoms.{IsAtomOver, atom_of};
ghost use Rattle.bound_laws.specs.Closures.{value_atom, ObeysDefinition};
ghost use Rattle.quantifier_bounds.specs.Fits.{RuleFits};
ghost use Rattle.quantifier_bounds.specs.Rules.{definition_of, Derives, TupleDerives, SymbolDerives};
ghost use Rattle.quantifier_bounds.specs.Steps.{Narrows};

use crate::atoms::settle;
use crate::derivation::{Spot, derived};
use crate::fault::BoundFault;
use crate::functions::value_literal;
use crate::order::nth;
use crate::places::atom;
use crate::walk::{Setting, either};
use kb_logic::tuples::all_tuples;
use kb_logic::values::domain_in;
use kb_logic::{Definition, Elem, ElemList, Literal, Rule, Symbol};
use partial_structures::{Partial, Truth};
use std::alloc::Global;

/// The rules of a definition, which are asked of an atom that mostly stands at the spot.
#[derive(Clone, Copy)]
struct Defining<'a> {
    rules: &'a [Rule],
    spot: Spot<'a>,
}

/// The atom must be what the rules say of it.
fn define(known: &mut Partial, defining: Defining<'_>, atom: &Literal) -> Result<bool, BoundFault>
    requires over { IsAtomOver known.old.symbols known.old.domains (atom_of atom.now) }
    requires fits { AllByRecursion (RuleFits known.old.symbols known.old.domains) (map rule_view defining.rules.now) }
    ensures { Narrows known.old known.new result
        (λ q. Derives q (definition_of defining.entry.rules.now) (atom_of atom.now)) }
{
    match derived(&*known, defining.rules, atom, defining.spot) {
        Truth::Yes => settle(known, atom, true),
        Truth::No => settle(known, atom, false),
        Truth::Unknown => Ok(false),
    }
}

/// So must the atoms that give the function these values at the arguments.
fn define_values(
    alloc: Global,
    known: &mut Partial,
    defining: Defining<'_>,
    symbol: u32,
    args: &ElemList,
    values: &[Elem],
) -> Result<bool, BoundFault>
    requires over { AllByRecursion (λ x. IsAtomOver known.old.symbols known.old.domains
        (value_atom symbol args.now x)) values.now }
    requires fits { AllByRecursion (RuleFits known.old.symbols known.old.domains) (map rule_view defining.rules.now) }
    ensures { Narrows known.old known.new result
        (λ q. AllByRecursion (λ x. Derives q (definition_of defining.entry.rules.now) (value_atom symbol args.now x))
        values.now) }
{
    let mut changed = false;
    for at in 0..values.len() {
        let atom = value_literal(alloc, symbol, args, &values[at])?;
        let spot = Spot {
            value: at,
            ..defining.spot
        };
        let more = define(known, Defining { spot, ..defining }, &atom)?;
        changed = either(changed, more);
    }
    Ok(changed)
}

/// So must each atom of the symbol with these arguments.
fn define_tuple<'a>(
    known: &mut Partial,
    setting: Setting<'a>,
    defining: Defining<'a>,
    symbol: u32,
    declared: &'a Symbol,
    args: &ElemList,
) -> Result<bool, BoundFault>
    requires domains { setting.domains.now ≡ known.old.domains }
    requires there { slice_get known.old.symbols symbol ≡ Some declared.now }
    requires tuple { Contains (tuples_of known.old.domains declared.now.args) args.now }
    requires fits { AllByRecursion (RuleFits known.old.symbols known.old.domains) (map rule_view defining.rules.now) }
    ensures { Narrows known.old known.new result
        (λ q. TupleDerives q (definition_of defining.entry.rules.now) symbol declared.now.value args.now) }
{
    match declared.value {
        None => {
            let args = args.copy(setting.alloc)?;
            let atom = atom(symbol, args, None);
            define(known, defining, &atom)
        }
        Some(ty) => {
            let values = domain_in(setting.domains, ty);
            define_values(setting.alloc, known, defining, symbol, args, values)
        }
    }
}

/// So must each atom of the symbol with one of these tuples as its arguments.
fn define_tuples<'a>(
    known: &mut Partial,
    setting: Setting<'a>,
    rules: &'a [Rule],
    symbol: u32,
    declared: &'a Symbol,
    tuples: &[ElemList],
) -> Result<bool, BoundFault>
    requires domains { setting.domains.now ≡ known.old.domains }
    requires there { slice_get known.old.symbols symbol ≡ Some declared.now }
    requires tuples { AllByRecursion (Contains (tuples_of known.old.domains declared.now.args)) tuples.now }
    requires fits { AllByRecursion (RuleFits known.old.symbols known.old.domains) (map rule_view rules.now) }
    ensures { Narrows known.old known.new result
        (λ q. AllByRecursion (TupleDerives q (definition_of rules.now) symbol declared.now.value) tuples.now) }
{
    let mut changed = false;
    for turn in 0..tuples.len() {
        let at = nth(setting.falling, turn as u64, tuples.len() as u64) as usize;
        let spot = Spot {
            types: declared.args.as_slice(),
            tuple: at,
            value: 0,
        };
        let defining = Defining { rules, spot };
        let more = define_tuple(known, setting, defining, symbol, declared, &tuples[at])?;
        changed = either(changed, more);
    }
    Ok(changed)
}

/// Whether some rule's head has the symbol.
fn is_defined(rules: &[Rule], symbol: u32) -> bool
    ensures { result ≡ list_any (λ (r : RuleTree). r.symbol == symbol) (map rule_view rules.now) }
{
    for at in 0..rules.len() {
        if rules[at].symbol == symbol {
            return true;
        }
    }
    false
}

/// Each atom of the symbol, where it is defined, must be what the rules say of it.
fn define_symbol<'a>(
    known: &mut Partial,
    setting: Setting<'a>,
    rules: &'a [Rule],
    symbol: u32,
    declared: &'a Symbol,
) -> Result<bool, BoundFault>
    requires domains { setting.domains.now ≡ known.old.domains }
    requires there { slice_get known.old.symbols symbol ≡ Some declared.now }
    requires fits { AllByRecursion (RuleFits known.old.symbols known.old.domains) (map rule_view rules.now) }
    ensures { Narrows known.old known.new result
        (λ q. SymbolDerives q (definition_of rules.now) symbol declared.now) }
{
    if !is_defined(rules, symbol) {
        return Ok(false);
    }
    let tuples = all_tuples(setting.alloc, setting.domains, declared.args.as_slice())?;
    define_tuples(known, setting, rules, symbol, declared, &tuples)
}

/// The definition of the rules must be obeyed.
fn define_all<'a>(
    known: &mut Partial,
    setting: Setting<'a>,
    rules: &'a [Rule],
) -> Result<bool, BoundFault>
    requires symbols { setting.symbols.now ≡ known.old.symbols }
    requires domains { setting.domains.now ≡ known.old.domains }
    requires few { length known.old.symbols ≤ 2 ^ 32 }
    requires fits { AllByRecursion (RuleFits known.old.symbols known.old.domains) (map rule_view rules.now) }
    ensures { Narrows known.old known.new result (λ q. ObeysDefinition q (definition_of rules.now)) }
{
    let mut changed = false;
    for at in 0..setting.symbols.len() {
        let more = define_symbol(known, setting, rules, at as u32, &setting.symbols[at])?;
        changed = either(changed, more);
    }
    Ok(changed)
}

/// Each definition must be obeyed.
pub fn definitions_must<'a>(
    known: &mut Partial,
    setting: Setting<'a>,
    definitions: &'a [Definition],
) -> Result<bool, BoundFault>
    requires symbols { setting.symbols.now ≡ known.old.symbols }
    requires domains { setting.domains.now ≡ known.old.domains }
    requires few { length known.old.symbols ≤ 2 ^ 32 }
    requires fits { AllByRecursion (λ (g : DefinitionTree). AllByRecursion (RuleFits known.old.symbols
        known.old.domains) g.rules) (map definition_view definitions.now) }
    ensures { Narrows known.old known.new result
        (λ q. AllByRecursion (ObeysDefinition q) (map definition_view definitions.now)) }
{
    let mut changed = false;
    for at in 0..definitions.len() {
        let more = define_all(known, setting, definitions[at].rules.as_slice())?;
        changed = either(changed, more);
    }
    Ok(changed)
}
