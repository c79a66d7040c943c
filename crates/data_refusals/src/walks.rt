//! A walk through formulas and terms: one item a term, a term before its parts.
ghost use Rattle.std.specs.Prelude.{◌≡◌, ◌++◌, map, slice_get, None, OnOk};
ghost use Rattle.kb_logic.specs.Trees.{formulas_of, summands_of, terms_of};
ghost use Rattle.kb_logic.specs.Views.{formula_view, signed_view, term_view};
ghost use Rattle.stage_definitions.specs.IntegerArguments as said;
ghost use Rattle.data_refusals.specs.PlacedViews.{placed_views};

use crate::placed::{Placed, placed_at};
use kb_logic::{Formula, Memory, Signed, Symbol, Term};
use stage_definitions::argument_types;

/// The type of the position with this number.
fn position(types: &[u32], i: usize) -> Option<u32>
    ensures { result ≡ slice_get types.now i }
{
    match types.get(i) {
        Some(ty) => Some(*ty),
        None => None,
    }
}

/// A term, at a position of this type where it is an argument of a function, and then its parts.
#[cycle(walk)]
pub fn term(
    symbols: &[Symbol],
    position: Option<u32>,
    of: &Term,
    found: &mut Vec<Option<Placed>>,
) -> Result<(), Memory>
    ensures { OnOk result (placed_views found.new.items ≡ placed_views found.old.items ++ said.term_integers symbols.now
        position (term_view of.now)) }
{
    found.push(placed_at(position, of))?;
    match of {
        Term::Var(_) => Ok(()),
        Term::Int(_) => Ok(()),
        Term::Made(_, _) => Ok(()),
        Term::Apply(symbol, args) => terms(symbols, argument_types(symbols, *symbol), args, found),
        Term::Sum(parts) => summands(symbols, parts, found),
        Term::Product(factors) => terms(symbols, &[], factors, found),
        Term::Agg(_, _, condition, weight) => {
            formula(symbols, condition, found)?;
            term(symbols, None, weight, found)
        }
    }
}

/// Terms at positions of these types; past them, at no position.
#[cycle(walk)]
pub fn terms(
    symbols: &[Symbol],
    types: &[u32],
    all: &[Term],
    found: &mut Vec<Option<Placed>>,
) -> Result<(), Memory>
    ensures { OnOk result (placed_views found.new.items ≡ placed_views found.old.items ++ said.argument_integers
        symbols.now types.now (terms_of (map term_view all.now))) }
{
    for i in 0..all.len() {
        term(symbols, position(types, i), &all[i], found)?;
    }
    Ok(())
}

#[cycle(walk)]
fn summands(
    symbols: &[Symbol],
    parts: &[Signed],
    found: &mut Vec<Option<Placed>>,
) -> Result<(), Memory>
    ensures { OnOk result (placed_views found.new.items ≡ placed_views found.old.items ++ said.summand_integers
        symbols.now (summands_of (map signed_view parts.now))) }
{
    for part in parts {
        term(symbols, None, &part.term, found)?;
    }
    Ok(())
}

/// The terms of a formula.
#[cycle(walk)]
pub fn formula(
    symbols: &[Symbol],
    of: &Formula,
    found: &mut Vec<Option<Placed>>,
) -> Result<(), Memory>
    ensures { OnOk result (placed_views found.new.items ≡ placed_views found.old.items ++ said.formula_integers
        symbols.now (formula_view of.now)) }
{
    match of {
        Formula::True => Ok(()),
        Formula::False => Ok(()),
        Formula::Atom(_, args) => terms(symbols, &[], args, found),
        Formula::Compare(_, left, right) => {
            term(symbols, None, left, found)?;
            term(symbols, None, right, found)
        }
        Formula::Not(inner) => formula(symbols, inner, found),
        Formula::And(parts) => formulas(symbols, parts, found),
        Formula::Or(parts) => formulas(symbols, parts, found),
        Formula::Implies(left, right) => {
            formula(symbols, left, found)?;
            formula(symbols, right, found)
        }
        Formula::Iff(left, right) => {
            formula(symbols, left, found)?;
            formula(symbols, right, found)
        }
        Formula::All(_, inner) => formula(symbols, inner, found),
        Formula::Any(_, inner) => formula(symbols, inner, found),
        Formula::Number(_, _, _, inner) => formula(symbols, inner, found),
    }
}

#[cycle(walk)]
fn formulas(
    symbols: &[Symbol],
    all: &[Formula],
    found: &mut Vec<Option<Placed>>,
) -> Result<(), Memory>
    ensures { OnOk result (placed_views found.new.items ≡ placed_views found.old.items ++ said.all_integers symbols.now
        (formulas_of (map formula_view all.now))) }
{
    for one in all {
        formula(symbols, one, found)?;
    }
    Ok(())
}
