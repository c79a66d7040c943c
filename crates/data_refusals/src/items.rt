//! The items of a theory, one after another.
ghost use Rattle.std.specs.Prelude.{◌≡◌, ◌++◌, map, option_map, option_to_list, None, OnOk, IfOk};
ghost use Rattle.std.specs.List.{flat_map};
ghost use Rattle.kb_logic.specs.Views.{definition_view, formula_view, rule_view, term_view, theory_view};
ghost use Rattle.stage_definitions.specs.IntegerArguments as said;
ghost use Rattle.stage_definitions.specs.TheoryItems.{items_of};
ghost use Rattle.stage_definitions.specs.TheoryItems as item;
ghost use Rattle.data_refusals.specs.PlacedViews.{placed_views};

use crate::placed::Placed;
use crate::walks::{formula, term, terms};
use kb_logic::{Definition, Formula, Memory, Rule, Symbol, Term, Theory};
use stage_definitions::argument_types;
use std::alloc::Global;

/// The value of a head, where it has one. It stands at no position.
fn value(
    symbols: &[Symbol],
    of: &Option<Term>,
    found: &mut Vec<Option<Placed>>,
) -> Result<(), Memory>
    ensures { OnOk result (placed_views found.new.items ≡ placed_views found.old.items ++ flat_map
        (said.term_integers symbols.now None) (option_to_list (option_map term_view of.now))) }
{
    match of {
        None => Ok(()),
        Some(value) => term(symbols, None, value, found),
    }
}

/// A rule: the arguments of its head at the positions of its symbol, its head's value, and its body.
fn rule(symbols: &[Symbol], of: &Rule, found: &mut Vec<Option<Placed>>) -> Result<(), Memory>
    ensures { OnOk result (placed_views found.new.items ≡ placed_views found.old.items ++ said.item_integers
        symbols.now (item.rule (rule_view of.now))) }
{
    let types = argument_types(symbols, of.symbol);
    terms(symbols, types, of.args.as_slice(), found)?;
    value(symbols, &of.value, found)?;
    formula(symbols, &of.body, found)
}

fn definition(
    symbols: &[Symbol],
    of: &Definition,
    found: &mut Vec<Option<Placed>>,
) -> Result<(), Memory>
    ensures { OnOk result (placed_views found.new.items ≡ placed_views found.old.items ++ flat_map
        (said.item_integers symbols.now) (map (λ r. item.rule r) (map rule_view of.now.rules))) }
{
    let rules = of.rules.as_slice();
    for one in rules {
        rule(symbols, one, found)?;
    }
    Ok(())
}

fn definitions(
    symbols: &[Symbol],
    all: &[Definition],
    found: &mut Vec<Option<Placed>>,
) -> Result<(), Memory>
    ensures { OnOk result (placed_views found.new.items ≡ placed_views found.old.items ++ flat_map
        (said.item_integers symbols.now) (flat_map (λ d. map (λ r. item.rule r) d.rules)
        (map definition_view all.now))) }
{
    for one in all {
        definition(symbols, one, found)?;
    }
    Ok(())
}

fn sentences(
    symbols: &[Symbol],
    all: &[Formula],
    found: &mut Vec<Option<Placed>>,
) -> Result<(), Memory>
    ensures { OnOk result (placed_views found.new.items ≡ placed_views found.old.items ++ flat_map
        (said.item_integers symbols.now) (map (λ f. item.sentence f) (map formula_view all.now))) }
{
    for one in all {
        formula(symbols, one, found)?;
    }
    Ok(())
}

/// One item for each term of a theory: of its sentences, and then of the rules of its definitions.
pub fn in_theory(
    alloc: Global,
    symbols: &[Symbol],
    theory: &Theory,
) -> Result<Vec<Option<Placed>>, Memory>
    ensures { IfOk result (λ found. placed_views found.items ≡ flat_map (said.item_integers symbols.now)
        (items_of (theory_view theory.now))) }
{
    let mut found = Vec::new(alloc);
    sentences(symbols, theory.sentences.as_slice(), &mut found)?;
    definitions(symbols, theory.definitions.as_slice(), &mut found)?;
    Ok(found)
}
