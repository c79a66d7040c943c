//! Definitions with the types of their variables.
ghost use Rattle.std.specs.Prelude.{◌≡◌, ◌++◌, fold, map, OnOk, IfOk};
ghost use Rattle.std.specs.List.{flat_map};
ghost use Rattle.kb_logic.specs.Views as view;
ghost use Rattle.stage_definitions.specs.Below.{HasNoCycle, type_parents};
ghost use Rattle.stage_definitions.specs.NamedViews.{definition_view, rule_view};
ghost use Rattle.stage_definitions.specs.TermPlaces.{rule_begins};
ghost use Rattle.stage_definitions.specs.TypedFiles.{typed_definition};
ghost use Rattle.stage_definitions.specs.TypedTrees.{typed_rule};
ghost use Rattle.stage_definitions.specs.TypesStage.{rule_type_uses, type_noted};

use crate::remaining::Remaining;
use crate::rules;
use kb_logic::{Definition, ListOf, Memory, Rule, Vocabulary};
use stage_definitions::{Earliest, NamedDefinition, NamedRule};
use std::alloc::Global;
use type_constraints::rule_types;

/// A rule with the types of its variables.
fn rule(
    alloc: Global,
    vocab: &Vocabulary,
    named: &NamedRule,
    places: &mut Vec<usize>,
    earliest: &mut Earliest,
) -> Result<Rule, Memory>
    requires acyclic { HasNoCycle (type_parents vocab.now.types) }
    ensures tree { IfOk result (λ r. view.rule_view r ≡ typed_rule vocab.now (rule_view named.now)) }
    ensures places { OnOk result (places.new.items ≡ places.old.items ++ rule_begins (rule_view named.now)) }
    ensures noted { OnOk result (earliest.new.first ≡ fold (type_noted vocab.now.types) earliest.old.first
        (rule_type_uses vocab.now (rule_view named.now))) }
{
    let mut types = Remaining::new(rule_types(alloc, vocab, named, earliest)?);
    rules::rule(alloc, &mut types, named, places)
}

fn definition(
    alloc: Global,
    vocab: &Vocabulary,
    named: &NamedDefinition,
    places: &mut Vec<usize>,
    earliest: &mut Earliest,
) -> Result<Definition, Memory>
    requires acyclic { HasNoCycle (type_parents vocab.now.types) }
    ensures tree { IfOk result (λ d. view.definition_view d ≡ typed_definition vocab.now
        (definition_view named.now)) }
    ensures places { OnOk result (places.new.items ≡ places.old.items ++ flat_map rule_begins
        (definition_view named.now)) }
    ensures noted { OnOk result (earliest.new.first ≡ fold (type_noted vocab.now.types) earliest.old.first
        (flat_map (rule_type_uses vocab.now) (definition_view named.now))) }
{
    let mut rules = Vec::new(alloc);
    let listed = named.rules.as_slice();
    for item in listed {
        rules.push(rule(alloc, vocab, item, places, earliest)?)?;
    }
    Ok(Definition {
        rules: ListOf::from_vec(rules),
    })
}

/// Definitions with the types of their variables.
pub fn definitions(
    alloc: Global,
    vocab: &Vocabulary,
    named: &[NamedDefinition],
    places: &mut Vec<usize>,
    earliest: &mut Earliest,
) -> Result<Vec<Definition>, Memory>
    requires acyclic { HasNoCycle (type_parents vocab.now.types) }
    ensures trees { IfOk result (λ ds. map view.definition_view ds.items ≡ map (typed_definition vocab.now)
        (map definition_view named.now)) }
    ensures places { OnOk result (places.new.items ≡ places.old.items ++ flat_map (flat_map rule_begins)
        (map definition_view named.now)) }
    ensures noted { OnOk result (earliest.new.first ≡ fold (type_noted vocab.now.types) earliest.old.first
        (flat_map (flat_map (rule_type_uses vocab.now)) (map definition_view named.now))) }
{
    let mut definitions = Vec::new(alloc);
    for item in named {
        definitions.push(definition(alloc, vocab, item, places, earliest)?)?;
    }
    Ok(definitions)
}
