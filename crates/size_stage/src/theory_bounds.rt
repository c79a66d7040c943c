//! The static bounds of each term of a theory, and which of them are too wide.
ghost use Rattle.std.specs.Prelude.{◌≡◌, ◌++◌, map, flat_map, IfOk, OnOk};
ghost use Rattle.kb_logic.specs.Views.{definition_view, formula_view, rule_view, theory_view};
ghost use Rattle.size_stage.specs.Notes.{rules_in, rules_of, sentences_in, theory_bounds};
ghost use Rattle.size_stage.specs.Ranges.{range_view, ranges_in, wide_at};
ghost use Rattle.stage_definitions.specs.Sizes.{item_bounds, term_bounds};
ghost use Rattle.stage_definitions.specs.TheoryItems.{head_terms, items_of, rule};

use crate::bounds::{formula, term, terms};
use crate::scopes::enter;
use crate::setting::Setting;
use kb_logic::{Definition, Formula, Memory, Rule, Theory};
use std::alloc::Global;

/// Notes the terms of some sentences.
fn sentences(
    alloc: Global,
    setting: Setting<'_>,
    wide: &mut Vec<bool>,
    all: &[Formula],
) -> Result<(), Memory>
    requires known { map range_view setting.ranges.now ≡ ranges_in setting.domains.now }
    ensures { OnOk result (wide.new.items ≡ wide.old.items ++ wide_at
        (flat_map (item_bounds setting.entry.vocab.now setting.entry.domains.now)
        (sentences_in (map formula_view all.now)))) }
{
    let mut scope = Vec::new(alloc);
    for one in all {
        formula(setting, &mut scope, wide, one)?;
    }
    Ok(())
}

/// Notes the terms of a rule's head: its arguments, and then its value.
fn head(
    setting: Setting<'_>,
    scope: &mut Vec<u32>,
    wide: &mut Vec<bool>,
    of: &Rule,
) -> Result<(), Memory>
    requires known { map range_view setting.ranges.now ≡ ranges_in setting.domains.now }
    ensures scope { OnOk result (scope.new.items ≡ scope.old.items) }
    ensures wide { OnOk result (wide.new.items ≡ wide.old.items ++ wide_at
        (flat_map (λ t. term_bounds setting.entry.vocab.now setting.entry.domains.now t scope.old.items)
        (head_terms (rule_view of.now)))) }
{
    terms(setting, scope, wide, of.args.as_slice())?;
    match &of.value {
        Some(value) => {
            term(setting, scope, wide, value)?;
            Ok(())
        }
        None => Ok(()),
    }
}

/// Notes the terms of a rule, in the scope of its variables.
fn in_rule(
    alloc: Global,
    setting: Setting<'_>,
    wide: &mut Vec<bool>,
    of: &Rule,
) -> Result<(), Memory>
    requires known { map range_view setting.ranges.now ≡ ranges_in setting.domains.now }
    ensures { OnOk result (wide.new.items ≡ wide.old.items ++ wide_at
        (item_bounds setting.entry.vocab.now setting.entry.domains.now (rule (rule_view of.now)))) }
{
    let mut scope = Vec::new(alloc);
    enter(&mut scope, of.vars.as_slice())?;
    head(setting, &mut scope, wide, of)?;
    formula(setting, &mut scope, wide, &of.body)
}

/// Notes the terms of some rules.
fn rules(
    alloc: Global,
    setting: Setting<'_>,
    wide: &mut Vec<bool>,
    all: &[Rule],
) -> Result<(), Memory>
    requires known { map range_view setting.ranges.now ≡ ranges_in setting.domains.now }
    ensures { OnOk result (wide.new.items ≡ wide.old.items ++ wide_at
        (flat_map (item_bounds setting.entry.vocab.now setting.entry.domains.now) (rules_in (map rule_view all.now)))) }
{
    for one in all {
        in_rule(alloc, setting, wide, one)?;
    }
    Ok(())
}

/// Notes the terms of some definitions.
fn definitions(
    alloc: Global,
    setting: Setting<'_>,
    wide: &mut Vec<bool>,
    all: &[Definition],
) -> Result<(), Memory>
    requires known { map range_view setting.ranges.now ≡ ranges_in setting.domains.now }
    ensures { OnOk result (wide.new.items ≡ wide.old.items ++ wide_at
        (flat_map (item_bounds setting.entry.vocab.now setting.entry.domains.now)
        (flat_map rules_of (map definition_view all.now)))) }
{
    for one in all {
        rules(alloc, setting, wide, one.rules.as_slice())?;
    }
    Ok(())
}

/// Which terms of a theory have bounds that are too wide: those of its sentences, and then those of its rules.
pub fn wide_in_theory(
    alloc: Global,
    setting: Setting<'_>,
    theory: &Theory,
) -> Result<Vec<bool>, Memory>
    requires known { map range_view setting.ranges.now ≡ ranges_in setting.domains.now }
    ensures { IfOk result (λ w. w.items ≡ wide_at (theory_bounds setting.entry.vocab.now setting.entry.domains.now
        (theory_view theory.now))) }
{
    let mut wide = Vec::new(alloc);
    let all = theory.sentences.as_slice();
    sentences(alloc, setting, &mut wide, all)?;
    let all = theory.definitions.as_slice();
    definitions(alloc, setting, &mut wide, all)?;
    Ok(wide)
}
