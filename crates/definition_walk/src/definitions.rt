//! Definitions as ground clauses.
ghost use Rattle.std.specs.Prelude.{◌≡◌, ◌≤◌, ◌^◌, length, map, OnOk};
ghost use Rattle.std.specs.List.{AllByRecursion};
ghost use Rattle.kb_logic.specs.Views.{definition_view};
ghost use Rattle.term_values.specs.KnownBases.{IsGroundBase};
ghost use Rattle.def_ground.specs.Definitions.{define_of, define_all};
ghost use Rattle.ground_walk.specs.Groundable.{HasVars, KnowsAtoms};
ghost use Rattle.definition_walk.specs.Steps.{CanBeGround};

use crate::bodies::{Bodies, empty_lists};
use crate::instances::push_rules;
use crate::symbols::{complete_marked, marks_of, span_of};
use ground_core::{Memory, Problem};
use kb_logic::Definition;
use std::alloc::Global;
use term_values::GroundData;

/// Adds the clauses of the definition. It takes time linear in the symbols, the rules, the instances of the rules with
/// their bodies, and the atoms from the first to the last of a defined symbol.
pub fn push_definition(
    alloc: Global,
    base: &GroundData<'_>,
    definition: &Definition,
    problem: &mut Problem,
) -> Result<(), Memory>
    requires given { IsGroundBase base.now }
    requires few { length base.now.vocabulary.symbols ≤ 2 ^ 32 }
    requires known { KnowsAtoms base.now }
    requires room { HasVars base.now problem.old }
    requires rules { AllByRecursion (CanBeGround base.now) (definition_view definition.now).rules }
    ensures made { OnOk result (problem.new ≡ define_of base.now (definition_view definition.now) problem.old) }
    ensures grows { OnOk result (problem.old.vars ≤ problem.new.vars) }
{
    let rules = definition.rules.as_slice();
    let marks = marks_of(alloc, rules, base.vocabulary().symbols.len())?;
    let span = span_of(base, marks.as_slice());
    let mut bodies = Bodies {
        first: span.first,
        lists: empty_lists(alloc, span.past.saturating_sub(span.first) as usize)?,
    };
    push_rules(alloc, base, rules, &mut bodies, problem)?;
    complete_marked(alloc, base, marks.as_slice(), &bodies, problem)
}

/// Adds the clauses of the definitions, one after another.
pub fn push_definitions(
    alloc: Global,
    base: &GroundData<'_>,
    definitions: &[Definition],
    problem: &mut Problem,
) -> Result<(), Memory>
    requires given { IsGroundBase base.now }
    requires few { length base.now.vocabulary.symbols ≤ 2 ^ 32 }
    requires known { KnowsAtoms base.now }
    requires room { HasVars base.now problem.old }
    requires rules { AllByRecursion (λ d. AllByRecursion (CanBeGround base.now) d.rules)
        (map definition_view definitions.now) }
    ensures made { OnOk result (problem.new
        ≡ define_all base.now (map definition_view definitions.now) problem.old) }
    ensures grows { OnOk result (problem.old.vars ≤ problem.new.vars) }
{
    for definition in definitions {
        push_definition(alloc, base, definition, problem)?;
    }
    Ok(())
}
