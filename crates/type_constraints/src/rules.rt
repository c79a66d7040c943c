//! What a rule demands of the types of its terms, and the types of its variables.
ghost use Rattle.std.specs.Prelude.{◌≡◌, ◌++◌, ◌∷◌, [], fold, map, option_map, slice_get, OnOk, IfOk};
ghost use Rattle.stage_definitions.specs.Below.{HasNoCycle, type_parents};
ghost use Rattle.stage_definitions.specs.Demands as said;
ghost use Rattle.stage_definitions.specs.NamedViews.{rule_view, term_view};
ghost use Rattle.stage_definitions.specs.TypesStage as stage;
ghost use Rattle.stage_definitions.specs.TypesStage.{type_noted};
ghost use Rattle.type_constraints.specs.ChosenTypes.{types_among};
ghost use Rattle.type_constraints.specs.PartViews.{part_view};

use crate::collect::{arguments, bindings, formula, term};
use crate::constraints::Part;
use crate::term_kinds::demand_value;
use crate::variables::types_of;
use kb_logic::{Memory, Symbol, Vocabulary};
use stage_definitions::{Earliest, NamedRule, NamedTerm, argument_types};
use std::alloc::Global;

/// Adds what the value of a head of this function demands, where it has one.
fn value(
    alloc: Global,
    symbols: &[Symbol],
    function: u32,
    value: &Option<NamedTerm>,
    out: &mut Vec<Part>,
) -> Result<(), Memory>
    ensures { OnOk result (map part_view out.new.items ≡ map part_view out.old.items ++ said.value_parts symbols.now
        (said.value_type (slice_get symbols.now function)) (option_map term_view value.now)) }
{
    match value {
        None => Ok(()),
        Some(value) => {
            demand_value(symbols, function, value, out)?;
            term(alloc, symbols, value, out)
        }
    }
}

/// Adds what a rule demands in the scope of its variables: its head, and then its body.
fn head_and_body(
    alloc: Global,
    symbols: &[Symbol],
    rule: &NamedRule,
    out: &mut Vec<Part>,
) -> Result<(), Memory>
    ensures { OnOk result (map part_view out.new.items ≡ map part_view out.old.items ++ said.parts_in_rule symbols.now
        (rule_view rule.now)) }
{
    let types = argument_types(symbols, rule.symbol);
    arguments(alloc, symbols, true, types, rule.args.as_slice(), out)?;
    value(alloc, symbols, rule.symbol, &rule.value, out)?;
    formula(alloc, symbols, &rule.body, out)
}

/// What a rule demands.
fn demands(alloc: Global, symbols: &[Symbol], rule: &NamedRule) -> Result<Vec<Part>, Memory>
    ensures { IfOk result (λ ps. map part_view ps.items ≡ said.rule_parts symbols.now (rule_view rule.now)) }
{
    let bindings = bindings(alloc, rule.vars.as_slice())?;
    let mut inner = Vec::new(alloc);
    head_and_body(alloc, symbols, rule, &mut inner)?;
    let mut parts = Vec::new(alloc);
    parts.push(Part::Scope(bindings, inner))?;
    Ok(parts)
}

/// The types of the variables in a rule of a definition, in the order in which they are bound. Notes what is refused
/// of them.
pub fn rule_types(
    alloc: Global,
    vocab: &Vocabulary,
    named: &NamedRule,
    earliest: &mut Earliest,
) -> Result<Vec<u32>, Memory>
    requires acyclic { HasNoCycle (type_parents vocab.now.types) }
    ensures types { IfOk result (λ ts. ts.items ≡ types_among (stage.rule_settled vocab.now (rule_view named.now))) }
    ensures noted { OnOk result (earliest.new.first ≡ fold (type_noted vocab.now.types) earliest.old.first
        (stage.rule_type_uses vocab.now (rule_view named.now))) }
{
    let listed = demands(alloc, vocab.symbols.as_slice(), named)?;
    types_of(alloc, vocab.types.as_slice(), &listed, earliest)
}
