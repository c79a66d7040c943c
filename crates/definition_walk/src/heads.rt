//! The variables of heads.
ghost use Rattle.std.specs.Prelude.{◌≡◌, map, IfOk, IfSome};
ghost use Rattle.kb_logic.specs.Values.{value_view};
ghost use Rattle.kb_logic.specs.Views.{rule_view};
ghost use Rattle.plain_evaluation.specs.Environments.{env_view};
ghost use Rattle.term_values.specs.DomainIndexes.{elem_index};
ghost use Rattle.term_values.specs.GroundBases.{row_index, tuples_at, values_at};
ghost use Rattle.term_values.specs.RowValues.{row_value};
ghost use Rattle.def_ground.specs.Definitions.{head_var as head_variable, valued_var};
ghost use Rattle.ground_walk.specs.Groundable.{KnowsAtoms};
ghost use Rattle.definition_walk.specs.Steps.{IsPlainHead, IsVarOf};

use ground_core::Memory;
use kb_logic::Rule;
use kb_logic::values::Value;
use plain_evaluation::environments::Env;
use std::alloc::Global;
use term_values::{GroundData, RowValue};

/// The variable of a function's atom with these arguments and this value; None where they are outside their types.
fn value_variable(
    base: &GroundData<'_>,
    symbol: u32,
    args: &[RowValue<'_>],
    value: Value<'_>,
) -> Option<u64>
    requires { KnowsAtoms base.now }
    ensures { result ≡ valued_var base.now symbol (row_index (tuples_at base.now symbol) (map row_value args.now))
        (elem_index (values_at base.now symbol) (value_view value.entry)) }
{
    let values = base.values(symbol);
    // Brings the bound of the number of atoms into scope.
    let _atoms = base.atoms();
    let Some(index) = base.place_of_value(symbol, value) else {
        return None;
    };
    match base.place_of(symbol, args) {
        None => None,
        Some(place) => Some(base.first_var(symbol) + place * values.len() as u64 + index as u64),
    }
}

/// The variable of the rule's head under the assignment; None where the head is no atom.
pub(crate) fn head_var<'a>(
    alloc: Global,
    base: &'a GroundData<'a>,
    rule: &'a Rule,
    env: &'a Env<'a>,
) -> Result<Option<u64>, Memory>
    requires known { KnowsAtoms base.now }
    requires head { IsPlainHead base.now (rule_view rule.now) }
    ensures var { IfOk result (λ o. o ≡ head_variable base.now (rule_view rule.now) (env_view env.now)) }
    ensures own { IfOk result (λ o. IfSome o (λ n. IsVarOf base.now (rule_view rule.now).symbol n)) }
{
    let args = base.tuple_rows(alloc, rule.args.as_slice(), env)?;
    match &rule.value {
        None => Ok(base.variable_at(rule.symbol, args.values(0))),
        Some(term) => {
            let value = base.rows(alloc, term, env)?;
            Ok(value_variable(base, rule.symbol, args.values(0), value.value(0)))
        }
    }
}
