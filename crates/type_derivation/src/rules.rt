//! Rules with the types of their variables.
ghost use Rattle.std.specs.Prelude.{◌≡◌, ◌++◌, map, option_map, option_to_list, IfOk, OnOk};
ghost use Rattle.std.specs.List.{flat_map};
ghost use Rattle.kb_logic.specs.Views as view;
ghost use Rattle.stage_definitions.specs.NamedTrees.{head_terms};
ghost use Rattle.stage_definitions.specs.NamedViews.{rule_view, term_view};
ghost use Rattle.stage_definitions.specs.TermPlaces.{rule_begins, term_begins};
ghost use Rattle.type_derivation.specs.ListedTrees as listed;
ghost use Rattle.type_derivation.specs.TreeLists.{IsBuilt};

use crate::remaining::Remaining;
use crate::trees::{bound_vars, formula, term, terms};
use kb_logic::{BoundList, ListOf, Memory, Rule, Term};
use stage_definitions::{NamedRule, NamedTerm};
use std::alloc::Global;

/// The value of a head, where it has one.
fn value(
    alloc: Global,
    types: &mut Remaining,
    named: &Option<NamedTerm>,
    places: &mut Vec<usize>,
) -> Result<Option<Term>, Memory>
    ensures { IfOk result (λ v. IsBuilt (option_map view.term_view v) types.new places.new.items
        (listed.listed_value types.old (option_map term_view named.now))
        (listed.left_value types.old (option_map term_view named.now))
        (places.old.items ++ flat_map term_begins (option_to_list (option_map term_view named.now)))) }
{
    match named {
        None => Ok(None),
        Some(value) => Ok(Some(term(alloc, types, value, places)?)),
    }
}

/// The arguments and the value of a rule's head.
fn head(
    alloc: Global,
    types: &mut Remaining,
    named: &NamedRule,
    places: &mut Vec<usize>,
) -> Result<(Vec<Term>, Option<Term>), Memory>
    ensures { IfOk result (λ h. IsBuilt (map view.term_view h.0.items, option_map view.term_view h.1) types.new
        places.new.items (listed.listed_head types.old (rule_view named.now))
        (listed.left_head types.old (rule_view named.now))
        (places.old.items ++ flat_map term_begins (head_terms (rule_view named.now)))) }
{
    let args = terms(alloc, types, named.args.as_slice(), places)?;
    Ok((args, value(alloc, types, &named.value, places)?))
}

/// A rule whose variables take their types from the start of the list. The places of its terms are added.
pub fn rule(
    alloc: Global,
    types: &mut Remaining,
    named: &NamedRule,
    places: &mut Vec<usize>,
) -> Result<Rule, Memory>
    ensures tree { IfOk result (λ r. view.rule_view r ≡ listed.listed_rule types.old (rule_view named.now)) }
    ensures places { OnOk result (places.new.items ≡ places.old.items ++ rule_begins (rule_view named.now)) }
{
    let vars = bound_vars(alloc, types, named.vars.as_slice())?;
    let (args, value) = head(alloc, types, named, places)?;
    Ok(Rule {
        vars: BoundList::from_vec(vars),
        symbol: named.symbol,
        args: ListOf::from_vec(args),
        value,
        has_body: named.has_body,
        body: formula(alloc, types, &named.body, places)?,
    })
}
