//! Rules made of a head, its value and a body.
ghost use Rattle.std.specs.Prelude.{◌≡◌, ◌++◌, ◌∷◌, [], IfOk, OnOk, Some, None, false, is_some, length, true};
ghost use Rattle.std.specs.Option.{option_map};
ghost use Rattle.grammar.specs.View as seen;
ghost use Rattle.stage_definitions.specs.NamedTrees as tree;
ghost use Rattle.stage_definitions.specs.NamedViews.{formula_view, rule_view, term_view};
ghost use Rattle.stage_definitions.specs.Numbering as number;
ghost use Rattle.stage_definitions.specs.Uses as use_of;
ghost use Rattle.stage_definitions.specs.Uses.{body_uses, place_of_term, unnamed, value_scope};
ghost use Rattle.formula_names.specs.Steps.{IsStep, context_of, names_known};
ghost use Rattle.kb_logic.specs.declared.syntax.Cmp.TheVariants as cmp;
ghost use Rattle.rule_names.specs.Bodies.{body_in, joined, under, uses_behind, valued};
ghost use Rattle.rule_names.specs.Heads.{closed, head_view, var_for, with_var};

use crate::heads::RuleHead;
use crate::simple::{is_simple, term_place};
use formula_names::resolver::Resolver;
use grammar::{RawBody, RawName, RawTermTree};
use kb_logic::{Cmp, Memory, Name};
use sqlite_items::Items;
use stage_definitions::{NamedFormula, NamedNode, NamedRule, NamedTerm, NamedVar, Standing};
use std::alloc::Global;

fn is_written(body: &Option<RawBody>) -> bool
    ensures { result ≡ is_some (body_in body.now) }
{
    match body {
        Some(body) => body.formula.is_some(),
        None => false,
    }
}

/// A body, which is true where none is written.
fn body<'r, 'a>(
    walk: &mut Resolver<'r, 'a>,
    raw: &'a Option<RawBody>,
) -> Result<NamedFormula, Memory>
    ensures { IfOk result (λ f. IsStep walk.old walk.new (formula_view f) (number.named_body (names_known walk.old)
        walk.old.scope (body_in raw.now)) walk.old.scope (body_uses (context_of walk.old) (body_in raw.now))) }
{
    if let Some(body) = raw {
        if let Some(formula) = &body.formula {
            return walk.formula(formula);
        }
    }
    Ok(NamedFormula::Truth(true))
}

fn both(alloc: Global, first: NamedFormula, second: NamedFormula) -> Result<NamedFormula, Memory>
    ensures { IfOk result (λ f. formula_view f ≡ tree.conjunction (tree.more_formulas (formula_view first)
        (tree.more_formulas (formula_view second) tree.no_formulas))) }
{
    let mut operands = Vec::new(alloc);
    operands.push(first)?;
    operands.push(second)?;
    Ok(NamedFormula::And(operands))
}

/// A formula, and the body as one part beside it, if one is written.
fn with_body<'r, 'a>(
    walk: &mut Resolver<'r, 'a>,
    first: NamedFormula,
    raw: &'a Option<RawBody>,
) -> Result<NamedFormula, Memory>
    ensures { IfOk result (λ f. IsStep walk.old walk.new (formula_view f) (joined (names_known walk.old)
        walk.old.scope (formula_view first) (body_in raw.now)) walk.old.scope
        (body_uses (context_of walk.old) (body_in raw.now))) }
{
    if let Some(body) = raw {
        if let Some(formula) = &body.formula {
            let second = walk.formula(formula)?;
            return both(walk.alloc, first, second);
        }
    }
    Ok(first)
}

/// `v = t` at the place of `t`, for the variable `v` with this number.
fn equation(place: usize, number: u32, term: NamedTerm) -> NamedFormula
    ensures { formula_view result ≡ tree.comparison cmp.Eq (tree.at place (tree.variable number)) (term_view term) }
{
    let variable = NamedTerm {
        place,
        node: NamedNode::Var(number),
    };
    NamedFormula::Compare(Cmp::Eq, variable, term)
}

/// `v = t` and the body.
fn equated_body<'r, 'a>(
    walk: &mut Resolver<'r, 'a>,
    level: u32,
    value: &'a RawTermTree,
    raw: &'a Option<RawBody>,
) -> Result<NamedFormula, Memory>
    ensures { IfOk result (λ f. IsStep walk.old walk.new (formula_view f) (number.valued_body (names_known walk.old)
        walk.old.scope level (seen.term_view value.now) (body_in raw.now)) walk.old.scope
        (uses_behind (context_of walk.old) (seen.term_view value.now) (body_in raw.now))) }
{
    let term = walk.term(Standing::Side, value)?;
    let first = equation(term_place(value), level, term);
    with_body(walk, first, raw)
}

fn close(head: RuleHead, value: Option<NamedTerm>, has_body: bool, body: NamedFormula) -> NamedRule
    ensures { rule_view result ≡ closed (head_view head) (option_map term_view value) has_body (formula_view body) }
{
    NamedRule {
        vars: Items::from_vec(head.vars),
        symbol: head.symbol,
        args: Items::from_vec(head.args),
        value,
        has_body,
        body,
    }
}

/// A rule whose head has no value.
pub fn plain_rule<'r, 'a>(
    walk: &mut Resolver<'r, 'a>,
    head: RuleHead,
    raw: &'a Option<RawBody>,
) -> Result<NamedRule, Memory>
    ensures { IfOk result (λ r. IsStep walk.old walk.new (rule_view r) (closed (head_view head) None
        (is_some (body_in raw.now)) (number.named_body (names_known walk.old) walk.old.scope (body_in raw.now)))
        walk.old.scope (body_uses (context_of walk.old) (body_in raw.now))) }
{
    let has_body = is_written(raw);
    let formula = body(walk, raw)?;
    Ok(close(head, None, has_body, formula))
}

/// A rule whose head has a value that may stand there.
fn given_rule<'r, 'a>(
    walk: &mut Resolver<'r, 'a>,
    head: RuleHead,
    value: &'a RawTermTree,
    raw: &'a Option<RawBody>,
) -> Result<NamedRule, Memory>
    ensures { IfOk result (λ r. IsStep walk.old walk.new (rule_view r) (closed (head_view head)
        (Some (number.named_term (names_known walk.old) walk.old.scope (seen.term_view value.now)))
        (is_some (body_in raw.now)) (number.named_body (names_known walk.old) walk.old.scope (body_in raw.now)))
        walk.old.scope (uses_behind (context_of walk.old) (seen.term_view value.now) (body_in raw.now))) }
{
    let has_body = is_written(raw);
    let value = walk.term(Standing::Side, value)?;
    let formula = body(walk, raw)?;
    Ok(close(head, Some(value), has_body, formula))
}

/// Adds a variable without a name to the scope, and returns its number.
fn add_value<'r, 'a>(
    walk: &mut Resolver<'r, 'a>,
    head: &mut RuleHead,
    word: &'a RawName,
    value: &'a RawTermTree,
) -> Result<u32, Memory>
    ensures step { IfOk result (λ n. IsStep walk.old walk.new n (length walk.old.scope)
        (value_scope walk.old.scope false) []) }
    ensures head { OnOk result (head_view head.new ≡ with_var (head_view head.old)
        (var_for (seen.name_view word.now) (seen.term_view value.now))) }
{
    let name = Name::new(walk.alloc, word.text.as_slice())?;
    let var = NamedVar {
        name,
        place: term_place(value),
        ty: None,
    };
    head.vars.push(var)?;
    walk.scope.enter(b"")
}

/// A rule whose head has a value for which a variable stands.
fn new_rule<'r, 'a>(
    walk: &mut Resolver<'r, 'a>,
    head: RuleHead,
    word: &'a RawName,
    value: &'a RawTermTree,
    raw: &'a Option<RawBody>,
) -> Result<NamedRule, Memory>
    ensures { IfOk result (λ r. IsStep walk.old walk.new (rule_view r) (valued (names_known walk.old) walk.old.scope
        (head_view head) (seen.name_view word.now) (seen.term_view value.now) (body_in raw.now) false)
        (value_scope walk.old.scope false)
        (uses_behind (under (value_scope walk.old.scope false) (context_of walk.old)) (seen.term_view value.now)
        (body_in raw.now))) }
{
    let mut head = head;
    let level = add_value(walk, &mut head, word, value)?;
    let formula = equated_body(walk, level, value, raw)?;
    let variable = NamedTerm {
        place: term_place(value),
        node: NamedNode::Var(level),
    };
    Ok(close(head, Some(variable), true, formula))
}

/// A rule whose head has a value.
pub fn value_rule<'r, 'a>(
    walk: &mut Resolver<'r, 'a>,
    head: RuleHead,
    word: &'a RawName,
    value: &'a RawTermTree,
    raw: &'a Option<RawBody>,
) -> Result<NamedRule, Memory>
    ensures { let simple = use_of.is_simple (names_known walk.old) walk.old.scope (seen.term_view value.now) in
        IfOk result (λ r. IsStep walk.old walk.new (rule_view r) (valued (names_known walk.old) walk.old.scope
        (head_view head) (seen.name_view word.now) (seen.term_view value.now) (body_in raw.now) simple)
        (value_scope walk.old.scope simple)
        (uses_behind (under (value_scope walk.old.scope simple) (context_of walk.old)) (seen.term_view value.now)
        (body_in raw.now))) }
{
    if is_simple(walk.known.table, &walk.scope, value) {
        given_rule(walk, head, value, raw)
    } else {
        new_rule(walk, head, word, value, raw)
    }
}
