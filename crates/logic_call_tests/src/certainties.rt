//! `kleene` and `known_term`.
ghost use Rattle.std.specs.Prelude.{IfOk};
ghost use Rattle.kb_logic.specs.Arithmetic.{HasNoArithmetic, IsPlainTerm};
ghost use Rattle.kb_logic.specs.Views.{formula_view, term_view};

use crate::conditions::nothing;
use crate::fixtures::{domains, edge_and_color, variables};
use crate::stories::{close_first, coloured_areas, linked_areas};
use certain_truth::{kleene, known_term};
use kb_logic::values::Value;
use kb_logic::{Cmp, Formula, Memory, Term};
use partial_structures::{Partial, Truth};
use plain_evaluation::environments::Env;
use std::alloc::Global;
use std::test::Fail;

/// The formula that there is an edge between the elements with these numbers.
fn linked(alloc: Global, from: u32, to: u32) -> Result<Formula, Memory>
    ensures { IfOk result (λ f. HasNoArithmetic (formula_view f)) }
{
    Ok(Formula::Atom(0, vec![in alloc; Term::Made(0, from), Term::Made(0, to)]?))
}

fn either(alloc: Global, a: Formula, b: Formula) -> Result<Formula, Memory>
    requires left { HasNoArithmetic (formula_view a) }
    requires right { HasNoArithmetic (formula_view b) }
    ensures { IfOk result (λ f. HasNoArithmetic (formula_view f)) }
{
    Ok(Formula::Or(vec![in alloc; a, b]?))
}

/// The formula that there is an edge from the first element to itself or one to another.
fn loop_or_edge(alloc: Global, to: u32) -> Result<Formula, Memory>
    ensures { IfOk result (λ f. HasNoArithmetic (formula_view f)) }
{
    let stay = linked(alloc, 0, 0)?;
    let go = linked(alloc, 0, to)?;
    either(alloc, stay, go)
}

#[tactic(auto, using(crate::proofs::Fits::certainty_fits))]
fn certain(s: &Partial, f: &Formula) -> Truth
    requires { HasNoArithmetic (formula_view f.now) }
{
    kleene(s, f, &[])
}

fn is_said(s: &Partial, f: Result<Formula, Memory>, truth: Truth) -> bool
    requires { IfOk f (λ f. HasNoArithmetic (formula_view f)) }
{
    match f {
        Ok(f) => certain(s, &f) == truth,
        Err(_) => false,
    }
}

fn is_certain_by_one_part(alloc: Global, s: &Partial) -> bool {
    is_said(s, loop_or_edge(alloc, 1), Truth::Yes)
        & is_said(s, loop_or_edge(alloc, 0), Truth::Unknown)
}

fn one_part_is_enough(alloc: Global) -> bool {
    match linked_areas(alloc) {
        Ok(Some(s)) => is_certain_by_one_part(alloc, &s),
        _ => false,
    }
}

#[test]
fn a_disjunction_is_certain_by_one_part(rt: HostRuntime) -> Result<(), Fail> {
    assert!(rt; one_part_is_enough(rt.alloc()));
    Ok(())
}

#[derive(Clone, Copy)]
enum Prefix {
    Every,
    Some,
    NoOne,
}

/// Under as many variables of type 0 and then of type 1, the variable `number` has no edge to itself.
fn unlinked(
    alloc: Global,
    prefix: Prefix,
    counts: [usize; 2],
    number: u32,
) -> Result<Formula, Memory>
    ensures { IfOk result (λ f. HasNoArithmetic (formula_view f)) }
{
    let atom = Formula::Atom(0, vec![in alloc; Term::Var(number), Term::Var(number)]?);
    let body = Box::new(alloc, Formula::Not(Box::new(alloc, atom)?))?;
    let bounds = variables(alloc, counts)?;
    match prefix {
        Prefix::Every => Ok(Formula::All(bounds, body)),
        Prefix::Some => Ok(Formula::Any(bounds, body)),
        Prefix::NoOne => Ok(Formula::Number(Cmp::Eq, 0, bounds, body)),
    }
}

/// Edges over these integers, and colours of them out of none.
fn over(alloc: Global, members: &[i64]) -> Result<Option<Partial>, Memory> {
    nothing(alloc, edge_and_color(alloc)?, domains(alloc, members, &[])?)
}

const OPEN: [(Prefix, [usize; 2], u32, Truth); 1] = [(
    Prefix::Every,
    [600_000, 0],
    599_999,
    Truth::Unknown,
)];

const CLOSED: [(Prefix, [usize; 2], u32, Truth); 1] = [(
    Prefix::Every,
    [600_000, 0],
    599_999,
    Truth::Yes,
)];

/// 64 variables over two elements and one over none have no assignment, so all is certain though nothing is known.
const NO_ASSIGNMENT: [(Prefix, [usize; 2], u32, Truth); 3] = [
    (Prefix::Every, [64, 1], 0, Truth::Yes),
    (Prefix::Some, [64, 1], 0, Truth::No),
    (Prefix::NoOne, [64, 1], 0, Truth::Yes),
];

fn are_said(alloc: Global, s: &Partial, cases: &[(Prefix, [usize; 2], u32, Truth)]) -> bool {
    for (prefix, counts, number, want) in cases {
        if !is_said(s, unlinked(alloc, *prefix, *counts, *number), *want) {
            return false;
        }
    }
    true
}

fn are_said_before_and_after(alloc: Global, s: &mut Partial) -> bool {
    let before = are_said(alloc, s, &OPEN);
    close_first(s);
    before & are_said(alloc, s, &CLOSED)
}

fn long_binders_are_said(alloc: Global) -> bool {
    match over(alloc, &[7]) {
        Ok(Some(mut s)) => are_said_before_and_after(alloc, &mut s),
        _ => false,
    }
}

#[test]
fn many_variables_need_no_deep_stack(rt: HostRuntime) -> Result<(), Fail> {
    assert!(rt; long_binders_are_said(rt.alloc()));
    Ok(())
}

fn empty_binders_are_said(alloc: Global) -> bool {
    match over(alloc, &[1, 2]) {
        Ok(Some(s)) => are_said(alloc, &s, &NO_ASSIGNMENT),
        _ => false,
    }
}

#[test]
fn one_empty_type_leaves_no_assignment(rt: HostRuntime) -> Result<(), Fail> {
    assert!(rt; empty_binders_are_said(rt.alloc()));
    Ok(())
}

/// The colour of the area with this number.
fn colour_of(alloc: Global, area: u32) -> Result<Term, Memory>
    ensures { IfOk result (λ t. IsPlainTerm (term_view t)) }
{
    Ok(Term::Apply(1, vec![in alloc; Term::Made(0, area)]?))
}

#[tactic(auto, using(crate::proofs::Fits::value_fits))]
fn is_named(s: &Partial, t: &Term, want: Option<&[u8]>) -> bool
    requires { IsPlainTerm (term_view t.now) }
{
    let env = Env::Given(&[]);
    match (known_term(s, t, &env), want) {
        (Some(Value::Named(word)), Some(want)) => word == want,
        (None, None) => true,
        _ => false,
    }
}

fn has_colour(alloc: Global, s: &Partial, area: u32, want: Option<&[u8]>) -> bool {
    match colour_of(alloc, area) {
        Ok(t) => is_named(s, &t, want),
        Err(_) => false,
    }
}

fn one_colour_is_known(alloc: Global) -> bool {
    match coloured_areas(alloc) {
        Ok(Some(s)) => has_colour(alloc, &s, 0, Some(b"Red")) & has_colour(alloc, &s, 1, None),
        _ => false,
    }
}

#[test]
fn a_term_is_known_where_its_atom_is(rt: HostRuntime) -> Result<(), Fail> {
    assert!(rt; one_colour_is_known(rt.alloc()));
    Ok(())
}
