//! Whether values are as is said, looked at anew: no code is shared with the solvers.
ghost use Rattle.std.specs.Prelude.{◌≡◌, ◌↔◌, ◌+◌, ◌<◌, List, [], length, slice_get, true, IsTrue, IfSome};
ghost use Rattle.std.specs.Prelude.{MatchOption, option_map};
ghost use Rattle.kb_logic.specs.declared.structures.Literal.{Literal};
ghost use Rattle.kb_logic.specs.declared.syntax.Cmp.TheVariants as cmp;
ghost use Rattle.kb_logic.specs.Denotations.{compared, number};
ghost use Rattle.lit_core.specs.Literals.{valuation};
ghost use Rattle.ground_core.specs.declared.solving.Verdict.TheVariants.{Sat};
ghost use Rattle.ground_core.specs.Problems.{ProblemState};
ghost use Rattle.ground_core.specs.Meaning.{term_value};
ghost use Rattle.ground_core.specs.Solving.{Answers};
ghost use Rattle.ground_core.specs.Laws.{Differs};
ghost use Rattle.solving_judge.specs.Totals.{denoted};
ghost use Rattle.solving_judge.specs.Sayings.{saying, problem_said, problem_changed, changed, IsFirstValue};
ghost use Rattle.solving_judge.specs.Suiting.{IsLastIfSuited, Suits};

use crate::additions::Event;
use crate::problems::Said;
use crate::totals::{Total, is_at_least, is_below, is_value, parts_total, term_total};
use crate::truths::{is_set, is_true, joined_value, makes_true, satisfies};
use kb_logic::ExtInt;
use lit_core::{Lit, Values};

/// What the term of this number comes to, if there is one.
fn total_at(values: &Values, said: &[Said], term: u32) -> Option<Total>
    ensures { (atoms : List Literal) → option_map denoted result ≡ option_map (term_value (valuation values.now))
        (slice_get (problem_said atoms said.now).terms term) }
{
    let mut left = term;
    for it in said {
        let Said::Term(kind, base, parts) = it else {
            continue;
        };
        if left == 0 {
            return Some(term_total(values, *kind, *base, parts));
        }
        left -= 1;
    }
    None
}

/// Whether this is what the first term comes to, or there is none.
pub fn is_first_value(values: &Values, said: &[Said], value: Option<ExtInt>) -> bool
    ensures { (atoms : List Literal) → IsTrue result ↔ IsFirstValue (problem_said atoms said.now)
        (valuation values.now) value }
{
    match (total_at(values, said, 0), value) {
        (Some(total), Some(value)) => is_value(total, value),
        (None, None) => true,
        _ => false,
    }
}

/// Whether the term of this number is below the limit, or there is none.
fn is_term_below(values: &Values, said: &[Said], term: u32, below: i64) -> bool
    ensures { (atoms : List Literal) → IsTrue result ↔ IfSome (slice_get (problem_said atoms said.now).terms term)
        (λ t. compared cmp.Lt (term_value (valuation values.now) t) (number below) ≡ true) }
{
    match total_at(values, said, term) {
        Some(total) => is_below(total, below),
        None => true,
    }
}

/// Whether one of the first atoms has another value.
fn differs(values: &Values, other: &Values, atoms: u32) -> bool
    ensures { (p : ProblemState) → length p.atoms ≡ atoms → IsTrue result ↔ Differs p other.now
        (valuation values.now) }
{
    for atom in 0..atoms {
        let var = u64::from(atom) + 1;
        if is_set(values, var) != is_set(other, var) {
            return true;
        }
    }
    false
}

/// The variable after the last one, if it has a value, which is this one.
fn defined(values: &Values, last: u64, value: bool) -> Option<u64>
    requires { last < length values.now }
    ensures { MatchOption result (last + 1 < length values.now → valuation values.now (last + 1) ≡ value → ⊥)
        (λ next. (next ≡ last + 1) × (next < length values.now) × (valuation values.now next ≡ value)) }
{
    let count = values.len() as u64;
    let next = last + 1;
    let fits = next < count && is_set(values, next) == value;
    fits.then_some(next)
}

/// The variable after the last one, if it has a value, which is false where this is not allowed.
fn selected(values: &Values, last: u64, allowed: bool) -> Option<u64>
    requires { last < length values.now }
    ensures { MatchOption result (last + 1 < length values.now → (valuation values.now (last + 1) ≡ true
        → allowed ≡ true) → ⊥) (λ next. (next ≡ last + 1) × (next < length values.now)
        × (valuation values.now next ≡ true → allowed ≡ true)) }
{
    let count = values.len() as u64;
    let next = last + 1;
    let fits = next < count && (allowed || !is_set(values, next));
    fits.then_some(next)
}

/// The last variable of a problem that the values suit, with this said of it, if they still do.
fn last_saying(values: &Values, last: u64, said: &Said) -> Option<u64>
    requires { last < length values.now }
    ensures last { (p : ProblemState) → p.vars ≡ last → p.bounds ≡ [] → Suits p values.now
        → IsLastIfSuited (saying p said.now) values.now result }
    ensures fits { IfSome result (λ n. n < length values.now) }
{
    match said {
        Said::Clause(lits) => satisfies(values, lits).then_some(last),
        Said::Gate(all, parts) => defined(values, last, joined_value(values, *all, parts)),
        Said::Same(a, b) => defined(values, last, is_true(values, *a) == is_true(values, *b)),
        Said::Sum(kind, least, parts) => {
            let total = parts_total(values, *kind, parts);
            defined(values, last, is_at_least(total, *least))
        }
        Said::Term(_, _, _) => Some(last),
    }
}

/// The last variable of the problem of which all this is said, if the values suit it.
fn last_said(values: &Values, atoms: u32, said: &[Said]) -> Option<u64>
    ensures last { (given : List Literal) → length given ≡ atoms → IsLastIfSuited (problem_said given said.now)
        values.now result }
    ensures fits { IfSome result (λ n. n < length values.now) }
{
    if u64::from(atoms) >= values.len() as u64 {
        return None;
    }
    let mut last = u64::from(atoms);
    for it in said {
        last = last_saying(values, last, it)?;
    }
    Some(last)
}

/// The last variable of a problem that the values suit, with this added to it or given up, if they still do.
fn last_changing(
    values: &Values,
    atoms: u32,
    said: &[Said],
    last: u64,
    event: &Event,
) -> Option<u64>
    requires { last < length values.now }
    ensures last { (given : List Literal) (p : ProblemState) → length given ≡ atoms → p.atoms ≡ given
        → p.terms ≡ (problem_said given said.now).terms → p.vars ≡ last → Suits p values.now
        → IsLastIfSuited (changed p event.now) values.now result }
    ensures fits { IfSome result (λ n. n < length values.now) }
{
    match event {
        Event::Bound(term, below) => {
            selected(values, last, is_term_below(values, said, *term, *below))
        }
        Event::Exclusion(other) => selected(values, last, differs(values, other, atoms)),
        Event::Retired(var) => (!is_set(values, *var)).then_some(last),
    }
}

/// The last variable of the problem of which all this is said and added or given up, if the values suit it.
fn last_changed(values: &Values, atoms: u32, said: &[Said], events: &[Event]) -> Option<u64>
    ensures last { (given : List Literal) → length given ≡ atoms → IsLastIfSuited
        (problem_changed given said.now events.now) values.now result }
    ensures fits { IfSome result (λ n. n < length values.now) }
{
    let mut last = last_said(values, atoms, said)?;
    for event in events {
        last = last_changing(values, atoms, said, last, event)?;
    }
    Some(last)
}

/// Whether the values answer what is asked: they are as was said and added, and make the literals true.
pub fn are_right(
    values: &Values,
    atoms: u32,
    said: &[Said],
    events: &[Event],
    assume: &[Lit],
) -> bool
    ensures { (given : List Literal) → length given ≡ atoms → IsTrue result ↔ Answers
        (problem_changed given said.now events.now) assume.now (Sat values.now) }
{
    let Some(last) = last_changed(values, atoms, said, events) else {
        return false;
    };
    values.len() as u64 == last + 1 && makes_true(values, assume)
}
