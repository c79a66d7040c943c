//! `Partial`: what is known of atoms, and how it changes.
//!
//! A story is a table of steps, which one loop goes through: a function that owns a partial structure and may stop at
//! each of a dozen places takes minutes to prove.
use crate::conditions::{is_over, nothing};
use crate::fixtures::{
    color, domains, edge, edge_and_color, integers, predicate_atom, symbol, words,
};
use kb_logic::{DomainList, ListOf, Literal, Memory};
use partial_structures::{Partial, SetError, Truth};
use std::alloc::Global;
use std::test::Fail;

fn areas_and_colors(alloc: Global) -> Result<DomainList, Memory> {
    let mut list = ListOf::new(alloc);
    list.push(words(alloc, &[b"b", b"f"])?)?;
    list.push(words(alloc, &[b"Red", b"Green", b"b"])?)?;
    Ok(list)
}

/// Edges between two areas, and colours of them, of which nothing is known.
fn areas(alloc: Global) -> Result<Option<Partial>, Memory> {
    nothing(alloc, edge_and_color(alloc)?, areas_and_colors(alloc)?)
}

/// No atom of the first symbol is unknown.
pub fn close_first(s: &mut Partial) {
    if s.symbols().len() > 0 {
        s.close(0);
    }
}

#[derive(Clone, Copy)]
enum Step {
    MakesTrue,
    MakesFalse,
    ClashesAsTrue,
    ClashesAsFalse,
    Is(Truth),
    Closes,
}

/// A step, and its atom: an edge from the first to the second, or a colour of the first.
type Told = (Step, Symbol, &'static [u8], &'static [u8]);

#[derive(Clone, Copy)]
enum Symbol {
    Edge,
    Color,
}

const THREE_VALUES: [Told; 7] = [
    (Step::MakesTrue, Symbol::Edge, b"b", b"f"),
    (Step::MakesFalse, Symbol::Edge, b"f", b"b"),
    (Step::Is(Truth::Yes), Symbol::Edge, b"b", b"f"),
    (Step::Is(Truth::No), Symbol::Edge, b"f", b"b"),
    (Step::Is(Truth::Unknown), Symbol::Edge, b"b", b"b"),
    (Step::ClashesAsFalse, Symbol::Edge, b"b", b"f"),
    (Step::ClashesAsTrue, Symbol::Edge, b"f", b"b"),
];

const CLOSED: [Told; 3] = [
    (Step::Closes, Symbol::Edge, b"b", b"b"),
    (Step::Is(Truth::No), Symbol::Edge, b"b", b"b"),
    (Step::ClashesAsTrue, Symbol::Edge, b"b", b"b"),
];

const RED: [Told; 4] = [
    (Step::MakesTrue, Symbol::Color, b"b", b"Red"),
    (Step::Is(Truth::Yes), Symbol::Color, b"b", b"Red"),
    (Step::Is(Truth::No), Symbol::Color, b"b", b"Green"),
    (Step::Is(Truth::Unknown), Symbol::Color, b"f", b"Red"),
];

const NOT_GREEN: [Told; 2] = [
    (Step::ClashesAsTrue, Symbol::Color, b"b", b"Green"),
    (Step::MakesFalse, Symbol::Color, b"b", b"Green"),
];

fn atom(alloc: Global, symbol: Symbol, first: &[u8], second: &[u8]) -> Result<Literal, Memory> {
    match symbol {
        Symbol::Edge => edge(alloc, first, second),
        Symbol::Color => color(alloc, first, second),
    }
}

fn is_done(answer: Result<(), SetError>) -> bool {
    matches!(answer, Ok(()))
}

fn is_clash(answer: Result<(), SetError>) -> bool {
    matches!(answer, Err(SetError::DataClash))
}

fn goes(s: &mut Partial, step: Step, atom: &Literal) -> bool {
    if !is_over(s, atom) {
        return false;
    }
    match step {
        Step::MakesTrue => is_done(s.set_true(atom)),
        Step::MakesFalse => is_done(s.set_false(atom)),
        Step::ClashesAsTrue => is_clash(s.set_true(atom)),
        Step::ClashesAsFalse => is_clash(s.set_false(atom)),
        Step::Is(truth) => s.value(atom) == truth,
        Step::Closes => {
            close_first(s);
            true
        }
    }
}

fn goes_so(alloc: Global, s: &mut Partial, told: &Told) -> bool {
    let (step, symbol, first, second) = *told;
    match atom(alloc, symbol, first, second) {
        Ok(atom) => goes(s, step, &atom),
        Err(_) => false,
    }
}

/// Whether each step goes as scripted.
fn plays(alloc: Global, s: &mut Partial, story: &[Told]) -> bool {
    for told in story {
        if !goes_so(alloc, s, told) {
            return false;
        }
    }
    true
}

fn begins(alloc: Global, story: &[Told]) -> bool {
    match areas(alloc) {
        Ok(Some(mut s)) => plays(alloc, &mut s, story),
        _ => false,
    }
}

const STORIES: [&[Told]; 2] = [&THREE_VALUES, &CLOSED];

/// A predicate has three values, and a closed symbol takes no more.
#[test]
fn stories_go_as_told(rt: HostRuntime) -> Result<(), Fail> {
    for story in &STORIES {
        assert!(rt; begins(rt.alloc(), story));
    }
    Ok(())
}

/// A copy knows what its source knew.
fn copy_plays(alloc: Global, s: &Partial, story: &[Told]) -> bool {
    match s.copy(alloc) {
        Ok(mut copy) => (copy.domains().len() == 2) & plays(alloc, &mut copy, story),
        Err(_) => false,
    }
}

fn begins_and_is_copied(alloc: Global, before: &[Told], after: &[Told]) -> bool {
    match areas(alloc) {
        Ok(Some(mut s)) => plays(alloc, &mut s, before) & copy_plays(alloc, &s, after),
        _ => false,
    }
}

#[test]
fn a_value_excludes_the_others(rt: HostRuntime) -> Result<(), Fail> {
    assert!(rt; begins_and_is_copied(rt.alloc(), &RED, &NOT_GREEN));
    Ok(())
}

/// The areas of which `b` is red.
pub fn coloured_areas(alloc: Global) -> Result<Option<Partial>, Memory> {
    told_areas(alloc, &RED[0])
}

/// The areas with an edge from `b` to `f`.
pub fn linked_areas(alloc: Global) -> Result<Option<Partial>, Memory> {
    told_areas(alloc, &THREE_VALUES[0])
}

fn told_areas(alloc: Global, told: &Told) -> Result<Option<Partial>, Memory> {
    match areas(alloc) {
        Ok(Some(mut s)) => {
            if goes_so(alloc, &mut s, told) {
                Ok(Some(s))
            } else {
                Ok(None)
            }
        }
        none => none,
    }
}

const DIGITS: [i64; 10] = [0, 1, 2, 3, 4, 5, 6, 7, 8, 9];

const FOURTEEN: [u32; 14] = [0; 14];

/// Symbol 0 is a predicate of fourteen elements of a type that has ten.
fn wide(alloc: Global) -> Result<Option<Partial>, Memory> {
    let mut symbols = ListOf::new(alloc);
    symbols.push(symbol(alloc, &FOURTEEN, None)?)?;
    nothing(alloc, symbols, domains(alloc, &DIGITS, &[])?)
}

const ONES: [i64; 14] = [1; 14];

const TWOS: [i64; 14] = [2; 14];

fn row_goes(alloc: Global, s: &mut Partial, step: Step, digits: &[i64]) -> bool {
    match integers(alloc, digits) {
        Ok(args) => goes(s, step, &predicate_atom(args)),
        Err(_) => false,
    }
}

fn knows_one_row(alloc: Global, s: &mut Partial) -> bool {
    let set = row_goes(alloc, s, Step::MakesTrue, &ONES);
    close_first(s);
    set & row_goes(alloc, s, Step::Is(Truth::Yes), &ONES)
        & row_goes(alloc, s, Step::Is(Truth::No), &TWOS)
}

fn is_cheap(alloc: Global) -> bool {
    match wide(alloc) {
        Ok(Some(mut s)) => knows_one_row(alloc, &mut s),
        _ => false,
    }
}

/// A table over 10 ^ 14 atoms costs what is written.
#[test]
fn a_wide_table_costs_what_is_written(rt: HostRuntime) -> Result<(), Fail> {
    assert!(rt; is_cheap(rt.alloc()));
    Ok(())
}
