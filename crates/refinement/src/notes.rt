//! Which atoms of an instance are known.
use crate::facts::{Argument, Fact, Work, value_of};
use kb_logic::values::domain_in;
use kb_logic::{Cmp, Formula, Memory, Term};
use partial_structures::lookups::{atom_truth, next, start, value_truth};
use partial_structures::{Partial, Place, Truth};
use plain_evaluation::environments::Env;
use plain_evaluation::frames::Frame;
use std::alloc::Global;

/// An instance: what is known, and the elements of the variables.
#[derive(Clone, Copy)]
pub(crate) struct Instance<'a> {
    pub alloc: Global,
    pub known: &'a Partial,
    pub env: &'a Env<'a>,
}

// Variables have the places of their elements as digits of their frame's number, so a fact has places too, and no
// element is sought where a variable of the same type meets it.
/// The type and the place of the element that the frame gives the variable at this place of its block.
fn digit(frame: &Frame<'_>, at: usize) -> Option<Argument> {
    let bounds = frame.block.bounds;
    let mut count = frame.block.count;
    let mut number = frame.number;
    for before in 0..at {
        let Some(bound) = bounds.get(before) else {
            return None;
        };
        let size = domain_in(frame.block.domains, bound.ty).len() as u64;
        count = count.checked_div(size).unwrap_or(0);
        number = number.checked_rem(count).unwrap_or(0);
    }
    let Some(bound) = bounds.get(at) else {
        return None;
    };
    let size = domain_in(frame.block.domains, bound.ty).len() as u64;
    count = count.checked_div(size).unwrap_or(0);
    Some(Argument::Element(bound.ty, number.checked_div(count).unwrap_or(0)))
}

/// The element of the variable number `n`, or how far `n` is past the last variable. Elements that are given have no
/// places.
fn element(env: &Env<'_>, n: usize) -> Result<Option<Argument>, usize> {
    match env {
        Env::Given(given) => {
            if n < given.len() {
                Ok(None)
            } else {
                Err(n - given.len())
            }
        }
        Env::Bound(frame, outer) => match element(outer, n) {
            Ok(found) => Ok(found),
            Err(past) => {
                if past < frame.block.bounds.len() {
                    Ok(digit(frame, past))
                } else {
                    Err(past - frame.block.bounds.len())
                }
            }
        },
    }
}

/// The element of a plain term: of a variable, an integer or a constructed name.
fn plain(env: &Env<'_>, term: &Term) -> Option<Argument> {
    match term {
        Term::Var(n) => match element(env, *n as usize) {
            Ok(found) => found,
            Err(_) => None,
        },
        Term::Int(n) => Some(Argument::Number(*n)),
        Term::Made(ty, n) => Some(Argument::Element(*ty, *n as u64)),
        _ => None,
    }
}

/// The elements of the terms, where all are plain.
fn plain_row(
    alloc: Global,
    env: &Env<'_>,
    terms: &[Term],
) -> Result<Option<Vec<Argument>>, Memory> {
    let mut row = Vec::with_capacity(alloc, terms.len())?;
    for term in terms {
        match plain(env, term) {
            Some(argument) => row.push(argument)?,
            None => return Ok(None),
        }
    }
    Ok(Some(row))
}

/// Where the arguments lead.
fn place_of<'a>(known: &'a Partial, symbol: u32, row: &[Argument]) -> Place<'a> {
    let s = known.lent();
    let mut place = start(s, symbol);
    for argument in row {
        place = next(s, place, value_of(s.domains, *argument));
    }
    place
}

/// What is known of the atom of a predicate, where it is as it must be.
fn note_atom(
    instance: Instance<'_>,
    symbol: u32,
    args: &[Term],
    v: Option<bool>,
    work: &mut Work,
) -> Result<(), Memory> {
    let Some(args) = plain_row(instance.alloc, instance.env, args)? else {
        return Ok(());
    };
    let place = place_of(instance.known, symbol, &args);
    let holds = match atom_truth(instance.known.lent(), symbol, place) {
        Truth::Yes => true,
        Truth::No => false,
        Truth::Unknown => return Ok(()),
    };
    if v == Some(!holds) {
        return Ok(());
    }
    work.push(Fact {
        symbol,
        holds: Some(holds),
        args,
    })
}

/// What is known of the equation of a term, where it is an application, with another one.
fn note_side(
    instance: Instance<'_>,
    side: &Term,
    other: &Term,
    work: &mut Work,
) -> Result<(), Memory> {
    let Term::Apply(symbol, args) = side else {
        return Ok(());
    };
    let Some(value) = plain(instance.env, other) else {
        return Ok(());
    };
    let Some(args) = plain_row(instance.alloc, instance.env, args)? else {
        return Ok(());
    };
    let known = instance.known.lent();
    let place = place_of(instance.known, *symbol, &args);
    match value_truth(known, *symbol, place, value_of(known.domains, value)) {
        Truth::Unknown => Ok(()),
        _ => work.push(Fact {
            symbol: *symbol,
            holds: None,
            args,
        }),
    }
}

/// What is known of either side, where the comparison is an equation.
fn note_equation(
    instance: Instance<'_>,
    cmp: Cmp,
    left: &Term,
    right: &Term,
    work: &mut Work,
) -> Result<(), Memory> {
    match cmp {
        Cmp::Eq => {
            note_side(instance, left, right, work)?;
            note_side(instance, right, left, work)
        }
        Cmp::Ne | Cmp::Lt | Cmp::Gt | Cmp::Le | Cmp::Ge => Ok(()),
    }
}

fn turned(v: Option<bool>) -> Option<bool> {
    match v {
        Some(value) => Some(!value),
        None => None,
    }
}

// What became known of an atom is what it must be, so that the formula has its value. What it follows from is mostly
// the opposite of that where it stands, and was followed before.
/// What is known of the atoms and equations of the formula outside of quantifiers, where they are as they must be for
/// the formula to have the value, or of either value.
#[cycle(notes)]
pub(crate) fn note<'a>(
    instance: Instance<'a>,
    formula: &'a Formula,
    v: Option<bool>,
    work: &mut Work,
) -> Result<(), Memory> {
    match formula {
        Formula::Atom(symbol, args) => note_atom(instance, *symbol, args, v, work),
        Formula::Compare(cmp, left, right) => note_equation(instance, *cmp, left, right, work),
        Formula::Not(inner) => note(instance, inner, turned(v), work),
        Formula::And(formulas) => note_each(instance, formulas, v, work),
        Formula::Or(formulas) => note_each(instance, formulas, v, work),
        Formula::Implies(left, right) => {
            note(instance, left, turned(v), work)?;
            note(instance, right, v, work)
        }
        Formula::Iff(left, right) => {
            note(instance, left, None, work)?;
            note(instance, right, None, work)
        }
        Formula::True
        | Formula::False
        | Formula::All(_, _)
        | Formula::Any(_, _)
        | Formula::Number(_, _, _, _) => Ok(()),
    }
}

#[cycle(notes)]
fn note_each<'a>(
    instance: Instance<'a>,
    formulas: &'a [Formula],
    v: Option<bool>,
    work: &mut Work,
) -> Result<(), Memory> {
    for formula in formulas {
        note(instance, formula, v, work)?;
    }
    Ok(())
}
