//! Where symbols occur in sentences that hold for all elements of some variables.
use crate::facts::Argument;
use kb_logic::{Formula, Memory, Signed, Term};
use std::alloc::Global;

/// What stands at an argument.
#[derive(Clone, Copy)]
pub(crate) enum Slot {
    Variable(u32),
    Constant(Argument),
    Other,
}

/// Where a symbol is applied in a sentence, and to what. Of a predicate it says which truth value speaks against the
/// sentence, if one alone does: from the other value nothing follows.
#[derive(Drop)]
pub(crate) struct Occurrence {
    pub sentence: usize,
    pub slots: Vec<Slot>,
    pub against: Option<bool>,
}

/// The occurrences of each symbol.
pub(crate) type Occurrences = Vec<Vec<Occurrence>>;

/// The sentence that a part is of, and which truth value of the part speaks against the sentence.
#[derive(Clone, Copy)]
struct Spot {
    alloc: Global,
    sentence: usize,
    against: Option<bool>,
}

impl Spot {
    fn turned(self) -> Spot {
        let against = match self.against {
            Some(value) => Some(!value),
            None => None,
        };
        Spot { against, ..self }
    }

    fn either(self) -> Spot {
        Spot {
            against: None,
            ..self
        }
    }
}

fn slot_of(term: &Term) -> Slot {
    match term {
        Term::Var(n) => Slot::Variable(*n),
        Term::Int(n) => Slot::Constant(Argument::Number(*n)),
        Term::Made(ty, n) => Slot::Constant(Argument::Element(*ty, *n as u64)),
        _ => Slot::Other,
    }
}

fn slots_of(alloc: Global, terms: &[Term]) -> Result<Vec<Slot>, Memory> {
    let mut slots = Vec::with_capacity(alloc, terms.len())?;
    for term in terms {
        slots.push(slot_of(term))?;
    }
    Ok(slots)
}

/// One occurrence more, where the symbol has a list.
fn push(symbol: u32, occurrence: Occurrence, out: &mut Occurrences) -> Result<(), Memory> {
    match out.get_mut(symbol as usize) {
        Some(found) => {
            found.push(occurrence)?;
            Ok(())
        }
        None => Ok(()),
    }
}

fn push_occurrence(
    symbol: u32,
    args: &[Term],
    spot: Spot,
    out: &mut Occurrences,
) -> Result<(), Memory> {
    let occurrence = Occurrence {
        sentence: spot.sentence,
        slots: slots_of(spot.alloc, args)?,
        against: spot.against,
    };
    push(symbol, occurrence, out)
}

#[cycle(gather)]
fn gather_term<'a>(term: &'a Term, spot: Spot, out: &mut Occurrences) -> Result<(), Memory> {
    match term {
        Term::Var(_) | Term::Int(_) | Term::Made(_, _) => Ok(()),
        Term::Apply(symbol, args) => {
            push_occurrence(*symbol, args, spot, out)?;
            gather_terms(args, spot, out)
        }
        Term::Sum(parts) => gather_summands(parts, spot, out),
        Term::Product(terms) => gather_terms(terms, spot, out),
        Term::Agg(_, _, formula, weight) => {
            gather(formula, spot, out)?;
            gather_term(weight, spot, out)
        }
    }
}

#[cycle(gather)]
fn gather_summands<'a>(
    parts: &'a [Signed],
    spot: Spot,
    out: &mut Occurrences,
) -> Result<(), Memory> {
    for part in parts {
        gather_term(&part.term, spot, out)?;
    }
    Ok(())
}

#[cycle(gather)]
fn gather_terms<'a>(terms: &'a [Term], spot: Spot, out: &mut Occurrences) -> Result<(), Memory> {
    for term in terms {
        gather_term(term, spot, out)?;
    }
    Ok(())
}

#[cycle(gather)]
fn gather_each<'a>(
    formulas: &'a [Formula],
    spot: Spot,
    out: &mut Occurrences,
) -> Result<(), Memory> {
    for formula in formulas {
        gather(formula, spot, out)?;
    }
    Ok(())
}

/// Pushes the occurrences in the formula.
#[cycle(gather)]
fn gather<'a>(formula: &'a Formula, spot: Spot, out: &mut Occurrences) -> Result<(), Memory> {
    match formula {
        Formula::True | Formula::False => Ok(()),
        Formula::Atom(symbol, args) => {
            push_occurrence(*symbol, args, spot, out)?;
            gather_terms(args, spot.either(), out)
        }
        Formula::Compare(_, left, right) => {
            gather_term(left, spot.either(), out)?;
            gather_term(right, spot.either(), out)
        }
        Formula::Not(inner) => gather(inner, spot.turned(), out),
        Formula::And(formulas) => gather_each(formulas, spot, out),
        Formula::Or(formulas) => gather_each(formulas, spot, out),
        Formula::Implies(left, right) => {
            gather(left, spot.turned(), out)?;
            gather(right, spot, out)
        }
        Formula::Iff(left, right) => {
            gather(left, spot.either(), out)?;
            gather(right, spot.either(), out)
        }
        Formula::All(_, inner) => gather(inner, spot, out),
        Formula::Any(_, inner) => gather(inner, spot, out),
        Formula::Number(_, _, _, inner) => gather(inner, spot.either(), out),
    }
}

/// The occurrences of so many symbols in the sentences.
pub(crate) fn occurrences(
    alloc: Global,
    symbols: usize,
    sentences: &[Formula],
) -> Result<Occurrences, Memory> {
    let mut out = Vec::with_capacity(alloc, symbols)?;
    for _symbol in 0..symbols {
        out.push(Vec::new(alloc))?;
    }
    for at in 0..sentences.len() {
        if let Formula::All(_, inner) = &sentences[at] {
            let spot = Spot {
                alloc,
                sentence: at,
                against: Some(false),
            };
            gather(inner, spot, &mut out)?;
        }
    }
    Ok(out)
}
