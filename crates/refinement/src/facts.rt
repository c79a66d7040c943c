//! What became known and is still to be followed.
//!
//! Nothing that is proved rests on a fact: one that is none is followed for nothing, and one that is missing waits for
//! the next pass.
use kb_logic::values::{Value, domain_in, elem_value};
use kb_logic::{ElemList, Memory};
use std::alloc::Global;

/// How many facts may wait. Those for which there is no room are left to the next pass.
const MOST_FACTS: usize = 1 << 18;

/// An element at an argument.
#[derive(Clone, Copy)]
pub(crate) enum Argument {
    /// The element at this place of the type's domain.
    Element(u32, u64),
    Number(i64),
}

/// That something is known of an application of the symbol to these arguments: of a predicate whether it holds.
#[derive(Drop)]
pub(crate) struct Fact {
    pub symbol: u32,
    pub holds: Option<bool>,
    pub args: Vec<Argument>,
}

/// The facts that are still to be followed, and how many steps following may take.
#[derive(Drop)]
pub(crate) struct Work {
    pub facts: Vec<Fact>,
    pub fuel: u64,
}

impl Work {
    pub fn new(alloc: Global, fuel: u64) -> Work {
        Work {
            facts: Vec::new(alloc),
            fuel,
        }
    }

    /// Takes so many steps.
    pub fn spend(&mut self, steps: u64) {
        self.fuel = self.fuel.saturating_sub(steps);
    }

    /// One fact more to be followed, where there is room for it.
    pub fn push(&mut self, fact: Fact) -> Result<(), Memory> {
        if self.facts.len() < MOST_FACTS {
            self.facts.push(fact)?;
        }
        Ok(())
    }
}

/// The value of the element.
pub(crate) fn value_of(domains: &[ElemList], argument: Argument) -> Value<'_> {
    match argument {
        Argument::Element(ty, place) => match domain_in(domains, ty).get(place as usize) {
            Some(elem) => elem_value(elem),
            None => Value::Nothing,
        },
        Argument::Number(n) => Value::Num(n),
    }
}
