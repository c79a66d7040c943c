//! The sign of a decision where models are listed.
use ground_core::Memory;
use lit_core::{Lit, Values, Var};
use std::alloc::Global;

/// The values of the model that was excluded last, while models are excluded.
///
/// A search that goes by them comes to where that model is excluded, and leaves it there by what was decided last: so
/// the next model takes few conflicts, where one that is far from it has all of the problem to satisfy anew. No contract
/// speaks of them, since every sign is right.
#[derive(Drop)]
pub struct Near {
    values: Vec<bool>,
}

impl Near {
    /// No model was excluded.
    pub fn new(alloc: Global) -> Near {
        Near {
            values: Vec::new(alloc),
        }
    }

    /// Goes by the values of so many first variables. Without memory for them it goes by none.
    pub fn follow(&mut self, values: &Values, atoms: u64) {
        self.values.clear();
        if self.note(values, atoms).is_err() {
            self.values.clear();
        }
    }

    /// Notes the values of so many variables, and that of 0, which stands for nothing.
    fn note(&mut self, values: &Values, atoms: u64) -> Result<(), Memory> {
        let count = values.len().min((atoms as usize).saturating_add(1));
        self.values.reserve(count)?;
        for number in 0..count {
            let lit = Lit {
                var: Var(number as u64),
                positive: true,
            };
            self.values.push(values.holds(lit))?;
        }
        Ok(())
    }

    /// Goes by no values.
    pub fn leave(&mut self) {
        self.values.clear();
    }

    /// The variable's value, if it goes by one.
    pub fn sign(&self, var: Var) -> Option<bool> {
        self.values.get(var.0 as usize).copied()
    }
}
