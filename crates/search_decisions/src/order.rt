//! An order of variables by falling score.
ghost use Rattle.std.specs.Prelude.{◌≡◌, IfSome};
ghost use Rattle.search_decisions.specs.Phases.{IsOpen};

use crate::phases::is_open;
use ground_core::Memory;
use lit_core::{Assignment, Lit, Var};
use std::alloc::Global;

/// Variables in an order in which scores do not rise, so that the first that is unassigned has the greatest score of
/// those that are.
///
/// A score rises by 1 at a time: the variable then changes places with the first of those that had its score, and is
/// the last of those that have its new one. That takes constant time, and so does a decision but for what was assigned
/// meanwhile. Contracts call no variable the right one: where the order were wrong, another unassigned variable would
/// be decided.
#[derive(Drop)]
pub struct Order {
    /// The variables in order.
    pub vars: Vec<u64>,
    /// For each variable its place in the order.
    pub places: Vec<usize>,
    /// For each score how many variables have a greater one, so the place of the first that has it.
    pub starts: Vec<usize>,
    /// All variables before this place have values.
    pub cursor: usize,
}

impl Order {
    /// No variables.
    pub fn new(alloc: Global) -> Order {
        Order {
            vars: Vec::new(alloc),
            places: Vec::new(alloc),
            starts: Vec::new(alloc),
            cursor: 0,
        }
    }

    /// Makes room for the place of a variable of this number.
    fn reserve(&mut self, number: usize) -> Result<(), Memory> {
        if self.starts.is_empty() {
            self.starts.push(0)?;
        }
        if number >= self.places.len() {
            let Some(len) = number.checked_add(1) else {
                return Err(Memory);
            };
            self.places.resize(len, 0)?;
        }
        Ok(())
    }

    /// Puts a variable that has this score into the order.
    fn append(&mut self, var: u64, score: u64) -> Result<(), Memory> {
        self.reserve(var as usize)?;
        let place = self.vars.len();
        self.vars.push(var)?;
        self.put(place, var);
        for lower in 0..score {
            self.raise(var, lower);
        }
        Ok(())
    }

    /// Puts the variables from a number on and below another into the order, but for the first ones that are there.
    pub fn extend(&mut self, scores: &[u64], from: u64, end: u64) -> Result<(), Memory> {
        let Some(next) = from.checked_add(self.vars.len() as u64) else {
            return Err(Memory);
        };
        for var in next..end {
            let score = match scores.get(var as usize) {
                Some(score) => *score,
                None => 0,
            };
            self.append(var, score)?;
        }
        Ok(())
    }

    /// The place of a variable that is in the order.
    fn place_of(&self, var: u64) -> Option<usize> {
        let place = *self.places.get(var as usize)?;
        let there = *self.vars.get(place)?;
        if there == var { Some(place) } else { None }
    }

    /// Puts a variable at a place.
    fn put(&mut self, place: usize, var: u64) {
        if place < self.vars.len() && (var as usize) < self.places.len() {
            self.vars[place] = var;
            self.places[var as usize] = place;
        }
    }

    /// Makes a variable the last of those with one score more than it had.
    fn promote(&mut self, var: u64, place: usize, score: usize) {
        let last = score.saturating_add(1) == self.starts.len();
        let Some(next) = self.starts.get_mut(score) else {
            return;
        };
        let start = *next;
        let Some(first) = self.vars.get(start) else {
            return;
        };
        let first = *first;
        *next = start.saturating_add(1);
        self.put(place, first);
        self.put(start, var);
        if last {
            // Without memory for it the variable stays where it is from now on.
            let _ = self.starts.push(0);
        }
    }

    /// Notes that a variable's score rises by 1 from this one.
    pub fn raise(&mut self, var: u64, score: u64) {
        if let Some(place) = self.place_of(var) {
            self.promote(var, place, score as usize);
        }
    }

    /// Notes that a variable has no value any more.
    pub fn frees(&mut self, var: u64) {
        if let Some(place) = self.place_of(var) {
            self.cursor = self.cursor.min(place);
        }
    }

    /// Notes that any variable may have no value any more.
    pub fn begin(&mut self) {
        self.cursor = 0;
    }

    /// The first unassigned variable.
    pub fn first_open(&mut self, assignment: &Assignment) -> Option<u64>
        ensures { IfSome result (λ var. IsOpen assignment.now var) }
    {
        for place in self.cursor..self.vars.len() {
            let var = self.vars[place];
            if is_open(assignment, Var(var)) {
                self.cursor = place;
                return Some(var);
            }
        }
        self.cursor = self.vars.len();
        None
    }
}
