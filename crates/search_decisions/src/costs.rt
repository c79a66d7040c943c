//! The sign of a decision where a term is to be small.
use crate::phases::is_open;
use ground_core::{GroundTerm, Memory, Part};
use kb_logic::AggKind;
use kept_problem::KeptProblem;
use lit_core::{Assignment, Lit, PackedLit, Var};
use std::alloc::Global;

/// A choice of more atoms is not gone through at each decision.
const WIDEST: usize = 64;

/// What a true variable costs while a bound on a term is in force; nothing while none is.
///
/// The cheaper value makes the answers' values fall in few steps. No contract speaks of costs, since every sign is
/// right.
#[derive(Drop)]
pub struct Costs {
    /// By how much each variable raises the term where it is true.
    costs: Vec<i64>,
    /// The term of which these are the costs.
    term: Option<u32>,
    /// Whether the newest bound, which is on that term, is in force.
    is_led: bool,
}

/// Whether the literal is true.
fn is_true(assignment: &Assignment, lit: Lit) -> bool {
    lit.var.0 < assignment.len() as u64 && assignment.value(lit) == Some(true)
}

/// The value that costs less, where one does.
fn sign_alone(cost: i64) -> Option<bool> {
    if cost == 0 {
        return None;
    }
    Some(cost < 0)
}

impl Costs {
    /// Nothing costs anything.
    pub fn new(alloc: Global) -> Costs {
        Costs {
            costs: Vec::new(alloc),
            term: None,
            is_led: false,
        }
    }

    /// Counts what a part adds to the term.
    fn add_part(&mut self, part: &Part, weight: i64) -> Result<(), Memory> {
        let var = part.lit.var.0 as usize;
        if var >= self.costs.len() {
            let Some(len) = var.checked_add(1) else {
                return Err(Memory);
            };
            self.costs.resize(len, 0)?;
        }
        if let Some(cost) = self.costs.get_mut(var) {
            *cost = if part.lit.positive {
                cost.saturating_add(weight)
            } else {
                cost.saturating_sub(weight)
            };
        }
        Ok(())
    }

    /// Counts what a term's parts add to it. A minimum is not led: which of its parts is true decides little.
    fn add_term(&mut self, term: &GroundTerm) -> Result<(), Memory> {
        for part in term.parts.as_slice() {
            match term.kind {
                AggKind::Count => self.add_part(part, 1)?,
                AggKind::Sum | AggKind::Max => self.add_part(part, part.weight)?,
                AggKind::Min => {}
            }
        }
        Ok(())
    }

    /// Counts what the parts of the term with this number add to it, where another one's were counted.
    fn count_term(&mut self, problem: &KeptProblem, number: u32) {
        if self.term == Some(number) {
            return;
        }
        self.term = Some(number);
        self.costs.clear();
        if let Some(term) = problem.terms().get(number as usize) {
            // Without memory for all costs those that are there lead.
            let _ = self.add_term(term);
        }
    }

    /// Looks whether the newest bound is in force: then its term is to be small.
    pub fn look(&mut self, problem: &KeptProblem, assignment: &Assignment) {
        self.is_led = false;
        let Some(bound) = problem.bounds().last() else {
            return;
        };
        if is_true(assignment, bound.out) {
            self.is_led = true;
            self.count_term(problem, bound.term);
        }
    }

    /// What the variable costs where it is true.
    fn cost(&self, var: Var) -> i64 {
        match self.costs.get(var.0 as usize) {
            Some(cost) => *cost,
            None => 0,
        }
    }

    /// The value of an atom of a choice that costs less: the cheapest open atom is true, unless another one is; None
    /// where all open ones cost the same.
    fn sign_in(&self, assignment: &Assignment, choice: &[PackedLit], cost: i64) -> Option<bool> {
        let mut sign = None;
        for lit in choice {
            let lit = lit.lit();
            let other = self.cost(lit.var);
            if is_true(assignment, lit) || other < cost && is_open(assignment, lit.var) {
                return Some(false);
            }
            if cost < other && is_open(assignment, lit.var) {
                sign = Some(true);
            }
        }
        sign
    }

    /// The value of the variable that costs less, if one does.
    pub fn sign(
        &self,
        assignment: &Assignment,
        choice: Option<&[PackedLit]>,
        var: Var,
    ) -> Option<bool> {
        if !self.is_led {
            return None;
        }
        let cost = self.cost(var);
        match choice {
            Some(choice) if choice.len() <= WIDEST => self.sign_in(assignment, choice, cost),
            _ => sign_alone(cost),
        }
    }
}
