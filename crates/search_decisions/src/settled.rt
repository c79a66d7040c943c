//! Functions that have their value.
use crate::phases::is_open;
use kept_problem::KeptProblem;
use lit_core::{Assignment, Lit, PackedLit, Var};

/// Up to so many values of a function take a clause for each two of them, by which one that is chosen makes the others
/// false at once.
const MOST_IN_PAIRS: usize = 256;

/// A choice, and an atom of it.
#[derive(Clone, Copy)]
struct Atom {
    clause: usize,
    var: Var,
}

/// Which function with many values was found to have one.
///
/// That it has no other one is said by a constraint, which may be asked late. So the others are decided to be false.
#[derive(Drop)]
pub struct Settled {
    found: Option<Atom>,
}

/// Whether the variable is one of these, and true.
fn is_true(assignment: &Assignment, var: Var) -> bool {
    if var.0 >= assignment.len() as u64 {
        return false;
    }
    let lit = Lit {
        var,
        positive: true,
    };
    assignment.value(lit) == Some(true)
}

/// A variable of the clause that is true.
fn first_true(assignment: &Assignment, clause: &[PackedLit]) -> Option<Var> {
    for lit in clause {
        let var = lit.lit().var;
        if is_true(assignment, var) {
            return Some(var);
        }
    }
    None
}

/// Whether one of the first constraints says that a function has at most one of the values of the clause. Those of
/// functions stand before all others, and they alone have a negated atom as their result.
fn is_of_function(problem: &KeptProblem, clause: &[PackedLit]) -> bool {
    let Some(first) = clause.first() else {
        return false;
    };
    let var = first.lit().var.0;
    for sum in problem.sums() {
        if sum.out.positive {
            return false;
        }
        if sum.out.var.0 == var {
            return true;
        }
    }
    false
}

impl Settled {
    /// Nothing was found.
    pub fn new() -> Settled {
        Settled { found: None }
    }

    /// Whether the choice at the place is of a function with many values, and one of its atoms is found to be true.
    ///
    /// It is looked for where it may have become true: where the open atom that came first, if one was found, is open no
    /// more. So a wide choice is gone through once for many of its atoms.
    pub fn has_value(
        &mut self,
        problem: &KeptProblem,
        assignment: &Assignment,
        place: usize,
        first: Option<Var>,
    ) -> bool {
        if let Some(found) = self.found {
            if found.clause == place && is_true(assignment, found.var) {
                return true;
            }
        }
        let clause = problem.clause(place);
        if clause.len() <= MOST_IN_PAIRS {
            return false;
        }
        if let Some(var) = first {
            if is_open(assignment, var) {
                return false;
            }
        }
        if !is_of_function(problem, clause) {
            return false;
        }
        match first_true(assignment, clause) {
            Some(var) => {
                self.found = Some(Atom { clause: place, var });
                true
            }
            None => false,
        }
    }
}
