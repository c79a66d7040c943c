//! Unit propagation by its definition: passes over all clauses, until one finds nothing.

use lit_core::{Assignment, ClauseList, Lit, PackedLit};
use std::alloc::Global;
use std::test::Fail;

/// Clauses, and the decisions that are open. What follows is computed anew at each question.
#[derive(Drop)]
pub struct Plain {
    pub vars: u64,
    pub clauses: ClauseList,
    pub decisions: Vec<Lit>,
}

/// How a clause stands under an assignment.
enum Status {
    /// It is neither false nor unit.
    Settled,
    /// Every literal is false.
    False,
    /// This literal is unassigned, and every other one is false.
    Unit(Lit),
}

/// A literal's value, if its variable has one.
pub fn value_of(values: &Assignment, lit: Lit) -> Option<bool> {
    if lit.var.0 < values.len() as u64 {
        values.value(lit)
    } else {
        None
    }
}

/// Makes a literal true.
fn set(values: &mut Assignment, lit: Lit) {
    if lit.var.0 < values.len() as u64 {
        values.set(lit);
    }
}

fn status_of(values: &Assignment, clause: &[PackedLit]) -> Status {
    let mut free: Option<Lit> = None;
    for lit in clause {
        let lit = lit.lit();
        match value_of(values, lit) {
            Some(true) => return Status::Settled,
            Some(false) => {}
            None => match free {
                None => free = Some(lit),
                Some(first) => {
                    if first != lit {
                        return Status::Settled;
                    }
                }
            },
        }
    }
    match free {
        None => Status::False,
        Some(first) => Status::Unit(first),
    }
}

/// Makes true what follows from one clause at a time. Whether no clause is false then.
fn run_pass(values: &mut Assignment, clauses: &ClauseList) -> bool {
    for place in 0..clauses.len() {
        let Some(clause) = clauses.get(place) else {
            return false;
        };
        match status_of(values, clause) {
            Status::False => return false,
            Status::Unit(lit) => set(values, lit),
            Status::Settled => {}
        }
    }
    true
}

impl Plain {
    /// What follows from the decisions, or None where a clause is false by it. Each pass but the last adds a value.
    pub fn consequences(&self, alloc: Global) -> Result<Option<Assignment>, Fail> {
        let mut values = Assignment::new(alloc);
        values.grow(self.vars as usize)?;
        for lit in &self.decisions {
            if value_of(&values, *lit) == Some(false) {
                return Ok(None);
            }
            set(&mut values, *lit);
        }
        for _ in 0..self.vars {
            if !run_pass(&mut values, &self.clauses) {
                return Ok(None);
            }
        }
        Ok(if run_pass(&mut values, &self.clauses) {
            Some(values)
        } else {
            None
        })
    }
}
