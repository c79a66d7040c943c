//! A log that is checked as it grows.
ghost use Rattle.std.specs.Prelude.{◌≡◌, ◌≤◌, ◌<◌, ◌↔◌, length, IfOk, OnOk, IsTrue};
ghost use Rattle.derivation_log.specs.declared.entries.Entry.TheVariants.{Mark};
ghost use Rattle.derivation_log.specs.Lines.{entry_text};
ghost use Rattle.derivation_log.specs.Steps.{LogStep, after};
ghost use Rattle.log_checker.specs.States.{state_view};
ghost use Rattle.log_checker.specs.Growing.{beginning, known, GoesOn, Answers, Reaches};

use crate::advancing::{advance, started};
use crate::checked::Checked;
use crate::checking::go_through;
use crate::undoing::{cut_back, ends_of};
use derivation_log::Entry;
use ground_core::{Memory, Problem};
use std::alloc::Global;
use std::marker::Model;

/// A log that is checked as it grows: what its entries so far leave.
#[derive(Drop)]
pub struct Checker {
    alloc: Global,
    pub(crate) problem: Problem,
    pub(crate) st: Checked,
}

impl Model for Checker {
    ghost use Rattle.log_checker.specs.Growing.{Checking};

    ghost Value = { Checking };

    ghost use Rattle.log_checker.specs.CheckerFields.{checking_of, keeps};

    ghost view = { checking_of };

    ghost invariant = { keeps };
}

/// Whether all of it was gone through, and the last mark is this line's.
fn is_done(at: usize, len: usize, last: u64, line: u64) -> bool
    ensures { IsTrue result ↔ ((len ≤ at) × (last ≡ line)) }
{
    len <= at && last == line
}

/// Goes on by the statement, or leaves the state as it was.
fn follow(
    alloc: Global,
    p: &Problem,
    st: &mut Checked,
    line: u64,
    statement: &[u8],
) -> Result<bool, Memory>
    ensures answers { IfOk result (Answers (known p.now (state_view st.old)) line statement.now (known p.now
        (state_view st.new))) }
    ensures reaches { Reaches p.now (state_view st.old) (state_view st.new) }
{
    let ends = ends_of(st);
    let reached = go_through(alloc, p, st, statement)?;
    if is_done(reached.at, statement.len(), st.line, line) {
        return Ok(true);
    }
    cut_back(st, ends);
    Ok(false)
}

impl Checker {
    /// There is no entry yet.
    pub fn begin(alloc: Global, problem: Problem) -> Result<Checker, Memory>
        ensures { IfOk result (λ c. c ≡ beginning problem) }
    {
        let st = started(alloc, &problem)?;
        Ok(Checker { alloc, problem, st })
    }

    /// Goes on by the mark of a line.
    pub fn mark(&mut self, line: u64)
        requires { self.old.state.line < line }
        ensures goes_on { GoesOn self.old (entry_text (Mark line)) self.new }
        ensures line { self.new.state.line ≡ line }
    {
        self.st.line = line;
    }

    /// Goes on by the statement of a line, behind which that line's mark is the last one; or stays where it is, exactly
    /// where the statement is none of entries that are steps, or another mark is the last one.
    pub fn go_on(&mut self, line: u64, statement: &[u8]) -> Result<bool, Memory>
        ensures answers { IfOk result (Answers self.old line statement.now self.new) }
        ensures problem { self.new.problem ≡ self.old.problem }
    {
        follow(self.alloc, &self.problem, &mut self.st, line, statement)
    }

    /// Goes on by an entry that is a step.
    pub fn add(&mut self, entry: Entry) -> Result<(), Memory>
        requires step { LogStep self.old.problem self.old.state entry }
        ensures adds { OnOk result (self.new ≡ known self.old.problem (after self.old.state entry)) }
        ensures problem { self.new.problem ≡ self.old.problem }
    {
        advance(self.alloc, &mut self.st, entry)
    }
}
