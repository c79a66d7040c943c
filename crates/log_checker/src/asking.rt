//! What a derivation asks of a checker: what is false where literals are in force.
ghost use Rattle.std.specs.Prelude.{◌≡◌, ◌+◌, List, length, IfOk, IfSome, IsTrue, ◌↔◌, MatchOption};
ghost use Rattle.lit_core.specs.declared.literals.Lit.{Lit};
ghost use Rattle.lit_core.specs.Refutation.{IsFalseUnder, IsOpenUnder};
ghost use Rattle.derivation_log.specs.Steps.{HasNoOpposites};
ghost use Rattle.log_checker.specs.Sets.{IsMarked};
ghost use Rattle.log_checker.specs.States.{state_view};
ghost use Rattle.log_checker.specs.Refuting.{IsNamed};
ghost use Rattle.log_checker.specs.Growing.{known};
ghost use Rattle.log_checker.specs.Keeping.{IsKept};
ghost use Rattle.log_checker.specs.Cases.{IsFalseAt, NoneIsFalse, FailsAt, NoneFails};

use crate::checked::Checked;
use crate::checker::Checker;
use crate::literal_sets::LiteralSet;
use crate::refuting::{Seen, look, named};
use crate::sums::cannot_hold;
use ground_core::{Memory, Problem};
use lit_core::{ClauseList, Lit, PackedLit};

/// Whether all literals of the clause are false.
fn is_false(set: &LiteralSet, clause: &[PackedLit]) -> bool
    ensures { (inforce : List Lit) → IsMarked set.now inforce → (IsTrue result ↔ IsFalseUnder inforce clause.now) }
{
    match look(set, clause) {
        Seen::AllFalse => true,
        Seen::One(_) => false,
        Seen::Neither => false,
    }
}

/// Whether there is a clause at the place, and it is false.
fn is_false_at(clauses: &ClauseList, set: &LiteralSet, place: usize) -> bool
    ensures { (inforce : List Lit) → IsMarked set.now inforce
        → (IsTrue result ↔ IsFalseAt clauses.now inforce (place + 1)) }
{
    match clauses.get(place) {
        Some(clause) => is_false(set, clause),
        None => false,
    }
}

/// The number of the first clause that is false.
fn first_false(clauses: &ClauseList, set: &LiteralSet) -> Option<u64>
    ensures { (inforce : List Lit) → IsMarked set.now inforce → MatchOption result (NoneIsFalse clauses.now inforce)
        (IsFalseAt clauses.now inforce) }
{
    for place in 0..clauses.len() {
        if is_false_at(clauses, set, place) {
            return Some(place as u64 + 1);
        }
    }
    None
}

/// The literal that the clause leaves open, if it is one alone.
fn left_open(set: &LiteralSet, clause: &[PackedLit]) -> Option<Lit>
    ensures { (inforce : List Lit) → IsMarked set.now inforce → IfSome result (IsOpenUnder inforce) }
{
    match look(set, clause) {
        Seen::AllFalse => None,
        Seen::One(lit) => Some(lit),
        Seen::Neither => None,
    }
}

/// The literal that the first clause with one open literal alone leaves open.
fn first_open(clauses: &ClauseList, set: &LiteralSet) -> Option<Lit>
    ensures { (inforce : List Lit) → IsMarked set.now inforce → IfSome result (IsOpenUnder inforce) }
{
    for place in 0..clauses.len() {
        if let Some(clause) = clauses.get(place) {
            let open = left_open(set, clause);
            if open.is_some() {
                return open;
            }
        }
    }
    None
}

/// How many sums the problem has, and bounds the log.
fn count_constraints(p: &Problem, st: &Checked) -> Result<u64, Memory>
    ensures { IfOk result (λ n. n ≡ length p.now.sums + length (state_view st.now).bounds) }
{
    match (p.sums().len() as u64).checked_add(st.bounds.as_slice().len() as u64) {
        Some(count) => Ok(count),
        None => Err(Memory),
    }
}

/// The number of the first constraint that cannot hold.
fn first_failing(
    p: &Problem,
    st: &Checked,
    set: &LiteralSet,
    inforce: &[Lit],
) -> Result<Option<u64>, Memory>
    requires marked { IsMarked set.now inforce.now }
    requires fine { HasNoOpposites inforce.now }
    ensures { IfOk result (λ o. MatchOption o (NoneFails (known p.now (state_view st.now)) inforce.now)
        (FailsAt (known p.now (state_view st.now)) inforce.now)) }
{
    let count = count_constraints(p, st)?;
    for place in 0..count {
        let fails = cannot_hold(p, st, set, inforce, place)?;
        if fails {
            return Ok(Some(place + 1));
        }
    }
    Ok(None)
}

impl Checker {
    /// The greatest variable in use.
    pub fn vars(&self) -> u64
        ensures value { result ≡ self.now.state.vars }
        ensures laws { IsKept self.now }
    {
        self.st.vars
    }

    /// How many constraints an entry may cite: the problem's sums, and the bounds that the log added.
    pub fn constraints(&self) -> Result<u64, Memory>
        ensures { IfOk result (λ n. n ≡ length self.now.problem.sums + length self.now.state.bounds) }
    {
        count_constraints(&self.problem, &self.st)
    }

    /// The number of clauses.
    pub fn clause_count(&self) -> u64
        ensures { result ≡ length self.now.state.clauses }
    {
        self.st.clauses.len() as u64
    }

    /// The clause of this number, if there is one.
    pub fn clause(&self, number: u64) -> Option<&[PackedLit]>
        ensures { MatchOption result ((c : List Lit) → IsNamed self.now.state.clauses number c → ⊥)
            (λ c. IsNamed self.now.state.clauses number c.now) }
    {
        named(&self.st.clauses, number)
    }

    /// The number of a clause that is false where the marked literals are in force; None where there is none.
    pub fn false_clause(&self, set: &LiteralSet) -> Option<u64>
        ensures { (inforce : List Lit) → IsMarked set.now inforce
            → MatchOption result (NoneIsFalse self.now.state.clauses inforce)
            (IsFalseAt self.now.state.clauses inforce) }
    {
        first_false(&self.st.clauses, set)
    }

    /// A literal that some clause leaves open alone, where the marked literals are in force.
    pub fn open_literal(&self, set: &LiteralSet) -> Option<Lit>
        ensures { (inforce : List Lit) → IsMarked set.now inforce → IfSome result (IsOpenUnder inforce) }
    {
        first_open(&self.st.clauses, set)
    }

    /// The number of a constraint that cannot hold where these literals are in force; None where there is none.
    pub fn failing_constraint(
        &self,
        set: &LiteralSet,
        inforce: &[Lit],
    ) -> Result<Option<u64>, Memory>
        requires marked { IsMarked set.now inforce.now }
        requires fine { HasNoOpposites inforce.now }
        ensures { IfOk result (λ o. MatchOption o (NoneFails self.now inforce.now) (FailsAt self.now inforce.now)) }
    {
        first_failing(&self.problem, &self.st, set, inforce)
    }
}
