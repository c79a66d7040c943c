//! Whether an entry is a step, one function a kind.
ghost use Rattle.std.specs.Prelude.{◌≡◌, ◌+◌, ◌-◌, ◌≤◌, ◌<◌, List, [], IfOk, OnOk, IsTrue, ◌↔◌, map, length};
ghost use Rattle.kb_logic.specs.declared.elements.ExtInt.TheVariants.{NegInf};
ghost use Rattle.lit_core.specs.declared.literals.Lit.{Lit};
ghost use Rattle.lit_core.specs.Literals.{negated};
ghost use Rattle.ground_core.specs.Problems.{IsLitOf, AreLitsOf};
ghost use Rattle.derivation_log.specs.declared.entries.Entry.TheVariants.{
  Bound,
  Exclude,
  Forced,
  Inconsistent,
  Learnt,
  Least,
  Sum,
};
ghost use Rattle.derivation_log.specs.Steps.{IsTermNumber, LogStep, CannotHold, HasNoOpposites};
ghost use Rattle.log_checker.specs.Sets.{OnlyIn, IsMarked};
ghost use Rattle.log_checker.specs.States.{state_view};
ghost use Rattle.log_checker.specs.Refuting.{RefutesFrom};

use crate::checked::Checked;
use crate::citing::{Other, cites};
use crate::literal_sets::LiteralSet;
use crate::marking::has_opposites;
use crate::refuting::refutes;
use crate::sums::cannot_hold;
use derivation_log::Entry;
use ground_core::{Memory, Problem};
use kb_logic::ExtInt;
use lit_core::{ClauseList, Lit, Var};
use std::alloc::Global;

/// Whether the literal is one of the first n variables, from 1 on.
fn is_lit_of(n: u64, lit: Lit) -> bool
    ensures { IsTrue result ↔ IsLitOf n lit }
{
    1 <= lit.var.0 && lit.var.0 <= n
}

/// Whether all of them are.
fn are_lits_of(n: u64, lits: &[Lit]) -> bool
    ensures { IsTrue result ↔ AreLitsOf n lits.now }
{
    for lit in lits {
        if !is_lit_of(n, *lit) {
            return false;
        }
    }
    true
}

/// What is in force where the clause is false.
fn negations(alloc: Global, lits: &[Lit]) -> Result<Vec<Lit>, Memory>
    ensures { IfOk result (λ v. v.items ≡ map negated lits.now) }
{
    let mut out = Vec::new(alloc);
    for lit in lits {
        out.push(lit.negated())?;
    }
    Ok(out)
}

/// Whether the clauses of these numbers refute the clause's negations in order.
fn follows(
    alloc: Global,
    clauses: &ClauseList,
    set: &mut LiteralSet,
    lits: &[Lit],
    hints: &[u64],
) -> Result<bool, Memory>
    requires { OnlyIn set.old [] }
    ensures decides { IfOk result (λ b. IsTrue b ↔ RefutesFrom clauses.now (map negated lits.now) hints.now) }
    ensures clean { OnOk result (OnlyIn set.new []) }
{
    let mut inforce = negations(alloc, lits)?;
    set.mark_all(&inforce)?;
    let found = refutes(clauses, set, &mut inforce, hints)?;
    set.unmark_all(&inforce);
    Ok(found)
}

/// Whether the constraint cannot hold where the clause is false.
fn fails(
    alloc: Global,
    p: &Problem,
    st: &Checked,
    set: &mut LiteralSet,
    lits: &[Lit],
    n: u64,
) -> Result<bool, Memory>
    requires clean { OnlyIn set.old [] }
    requires fine { HasNoOpposites lits.now }
    ensures decides { IfOk result (λ b. IsTrue b ↔ CannotHold p.now (state_view st.now) (map negated lits.now) n) }
    ensures clean { OnOk result (OnlyIn set.new []) }
{
    let inforce = negations(alloc, lits)?;
    set.mark_all(&inforce)?;
    let found = cannot_hold(p, st, set, &inforce, n)?;
    set.unmark_all(&inforce);
    Ok(found)
}

/// Whether the literals are of these variables, and none is there with its negation.
fn is_fine(vars: u64, set: &mut LiteralSet, lits: &[Lit]) -> Result<bool, Memory>
    requires { OnlyIn set.old [] }
    ensures decides { IfOk result (λ b. IsTrue b ↔ (AreLitsOf vars lits.now × HasNoOpposites lits.now)) }
    ensures clean { OnOk result (OnlyIn set.new []) }
{
    if !are_lits_of(vars, lits) {
        return Ok(false);
    }
    Ok(!has_opposites(set, lits)?)
}

/// `l`: a clause with its hints.
fn is_learnt(
    alloc: Global,
    p: &Problem,
    st: &Checked,
    set: &mut LiteralSet,
    lits: &[Lit],
    hints: &[u64],
) -> Result<bool, Memory>
    requires { OnlyIn set.old [] }
    ensures decides { IfOk result (λ b. IsTrue b ↔ LogStep p.now (state_view st.now) (Learnt lits.now hints.now)) }
    ensures clean { OnOk result (OnlyIn set.new []) }
{
    if !is_fine(st.vars, set, lits)? {
        return Ok(false);
    }
    follows(alloc, &st.clauses, set, lits, hints)
}

/// `c`: a clause of one constraint.
fn is_sum(
    alloc: Global,
    p: &Problem,
    st: &Checked,
    set: &mut LiteralSet,
    n: u64,
    lits: &[Lit],
) -> Result<bool, Memory>
    requires { OnlyIn set.old [] }
    ensures decides { IfOk result (λ b. IsTrue b ↔ LogStep p.now (state_view st.now) (Sum n lits.now)) }
    ensures clean { OnOk result (OnlyIn set.new []) }
{
    if n == 0 {
        return Ok(false);
    }
    if !is_fine(st.vars, set, lits)? {
        return Ok(false);
    }
    fails(alloc, p, st, set, lits, n - 1)
}

/// Whether the variable is the next one.
fn is_next(vars: u64, s: u64) -> bool
    ensures { IsTrue result ↔ (s ≡ vars + 1) }
{
    s != 0 && s - 1 == vars
}

/// Whether the problem has a term of this number, from 1 on.
fn is_term_number(p: &Problem, t: u32) -> bool
    ensures { IsTrue result ↔ IsTermNumber p.now t }
{
    1 <= t && t as usize <= p.terms().len()
}

/// Whether the bound is the one that no entry has.
fn is_no_number(k: ExtInt) -> bool
    ensures { IsTrue result ↔ (k ≡ NegInf) }
{
    match k {
        ExtInt::NegInf => true,
        ExtInt::Num(_) => false,
        ExtInt::PosInf => false,
    }
}

/// `b`: a bound.
fn is_bound(p: &Problem, st: &Checked, s: Var, t: u32, k: ExtInt) -> bool
    ensures { IsTrue result ↔ LogStep p.now (state_view st.now) (Bound s t k) }
{
    is_next(st.vars, s.0) && is_term_number(p, t) && !is_no_number(k)
}

/// `n`: an exclusion.
fn is_exclusion(p: &Problem, st: &Checked, s: Var, lits: &[Lit]) -> bool
    ensures { IsTrue result ↔ LogStep p.now (state_view st.now) (Exclude s lits.now) }
{
    is_next(st.vars, s.0) && are_lits_of(st.vars, lits)
}

/// Whether all of the literals are of ground atoms.
fn are_atoms(p: &Problem, lits: &[Lit]) -> bool
    ensures { IsTrue result ↔ AreLitsOf (length p.now.atoms) lits.now }
{
    are_lits_of(p.atoms().len() as u64, lits)
}

/// `i`: a claim that nothing makes the literals true.
fn is_inconsistent(
    p: &Problem,
    st: &Checked,
    set: &mut LiteralSet,
    lits: &[Lit],
    c: u64,
) -> Result<bool, Memory>
    requires { OnlyIn set.old [] }
    ensures decides { IfOk result (λ b. IsTrue b ↔ LogStep p.now (state_view st.now) (Inconsistent lits.now c)) }
    ensures clean { OnOk result (OnlyIn set.new []) }
{
    if !are_atoms(p, lits) {
        return Ok(false);
    }
    cites(st, set, lits, Other::Nothing, c)
}

/// `f`: a claim that the literals make another one true.
fn is_forced(
    p: &Problem,
    st: &Checked,
    set: &mut LiteralSet,
    l: Lit,
    lits: &[Lit],
    c: u64,
) -> Result<bool, Memory>
    requires { OnlyIn set.old [] }
    ensures decides { IfOk result (λ b. IsTrue b ↔ LogStep p.now (state_view st.now) (Forced l lits.now c)) }
    ensures clean { OnOk result (OnlyIn set.new []) }
{
    if !is_lit_of(p.atoms().len() as u64, l) {
        return Ok(false);
    }
    if !are_atoms(p, lits) {
        return Ok(false);
    }
    cites(st, set, lits, Other::Forced(l), c)
}

/// A term and the number that it is claimed not to be below.
#[derive(Clone, Copy)]
struct Minimum {
    term: u32,
    below: ExtInt,
}

/// `m`: a claim of a minimum.
fn is_least(
    p: &Problem,
    st: &Checked,
    set: &mut LiteralSet,
    minimum: Minimum,
    lits: &[Lit],
    c: u64,
) -> Result<bool, Memory>
    requires { OnlyIn set.old [] }
    ensures decides { IfOk result (λ b. IsTrue b ↔ LogStep p.now (state_view st.now) (Least minimum.term
        minimum.below lits.now c)) }
    ensures clean { OnOk result (OnlyIn set.new []) }
{
    if !is_term_number(p, minimum.term) {
        return Ok(false);
    }
    if is_no_number(minimum.below) {
        return Ok(false);
    }
    if !are_atoms(p, lits) {
        return Ok(false);
    }
    cites(st, set, lits, Other::Below(minimum.term, minimum.below), c)
}

/// Whether the entry is a step.
pub fn is_step(
    alloc: Global,
    p: &Problem,
    st: &Checked,
    set: &mut LiteralSet,
    e: &Entry,
) -> Result<bool, Memory>
    requires { OnlyIn set.old [] }
    ensures decides { IfOk result (λ b. IsTrue b ↔ LogStep p.now (state_view st.now) e.now) }
    ensures clean { OnOk result (OnlyIn set.new []) }
{
    match e {
        Entry::Mark(n) => Ok(st.line < *n),
        Entry::Learnt(lits, hints) => {
            is_learnt(alloc, p, st, set, lits.as_slice(), hints.as_slice())
        }
        Entry::Sum(n, lits) => is_sum(alloc, p, st, set, *n, lits.as_slice()),
        Entry::Bound(s, t, k) => Ok(is_bound(p, st, *s, *t, *k)),
        Entry::Exclude(s, lits) => Ok(is_exclusion(p, st, *s, lits.as_slice())),
        Entry::Inconsistent(lits, c) => is_inconsistent(p, st, set, lits.as_slice(), *c),
        Entry::Forced(l, lits, c) => is_forced(p, st, set, *l, lits.as_slice(), *c),
        Entry::Least(t, k, lits, c) => {
            let minimum = Minimum {
                term: *t,
                below: *k,
            };
            is_least(p, st, set, minimum, lits.as_slice(), *c)
        }
    }
}
