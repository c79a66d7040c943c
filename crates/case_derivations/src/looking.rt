//! What is seen where literals are in force: something false, or a variable that is not assigned.
ghost use Rattle.std.specs.Prelude.{◌≡◌, List, IfOk, OnOk, IfSome, MatchOption, IsTrue, ◌↔◌, ◌⊎◌, true};
ghost use Rattle.lit_core.specs.Literals.{negated};
ghost use Rattle.lit_core.specs.declared.literals.Lit.{Lit};
ghost use Rattle.ground_core.specs.Problems.{AreLitsOf, IsLitOf};
ghost use Rattle.derivation_log.specs.Steps.{HasNoOpposites};
ghost use Rattle.log_checker.specs.Sets.{has, IsMarked};
ghost use Rattle.case_derivations.specs.Adding.{Adds};
ghost use Rattle.case_derivations.specs.Looking.{AreAssigned, IsUnassigned, Sees};

use crate::adding::add_sum;
use ground_core::Memory;
use lit_core::{Lit, Var};
use log_checker::{Checker, LiteralSet};
use std::alloc::Global;

/// What is seen: the number of a clause that is false, a literal whose variable is not assigned, or that all are
/// assigned and nothing is false.
#[derive(Clone, Copy)]
pub enum Seen {
    FalseClause(u64),
    OpenLiteral(Lit),
    NothingFalse,
}

/// Whether the literal's variable is one of the first.
fn is_lit_of(vars: u64, lit: Lit) -> bool
    ensures { IsTrue result ↔ IsLitOf vars lit }
{
    1 <= lit.var.0 && lit.var.0 <= vars
}

/// Whether the literal or its negation is marked.
fn is_assigned(set: &LiteralSet, lit: Lit) -> bool
    ensures { IsTrue result ↔ ((has set.now lit ≡ true) ⊎ (has set.now (negated lit) ≡ true)) }
{
    set.has(lit) || set.has(lit.negated())
}

/// The first variable that is not assigned, where these literals are marked.
fn first_unassigned(vars: u64, set: &LiteralSet) -> Option<Lit>
    ensures { (inforce : List Lit) → IsMarked set.now inforce
        → MatchOption result (AreAssigned vars inforce) (IsUnassigned vars inforce) }
{
    for before in 0..vars {
        let lit = Lit {
            var: Var(before + 1),
            positive: true,
        };
        if !is_assigned(set, lit) {
            return Some(lit);
        }
    }
    None
}

/// The negation of a literal that a clause leaves open alone, if there is one: where it is true, the clause is false at
/// once. Else a variable that is not assigned.
fn unassigned(checker: &Checker, set: &LiteralSet) -> Option<Lit>
    ensures { (inforce : List Lit) → IsMarked set.now inforce → MatchOption result
        (AreAssigned checker.now.state.vars inforce) (IsUnassigned checker.now.state.vars inforce) }
{
    let vars = checker.vars();
    if let Some(lit) = checker.open_literal(set) {
        if is_lit_of(vars, lit) {
            return Some(lit.negated());
        }
    }
    first_unassigned(vars, set)
}

/// What is seen where these literals are in force.
pub fn look(
    alloc: Global,
    checker: &mut Checker,
    text: &mut Vec<u8>,
    inforce: &[Lit],
) -> Result<Seen, Memory>
    requires literals { AreLitsOf checker.old.state.vars inforce.now }
    requires fine { HasNoOpposites inforce.now }
    ensures adds { OnOk result (Adds checker.old checker.new text.old.items text.new.items) }
    ensures sees { IfOk result (Sees checker.new inforce.now) }
    ensures problem { checker.new.problem ≡ checker.old.problem }
{
    let mut set = LiteralSet::new(alloc);
    set.mark_all(inforce)?;
    if let Some(number) = checker.false_clause(&set) {
        return Ok(Seen::FalseClause(number));
    }
    if let Some(constraint) = checker.failing_constraint(&set, inforce)? {
        let number = add_sum(alloc, checker, text, inforce, constraint)?;
        return Ok(Seen::FalseClause(number));
    }
    // Asked for what it says of the checker: where all is assigned and nothing is false, the literals are admitted.
    let _vars = checker.vars();
    match unassigned(checker, &set) {
        Some(lit) => Ok(Seen::OpenLiteral(lit)),
        None => Ok(Seen::NothingFalse),
    }
}
