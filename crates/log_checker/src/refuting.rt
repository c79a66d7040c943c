//! Clauses that refute what is in force, one after another.
ghost use Rattle.std.specs.Prelude.{◌≡◌, ◌-◌, ◌≤◌, List, ◌++◌, [], ◌∷◌, true, false, IfOk, OnOk, IsTrue, ◌↔◌};
ghost use Rattle.std.specs.Prelude.{MatchOption, Some, slice_get, Contains};
ghost use Rattle.lit_core.specs.declared.literals.Lit.{Lit};
ghost use Rattle.lit_core.specs.Refutation.{IsFalseUnder, IsUnitUnder};
ghost use Rattle.log_checker.specs.Sets.{has, OnlyIn, IsMarked};
ghost use Rattle.log_checker.specs.Refuting.{IsSeen, RefutesFrom, IsNamed};

use crate::literal_sets::LiteralSet;
use ground_core::Memory;
use lit_core::{ClauseList, Lit, PackedLit};

/// What a clause is under the literals in force.
#[derive(Clone, Copy)]
pub enum Seen {
    AllFalse,
    /// All literals but this one are false, and it is not.
    One(Lit),
    Neither,
}

/// The clause under the literals in force.
pub fn look(set: &LiteralSet, clause: &[PackedLit]) -> Seen
    ensures { (inforce : List Lit) → IsMarked set.now inforce → IsSeen inforce clause.now result }
{
    let mut open: Option<Lit> = None;
    for packed in clause {
        let lit = packed.lit();
        if !set.has(lit.negated()) {
            if set.has(lit) {
                return Seen::Neither;
            }
            if let Some(other) = open {
                if !same(other, lit) {
                    return Seen::Neither;
                }
            }
            open = Some(lit);
        }
    }
    match open {
        Some(lit) => Seen::One(lit),
        None => Seen::AllFalse,
    }
}

/// Whether the two are one literal.
pub fn same(a: Lit, b: Lit) -> bool
    ensures { IsTrue result ↔ (a ≡ b) }
{
    a.var.0 == b.var.0 && a.positive == b.positive
}

/// The clause of this number, if there is one.
pub fn named(clauses: &ClauseList, number: u64) -> Option<&[PackedLit]>
    ensures { MatchOption result ((c : List Lit) → IsNamed clauses.now number c → ⊥) (λ c. IsNamed clauses.now number
        c.now) }
{
    if number == 0 {
        return None;
    }
    clauses.get((number - 1) as usize)
}

/// Whether the clauses of these numbers refute what is in force.
pub fn refutes(
    clauses: &ClauseList,
    set: &mut LiteralSet,
    inforce: &mut Vec<Lit>,
    hints: &[u64],
) -> Result<bool, Memory>
    requires { IsMarked set.old inforce.old.items }
    ensures decides { IfOk result (λ b. IsTrue b ↔ RefutesFrom clauses.now inforce.old.items hints.now) }
    ensures marked { OnOk result (IsMarked set.new inforce.new.items) }
{
    for i in 0..hints.len() {
        let Some(clause) = named(clauses, hints[i]) else {
            return Ok(false);
        };
        match look(set, clause) {
            Seen::AllFalse => return Ok(i + 1 == hints.len()),
            Seen::Neither => return Ok(false),
            Seen::One(lit) => {
                inforce.push(lit)?;
                set.mark(lit)?;
            }
        }
    }
    Ok(false)
}
