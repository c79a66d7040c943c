//! The clause that a claim cites.
ghost use Rattle.std.specs.Prelude.{◌≡◌, ◌-◌, List, [], IfOk, OnOk, IsTrue, ◌↔◌, All, Contains, ◌⊎◌};
ghost use Rattle.lit_core.specs.declared.literals.Lit.{Lit};
ghost use Rattle.lit_core.specs.Literals.{negated};
ghost use Rattle.derivation_log.specs.Steps.{Cites};
ghost use Rattle.log_checker.specs.Sets.{OnlyIn, IsMarked};
ghost use Rattle.log_checker.specs.States.{state_view};
ghost use Rattle.log_checker.specs.Citing.{IsSelector, IsOther};
ghost use Rattle.log_checker.specs.declared.citing.Other.TheVariants.{Below};

use crate::bound_tables::BoundTable;
use crate::checked::Checked;
use crate::literal_sets::LiteralSet;
use crate::marking::has_opposites;
use crate::refuting::{named, same};
use ground_core::{Memory, TermBound};
use kb_logic::ExtInt;
use lit_core::{Lit, PackedLit};

/// What a cited clause may have beside the negations of a claim's literals.
#[derive(Clone, Copy)]
pub enum Other {
    Nothing,
    /// The literal that is claimed to be true.
    Forced(Lit),
    /// Negations of selectors under which the term is below the number.
    Below(u32, ExtInt),
}

/// Whether both are the same bound.
fn same_bound(a: ExtInt, b: ExtInt) -> bool
    ensures { IsTrue result ↔ (a ≡ b) }
{
    match a {
        ExtInt::NegInf => match b {
            ExtInt::NegInf => true,
            ExtInt::Num(_) => false,
            ExtInt::PosInf => false,
        },
        ExtInt::Num(x) => match b {
            ExtInt::NegInf => false,
            ExtInt::Num(y) => x == y,
            ExtInt::PosInf => false,
        },
        ExtInt::PosInf => match b {
            ExtInt::NegInf => false,
            ExtInt::Num(_) => false,
            ExtInt::PosInf => true,
        },
    }
}

/// Whether the literal is the negation of the bound's selector, and the bound says that term t is below k.
fn is_selector(b: TermBound, t: u32, k: ExtInt, lit: Lit) -> bool
    ensures { IsTrue result ↔ IsSelector t k lit b }
{
    b.term == t.saturating_sub(1) && same_bound(b.below, k) && same(lit, b.out.negated())
}

/// Whether it is so of one of the bounds.
fn is_some_selector(bounds: &BoundTable, t: u32, k: ExtInt, lit: Lit) -> bool
    ensures { IsTrue result ↔ IsOther bounds.now (Below t k) lit }
{
    match bounds.find(lit.var) {
        Some(b) => is_selector(b, t, k, lit),
        None => false,
    }
}

/// Whether the literal is one that the claim allows.
fn is_other(bounds: &BoundTable, other: Other, lit: Lit) -> bool
    ensures { IsTrue result ↔ IsOther bounds.now other lit }
{
    match other {
        Other::Nothing => false,
        Other::Forced(l) => same(lit, l),
        Other::Below(t, k) => is_some_selector(bounds, t, k, lit),
    }
}

/// Whether the clause has only negations of marked literals, and literals that the claim allows.
fn covers(set: &LiteralSet, clause: &[PackedLit], bounds: &BoundTable, other: Other) -> bool
    ensures { (lits : List Lit) → IsMarked set.now lits → (IsTrue result ↔ All (λ m. Contains lits (negated m)
        ⊎ IsOther bounds.now other m) clause.now) }
{
    for packed in clause {
        let lit = packed.lit();
        if !set.has(lit.negated()) && !is_other(bounds, other, lit) {
            return false;
        }
    }
    true
}

/// Whether the clause of this number has only negations of the literals and what else it may have; number 0 stands for
/// opposites among the literals.
pub fn cites(
    st: &Checked,
    set: &mut LiteralSet,
    lits: &[Lit],
    other: Other,
    number: u64,
) -> Result<bool, Memory>
    requires { OnlyIn set.old [] }
    ensures decides { IfOk result (λ b. IsTrue b ↔ Cites (state_view st.now) lits.now (IsOther st.now.bounds other)
        number) }
    ensures clean { OnOk result (OnlyIn set.new []) }
{
    if number == 0 {
        return has_opposites(set, lits);
    }
    let Some(clause) = named(&st.clauses, number) else {
        return Ok(false);
    };
    set.mark_all(lits)?;
    let found = covers(set, clause, &st.bounds, other);
    set.unmark_all(lits);
    Ok(found)
}
