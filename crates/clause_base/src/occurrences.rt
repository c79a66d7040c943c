//! A short clause as one of its literals sees it, and what it says once that one is false.
ghost use Rattle.std.specs.Prelude.{◌≡◌, ◌≢◌, ◌<◌, ◌⊎◌, length, IsTrue, false, None};
ghost use Rattle.lit_core.specs.declared.literals.Lit.{Lit};
ghost use Rattle.clause_base.specs.ShortState.{IsOther, RestIs};

use lit_core::{Assignment, Lit, PackedLit};

/// A short clause seen from one of its literals: its number and the others. Where there are fewer than three others,
/// one stands more than once.
#[derive(Clone, Copy, Debug)]
pub struct Occurrence {
    pub id: u32,
    pub first: PackedLit,
    pub second: PackedLit,
    pub third: PackedLit,
}

/// What the other literals of a short clause say once this one is false.
#[derive(Clone, Copy)]
pub enum Rest {
    /// One is true, or two are unassigned.
    Open,
    /// All but this one are false, and it is unassigned.
    Unit(Lit),
    /// All are false.
    False,
}

/// Whether the literal is another than this one, and unassigned.
fn is_second(lit: Lit, value: Option<bool>, than: Lit) -> bool
    ensures is { IsTrue result → (value ≡ None) × (lit ≢ than) }
    ensures not { (result ≡ false) → (lit ≡ than) ⊎ (value ≢ None) }
{
    value.is_none() && lit != than
}

impl Occurrence {
    /// What the other literals say under these values.
    pub fn look(&self, values: &Assignment) -> Rest
        requires { (m : Lit) → IsOther self.now m → m.var.0 < length values.now }
        ensures { RestIs values.now self.now result }
    {
        let first = self.first.lit();
        let at_first = values.value(first);
        if matches!(at_first, Some(true)) {
            return Rest::Open;
        }
        let second = self.second.lit();
        let at_second = values.value(second);
        if matches!(at_second, Some(true)) {
            return Rest::Open;
        }
        let third = self.third.lit();
        let at_third = values.value(third);
        if matches!(at_third, Some(true)) {
            return Rest::Open;
        }
        if at_first.is_none() {
            if is_second(second, at_second, first) || is_second(third, at_third, first) {
                return Rest::Open;
            }
            return Rest::Unit(first);
        }
        if at_second.is_none() {
            if is_second(third, at_third, second) {
                return Rest::Open;
            }
            return Rest::Unit(second);
        }
        if at_third.is_none() {
            return Rest::Unit(third);
        }
        Rest::False
    }
}
