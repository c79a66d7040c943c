//! A literal in 32 bits, for where many are kept.
ghost use Rattle.std.specs.Prelude.{◌≡◌, ◌↔◌, IsTrue};
ghost use Rattle.lit_core.specs.Packing.{Fits};

use crate::literals::{Lit, Var};
use std::marker::Model;

/// A literal as one number: twice that of its variable, and one more where it is positive.
#[derive(Clone, Copy, Debug)]
pub struct PackedLit(u32);

impl Model for PackedLit {
    ghost use Rattle.lit_core.specs.declared.literals.Lit.{Lit};
    ghost use Rattle.lit_core.specs.Packing.{number_of, number_of-unpacked, unpacked};
    ghost use Rattle.std.proofs.Common.{ap};

    ghost Value = { Lit };

    ghost view = { λ p. unpacked p.0 };

    ghost inverse = { λ l. record { 0 = number_of l } };

    ghost inverse_ok = { λ a h. ap (λ n. record { 0 = n }) (number_of-unpacked a.0) };
}

impl PackedLit {
    /// Whether there is a number for the literal.
    pub fn fits(lit: Lit) -> bool
        ensures { IsTrue result ↔ Fits lit }
    {
        lit.var.0 < 2_147_483_648
    }

    /// The literal by its number.
    pub fn new(lit: Lit) -> PackedLit
        requires { Fits lit }
        ensures { result ≡ lit }
    {
        let number = lit.var.0 as u32 * 2;
        PackedLit(if lit.positive { number + 1 } else { number })
    }

    /// The literal.
    pub fn lit(self) -> Lit
        ensures value { result ≡ self }
        ensures fits { Fits result }
    {
        Lit {
            var: Var(self.0 as u64 / 2),
            positive: self.0 % 2 == 1,
        }
    }
}
