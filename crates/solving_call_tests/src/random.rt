//! Numbers and literals that look random.
ghost use Rattle.std.specs.Prelude.{◌<◌};

use lit_core::{Lit, Var};

/// Numbers by a linear congruence.
#[derive(Drop)]
pub struct Random(pub u64);

impl Random {
    pub fn below(&mut self, bound: u64) -> u64
        requires { 0 < bound }
        ensures { result < bound }
    {
        self.0 = self
            .0
            .wrapping_mul(6_364_136_223_846_793_005)
            .wrapping_add(1_442_695_040_888_963_407);
        (self.0 >> 33) % bound
    }

    pub fn lit(&mut self, vars: u64) -> Lit
        requires { 0 < vars }
    {
        Lit {
            var: Var(self.below(vars)),
            positive: self.below(2) == 0,
        }
    }
}
