//! Variables and literals.
ghost use Rattle.std.specs.Prelude.{◌≡◌};
ghost use Rattle.lit_core.specs.Literals.{negated};

/// A variable, by its number.
#[derive(Clone, Copy, Debug, PartialEq, Eq, PartialOrd, Ord, Hash, Default)]
pub struct Var(pub u64);

/// A variable or its negation.
#[derive(Clone, Copy, Debug, PartialEq, Eq, PartialOrd, Ord, Hash, Default)]
pub struct Lit {
    pub var: Var,
    pub positive: bool,
}

impl Lit {
    /// The literal of the same variable with the other sign.
    pub fn negated(self) -> Lit
        ensures { result ≡ negated self }
    {
        Lit {
            var: self.var,
            positive: !self.positive,
        }
    }
}
