//! What a formula comes to.
ghost use Rattle.std.specs.Prelude.{◌≡◌, if◌then◌else◌};
ghost use Rattle.def_ground.specs.Answers.{opposite_of};
ghost use Rattle.def_ground.specs.Forms.{answer_of_atom};

use lit_core::{Lit, Var};

/// What a formula comes to under an assignment: certain, or as the literal says.
#[derive(Clone, Copy)]
pub enum Answer {
    Constant(bool),
    Literal(Lit),
}

impl Answer {
    /// What an atom comes to: what is known of it, or else its variable.
    pub fn of_atom(known: Option<bool>, var: u64) -> Answer
        ensures { result ≡ answer_of_atom known var }
    {
        match known {
            Some(value) => Answer::Constant(value),
            None => Answer::Literal(Lit {
                var: Var(var),
                positive: true,
            }),
        }
    }

    /// The answer with the other value.
    pub fn opposite(self) -> Answer
        ensures { result ≡ opposite_of self }
    {
        match self {
            Answer::Constant(value) => Answer::Constant(!value),
            Answer::Literal(lit) => Answer::Literal(lit.negated()),
        }
    }

    /// The answer, or the one with the other value where the sign is false.
    pub fn signed(self, sign: bool) -> Answer
        ensures { result ≡ (if sign then self else opposite_of self) }
    {
        if sign { self } else { self.opposite() }
    }
}
