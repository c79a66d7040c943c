//! Clauses: disjunctions of literals.
ghost use Rattle.std.specs.Prelude.{◌≡◌, ◌↔◌, ◌++◌, ◌∷◌, [], length, IsTrue, IfOk, OnOk, OnErr};

use crate::literals::Lit;
use smallvec::SmallVec;
use std::alloc::{AllocError as Memory, Global};
use std::marker::Model;

/// A disjunction of literals. Up to three of them stand in the value itself.
#[derive(Debug, Drop)]
pub struct Clause {
    lits: SmallVec<Lit, 3>,
}

impl Model for Clause {
    ghost use Rattle.std.specs.Prelude.{List};
    ghost use Rattle.lit_core.specs.declared.literals.Lit.{Lit};

    ghost Value = { List Lit };

    ghost view = { λ c. c.lits.items };
}

impl Clause {
    /// The empty clause, which is false.
    pub fn new(alloc: Global) -> Clause
        ensures { result ≡ [] }
    {
        Clause {
            lits: SmallVec::new(alloc),
        }
    }

    /// The clause of these literals.
    pub fn from_slice(alloc: Global, lits: &[Lit]) -> Result<Clause, Memory>
        ensures { IfOk result (λ c. c ≡ lits.now) }
    {
        Ok(Clause {
            lits: SmallVec::from_slice(alloc, lits)?,
        })
    }

    /// The clause of these literals, in their own memory.
    pub fn from_small_vec(lits: SmallVec<Lit, 3>) -> Clause
        ensures { result ≡ lits.items }
    {
        Clause { lits }
    }

    /// Adds a literal at the end.
    pub fn push(&mut self, lit: Lit) -> Result<(), Memory>
        ensures ok { OnOk result (self.new ≡ self.old ++ lit ∷ []) }
        ensures err { OnErr result (self.new ≡ self.old) }
    {
        self.lits.push(lit)?;
        Ok(())
    }

    /// The number of literals.
    pub fn len(&self) -> usize
        ensures { result ≡ length self.now }
    {
        self.lits.len()
    }

    /// Whether there is no literal.
    pub fn is_empty(&self) -> bool
        ensures { IsTrue result ↔ (length self.now ≡ 0) }
    {
        self.lits.is_empty()
    }

    /// The literals.
    pub fn as_slice(&self) -> &[Lit]
        ensures { result.now ≡ self.now }
    {
        self.lits.as_slice()
    }

    /// A clause of the same literals.
    pub fn copy(&self, alloc: Global) -> Result<Clause, Memory>
        ensures { IfOk result (λ c. c ≡ self.now) }
    {
        Clause::from_slice(alloc, self.as_slice())
    }
}
