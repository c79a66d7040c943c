//! The cases that are open.
ghost use Rattle.std.specs.Prelude.{◌≡◌, List, [], ◌∷◌, OnOk, IfOk, MatchOption};
ghost use Rattle.case_derivations.specs.OpenCases.{in_force};

use ground_core::Memory;
use lit_core::Lit;
use std::alloc::Global;
use std::marker::Model;

/// A literal that is true in this case, and the number of a clause that is false in the other one, where the literal is
/// false; 0 where that one comes later.
#[derive(Clone, Copy)]
pub struct Case {
    pub lit: Lit,
    pub other: u64,
}

/// Cases one within the other, which contracts see from the innermost one on.
#[derive(Drop)]
pub struct OpenCases {
    list: Vec<Case>,
}

impl Model for OpenCases {
    ghost use Rattle.std.specs.Prelude.{List, reverse};
    ghost use Rattle.case_derivations.specs.declared.open_cases.Case.{Case};

    ghost Value = { List Case };

    ghost view = { λ c. reverse c.list.items };
}

impl OpenCases {
    /// No case.
    pub fn new(alloc: Global) -> OpenCases
        ensures { result ≡ [] }
    {
        OpenCases {
            list: Vec::new(alloc),
        }
    }

    /// One more case within the others.
    pub fn push(&mut self, case: Case) -> Result<(), Memory>
        ensures { OnOk result (self.new ≡ case ∷ self.old) }
    {
        self.list.push(case)?;
        Ok(())
    }

    /// Leaves the innermost case.
    pub fn pop(&mut self) -> Option<Case>
        ensures { MatchOption result (self.old ≡ []) (λ c. self.old ≡ c ∷ self.new) }
    {
        self.list.pop()
    }

    /// The literals in force, where these were given.
    pub fn in_force(&self, alloc: Global, lits: &[Lit]) -> Result<Vec<Lit>, Memory>
        ensures { IfOk result (λ all. all.items ≡ in_force lits.now self.now) }
    {
        let mut all = Vec::from_slice(alloc, lits)?;
        for case in self.list.as_slice() {
            all.push(case.lit)?;
        }
        Ok(all)
    }
}
