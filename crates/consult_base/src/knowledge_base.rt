//! What is consulted about: a theory of a file, and what a structure of the file makes known.
ghost use Rattle.std.specs.Prelude.{◌≡◌};
ghost use Rattle.consult_base.specs.Opened.{opened, IsKnowledgeBase};

use kb_logic::{Name, Vocabulary};
use narrowed_bases::Narrowing;
use partial_structures::Partial;
use std::marker::Model;
use type_derivation::TypedKb;

/// A file's vocabulary and terms, the theory that is chosen among its theories, what the chosen structure makes known,
/// and what this is narrowed to before anything is grounded.
#[derive(Drop)]
pub struct KnowledgeBase {
    typed: TypedKb,
    theory: usize,
    structure: Name,
    known: Partial,
    narrowing: Narrowing,
}

impl Model for KnowledgeBase {
    ghost use Rattle.std.specs.Coded.{codes};
    ghost use Rattle.type_derivation.specs.contracts.typed.TypedKb as typed_kb;
    ghost use Rattle.narrowed_bases.specs.contracts.narrowings.Narrowing as narrowings;
    ghost use Rattle.consult_base.specs.Opened.{opened, Opened, IsKnowledgeBase};

    ghost Value = { Opened };

    ghost coded = { Prim.hlevel (codes, typed_kb.the_row.coded, narrowings.the_row.coded) };

    ghost view = { λ k. opened k.typed k.theory k.structure k.known k.narrowing };

    ghost invariant = { λ k. IsKnowledgeBase (opened k.typed k.theory k.structure k.known k.narrowing) };
}

impl KnowledgeBase {
    /// The theory of this number, and the data of the structure of this name, with what they are narrowed to.
    pub fn new(
        typed: TypedKb,
        theory: usize,
        structure: Name,
        known: Partial,
        narrowing: Narrowing,
    ) -> KnowledgeBase
        requires { IsKnowledgeBase (opened typed theory structure known narrowing) }
        ensures { result ≡ opened typed theory structure known narrowing }
    {
        KnowledgeBase {
            typed,
            theory,
            structure,
            known,
            narrowing,
        }
    }

    /// The file's vocabulary, theories and terms.
    pub fn typed(&self) -> &TypedKb
        ensures typed { result.now ≡ self.now.typed }
        ensures is { IsKnowledgeBase self.now }
    {
        &self.typed
    }

    pub fn vocabulary(&self) -> &Vocabulary
        ensures vocabulary { result.now ≡ self.now.typed.vocab }
        ensures is { IsKnowledgeBase self.now }
    {
        &self.typed.vocab
    }

    /// The number of the theory.
    pub fn theory(&self) -> usize
        ensures { result ≡ self.now.theory }
    {
        self.theory
    }

    /// The name of the structure.
    pub fn structure(&self) -> &Name
        ensures { result.now ≡ self.now.structure }
    {
        &self.structure
    }

    /// What the structure makes known.
    pub fn data(&self) -> &Partial
        ensures known { result.now ≡ self.now.known }
        ensures is { IsKnowledgeBase self.now }
    {
        &self.known
    }

    /// What the data are narrowed to before they are grounded.
    pub fn narrowing(&self) -> &Narrowing
        ensures narrowing { result.now ≡ self.now.narrowing }
        ensures is { IsKnowledgeBase self.now }
    {
        &self.narrowing
    }
}
