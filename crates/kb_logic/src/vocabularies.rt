//! Types, symbols and vocabularies.
ghost use Rattle.std.specs.Prelude.{◌≡◌, IfOk};

use crate::lists::{Copied, ListOf, NameList, NumberList};
use crate::names::Name;
use std::alloc::{AllocError as Memory, Global};

/// What a type is declared to be under. `Of` has the number of another type of the vocabulary.
#[derive(Clone, Copy)]
pub enum Parent {
    Root,
    Int,
    Nat,
    Of(u32),
}

/// A type. Where it is constructed, `made` has the names of its elements, in order.
#[derive(Drop)]
pub struct TypeDecl {
    pub name: Name,
    pub parent: Parent,
    pub made: NameList,
}

/// A predicate, where `value` is None, or else a function. The other numbers are those of types.
#[derive(Drop)]
pub struct Symbol {
    pub name: Name,
    pub args: NumberList,
    pub value: Option<u32>,
}

/// Types and symbols, which are named by their numbers in these lists.
#[derive(Drop)]
pub struct Vocabulary {
    pub name: Name,
    pub types: TypeList,
    pub symbols: SymbolList,
}

/// A variable that a quantifier, an aggregate or a rule binds, with the number of its type.
#[derive(Drop)]
pub struct Bound {
    pub name: Name,
    pub ty: u32,
}

/// The types of a vocabulary.
pub type TypeList = ListOf<TypeDecl>;
/// The symbols of a vocabulary.
pub type SymbolList = ListOf<Symbol>;
/// The variables of one binder, in order.
pub type BoundList = ListOf<Bound>;

impl TypeDecl {
    pub fn copy(&self, alloc: Global) -> Result<TypeDecl, Memory>
        ensures { IfOk result (λ t. t ≡ self.now) }
    {
        Ok(TypeDecl {
            name: self.name.copy(alloc)?,
            parent: self.parent,
            made: self.made.copy(alloc)?,
        })
    }
}

impl Symbol {
    pub fn copy(&self, alloc: Global) -> Result<Symbol, Memory>
        ensures { IfOk result (λ s. s ≡ self.now) }
    {
        Ok(Symbol {
            name: self.name.copy(alloc)?,
            args: self.args.copy(alloc)?,
            value: self.value,
        })
    }
}

impl Vocabulary {
    pub fn copy(&self, alloc: Global) -> Result<Vocabulary, Memory>
        ensures { IfOk result (λ v. v ≡ self.now) }
    {
        Ok(Vocabulary {
            name: self.name.copy(alloc)?,
            types: self.types.copy(alloc)?,
            symbols: self.symbols.copy(alloc)?,
        })
    }
}

impl Bound {
    pub fn copy(&self, alloc: Global) -> Result<Bound, Memory>
        ensures { IfOk result (λ b. b ≡ self.now) }
    {
        Ok(Bound {
            name: self.name.copy(alloc)?,
            ty: self.ty,
        })
    }
}

impl Copied for TypeDecl {
    fn copied(&self, alloc: Global) -> Result<TypeDecl, Memory> {
        self.copy(alloc)
    }
}

impl Copied for Symbol {
    fn copied(&self, alloc: Global) -> Result<Symbol, Memory> {
        self.copy(alloc)
    }
}

impl Copied for Bound {
    fn copied(&self, alloc: Global) -> Result<Bound, Memory> {
        self.copy(alloc)
    }
}
