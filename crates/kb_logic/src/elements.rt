//! Elements of domains, and integers with infinities.
ghost use Rattle.std.specs.Prelude.{◌≡◌, ◌↔◌, IfOk, IsTrue};

use crate::lists::Copied;
use crate::names::Name;
use std::alloc::{AllocError as Memory, Global};

/// An element of a type's domain.
#[derive(Drop)]
pub enum Elem {
    Named(Name),
    Num(i64),
}

impl Elem {
    pub fn copy(&self, alloc: Global) -> Result<Elem, Memory>
        ensures { IfOk result (λ x. x ≡ self.now) }
    {
        match self {
            Elem::Named(name) => Ok(Elem::Named(name.copy(alloc)?)),
            Elem::Num(n) => Ok(Elem::Num(*n)),
        }
    }
}

impl Elem {
    /// Whether both are the same element.
    pub fn same(&self, other: &Elem) -> bool
        ensures { IsTrue result ↔ (self.now ≡ other.now) }
    {
        match (self, other) {
            (Elem::Named(a), Elem::Named(b)) => a.text() == b.text(),
            (Elem::Num(a), Elem::Num(b)) => a == b,
            _ => false,
        }
    }
}

impl Copied for Elem {
    fn copied(&self, alloc: Global) -> Result<Elem, Memory> {
        self.copy(alloc)
    }
}

/// A value of arithmetic: the least of nothing is `PosInf`, and the greatest of nothing is `NegInf`.
#[derive(Clone, Copy)]
pub enum ExtInt {
    NegInf,
    Num(i64),
    PosInf,
}
