//! Lists inside public types, which contracts see as lists.
ghost use Rattle.std.specs.Prelude.{◌≡◌, ◌==◌, List, [], ◌∷◌, ◌++◌, IfOk, OnOk, OnErr, length, slice_get};
ghost use Rattle.std.specs.Option.{option_copied};

use crate::elements::Elem;
use crate::names::Name;
use std::alloc::{AllocError as Memory, Global};
use std::marker::Model;

/// A type whose values can be copied where there is memory. A copy equals its source.
pub trait Copied {
    fn copied(&self, alloc: Global) -> Result<Self, Memory>
        ensures { IfOk result (λ x. x ≡ self.now) };
}

/// Items in order.
#[derive(Drop)]
pub struct ListOf<T> {
    items: Vec<T>,
}

impl<T> Model for ListOf<T> {
    ghost Value = { List T };

    ghost view = { λ l. l.items.items };
}

impl<T> ListOf<T> {
    pub fn new(alloc: Global) -> ListOf<T>
        ensures { result ≡ [] }
    {
        ListOf {
            items: Vec::new(alloc),
        }
    }

    /// The list of these items, which takes no memory.
    pub fn from_vec(items: Vec<T>) -> ListOf<T>
        ensures { result ≡ items.items }
    {
        ListOf { items }
    }

    /// The items, which takes no memory.
    pub fn into_vec(self) -> Vec<T>
        ensures { result.items ≡ self }
    {
        self.items
    }

    pub fn len(&self) -> usize
        ensures { result ≡ length self.now }
    {
        self.items.len()
    }

    pub fn is_empty(&self) -> bool
        ensures { result ≡ (length self.now == 0) }
    {
        self.items.is_empty()
    }

    /// The item number `i`, and None exactly where `i` is not below the length.
    pub fn get(&self, i: usize) -> Option<&T>
        ensures { option_copied result ≡ slice_get self.now i }
    {
        self.items.get(i)
    }

    pub fn as_slice(&self) -> &[T]
        ensures { result.now ≡ self.now }
    {
        &self.items
    }
}

impl<T: Drop> ListOf<T> {
    pub fn push(&mut self, item: T) -> Result<(), Memory>
        ensures ok { OnOk result (self.new ≡ self.old ++ item ∷ []) }
        ensures err { OnErr result (self.new ≡ self.old) }
    {
        self.items.push(item)?;
        Ok(())
    }
}

/// Words.
pub type NameList = ListOf<Name>;
/// Elements: a domain, or a row of a table.
pub type ElemList = ListOf<Elem>;
/// Numbers of types.
pub type NumberList = ListOf<u32>;
/// The rows of a table.
pub type RowList = ListOf<ElemList>;
/// One list of elements for each type.
pub type DomainList = ListOf<ElemList>;

impl<T: Copied + Drop> ListOf<T> {
    pub fn copy(&self, alloc: Global) -> Result<ListOf<T>, Memory>
        ensures { IfOk result (λ l. l ≡ self.now) }
    {
        let mut items = Vec::with_capacity(alloc, self.items.len())?;
        for item in &self.items {
            items.push(item.copied(alloc)?)?;
        }
        Ok(ListOf { items })
    }
}

impl<T: Copied + Drop> Copied for ListOf<T> {
    fn copied(&self, alloc: Global) -> Result<ListOf<T>, Memory> {
        self.copy(alloc)
    }
}

impl Copied for u32 {
    fn copied(&self, _alloc: Global) -> Result<u32, Memory> {
        Ok(*self)
    }
}
