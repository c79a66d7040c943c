//! Structures, and literals over them.
ghost use Rattle.std.specs.Prelude.{◌≡◌, IfOk};

use crate::elements::Elem;
use crate::lists::{Copied, DomainList, ElemList, ListOf, RowList};
use std::alloc::{AllocError as Memory, Global};

/// The rows of one symbol. A predicate's row has the arguments of a true atom, a function's row has
/// arguments and then their value.
#[derive(Drop)]
pub struct Table {
    pub symbol: u32,
    pub rows: RowList,
}

/// A structure, as IDP3 has it: a domain for each type, a table for each predicate, and a table for each
/// function, in the order of their declarations.
#[derive(Drop)]
pub struct Structure {
    pub domains: DomainList,
    pub relations: TableList,
    pub functions: TableList,
}

/// An atom `P(a)` or `f(a) = value`, or its negation.
#[derive(Drop)]
pub struct Literal {
    pub positive: bool,
    pub symbol: u32,
    pub args: ElemList,
    pub value: Option<Elem>,
}

/// Tables.
pub type TableList = ListOf<Table>;
/// Literals.
pub type LiteralList = ListOf<Literal>;

impl Table {
    pub fn copy(&self, alloc: Global) -> Result<Table, Memory>
        ensures { IfOk result (λ t. t ≡ self.now) }
    {
        Ok(Table {
            symbol: self.symbol,
            rows: self.rows.copy(alloc)?,
        })
    }
}

impl Structure {
    pub fn copy(&self, alloc: Global) -> Result<Structure, Memory>
        ensures { IfOk result (λ m. m ≡ self.now) }
    {
        Ok(Structure {
            domains: self.domains.copy(alloc)?,
            relations: self.relations.copy(alloc)?,
            functions: self.functions.copy(alloc)?,
        })
    }
}

impl Literal {
    pub fn copy(&self, alloc: Global) -> Result<Literal, Memory>
        ensures { IfOk result (λ l. l ≡ self.now) }
    {
        let value = match &self.value {
            Some(value) => Some(value.copy(alloc)?),
            None => None,
        };
        Ok(Literal {
            positive: self.positive,
            symbol: self.symbol,
            args: self.args.copy(alloc)?,
            value,
        })
    }
}

impl Copied for Table {
    fn copied(&self, alloc: Global) -> Result<Table, Memory> {
        self.copy(alloc)
    }
}

impl Copied for Literal {
    fn copied(&self, alloc: Global) -> Result<Literal, Memory> {
        self.copy(alloc)
    }
}
