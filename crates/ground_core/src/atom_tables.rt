//! The ground atoms of a problem's first variables.
//!
//! A table keeps the symbols and domains that its atoms are over, and how many these are. An atom takes no memory. Copies
//! of a table share the domains: a copy of 256 types of 65,536 elements would take 0.5 GiB.
ghost use Rattle.std.specs.Prelude.{◌≡◌, ◌≤◌, ◌^◌, length, IfOk};
ghost use Rattle.ground_core.specs.Atoms.{ground_atoms};

use crate::atom_counts::count_atoms;
use crate::atoms::all_atoms;
use kb_logic::{Copied, DomainList, ElemList, ListOf, LiteralList, Symbol};
use std::alloc::{AllocError as Memory, Global};
use std::marker::Model;
use std::rc::Rc;

/// All ground atoms over some symbols and domains, and how many they are.
#[derive(Drop)]
pub(crate) struct AllAtoms {
    pub symbols: ListOf<Symbol>,
    pub domains: Rc<DomainList>,
    pub count: usize,
}

/// The atoms of a table: all over some symbols and domains, or those of a list.
#[derive(Drop)]
pub(crate) enum TableAtoms {
    All(AllAtoms),
    Listed(LiteralList),
}

/// The ground atoms of the first variables, in order: variable 1 is the first.
#[derive(Drop)]
pub struct AtomTable {
    atoms: TableAtoms,
}

impl Model for AtomTable {
    ghost use Rattle.std.specs.Prelude.{List};
    ghost use Rattle.kb_logic.specs.declared.structures.Literal.{Literal};

    ghost Value = { List Literal };

    ghost use Rattle.ground_core.specs.AtomTables.{atoms_in, IsCounted};

    ghost view = { λ t. atoms_in t.atoms };

    ghost invariant = { λ t. IsCounted t.atoms };
}

/// The list of copies.
fn copied_list<T: Copied + Drop>(alloc: Global, items: &[T]) -> Result<ListOf<T>, Memory>
    ensures { IfOk result (λ l. l ≡ items.now) }
{
    let mut list = Vec::with_capacity(alloc, items.len())?;
    for item in items {
        list.push(item.copied(alloc)?)?;
    }
    Ok(ListOf::from_vec(list))
}

/// A copy of the domains that is to be shared.
fn shared(alloc: Global, domains: &[ElemList]) -> Result<Rc<DomainList>, Memory>
    ensures { IfOk result (λ copy. copy.value ≡ domains.now) }
{
    match Rc::new(alloc, copied_list(alloc, domains)?) {
        Ok(copy) => Ok(copy),
        Err(_) => Err(Memory),
    }
}

/// The domains that are shared.
fn lists(domains: &Rc<DomainList>) -> &[ElemList]
    ensures { result.now ≡ domains.now.value }
{
    domains.as_slice()
}

impl AtomTable {
    /// The ground atoms over these symbols and domains: the symbols as declared, the tuples of arguments
    /// of each in domain order, then the values in domain order. What it takes is linear in the symbols and elements.
    /// More atoms than a `usize` counts are answered as out of memory.
    pub fn over(
        alloc: Global,
        symbols: &[Symbol],
        domains: &[ElemList],
    ) -> Result<AtomTable, Memory>
        requires few { length symbols.now ≤ 2 ^ 32 }
        ensures { IfOk result (λ table. table ≡ ground_atoms symbols.now domains.now) }
    {
        let Some(count) = count_atoms(symbols, domains) else {
            return Err(Memory);
        };
        Ok(AtomTable {
            atoms: TableAtoms::All(AllAtoms {
                symbols: copied_list(alloc, symbols)?,
                domains: shared(alloc, domains)?,
                count,
            }),
        })
    }

    /// The table of these atoms.
    pub fn from_list(atoms: LiteralList) -> AtomTable
        ensures { result ≡ atoms }
    {
        AtomTable {
            atoms: TableAtoms::Listed(atoms),
        }
    }

    /// How many atoms there are.
    pub fn len(&self) -> usize
        ensures { result ≡ length self.now }
    {
        match &self.atoms {
            TableAtoms::All(all) => all.count,
            TableAtoms::Listed(atoms) => atoms.len(),
        }
    }

    /// The atoms in order, each with memory of its own.
    pub fn list(&self, alloc: Global) -> Result<LiteralList, Memory>
        ensures { IfOk result (λ atoms. atoms ≡ self.now) }
    {
        match &self.atoms {
            TableAtoms::All(all) => all_atoms(alloc, all.symbols.as_slice(), lists(&all.domains)),
            TableAtoms::Listed(atoms) => Ok(atoms.copy(alloc)?),
        }
    }

    /// A table of the same atoms.
    pub fn copy(&self, alloc: Global) -> Result<AtomTable, Memory>
        ensures { IfOk result (λ table. table ≡ self.now) }
    {
        let atoms = match &self.atoms {
            TableAtoms::All(all) => TableAtoms::All(AllAtoms {
                symbols: all.symbols.copy(alloc)?,
                domains: Rc::clone(&all.domains)?,
                count: all.count,
            }),
            TableAtoms::Listed(atoms) => TableAtoms::Listed(atoms.copy(alloc)?),
        };
        Ok(AtomTable { atoms })
    }
}
