//! The elements of all types one by one.
ghost use Rattle.std.specs.Prelude.{◌≡◌, List, map, IsTrue, IfOk};
ghost use Rattle.std.specs.List.{AllByRecursion};
ghost use Rattle.kb_logic.specs.declared.vocabularies.TypeDecl.{TypeDecl as AType};
ghost use Rattle.stage_definitions.specs.Elements as set;
ghost use Rattle.stage_definitions.specs.DataEntries as said;
ghost use Rattle.stage_definitions.specs.DataDomains as domain;
ghost use Rattle.structure_entries.specs.EntryViews.{cell_view};
ghost use Rattle.data_domains.specs.TypeSets.{AreTypesOf};

use data_domains::listings::listed;
use data_domains::types::TypeData;
use data_refusals::spots::is_in_range;
use kb_logic::{DomainList, ElemList, Memory};
use std::alloc::Global;
use structure_entries::elements::Cell;

/// Whether the integers of these cells may stand in a domain.
fn are_in_range(cells: &[Cell<'_>]) -> bool
    ensures { IsTrue result → AllByRecursion (λ c. IsTrue (domain.is_in_range (cell_view c))) cells.now }
{
    for cell in cells {
        if !is_in_range(*cell) {
            return false;
        }
    }
    true
}

/// The elements of some cells. Where nothing is refused, each integer may stand in a domain.
fn elements_of(alloc: Global, cells: &[Cell<'_>]) -> Result<ElemList, Memory>
    ensures { IfOk result (λ xs. xs ≡ set.listed (map cell_view cells.now)) }
{
    if are_in_range(cells) {
        listed(alloc, cells)
    } else {
        Err(Memory)
    }
}

/// The elements of each type.
fn domains_of(alloc: Global, types: &[TypeData<'_>]) -> Result<DomainList, Memory>
    ensures { IfOk result (λ ds. (decls : List AType) (es : List said.Said) → AreTypesOf decls es types.now
        → ds ≡ domain.domains_of decls es) }
{
    let mut domains = DomainList::new(alloc);
    for data in types {
        domains.push(elements_of(alloc, &data.cells)?)?;
    }
    Ok(domains)
}

/// The same, after which the types are no longer in memory.
pub fn domains_from(alloc: Global, types: Vec<TypeData<'_>>) -> Result<DomainList, Memory>
    ensures { IfOk result (λ ds. (decls : List AType) (es : List said.Said) → AreTypesOf decls es types.entry.items
        → ds ≡ domain.domains_of decls es) }
{
    domains_of(alloc, &types)
}
