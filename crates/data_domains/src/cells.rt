//! The cells of entries and of declarations.
ghost use Rattle.std.specs.Prelude.{◌≡◌, ◌++◌, map, OnOk};
ghost use Rattle.std.specs.List.{filter_map};
ghost use Rattle.stage_definitions.specs.DataDomains as domain;
ghost use Rattle.structure_entries.specs.EntryViews.{cell_view, spot_view};
ghost use Rattle.structure_entries.specs.SaidViews.{said_view};

use kb_logic::{Memory, TypeDecl};
use std::alloc::Global;
use structure_entries::elements::{Cell, Element};
use structure_entries::spots::{Spot, set_spots};
use structure_entries::written::Entry;

/// A constructed type's elements.
pub fn add_made<'a>(decl: &'a TypeDecl, cells: &mut Vec<Cell<'a>>) -> Result<(), Memory>
    ensures { OnOk result (map cell_view cells.new.items ≡ map cell_view cells.old.items
        ++ domain.made_cells decl.now) }
{
    for name in decl.made.as_slice() {
        cells.push(Cell::One(Element::Word(name.text())))?;
    }
    Ok(())
}

/// What is written in a row.
fn add_written<'a>(spots: &[Spot<'a>], cells: &mut Vec<Cell<'a>>) -> Result<(), Memory>
    ensures { OnOk result (map cell_view cells.new.items ≡ map cell_view cells.old.items ++ filter_map (λ s. s.cell)
        (map spot_view spots.now)) }
{
    for spot in spots {
        if let Some(cell) = spot.cell() {
            cells.push(cell)?;
        }
    }
    Ok(())
}

/// What stands in an entry.
pub fn add_given<'a>(
    alloc: Global,
    entry: &Entry<'a>,
    cells: &mut Vec<Cell<'a>>,
) -> Result<(), Memory>
    ensures { OnOk result (map cell_view cells.new.items ≡ map cell_view cells.old.items ++ domain.cells_given
        (said_view entry.now)) }
{
    let mut spots = Vec::new(alloc);
    for row in &entry.rows {
        set_spots(entry.subject, row, &mut spots)?;
        add_written(&spots, cells)?;
    }
    Ok(())
}
