//! Rows of a table as they are written.
ghost use Rattle.std.specs.Prelude.{◌≡◌, ◌++◌, [], ◌∷◌, OnOk, false};
ghost use Rattle.kb_logic.specs.Models.{atom_of};
ghost use Rattle.printed_texts.specs.Entries.{row_of};
ghost use Rattle.printed_texts.specs.Texts.{row_text_of, to_text};
ghost use Rattle.fo_printer.specs.Gathering.{HasMore, IsRowText};

use kb_logic::{Elem, Literal, Memory};
use literal_printer::pieces::{push_bytes, push_elem, push_row};
use std::alloc::Global;

/// Rows with semicolons between them, and whether there are any.
#[derive(Drop)]
pub(crate) struct RowText {
    pub some: bool,
    pub text: Vec<u8>,
}

impl RowText {
    /// No rows.
    pub fn new(alloc: Global) -> RowText
        ensures { IsRowText result [] }
    {
        RowText {
            some: false,
            text: Vec::new(alloc),
        }
    }

    /// One row more: the arguments of an atom, and its value.
    pub fn add(&mut self, atom: &Literal) -> Result<(), Memory>
        ensures { OnOk result (HasMore self.old self.new (row_of (atom_of atom.now) ∷ [])) }
    {
        if self.some {
            push_bytes(&mut self.text, b"; ")?;
        }
        self.some = true;
        push_atom_row(&mut self.text, atom)
    }
}

/// Appends `a,b`, `a,b->r` or `->r`.
fn push_atom_row(out: &mut Vec<u8>, atom: &Literal) -> Result<(), Memory>
    ensures { OnOk result (out.new.items ≡ out.old.items ++ row_text_of (row_of (atom_of atom.now))) }
{
    push_row(out, atom.args.as_slice())?;
    push_to(out, &atom.value)
}

fn push_to(out: &mut Vec<u8>, value: &Option<Elem>) -> Result<(), Memory>
    ensures { OnOk result (out.new.items ≡ out.old.items ++ to_text value.now) }
{
    match value {
        None => Ok(()),
        Some(x) => {
            push_bytes(out, b"->")?;
            push_elem(out, x)
        }
    }
}
