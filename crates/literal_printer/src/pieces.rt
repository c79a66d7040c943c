//! What every printer appends. Where memory runs out, a part of the text may have been appended: a printer that
//! promises more writes into a text of its own first.
ghost use Rattle.std.specs.Prelude.{◌≡◌, ◌++◌, OnOk};
ghost use Rattle.literal_printer.specs.Texts.{elem_text, row_text};

use kb_logic::{Elem, ExtInt, Memory};

pub fn push_bytes(out: &mut Vec<u8>, bytes: &[u8]) -> Result<(), Memory>
    ensures { OnOk result (out.new.items ≡ out.old.items ++ bytes.now) }
{
    out.extend_from_slice(bytes)?;
    Ok(())
}

/// Appends an element: a word, or an integer in decimal.
pub fn push_elem(out: &mut Vec<u8>, elem: &Elem) -> Result<(), Memory>
    ensures { OnOk result (out.new.items ≡ out.old.items ++ elem_text elem.now) }
{
    match elem {
        Elem::Named(name) => push_bytes(out, name.text()),
        Elem::Num(n) => kb_logic::decimal(out, ExtInt::Num(*n)),
    }
}

/// Appends elements with commas between them.
pub fn push_row(out: &mut Vec<u8>, row: &[Elem]) -> Result<(), Memory>
    ensures { OnOk result (out.new.items ≡ out.old.items ++ row_text row.now) }
{
    let Some((first, others)) = row.split_first() else {
        return Ok(());
    };
    push_elem(out, first)?;
    for elem in others {
        push_bytes(out, b",")?;
        push_elem(out, elem)?;
    }
    Ok(())
}
