//! The entries of a structure block.
ghost use Rattle.std.specs.Prelude.{◌≡◌, ◌++◌, None, Some, OnOk, codes, map, slice_get, Contains, [], ◌∷◌, true};
ghost use Rattle.std.specs.List.{enumerate_from};
ghost use Rattle.kb_logic.specs.Models.{IsAtomOver};
ghost use Rattle.kb_logic.specs.Structures.{domain_at};
ghost use Rattle.printed_texts.specs.Entries.{alone, function_atoms, is_some_row, list_of, lone_value, marked};
ghost use Rattle.printed_texts.specs.Entries.{rows_where, symbol_entries, true_rows, whole_value};
ghost use Rattle.printed_texts.specs.Texts.{entries_text, next_row_text, rows_text, truth_text, value_text};
ghost use Rattle.fo_printer.specs.Gathering.{AreAtomsOver, IsGathered, IsRowText};

use crate::gathering::{SymbolText, gather};
use crate::rows::RowText;
use kb_logic::values::domain_in;
use kb_logic::{Elem, ElemList, Literal, Memory, Symbol, TypeDecl};
use literal_printer::pieces::{push_bytes, push_elem};
use partial_structures::{Partial, Truth};
use std::alloc::Global;

/// The entry of a type, unless its elements' names are declared with it.
pub(crate) fn push_type(out: &mut Vec<u8>, decl: &TypeDecl, domain: &[Elem]) -> Result<(), Memory>
    ensures { OnOk result (out.new.items ≡ out.old.items ++ entries_text
        (list_of decl.now.name decl.now.made domain.now)) }
{
    if !decl.made.is_empty() {
        return Ok(());
    }
    push_start(out, decl.name.text(), b"")?;
    push_bytes(out, b"{")?;
    push_domain(out, domain)?;
    push_bytes(out, b"}\n")
}

/// An entry up to its value.
fn push_start(out: &mut Vec<u8>, name: &[u8], mark: &[u8]) -> Result<(), Memory>
    ensures { OnOk result (out.new.items ≡ out.old.items ++ (codes "  " ++ (name.now ++ (mark.now ++ codes " = ")))) }
{
    push_bytes(out, b"  ")?;
    push_bytes(out, name)?;
    push_bytes(out, mark)?;
    push_bytes(out, b" = ")
}

fn push_domain(out: &mut Vec<u8>, domain: &[Elem]) -> Result<(), Memory>
    ensures { OnOk result (out.new.items ≡ out.old.items ++ rows_text (map alone domain.now)) }
{
    let Some((first, others)) = domain.split_first() else {
        return Ok(());
    };
    push_elem(out, first)?;
    for elem in others {
        push_bytes(out, b"; ")?;
        push_elem(out, elem)?;
    }
    Ok(())
}

/// The entries of the symbol with this number.
pub(crate) fn push_symbol(
    alloc: Global,
    out: &mut Vec<u8>,
    s: &Partial,
    number: u32,
    symbol: &Symbol,
) -> Result<(), Memory>
    requires { slice_get s.now.symbols number ≡ Some symbol.now }
    ensures { OnOk result (out.new.items ≡ out.old.items ++ entries_text (symbol_entries s.now (number, symbol.now))) }
{
    let text = gather(alloc, s, number, symbol)?;
    if text.whole {
        push_start(out, symbol.name.text(), b"")?;
        push_whole(alloc, out, s, number, symbol, &text.trues)?;
        push_bytes(out, b"\n")
    } else {
        push_marked(out, symbol.name.text(), b"<ct>", &text.trues)?;
        push_marked(out, symbol.name.text(), b"<cf>", &text.falses)
    }
}

/// The value of a symbol of which all is known: these rows are true.
fn push_whole(
    alloc: Global,
    out: &mut Vec<u8>,
    s: &Partial,
    number: u32,
    symbol: &Symbol,
    trues: &RowText,
) -> Result<(), Memory>
    requires declared { slice_get s.now.symbols number ≡ Some symbol.now }
    requires rows { IsRowText trues.now (true_rows s.now (number, symbol.now)) }
    ensures { OnOk result (out.new.items ≡ out.old.items ++
        value_text (whole_value symbol.now.args (true_rows s.now (number, symbol.now)))) }
{
    if symbol.args.is_empty() {
        return push_lone(alloc, out, s, number, symbol, trues.some);
    }
    push_bytes(out, b"{")?;
    push_bytes(out, &trues.text)?;
    push_bytes(out, b"}")
}

/// `<ct>` or `<cf>` and its rows, where there are any.
fn push_marked(out: &mut Vec<u8>, name: &[u8], mark: &[u8], rows: &RowText) -> Result<(), Memory>
    ensures { (word : _) (listed : _) → mark.now ≡ codes "<" ++ (word ++ codes ">") → IsRowText rows.now listed →
        OnOk result (out.new.items ≡ out.old.items ++ entries_text (marked name.now word listed)) }
{
    if !rows.some {
        return Ok(());
    }
    push_start(out, name, mark)?;
    push_bytes(out, b"{")?;
    push_bytes(out, &rows.text)?;
    push_bytes(out, b"}\n")
}

/// The value of a proposition or of a constant of which all is known.
fn push_lone(
    alloc: Global,
    out: &mut Vec<u8>,
    s: &Partial,
    number: u32,
    symbol: &Symbol,
    some: bool,
) -> Result<(), Memory>
    requires declared { slice_get s.now.symbols number ≡ Some symbol.now }
    requires lone { symbol.now.args ≡ [] }
    requires rows { some ≡ is_some_row (true_rows s.now (number, symbol.now)) }
    ensures { OnOk result (out.new.items ≡ out.old.items ++ value_text
        (lone_value (true_rows s.now (number, symbol.now)))) }
{
    match symbol.value {
        None => push_bytes(out, truth(some)),
        Some(ty) => {
            let mut atom = Literal {
                positive: true,
                symbol: number,
                args: ElemList::new(alloc),
                value: None,
            };
            push_constant(
                alloc,
                out,
                s,
                &mut atom,
                domain_in(s.domains().as_slice(), ty),
            )
        }
    }
}

fn truth(holds: bool) -> &'static [u8]
    ensures { result.now ≡ truth_text holds }
{
    if holds { b"true" } else { b"false" }
}

/// The first of these values that the constant has, or `false` where it has none.
fn push_constant(
    alloc: Global,
    out: &mut Vec<u8>,
    s: &Partial,
    atom: &mut Literal,
    values: &[Elem],
) -> Result<(), Memory>
    requires { AreAtomsOver s.now atom.old.symbol atom.old.args values.now }
    ensures { OnOk result (out.new.items ≡ out.old.items ++
        value_text (lone_value (rows_where true s.now (function_atoms atom.old.symbol atom.old.args values.now)))) }
{
    for x in values {
        atom.value = Some(x.copy(alloc)?);
        if let Truth::Yes = s.value(atom) {
            return push_elem(out, x);
        }
    }
    push_bytes(out, b"false")
}
