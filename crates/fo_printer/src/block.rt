//! Structure blocks.
ghost use Rattle.std.specs.Prelude.{◌≡◌, ◌++◌, ◌≤◌, ◌^◌, OnOk, OnErr, flat_map, length};
ghost use Rattle.std.specs.List.{enumerate_from};
ghost use Rattle.kb_logic.specs.Structures.{domain_at};
ghost use Rattle.printed_texts.specs.Entries.{entries_of, symbol_entries, type_entries};
ghost use Rattle.printed_texts.specs.Texts.{block_text, entries_text};
ghost use Rattle.printed_texts.specs.ReadBlocks.{IsReadBack, IsWritable};

use crate::entries::{push_symbol, push_type};
use kb_logic::{Elem, ElemList, Memory, Name, TypeDecl, Vocabulary};
use literal_printer::pieces::push_bytes;
use partial_structures::Partial;
use std::alloc::Global;

/// Appends the structure block of this name: the line `structure NAME : VOCABULARY {`, a line for each type that is not
/// constructed and then for each symbol of which something is known, and the line `}`. A symbol of which all is known
/// has one line, as `P = {a,b; c,d}`; else there is a line `P<ct> = ..` for what is certainly true, and a line `P<cf> =
/// ..` for what is certainly false. Where memory runs out, nothing is appended.
///
/// Where the names are words that are read and not reserved, and the domains are as the vocabulary asks, the text is
/// that of one structure block, which gives the same partial structure again.
pub fn print_block(
    alloc: Global,
    out: &mut Vec<u8>,
    v: &Vocabulary,
    name: &Name,
    s: &Partial,
) -> Result<(), Memory>
    requires few { length s.now.symbols ≤ 2 ^ 32 }
    ensures ok { OnOk result (out.new.items ≡ out.old.items ++ block_text v.now name.now s.now) }
    ensures err { OnErr result (out.new.items ≡ out.old.items) }
    ensures back { IsWritable v.now name.now s.now → IsReadBack v.now name.now s.now }
{
    // Brings into scope what each partial structure keeps, by which its text is read back.
    s.consistency();
    append_block(alloc, out, v, name, s)
}

/// As `print_block`, with its text alone.
fn append_block(
    alloc: Global,
    out: &mut Vec<u8>,
    v: &Vocabulary,
    name: &Name,
    s: &Partial,
) -> Result<(), Memory>
    requires { length s.now.symbols ≤ 2 ^ 32 }
    ensures ok { OnOk result (out.new.items ≡ out.old.items ++ block_text v.now name.now s.now) }
    ensures err { OnErr result (out.new.items ≡ out.old.items) }
{
    let mut text = Vec::new(alloc);
    push_block(alloc, &mut text, v, name, s)?;
    out.extend_from_slice(&text)?;
    Ok(())
}

/// As `append_block`, but where memory runs out a part may have been appended.
fn push_block(
    alloc: Global,
    out: &mut Vec<u8>,
    v: &Vocabulary,
    name: &Name,
    s: &Partial,
) -> Result<(), Memory>
    requires { length s.now.symbols ≤ 2 ^ 32 }
    ensures { OnOk result (out.new.items ≡ out.old.items ++ block_text v.now name.now s.now) }
{
    push_bytes(out, b"structure ")?;
    push_bytes(out, name.text())?;
    push_bytes(out, b" : ")?;
    push_bytes(out, v.name.text())?;
    push_bytes(out, b" {\n")?;
    push_entries(alloc, out, v, s)?;
    push_bytes(out, b"}\n")
}

fn push_entries(alloc: Global, out: &mut Vec<u8>, v: &Vocabulary, s: &Partial) -> Result<(), Memory>
    requires { length s.now.symbols ≤ 2 ^ 32 }
    ensures { OnOk result (out.new.items ≡ out.old.items ++ entries_text (entries_of v.now s.now)) }
{
    push_types(out, v.types.as_slice(), s.domains().as_slice())?;
    push_symbols(alloc, out, s)
}

fn push_types(out: &mut Vec<u8>, types: &[TypeDecl], domains: &[ElemList]) -> Result<(), Memory>
    ensures { OnOk result (out.new.items ≡ out.old.items ++
        flat_map (λ t. entries_text (type_entries domains.now t)) (enumerate_from 0 types.now)) }
{
    for number in 0..types.len() {
        push_type(out, &types[number], domain(domains, number))?;
    }
    Ok(())
}

/// The domain of the type with this number.
fn domain(domains: &[ElemList], number: usize) -> &[Elem]
    ensures { result.now ≡ domain_at domains.now number }
{
    match domains.get(number) {
        Some(domain) => domain.as_slice(),
        None => &[],
    }
}

fn push_symbols(alloc: Global, out: &mut Vec<u8>, s: &Partial) -> Result<(), Memory>
    requires { length s.now.symbols ≤ 2 ^ 32 }
    ensures { OnOk result (out.new.items ≡ out.old.items ++
        flat_map (λ x. entries_text (symbol_entries s.now x)) (enumerate_from 0 s.now.symbols)) }
{
    let symbols = s.symbols().as_slice();
    for number in 0..symbols.len() {
        push_symbol(alloc, out, s, number as u32, &symbols[number])?;
    }
    Ok(())
}
