//! The texts of the tables of a structure.
ghost use Rattle.std.specs.Prelude.{◌≡◌, ◌++◌, OnOk, OnErr, codes};
ghost use Rattle.kb_logic.specs.Meaning.{rows_of};
ghost use Rattle.literal_printer.specs.Tables.{
  further_text,
  function_text,
  mapping_text,
  mappings_text,
  predicate_text,
  rows_text,
  separator_text,
  symbol_line,
  symbol_lines,
  truth_text,
};

use crate::pieces::{push_bytes, push_elem, push_row};
use kb_logic::{Elem, ElemList, Memory, Structure, Symbol, Table, Vocabulary};
use std::alloc::Global;

/// Appends one line for each predicate and function, in order of declaration, as `P = {a,b; c,d}`, `f = {a->r; b->g}`,
/// `c = r` or `p = true`. Where memory runs out, nothing is appended.
pub fn print_symbols(
    alloc: Global,
    out: &mut Vec<u8>,
    v: &Vocabulary,
    m: &Structure,
) -> Result<(), Memory>
    ensures ok { OnOk result (out.new.items ≡ out.old.items ++ symbol_lines v.now m.now) }
    ensures err { OnErr result (out.new.items ≡ out.old.items) }
{
    let mut text = Vec::new(alloc);
    push_symbols(&mut text, v, m)?;
    out.extend_from_slice(&text)?;
    Ok(())
}

/// As `print_symbols`, but where memory runs out a part may have been appended.
pub fn push_symbols(out: &mut Vec<u8>, v: &Vocabulary, m: &Structure) -> Result<(), Memory>
    ensures { OnOk result (out.new.items ≡ out.old.items ++ symbol_lines v.now m.now) }
{
    let symbols = v.symbols.as_slice();
    for number in 0..symbols.len() {
        push_symbol(out, number, &symbols[number], m)?;
    }
    Ok(())
}

fn push_symbol(
    out: &mut Vec<u8>,
    number: usize,
    symbol: &Symbol,
    m: &Structure,
) -> Result<(), Memory>
    ensures { OnOk result (out.new.items ≡ out.old.items ++ symbol_line m.now (number, symbol.now)) }
{
    push_bytes(out, symbol.name.text())?;
    push_bytes(out, b" = ")?;
    match symbol.value {
        None => push_predicate(out, symbol, rows_in(m.relations.as_slice(), number))?,
        Some(_) => push_function(out, symbol, rows_in(m.functions.as_slice(), number))?,
    }
    push_bytes(out, b"\n")
}

fn push_predicate(out: &mut Vec<u8>, symbol: &Symbol, rows: &[ElemList]) -> Result<(), Memory>
    ensures { OnOk result (out.new.items ≡ out.old.items ++ predicate_text symbol.now.args rows.now) }
{
    if symbol.args.is_empty() {
        push_truth(out, rows)
    } else {
        push_table(out, rows)
    }
}

fn push_function(out: &mut Vec<u8>, symbol: &Symbol, rows: &[ElemList]) -> Result<(), Memory>
    ensures { OnOk result (out.new.items ≡ out.old.items ++ function_text symbol.now.args rows.now) }
{
    if symbol.args.is_empty() {
        return push_mappings(out, rows);
    }
    push_bytes(out, b"{")?;
    push_mappings(out, rows)?;
    push_bytes(out, b"}")
}

fn rows_in(tables: &[Table], number: usize) -> &[ElemList]
    ensures { result.now ≡ rows_of number tables.now }
{
    for table in tables {
        if table.symbol as usize == number {
            return table.rows.as_slice();
        }
    }
    &[]
}

fn push_truth(out: &mut Vec<u8>, rows: &[ElemList]) -> Result<(), Memory>
    ensures { OnOk result (out.new.items ≡ out.old.items ++ truth_text rows.now) }
{
    if rows.is_empty() {
        push_bytes(out, b"false")
    } else {
        push_bytes(out, b"true")
    }
}

fn push_table(out: &mut Vec<u8>, rows: &[ElemList]) -> Result<(), Memory>
    ensures { OnOk result (out.new.items ≡ out.old.items ++ (codes "{" ++ (rows_text rows.now ++ codes "}"))) }
{
    push_bytes(out, b"{")?;
    push_rows(out, rows)?;
    push_bytes(out, b"}")
}

fn push_rows(out: &mut Vec<u8>, rows: &[ElemList]) -> Result<(), Memory>
    ensures { OnOk result (out.new.items ≡ out.old.items ++ rows_text rows.now) }
{
    let Some((first, others)) = rows.split_first() else {
        return Ok(());
    };
    push_row(out, first.as_slice())?;
    for row in others {
        push_bytes(out, b"; ")?;
        push_row(out, row.as_slice())?;
    }
    Ok(())
}

fn push_mappings(out: &mut Vec<u8>, rows: &[ElemList]) -> Result<(), Memory>
    ensures { OnOk result (out.new.items ≡ out.old.items ++ mappings_text rows.now) }
{
    let Some((first, others)) = rows.split_first() else {
        return Ok(());
    };
    push_mapping(out, first.as_slice())?;
    for row in others {
        push_bytes(out, b"; ")?;
        push_mapping(out, row.as_slice())?;
    }
    Ok(())
}

fn push_mapping(out: &mut Vec<u8>, row: &[Elem]) -> Result<(), Memory>
    ensures { OnOk result (out.new.items ≡ out.old.items ++ mapping_text row.now) }
{
    let Some((first, others)) = row.split_first() else {
        return Ok(());
    };
    push_elem(out, first)?;
    push_further(out, others)
}

/// The elements of a function's row after its first one.
fn push_further(out: &mut Vec<u8>, elems: &[Elem]) -> Result<(), Memory>
    ensures { OnOk result (out.new.items ≡ out.old.items ++ further_text elems.now) }
{
    for at in 0..elems.len() {
        push_bytes(out, separator(&elems[at + 1..]))?;
        push_elem(out, &elems[at])?;
    }
    Ok(())
}

/// What stands before an element of a function's row that has these elements after it.
fn separator(after: &[Elem]) -> &'static [u8]
    ensures { result.now ≡ separator_text after.now }
{
    if after.is_empty() { b"->" } else { b"," }
}
