//! The texts of literals.
ghost use Rattle.std.specs.Prelude.{◌≡◌, ◌++◌, OnOk, OnErr};
ghost use Rattle.literal_printer.specs.Texts.{args_text, atom_text, equality_text, literal_text, negation_text};

use crate::pieces::{push_bytes, push_elem, push_row};
use kb_logic::{Elem, Literal, Memory, Vocabulary};
use std::alloc::Global;

/// Appends a literal, as `P(a,b)`, `~p`, `f(a) = b` or `c ~= e`. Where memory runs out, nothing is appended.
pub fn print_literal(
    alloc: Global,
    out: &mut Vec<u8>,
    v: &Vocabulary,
    l: &Literal,
) -> Result<(), Memory>
    ensures ok { OnOk result (out.new.items ≡ out.old.items ++ literal_text v.now l.now) }
    ensures err { OnErr result (out.new.items ≡ out.old.items) }
{
    let mut text = Vec::new(alloc);
    push_literal(&mut text, v, l)?;
    out.extend_from_slice(&text)?;
    Ok(())
}

/// As `print_literal`, but where memory runs out a part may have been appended.
pub fn push_literal(out: &mut Vec<u8>, v: &Vocabulary, l: &Literal) -> Result<(), Memory>
    ensures { OnOk result (out.new.items ≡ out.old.items ++ literal_text v.now l.now) }
{
    match &l.value {
        None => {
            push_bytes(out, negation(l.positive))?;
            push_atom(out, v, l)
        }
        Some(value) => {
            push_atom(out, v, l)?;
            push_bytes(out, equality(l.positive))?;
            push_elem(out, value)
        }
    }
}

fn negation(positive: bool) -> &'static [u8]
    ensures { result.now ≡ negation_text positive }
{
    if positive { b"" } else { b"~" }
}

fn equality(positive: bool) -> &'static [u8]
    ensures { result.now ≡ equality_text positive }
{
    if positive { b" = " } else { b" ~= " }
}

fn push_atom(out: &mut Vec<u8>, v: &Vocabulary, l: &Literal) -> Result<(), Memory>
    ensures { OnOk result (out.new.items ≡ out.old.items ++ atom_text v.now l.now) }
{
    if let Some(symbol) = v.symbols.get(l.symbol as usize) {
        push_bytes(out, symbol.name.text())?;
    }
    push_args(out, l.args.as_slice())
}

fn push_args(out: &mut Vec<u8>, args: &[Elem]) -> Result<(), Memory>
    ensures { OnOk result (out.new.items ≡ out.old.items ++ args_text args.now) }
{
    if args.is_empty() {
        return Ok(());
    }
    push_bytes(out, b"(")?;
    push_row(out, args)?;
    push_bytes(out, b")")
}
