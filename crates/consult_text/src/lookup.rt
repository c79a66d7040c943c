//! Looks the names of a written literal up.
ghost use Rattle.std.specs.Prelude.{◌≡◌, ◌≢◌, ◌<◌, ◌≤◌, ◌^◌, ℕ, length, map, Contains, Some, slice_get, is_some, IfOk};
ghost use Rattle.std.specs.Prelude.{MatchBool, MatchOption};
ghost use Rattle.std.specs.List.{AllByRecursion};
ghost use Rattle.kb_logic.specs.Structures.{IsRowOver};
ghost use Rattle.consult_base.specs.Opened.{base_of};
ghost use Rattle.kb_logic.specs.Models.{HasValueIn};
ghost use Rattle.kb_text.specs.Tokens.{decimal};
ghost use Rattle.consult_text.specs.Literals.{integer_of, elem_of, IsFirstNamed, HasFormOf, IsLiteralOver, literal_of};
ghost use Rattle.consult_text.specs.Parse.{elem_view, elem_views, literal_view};
ghost use Rattle.consult_text.specs.Ranges.{IsInRange, HasRange, LooksUp};

use crate::digits::digits_value;
use crate::lines::CommandError;
use crate::refusals::F;
use crate::written::{ElemText, LiteralText};
use consult_base::KnowledgeBase;
use kb_logic::{Elem, ElemList, Literal, Memory, Name, Symbol};
use partial_structures::Partial;
use std::alloc::Global;

fn integer(negative: bool, digits: &[u8]) -> i64
    requires { decimal digits.now < 2 ^ 63 }
    ensures { result ≡ integer_of negative digits.now }
{
    let value = digits_value(digits) as i64;
    if negative { -value } else { value }
}

fn make_elem(alloc: Global, text: &ElemText<'_>) -> Result<Elem, Memory>
    requires { IsInRange (elem_view text.now) }
    ensures { IfOk result (λ x. x ≡ elem_of (elem_view text.now)) }
{
    match text {
        ElemText::Name(name) => Ok(Elem::Named(Name::new(alloc, name)?)),
        ElemText::Integer(negative, digits) => Ok(Elem::Num(integer(*negative, digits))),
    }
}

fn make_row(alloc: Global, texts: &[ElemText<'_>]) -> Result<ElemList, Memory>
    requires { AllByRecursion IsInRange (elem_views texts.now) }
    ensures { IfOk result (λ row. row ≡ map elem_of (elem_views texts.now)) }
{
    let mut row = Vec::with_capacity(alloc, texts.len())?;
    for text in texts {
        row.push(make_elem(alloc, text)?)?;
    }
    Ok(ElemList::from_vec(row))
}

/// The literal that is written, of the symbol with this number.
fn make_literal(alloc: Global, number: u32, text: &LiteralText<'_>) -> Result<Literal, Memory>
    requires { HasRange (literal_view text.now) }
    ensures { IfOk result (λ l. l ≡ literal_of number (literal_view text.now)) }
{
    match &text.value {
        None => Ok(Literal {
            positive: text.positive,
            symbol: number,
            args: make_row(alloc, &text.args)?,
            value: None,
        }),
        Some(value) => Ok(Literal {
            positive: text.positive,
            symbol: number,
            args: make_row(alloc, &text.args)?,
            value: Some(make_elem(alloc, value)?),
        }),
    }
}

/// The first symbol of this name, and its number.
fn find_symbol<'a>(symbols: &'a [Symbol], name: &[u8]) -> Option<(u32, &'a Symbol)>
    requires { length symbols.now ≤ 2 ^ 32 }
    ensures { MatchOption result ((s : Symbol) → Contains symbols.now s → s.name ≢ name.now)
        (λ p. IsFirstNamed symbols.now name.now p.0 p.1.now) }
{
    for number in 0..symbols.len() {
        if symbols[number].name.text() == name {
            return Some((number as u32, &symbols[number]));
        }
    }
    None
}

fn has_form(symbol: &Symbol, text: &LiteralText<'_>) -> bool
    ensures { MatchBool result (HasFormOf symbol.now (literal_view text.now))
        (HasFormOf symbol.now (literal_view text.now) → ⊥) }
{
    if symbol.args.len() != text.args.len() {
        return false;
    }
    is_alike(symbol.value, &text.value)
}

/// Whether there is a value exactly where there is a type for it.
fn is_alike(ty: Option<u32>, value: &Option<ElemText<'_>>) -> bool
    ensures { MatchBool result (is_some ty ≡ is_some value.now) (is_some ty ≢ is_some value.now) }
{
    match (ty, value) {
        (None, None) => true,
        (Some(_), Some(_)) => true,
        _ => false,
    }
}

fn is_row_over(known: &Partial, types: &[u32], row: &[Elem]) -> bool
    requires { length types.now ≡ length row.now }
    ensures { MatchBool result (IsRowOver known.now.domains types.now row.now)
        (IsRowOver known.now.domains types.now row.now → ⊥) }
{
    for place in 0..row.len() {
        if !known.has_element(types[place], &row[place]) {
            return false;
        }
    }
    true
}

fn is_value_over(known: &Partial, ty: Option<u32>, value: &Option<Elem>) -> bool
    ensures { MatchBool result (HasValueIn known.now.domains ty value.now)
        (HasValueIn known.now.domains ty value.now → ⊥) }
{
    match (ty, value) {
        (None, None) => true,
        (Some(ty), Some(elem)) => known.has_element(ty, elem),
        _ => false,
    }
}

/// Whether the literal's elements are in the types that its symbol has.
fn is_literal_over(kb: &KnowledgeBase, symbol: &Symbol, literal: &Literal) -> bool
    requires declared { slice_get kb.now.typed.vocab.symbols literal.now.symbol ≡ Some symbol.now }
    requires args { length symbol.now.args ≡ length literal.now.args }
    ensures { MatchBool result (IsLiteralOver (base_of kb.now) literal.now)
        (IsLiteralOver (base_of kb.now) literal.now → ⊥) }
{
    is_row_over(kb.data(), symbol.args.as_slice(), literal.args.as_slice())
        && is_value_over(kb.data(), symbol.value, &literal.value)
}

/// The literal that is written.
pub fn look_up(
    alloc: Global,
    kb: &KnowledgeBase,
    text: &LiteralText<'_>,
) -> Result<Literal, CommandError>
    requires { HasRange (literal_view text.now) }
    ensures { LooksUp (base_of kb.now) (literal_view text.now) result }
{
    let Some((number, symbol)) = find_symbol(kb.vocabulary().symbols.as_slice(), text.name) else {
        return Err(CommandError::Refused(F::UnknownSymbol));
    };
    if !has_form(symbol, text) {
        return Err(CommandError::Refused(F::WrongArity));
    }
    let literal = make_literal(alloc, number, text)?;
    if is_literal_over(kb, symbol, &literal) {
        Ok(literal)
    } else {
        Err(CommandError::Refused(F::NotAnElement))
    }
}
