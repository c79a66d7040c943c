//! The entry that fields are read as.
//!
//! Nothing is checked here: fields that are of no entry give some entry too, whose text is then not the one that was
//! read (`read_entry`). So each function has an answer for every list of fields, and the one error is out of memory.
ghost use Rattle.std.specs.Prelude.{◌≡◌, IfOk, [], ◌∷◌, length, ◌-◌};
ghost use Rattle.derivation_log.specs.Scans.{rest_of, tag_of, number_of, term_of, literal_of, bound_of, literals_of};
ghost use Rattle.derivation_log.specs.Scans.{behind, numbers_of, entry_with, entry_of};

use crate::entries::{Entry, NumberList};
use crate::fields::Field;
use ground_core::{LitList, Memory};
use kb_logic::{ExtInt, ListOf};
use lit_core::{Lit, Var};
use std::alloc::Global;

/// The fields but the first.
fn rest_of(fields: &[Field]) -> &[Field]
    ensures { result.now ≡ rest_of fields.now }
{
    if fields.is_empty() {
        fields
    } else {
        fields.split_at(1).1
    }
}

/// The letter that the fields begin with, 0 where they begin with none.
fn tag_of(fields: &[Field]) -> u8
    ensures { result ≡ tag_of fields.now }
{
    match fields.first() {
        Some(Field::Letter(letter)) => *letter,
        Some(Field::Plain(_)) => 0,
        Some(Field::Minus(_)) => 0,
        Some(Field::Infinite) => 0,
        None => 0,
    }
}

/// The number that the fields begin with, 0 where they begin with none.
fn number_of(fields: &[Field]) -> u64
    ensures { result ≡ number_of fields.now }
{
    match fields.first() {
        Some(Field::Plain(n)) => *n,
        Some(Field::Letter(_)) => 0,
        Some(Field::Minus(_)) => 0,
        Some(Field::Infinite) => 0,
        None => 0,
    }
}

/// The same, of 32 bits.
fn term_of(fields: &[Field]) -> u32
    ensures { result ≡ term_of fields.now }
{
    (number_of(fields) % 4_294_967_296) as u32
}

/// The literal of the variable n.
fn literal_with(positive: bool, n: u64) -> Lit
    ensures { result ≡ record { var = record { 0 = n }; positive = positive } }
{
    Lit {
        var: Var(n),
        positive,
    }
}

/// The literal that the fields begin with, one of variable 0 where they begin with none.
fn literal_of(fields: &[Field]) -> Lit
    ensures { result ≡ literal_of fields.now }
{
    match fields.first() {
        Some(Field::Plain(n)) => literal_with(true, *n),
        Some(Field::Minus(n)) => literal_with(false, *n),
        Some(Field::Letter(_)) => literal_with(true, 0),
        Some(Field::Infinite) => literal_with(true, 0),
        None => literal_with(true, 0),
    }
}

/// The bound of one field, `NegInf`, which no text says, where it is none.
fn bound_at(field: Field) -> ExtInt
    ensures { result ≡ bound_of (field ∷ []) }
{
    match field {
        Field::Plain(n) => {
            if n < 9_223_372_036_854_775_808 {
                ExtInt::Num(n as i64)
            } else {
                ExtInt::NegInf
            }
        }
        Field::Minus(n) => {
            if n == 0 {
                ExtInt::NegInf
            } else if n - 1 < 9_223_372_036_854_775_808 {
                ExtInt::Num(-1 - ((n - 1) as i64))
            } else {
                ExtInt::NegInf
            }
        }
        Field::Letter(_) => ExtInt::NegInf,
        Field::Infinite => ExtInt::PosInf,
    }
}

/// The bound that the fields begin with.
fn bound_of(fields: &[Field]) -> ExtInt
    ensures { result ≡ bound_of fields.now }
{
    match fields.first() {
        Some(field) => bound_at(*field),
        None => ExtInt::NegInf,
    }
}

/// The literals before the first 0.
fn literals_of(alloc: Global, fields: &[Field]) -> Result<LitList, Memory>
    ensures { IfOk result (λ ls. ls ≡ literals_of fields.now) }
{
    let mut found = ListOf::new(alloc);
    for field in fields {
        match *field {
            Field::Plain(n) => {
                if n == 0 {
                    return Ok(found);
                }
                found.push(literal_with(true, n))?;
            }
            Field::Minus(n) => found.push(literal_with(false, n))?,
            Field::Letter(_) => return Ok(found),
            Field::Infinite => return Ok(found),
        }
    }
    Ok(found)
}

/// The numbers before the first 0.
fn numbers_of(alloc: Global, fields: &[Field]) -> Result<NumberList, Memory>
    ensures { IfOk result (λ ns. ns ≡ numbers_of fields.now) }
{
    let mut found = ListOf::new(alloc);
    for field in fields {
        match *field {
            Field::Plain(n) => {
                if n == 0 {
                    return Ok(found);
                }
                found.push(n)?;
            }
            Field::Minus(_) => return Ok(found),
            Field::Letter(_) => return Ok(found),
            Field::Infinite => return Ok(found),
        }
    }
    Ok(found)
}

/// The fields behind the first 0.
fn behind(fields: &[Field]) -> &[Field]
    ensures { result.now ≡ behind fields.now }
{
    for i in 0..fields.len() {
        match fields[i] {
            Field::Plain(n) => {
                if n == 0 {
                    return fields.split_at(i + 1).1;
                }
            }
            Field::Minus(_) => {}
            Field::Letter(_) => return fields.split_at(fields.len()).1,
            Field::Infinite => return fields.split_at(fields.len()).1,
        }
    }
    fields.split_at(fields.len()).1
}

/// The clause and the hints.
fn learnt(alloc: Global, fields: &[Field]) -> Result<Entry, Memory>
    ensures { IfOk result (λ e. e ≡ entry_with 108 fields.now) }
{
    let hints = numbers_of(alloc, behind(fields))?;
    Ok(Entry::Learnt(literals_of(alloc, fields)?, hints))
}

/// The entry of the fields behind the letter; any letter that no other kind has is read as that of a least value.
fn entry_with(alloc: Global, letter: u8, fields: &[Field]) -> Result<Entry, Memory>
    ensures { IfOk result (λ e. e ≡ entry_with letter fields.now) }
{
    if letter == b'q' {
        Ok(Entry::Mark(number_of(fields)))
    } else if letter == b'l' {
        learnt(alloc, fields)
    } else if letter == b'c' {
        Ok(Entry::Sum(number_of(fields), literals_of(alloc, rest_of(fields))?))
    } else if letter == b'b' {
        Ok(Entry::Bound(
            Var(number_of(fields)),
            term_of(rest_of(fields)),
            bound_of(rest_of(rest_of(fields))),
        ))
    } else if letter == b'n' {
        Ok(Entry::Exclude(Var(number_of(fields)), literals_of(alloc, rest_of(fields))?))
    } else if letter == b'i' {
        Ok(Entry::Inconsistent(literals_of(alloc, fields)?, number_of(behind(fields))))
    } else if letter == b'f' {
        Ok(Entry::Forced(
            literal_of(fields),
            literals_of(alloc, rest_of(fields))?,
            number_of(behind(rest_of(fields))),
        ))
    } else {
        Ok(Entry::Least(
            term_of(fields),
            bound_of(rest_of(fields)),
            literals_of(alloc, rest_of(rest_of(fields)))?,
            number_of(behind(rest_of(rest_of(fields)))),
        ))
    }
}

/// The entry that the fields are read as.
pub fn entry_of(alloc: Global, fields: &[Field]) -> Result<Entry, Memory>
    ensures { IfOk result (λ e. e ≡ entry_of fields.now) }
{
    entry_with(alloc, tag_of(fields), rest_of(fields))
}
