//! The values of terms, and the parts of a structure that they come from. Evaluators over structures and over partial
//! structures share them.
ghost use Rattle.std.specs.Prelude.{◌≡◌, slice_get};
ghost use Rattle.kb_logic.specs.Structures.{domain_at};
ghost use Rattle.kb_logic.specs.Denotations.{as_number, denotation_of, same_value, lower_value, compared};
ghost use Rattle.kb_logic.specs.Meaning.{element_value, rows_of};
ghost use Rattle.kb_logic.specs.Values.{value_view, total_view, count_up_to};

use crate::elements::Elem;
use crate::lists::ElemList;
use crate::structures::Table;
use crate::syntax::Cmp;

/// The value of a term. It is `Nothing` where the term is not well typed.
#[derive(Clone, Copy)]
pub enum Value<'a> {
    Named(&'a [u8]),
    Num(i64),
    NegInf,
    PosInf,
    Nothing,
}

/// A value that an aggregate has.
#[derive(Clone, Copy)]
pub enum Total {
    Num(i64),
    NegInf,
    PosInf,
    Nothing,
}

/// An element as a value.
pub fn elem_value(elem: &Elem) -> Value<'_>
    ensures { value_view result ≡ denotation_of elem.now }
{
    match elem {
        Elem::Named(name) => Value::Named(name.text()),
        Elem::Num(n) => Value::Num(*n),
    }
}

/// Whether the values are equal.
pub fn same(a: Value<'_>, b: Value<'_>) -> bool
    ensures { result ≡ same_value (value_view a.entry) (value_view b.entry) }
{
    match (a, b) {
        (Value::Named(x), Value::Named(y)) => x == y,
        (Value::Num(x), Value::Num(y)) => x == y,
        (Value::NegInf, Value::NegInf) => true,
        (Value::PosInf, Value::PosInf) => true,
        (Value::Nothing, Value::Nothing) => true,
        _ => false,
    }
}

/// Whether the first value is below the second in the order of arithmetic.
pub fn is_below(a: Value<'_>, b: Value<'_>) -> bool
    ensures { result ≡ lower_value (value_view a.entry) (value_view b.entry) }
{
    match (a, b) {
        (Value::Num(x), Value::Num(y)) => x < y,
        (Value::NegInf, Value::Num(_)) => true,
        (Value::NegInf, Value::PosInf) => true,
        (Value::Num(_), Value::PosInf) => true,
        _ => false,
    }
}

/// Whether the values compare so.
pub fn compare(cmp: Cmp, a: Value<'_>, b: Value<'_>) -> bool
    ensures { result ≡ compared cmp (value_view a.entry) (value_view b.entry) }
{
    match cmp {
        Cmp::Eq => same(a, b),
        Cmp::Ne => !same(a, b),
        Cmp::Lt => is_below(a, b),
        Cmp::Gt => is_below(b, a),
        Cmp::Le => is_below(a, b) || same(a, b),
        Cmp::Ge => is_below(b, a) || same(a, b),
    }
}

/// The domain of a type, which is empty where there is no such type.
pub fn domain_in(domains: &[ElemList], ty: u32) -> &[Elem]
    ensures { result.now ≡ domain_at domains.now ty }
{
    match domains.get(ty as usize) {
        Some(domain) => domain.as_slice(),
        None => &[],
    }
}

/// The element at a position of a type's domain: that of a constructed name.
pub fn made_value(domains: &[ElemList], ty: u32, n: u32) -> Value<'_>
    ensures { value_view result ≡ element_value (slice_get (domain_at domains.now ty) n) }
{
    match domain_in(domains, ty).get(n as usize) {
        Some(elem) => elem_value(elem),
        None => Value::Nothing,
    }
}

/// The rows of a symbol's table, or none where it has no table.
pub fn rows(tables: &[Table], symbol: u32) -> &[ElemList]
    ensures { result.now ≡ rows_of symbol tables.now }
{
    for table in tables {
        if table.symbol == symbol {
            return table.rows.as_slice();
        }
    }
    &[]
}

/// A number of assignments. What is too large for an `i64` is above each of them.
pub fn count_value(count: u64) -> Value<'static>
    ensures { value_view result ≡ count_up_to count }
{
    if count <= i64::MAX as u64 {
        Value::Num(count as i64)
    } else {
        Value::PosInf
    }
}

/// An aggregate's value.
pub fn total_value(total: Total) -> Value<'static>
    ensures { value_view result ≡ total_view total }
{
    match total {
        Total::Num(n) => Value::Num(n),
        Total::NegInf => Value::NegInf,
        Total::PosInf => Value::PosInf,
        Total::Nothing => Value::Nothing,
    }
}

/// What a value counts as where a number is meant.
pub fn number(value: Value<'_>) -> Total
    ensures { total_view result ≡ as_number (value_view value.entry) }
{
    match value {
        Value::Num(n) => Total::Num(n),
        Value::NegInf => Total::NegInf,
        Value::PosInf => Total::PosInf,
        _ => Total::Nothing,
    }
}
