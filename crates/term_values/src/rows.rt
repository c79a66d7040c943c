//! Rows of terms.
//!
//! The guards and the values of all rows lie one after another in two arrays, so that no row has memory of its own. A
//! few rows, as those of a term without unknown applications, lie in the value itself, and take no memory at all.
ghost use Rattle.std.specs.Prelude.{◌≡◌, ◌<◌, ◌≤◌, ◌++◌, ◌∷◌, [], Some, length, map, option_map, slice_get};
ghost use Rattle.std.specs.Prelude.{slice_range, take, IfOk, OnOk, OnErr};
ghost use Rattle.kb_logic.specs.Values.{value_view};
ghost use Rattle.term_values.specs.RowValues.{row_value};

use kb_logic::Memory;
use kb_logic::values::Value;
use lit_core::Lit;
use smallvec::SmallVec;
use std::alloc::Global;
use std::marker::Model;

/// A value in a row. A few of them stand in the rows themselves, for which each place has a value from the start.
#[derive(Clone, Copy)]
pub struct RowValue<'a> {
    pub value: Value<'a>,
}

impl<'a> Default for RowValue<'a> {
    fn default() -> RowValue<'a> {
        RowValue {
            value: Value::Nothing,
        }
    }
}

/// Where a row's guards end among all guards, and its values among all values.
#[derive(Clone, Copy, Default)]
pub(crate) struct RowEnd {
    pub guards: usize,
    pub values: usize,
}

/// The rows of a list of terms: each has one value for each of the terms.
#[derive(Drop)]
pub struct TupleRows<'a> {
    guards: SmallVec<Lit, 4>,
    values: SmallVec<RowValue<'a>, 4>,
    ends: SmallVec<RowEnd, 2>,
}

impl<'a> Model for TupleRows<'a> {
    ghost use Rattle.std.specs.Prelude.{List, length};
    ghost use Rattle.kb_logic.specs.Denotations.{Denotation};
    ghost use Rattle.lit_core.specs.declared.literals.Lit.{Lit};
    ghost use Rattle.term_values.specs.FlatRows.{rows_between, AreEnds, origin};

    ghost Value = { List (List Lit × List Denotation) };

    ghost view = { λ r. rows_between r.guards.items r.values.items origin r.ends.items };

    ghost invariant = { λ r. AreEnds origin r.ends.items (length r.guards.items) (length r.values.items) };
}

ghost use Rattle.term_values.specs.FlatRows.{row_start, origin};

/// Where a row starts, and where it ends.
fn span_of(ends: &[RowEnd], row: usize) -> (RowEnd, RowEnd)
    requires { row < length ends.now }
    ensures start { result.0 ≡ row_start origin ends.now row }
    ensures end { slice_get ends.now row ≡ Some result.1 }
{
    if row == 0 {
        (RowEnd::default(), ends[0])
    } else {
        (ends[row - 1], ends[row])
    }
}

/// Where the next row starts.
fn end_of(ends: &[RowEnd]) -> RowEnd
    ensures { result ≡ row_start origin ends.now (length ends.now) }
{
    match ends.last() {
        Some(end) => *end,
        None => RowEnd::default(),
    }
}

// Most rows have one guard or two. A call that copies memory costs more than all else for these.
/// Adds more literals.
fn append_guards(guards: &mut SmallVec<Lit, 4>, more: &[Lit]) -> Result<(), Memory>
    ensures ok { OnOk result (guards.new.items ≡ guards.old.items ++ more.now) }
    ensures err { OnErr result (guards.new ≡ guards.old) }
{
    match more {
        [] => Ok(()),
        [lit] => {
            guards.push(*lit)?;
            Ok(())
        }
        _ => {
            guards.extend_from_slice(more)?;
            Ok(())
        }
    }
}

/// Adds more values.
fn append_values<'a>(
    values: &mut SmallVec<RowValue<'a>, 4>,
    more: &[RowValue<'a>],
) -> Result<(), Memory>
    ensures ok { OnOk result (values.new.items ≡ values.old.items ++ more.now) }
    ensures err { OnErr result (values.new ≡ values.old) }
{
    match more {
        [] => Ok(()),
        [value] => {
            values.push(*value)?;
            Ok(())
        }
        _ => {
            values.extend_from_slice(more)?;
            Ok(())
        }
    }
}

/// Keeps the first `len` literals, and puts more after them.
fn put_guards(
    guards: &mut SmallVec<Lit, 4>,
    len: usize,
    first: &[Lit],
    second: &[Lit],
) -> Result<(), Memory>
    requires { len ≤ length guards.old.items }
    ensures ok { OnOk result (guards.new.items ≡ take len guards.old.items ++ (first.now ++ second.now)) }
    ensures kept { len ≤ length guards.new.items }
    ensures err { OnErr result (take len guards.new.items ≡ take len guards.old.items) }
{
    guards.truncate(len);
    append_guards(guards, first)?;
    append_guards(guards, second)
}

/// Keeps the first `len` values, and puts more after them.
fn put_values<'a>(
    values: &mut SmallVec<RowValue<'a>, 4>,
    len: usize,
    first: &[RowValue<'a>],
    second: &[RowValue<'a>],
) -> Result<(), Memory>
    requires { len ≤ length values.old.items }
    ensures ok { OnOk result (values.new.items ≡ take len values.old.items ++ (first.now ++ second.now)) }
    ensures kept { len ≤ length values.new.items }
    ensures err { OnErr result (take len values.new.items ≡ take len values.old.items) }
{
    values.truncate(len);
    append_values(values, first)?;
    append_values(values, second)
}

/// The items from the first place on, before the second.
fn part<T>(items: &[T], from: usize, to: usize) -> &[T]
    requires rising { from ≤ to }
    requires within { to ≤ length items.now }
    ensures { result.now ≡ slice_range items.now from to }
{
    &items[from..to]
}

impl<'a> TupleRows<'a> {
    /// No row.
    pub(crate) fn new(alloc: Global) -> TupleRows<'a>
        ensures { result ≡ [] }
    {
        TupleRows {
            guards: SmallVec::new(alloc),
            values: SmallVec::new(alloc),
            ends: SmallVec::new(alloc),
        }
    }

    /// No row, with room for so many of one guard and one value each.
    pub(crate) fn with_room(alloc: Global, rows: usize) -> Result<TupleRows<'a>, Memory>
        ensures { IfOk result (λ r. r ≡ []) }
    {
        let mut guards = SmallVec::new(alloc);
        guards.reserve(rows)?;
        let mut values = SmallVec::new(alloc);
        values.reserve(rows)?;
        let mut ends = SmallVec::new(alloc);
        ends.reserve(rows)?;
        Ok(TupleRows {
            guards,
            values,
            ends,
        })
    }

    /// One row without guards and values: that of no term.
    pub(crate) fn unit(alloc: Global) -> Result<TupleRows<'a>, Memory>
        ensures { IfOk result (λ r. r ≡ ([], []) ∷ []) }
    {
        TupleRows::single(alloc, &[])
    }

    /// One row of these values, without guards.
    pub(crate) fn single(alloc: Global, values: &[RowValue<'a>]) -> Result<TupleRows<'a>, Memory>
        ensures { IfOk result (λ r. r ≡ ([], map row_value values.now) ∷ []) }
    {
        let mut rows = TupleRows::new(alloc);
        rows.push(&[], &[], values, &[])?;
        Ok(rows)
    }

    /// How many rows there are.
    pub fn len(&self) -> usize
        ensures { result ≡ length self.now }
    {
        self.ends.len()
    }

    /// The literals under which the terms have the row's values.
    pub fn guards(&self, row: usize) -> &[Lit]
        requires { row < length self.now }
        ensures { option_map (λ r. r.0) (slice_get self.now row) ≡ Some result.now }
    {
        let (start, end) = span_of(self.ends.as_slice(), row);
        part(self.guards.as_slice(), start.guards, end.guards)
    }

    /// The values that the terms have in the row.
    pub fn values(&self, row: usize) -> &[RowValue<'a>]
        requires { row < length self.now }
        ensures { option_map (λ r. r.1) (slice_get self.now row) ≡ Some (map row_value result.now) }
    {
        let (start, end) = span_of(self.ends.as_slice(), row);
        part(self.values.as_slice(), start.values, end.values)
    }

    /// Adds a row. Its guards come in two parts, and so do its values.
    pub(crate) fn push(
        &mut self,
        guards: &[Lit],
        more_guards: &[Lit],
        values: &[RowValue<'a>],
        more_values: &[RowValue<'a>],
    ) -> Result<(), Memory>
        ensures ok { OnOk result
            (self.new ≡ self.old ++ (guards.now ++ more_guards.now, map row_value (values.now ++ more_values.now))
            ∷ []) }
        ensures err { OnErr result (self.new ≡ self.old) }
    {
        let start = end_of(self.ends.as_slice());
        put_guards(&mut self.guards, start.guards, guards, more_guards)?;
        put_values(&mut self.values, start.values, values, more_values)?;
        let end = RowEnd {
            guards: self.guards.len(),
            values: self.values.len(),
        };
        self.ends.push(end)?;
        Ok(())
    }
}

/// The rows of a term: its values, each with the literals under which the term has it.
#[derive(Drop)]
pub struct Rows<'a> {
    tuples: TupleRows<'a>,
}

impl<'a> Model for Rows<'a> {
    ghost use Rattle.std.specs.Prelude.{List};
    ghost use Rattle.std.specs.List.{AllByRecursion};
    ghost use Rattle.kb_logic.specs.Denotations.{Denotation};
    ghost use Rattle.lit_core.specs.declared.literals.Lit.{Lit};
    ghost use Rattle.term_values.specs.FlatRows.{single_rows, HasOneValue};

    ghost Value = { List (List Lit × Denotation) };

    ghost view = { λ r. single_rows r.tuples };

    ghost invariant = { λ r. AllByRecursion HasOneValue r.tuples };
}

impl<'a> Rows<'a> {
    /// No row.
    pub(crate) fn new(alloc: Global) -> Rows<'a>
        ensures { result ≡ [] }
    {
        Rows {
            tuples: TupleRows::new(alloc),
        }
    }

    /// No row, with room for so many of one guard each.
    pub(crate) fn with_room(alloc: Global, rows: usize) -> Result<Rows<'a>, Memory>
        ensures { IfOk result (λ r. r ≡ []) }
    {
        Ok(Rows {
            tuples: TupleRows::with_room(alloc, rows)?,
        })
    }

    /// How many rows there are.
    pub fn len(&self) -> usize
        ensures { result ≡ length self.now }
    {
        self.tuples.len()
    }

    /// The literals under which the term has the row's value.
    pub fn guards(&self, row: usize) -> &[Lit]
        requires { row < length self.now }
        ensures { option_map (λ r. r.0) (slice_get self.now row) ≡ Some result.now }
    {
        self.tuples.guards(row)
    }

    /// The value that the term has in the row.
    pub fn value(&self, row: usize) -> Value<'a>
        requires { row < length self.now }
        ensures { option_map (λ r. r.1) (slice_get self.now row) ≡ Some (value_view result) }
    {
        self.tuples.values(row)[0].value
    }

    /// Adds a row. Its guards come in two parts.
    pub(crate) fn push(
        &mut self,
        guards: &[Lit],
        more_guards: &[Lit],
        value: Value<'a>,
    ) -> Result<(), Memory>
        ensures ok { OnOk result (self.new ≡ self.old ++ (guards.now ++ more_guards.now, value_view value.entry) ∷ []) }
        ensures err { OnErr result (self.new ≡ self.old) }
    {
        self.tuples
            .push(guards, more_guards, &[RowValue { value }], &[])?;
        Ok(())
    }
}
