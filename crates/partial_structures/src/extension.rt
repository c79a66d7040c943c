//! Whether a structure extends what is known.
//!
//! Each row of the structure is looked up once. A row of a false atom refutes the extension; the rows of true
//! atoms are counted, and where there are as many as true atoms, none is missing.
ghost use Rattle.std.specs.Prelude.{◌≡◌, ◌↔◌, IsTrue};
ghost use Rattle.row_tries.specs.Words.{words_in};
ghost use Rattle.partial_structures.specs.Flags.{is_closed};
ghost use Rattle.partial_structures.specs.Tally.{row_status as status_of_row, taken, left_after, tables_left};

use crate::atoms::{function_status, predicate_status};
use crate::flags::flag;
use kb_logic::{Elem, ElemList, Table};
use row_tries::{Rows, Truth};

fn row_status(rows: &Rows, closed: bool, function: bool, symbol: u32, row: &[Elem]) -> Truth
    ensures { result ≡ status_of_row (words_in rows.now.words) rows.now.nodes.entries closed function symbol row.now }
{
    if !function {
        return predicate_status(rows, closed, symbol, row);
    }
    match row.split_last() {
        Some((value, args)) => function_status(rows, closed, symbol, args, value),
        None => Truth::Unknown,
    }
}

fn take(known: Truth, left: u64) -> Option<u64>
    ensures { result ≡ taken known left }
{
    match known {
        Truth::Yes => Some(left.saturating_sub(1)),
        Truth::No => None,
        Truth::Unknown => Some(left),
    }
}

fn rows_left(
    rows: &Rows,
    closed: bool,
    function: bool,
    symbol: u32,
    table: &[ElemList],
    left: u64,
) -> Option<u64>
    ensures { result ≡ left_after (status_of_row (words_in rows.now.words) rows.now.nodes.entries closed function
        symbol) table.now left }
{
    let mut left = left;
    for row in table {
        match take(
            row_status(rows, closed, function, symbol, row.as_slice()),
            left,
        ) {
            Some(rest) => left = rest,
            None => return None,
        }
    }
    Some(left)
}

/// How many of the true atoms are left over by the rows of the tables; None where some row is that of a
/// false atom.
pub(crate) fn left_over(
    rows: &Rows,
    closed: &[bool],
    function: bool,
    tables: &[Table],
    left: u64,
) -> Option<u64>
    ensures { result ≡ tables_left (words_in rows.now.words) rows.now.nodes.entries closed.now function
        tables.now left }
{
    let mut left = left;
    for table in tables {
        let flag = flag(closed, table.symbol);
        match rows_left(
            rows,
            flag,
            function,
            table.symbol,
            table.rows.as_slice(),
            left,
        ) {
            Some(rest) => left = rest,
            None => return None,
        }
    }
    Some(left)
}

fn is_same_domain(a: &[Elem], b: &[Elem]) -> bool
    ensures { IsTrue result ↔ (a.now ≡ b.now) }
{
    if a.len() != b.len() {
        return false;
    }
    for i in 0..a.len() {
        if !a[i].same(&b[i]) {
            return false;
        }
    }
    true
}

/// Whether the domains are the same lists of elements.
pub(crate) fn are_same_domains(a: &[ElemList], b: &[ElemList]) -> bool
    ensures { IsTrue result ↔ (a.now ≡ b.now) }
{
    if a.len() != b.len() {
        return false;
    }
    for i in 0..a.len() {
        if !is_same_domain(a[i].as_slice(), b[i].as_slice()) {
            return false;
        }
    }
    true
}
