//! The rows of a table that are not known to be false.
ghost use Rattle.std.specs.Prelude.{◌≡◌, ◌<◌, length, true, false, Some, IfOk, IfSome};
ghost use Rattle.term_values.specs.GroundBases.{known_of};
ghost use Rattle.sentence_guards.specs.Guards.{AreRowsLeft};

use kb_logic::Memory;
use std::alloc::Global;
use term_values::GroundData;

/// Whether the variable's atom is known to be false.
fn is_false(base: &GroundData<'_>, var: u64) -> bool
    ensures { result ≡ true → known_of base.now var ≡ Some false }
{
    match base.known(var) {
        Some(value) => !value,
        None => false,
    }
}

/// The indexes of the symbol's tuples that are not known to be false. There are none where they are more than a quarter
/// of all.
pub fn rows_left(
    alloc: Global,
    base: &GroundData<'_>,
    symbol: u32,
) -> Result<Option<Vec<u64>>, Memory>
    requires { symbol < length base.now.vocabulary.symbols }
    ensures { IfOk result (λ o. IfSome o (λ rows. AreRowsLeft base.now symbol rows.items)) }
{
    let count = base.tuple_count(symbol);
    let first = base.first_var(symbol);
    let mut rows = Vec::new(alloc);
    if count >= 1 << 63 || first >= 1 << 63 {
        return Ok(None);
    }
    for index in 0..count {
        if is_false(base, first + index) {
            continue;
        }
        if rows.len() as u64 >= count / 4 {
            return Ok(None);
        }
        rows.push(index)?;
    }
    Ok(Some(rows))
}
