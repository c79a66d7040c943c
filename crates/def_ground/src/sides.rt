//! The sides of a comparison's cases: the values of the right term that compare so with one of the left.
ghost use Rattle.std.specs.Prelude.{◌≡◌, None, true, false, if◌then◌else◌, map, IfOk, OnOk};
ghost use Rattle.std.specs.List.{list_all};
ghost use Rattle.kb_logic.specs.Values.{value_view};
ghost use Rattle.def_ground.specs.Comparisons.{any_where, comparison_case};
ghost use Rattle.def_ground.specs.CaseViews.{or_behind};
ghost use Rattle.def_ground.specs.CaseViews.{case_view, guarded_view, compared_with};

use crate::answers::Answer;
use crate::cases::Case;
use ground_core::{LitList, Memory};
use kb_logic::Cmp;
use kb_logic::values::{Value, compare};
use lit_core::Lit;
use std::alloc::Global;

/// A value that a term has where the answer is true.
#[derive(Clone, Copy)]
pub struct GuardedValue<'a> {
    pub answer: Answer,
    pub value: Value<'a>,
}

/// Whether the values compare so where `sign`, and else whether they do not.
fn passes(sign: bool, cmp: Cmp, x: Value<'_>, y: Value<'_>) -> bool
    ensures { result ≡ compared_with sign cmp (value_view x.entry) (value_view y.entry) }
{
    if sign {
        compare(cmp, x, y)
    } else {
        !compare(cmp, x, y)
    }
}

/// Whether each of the values passes.
fn all_pass(sign: bool, cmp: Cmp, x: Value<'_>, rows: &[GuardedValue<'_>]) -> bool
    ensures { result ≡ list_all (λ r. compared_with sign cmp (value_view x.entry) r.1) (map guarded_view rows.now) }
{
    for row in rows {
        if !passes(sign, cmp, x, row.value) {
            return false;
        }
    }
    true
}

/// Adds the answer of one more value that passes to the side: None once one of them is certain.
fn put(side: &mut Option<LitList>, answer: Answer) -> Result<(), Memory>
    ensures { OnOk result (side.new ≡ or_behind side.old answer) }
{
    if let Answer::Constant(true) = answer {
        *side = None;
        return Ok(());
    }
    let Answer::Literal(lit) = answer else {
        return Ok(());
    };
    if let Some(lits) = side {
        lits.push(lit)?;
    }
    Ok(())
}

/// How much room a side with so many values is given at once: none where it takes little anyway.
fn room_for(values: usize) -> usize {
    if values > 4 { values } else { 0 }
}

// Each value is compared once, and the long side, which is mostly the second one, has its room from the start.
/// The answers of the values that compare so, and of those that do not.
fn parted(
    alloc: Global,
    cmp: Cmp,
    x: Value<'_>,
    rows: &[GuardedValue<'_>],
) -> Result<(Option<LitList>, Option<LitList>), Memory>
    ensures yes { IfOk result (λ s. s.0 ≡ any_where (λ y. compared_with true cmp (value_view x.entry) y)
        (map guarded_view rows.now)) }
    ensures no { IfOk result (λ s. s.1 ≡ any_where (λ y. compared_with false cmp (value_view x.entry) y)
        (map guarded_view rows.now)) }
{
    let mut yes = Some(LitList::new(alloc));
    let mut no = Some(LitList::from_vec(Vec::with_capacity(alloc, room_for(rows.len()))?));
    for row in rows {
        if compare(cmp, x, row.value) {
            put(&mut yes, row.answer)?;
        } else {
            put(&mut no, row.answer)?;
        }
    }
    Ok((yes, no))
}

/// The side, unless all of the values pass: then it is true in any case.
fn unless(all: bool, side: Option<LitList>) -> Option<LitList>
    ensures { result ≡ (if all then None else side) }
{
    if all { None } else { side }
}

/// The case of a row of the left term, over the values of the right one.
pub fn case_of_row<'a>(
    alloc: Global,
    cmp: Cmp,
    guards: &'a [Lit],
    value: Value<'_>,
    rows: &[GuardedValue<'_>],
) -> Result<Case<'a>, Memory>
    ensures { IfOk result (λ c. case_view c ≡ comparison_case cmp (map guarded_view rows.now)
        (guards.now, value_view value.entry)) }
{
    let (yes, no) = parted(alloc, cmp, value, rows)?;
    Ok(Case {
        guards,
        yes: unless(all_pass(true, cmp, value, rows), yes),
        no: unless(all_pass(false, cmp, value, rows), no),
    })
}
