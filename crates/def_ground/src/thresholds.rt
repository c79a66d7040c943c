//! Aggregates that are compared with numbers, and with the rows of terms.
ghost use Rattle.std.specs.Prelude.{◌≡◌, ◌≤ℤ◌, ◌^◌, ◌-◌, ◌+ℤ◌, ◌-ℤ◌, int_le, pos, neg_ℤ, map, IfOk};
ghost use Rattle.kb_logic.specs.declared.syntax.AggKind.TheVariants as kind;
ghost use Rattle.lit_core.specs.Literals.{negated};
ghost use Rattle.ground_core.specs.Problems.{ArePartsOf};
ghost use Rattle.def_ground.specs.Answers.{AnswerWithin, Makes, Grows};
ghost use Rattle.def_ground.specs.Linear.{sum_reaches as sum_at_least, lits_below as below, lits_from as from};
ghost use Rattle.def_ground.specs.Linear.{reaches_number, both_of, is_number as number_is};
ghost use Rattle.def_ground.specs.Linear.{compared_at as comparison_at};
ghost use Rattle.def_ground.specs.LinearViews.{linear_view, share_of, end_of};
ghost use Rattle.def_ground.specs.Thresholds.{flipped as flipped_comparison};

use crate::answers::Answer;
use crate::gates::gate;
use crate::linear::Linear;
use ground_core::{LitList, Memory, Part, PartList, Problem};
use kb_logic::{AggKind, Cmp, ExtInt};
use std::alloc::Global;

/// What a part adds to the least (or where `high` to the greatest) that a sum may come to.
fn share(high: bool, part: &Part) -> i64
    ensures { result ≡ share_of high part.now.weight }
{
    if (part.weight < 0) == high {
        0
    } else {
        part.weight
    }
}

/// The sum with one more.
fn plus(sum: i128, more: i64) -> i128
    requires low { neg_ℤ (pos (2 ^ 127 - 2 ^ 63)) ≤ℤ sum }
    requires high { sum ≤ℤ pos (2 ^ 127 - 2 ^ 63 - 1) }
    ensures sum { result ≡ sum +ℤ more }
    ensures low { neg_ℤ (pos (2 ^ 63)) ≤ℤ (result -ℤ sum) }
    ensures high { (result -ℤ sum) ≤ℤ pos (2 ^ 63) }
{
    sum + i128::from(more)
}

// A sum of fewer than 2^63 numbers of 64 bits fits 128.
/// The least, or the greatest, that the parts may come to, each by itself.
fn end(high: bool, parts: &[Part]) -> i128
    ensures value { result ≡ end_of high parts.now }
    ensures low { neg_ℤ (pos (2 ^ 126)) ≤ℤ result }
    ensures high { result ≤ℤ pos (2 ^ 126) }
{
    let mut total: i128 = 0;
    for part in parts {
        total = plus(total, share(high, part));
    }
    total
}

/// Whether the two numbers together are at least the bound.
fn is_enough(base: i64, more: i128, bound: i128) -> bool
    requires low { neg_ℤ (pos (2 ^ 126)) ≤ℤ more }
    requires high { more ≤ℤ pos (2 ^ 126) }
    ensures { result ≡ int_le bound (base +ℤ more) }
{
    bound <= plus(more, base)
}

/// The bound for the parts alone. Between the least and the greatest that they may come to, it fits 64 bits where both
/// of these do.
fn least_of(bound: i128, base: i64) -> Result<i64, Memory>
    ensures { IfOk result (λ n. n ≡ bound -ℤ base) }
{
    let Some(least) = bound.checked_sub(i128::from(base)) else {
        return Err(Memory);
    };
    match i64::try_from(least) {
        Ok(least) => Ok(least),
        Err(_) => Err(Memory),
    }
}

/// The same parts.
pub(crate) fn copied(alloc: Global, parts: &[Part]) -> Result<PartList, Memory>
    ensures { IfOk result (λ ps. ps ≡ parts.now) }
{
    Ok(PartList::from_vec(parts.to_vec(alloc)?))
}

/// Whether a sum is at least the bound: a constraint only where its parts may come to both.
fn sum_reaches(
    alloc: Global,
    linear: &Linear,
    bound: i128,
    problem: &mut Problem,
) -> Result<Answer, Memory>
    requires parts { ArePartsOf problem.old.vars linear.now.parts }
    ensures made { IfOk result (λ a. Makes (sum_at_least (linear_view linear.now problem.old) bound) a problem.new) }
    ensures grows { IfOk result (λ a. Grows problem.old problem.new a) }
{
    let parts = linear.parts.as_slice();
    if is_enough(linear.base, end(false, parts), bound) {
        return Ok(Answer::Constant(true));
    }
    if !is_enough(linear.base, end(true, parts), bound) {
        return Ok(Answer::Constant(false));
    }
    let least = least_of(bound, linear.base)?;
    let out = problem.add_sum(AggKind::Sum, copied(alloc, parts)?, ExtInt::Num(least))?;
    Ok(Answer::Literal(out))
}

/// The opposites of the literals of the parts below the bound.
fn none_below(alloc: Global, parts: &[Part], bound: i128) -> Result<LitList, Memory>
    ensures { IfOk result (λ ls. ls ≡ map negated (below bound parts.now)) }
{
    let mut lits = LitList::new(alloc);
    for part in parts {
        if i128::from(part.weight) < bound {
            lits.push(part.lit.negated())?;
        }
    }
    Ok(lits)
}

/// The literals of the parts that are not below the bound.
fn lits_from(alloc: Global, parts: &[Part], bound: i128) -> Result<LitList, Memory>
    ensures { IfOk result (λ ls. ls ≡ from bound parts.now) }
{
    let mut lits = LitList::new(alloc);
    for part in parts {
        if bound <= i128::from(part.weight) {
            lits.push(part.lit)?;
        }
    }
    Ok(lits)
}

/// Whether an aggregate is at least the bound.
fn reaches(
    alloc: Global,
    kind: AggKind,
    linear: &Linear,
    bound: i128,
    problem: &mut Problem,
) -> Result<Answer, Memory>
    requires parts { ArePartsOf problem.old.vars linear.now.parts }
    ensures made { IfOk result
        (λ a. Makes (reaches_number kind (linear_view linear.now problem.old) bound) a problem.new) }
    ensures grows { IfOk result (λ a. Grows problem.old problem.new a) }
{
    match kind {
        AggKind::Count | AggKind::Sum => sum_reaches(alloc, linear, bound, problem),
        AggKind::Min => {
            let lits = none_below(alloc, linear.parts.as_slice(), bound)?;
            gate(true, lits, problem)
        }
        AggKind::Max => {
            let lits = lits_from(alloc, linear.parts.as_slice(), bound)?;
            gate(false, lits, problem)
        }
    }
}

/// Whether both are so.
pub(crate) fn both(
    alloc: Global,
    a: Answer,
    b: Answer,
    problem: &mut Problem,
) -> Result<Answer, Memory>
    requires first { AnswerWithin problem.old.vars a }
    requires second { AnswerWithin problem.old.vars b }
    ensures made { IfOk result (λ r. Makes (both_of a b problem.old) r problem.new) }
    ensures grows { IfOk result (λ r. Grows problem.old problem.new r) }
{
    match (a, b) {
        (Answer::Constant(false), _) | (_, Answer::Constant(true)) => Ok(a),
        (_, Answer::Constant(false)) | (Answer::Constant(true), _) => Ok(b),
        (Answer::Literal(l), Answer::Literal(m)) => {
            let mut lits = LitList::new(alloc);
            lits.push(l)?;
            lits.push(m)?;
            gate(true, lits, problem)
        }
    }
}

// The greatest number of 64 bits has a next one too, so bounds have 128.
/// The next number.
fn after(number: i64) -> i128
    ensures { result ≡ number +ℤ pos 1 }
{
    i128::from(number) + 1
}

/// Whether an aggregate is the number: at least it, and not at least the next.
fn is_number(
    alloc: Global,
    kind: AggKind,
    linear: &Linear,
    number: i64,
    problem: &mut Problem,
) -> Result<Answer, Memory>
    requires parts { ArePartsOf problem.old.vars linear.now.parts }
    ensures made { IfOk result (λ a. Makes (number_is kind (linear_view linear.now problem.old) number) a problem.new) }
    ensures grows { IfOk result (λ a. Grows problem.old problem.new a) }
{
    let low = reaches(alloc, kind, linear, i128::from(number), problem)?;
    let high = reaches(alloc, kind, linear, after(number), problem)?;
    both(alloc, low, high.opposite(), problem)
}

/// How an aggregate compares with a number.
pub fn compared_at(
    alloc: Global,
    kind: AggKind,
    cmp: Cmp,
    linear: &Linear,
    number: i64,
    problem: &mut Problem,
) -> Result<Answer, Memory>
    requires parts { ArePartsOf problem.old.vars linear.now.parts }
    ensures made { IfOk result
        (λ a. Makes (comparison_at kind cmp (linear_view linear.now problem.old) number) a problem.new) }
    ensures grows { IfOk result (λ a. Grows problem.old problem.new a) }
{
    match cmp {
        Cmp::Eq => is_number(alloc, kind, linear, number, problem),
        Cmp::Ne => Ok(is_number(alloc, kind, linear, number, problem)?.opposite()),
        Cmp::Ge => reaches(alloc, kind, linear, i128::from(number), problem),
        Cmp::Lt => Ok(reaches(alloc, kind, linear, i128::from(number), problem)?.opposite()),
        Cmp::Gt => reaches(alloc, kind, linear, after(number), problem),
        Cmp::Le => Ok(reaches(alloc, kind, linear, after(number), problem)?.opposite()),
    }
}

/// The comparison with its sides exchanged.
pub fn flipped(cmp: Cmp) -> Cmp
    ensures { result ≡ flipped_comparison cmp }
{
    match cmp {
        Cmp::Eq => Cmp::Eq,
        Cmp::Ne => Cmp::Ne,
        Cmp::Lt => Cmp::Gt,
        Cmp::Gt => Cmp::Lt,
        Cmp::Le => Cmp::Ge,
        Cmp::Ge => Cmp::Le,
    }
}
