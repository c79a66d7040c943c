//! Why a sum cannot be below its bound.
ghost use Rattle.std.specs.Prelude.{◌≡◌, ◌<◌, ◌≤ℤ◌, ◌-ℤ◌, pos, true, Some, length, All, IfOk};
ghost use Rattle.kb_logic.specs.declared.elements.ExtInt.{ExtInt};
ghost use Rattle.kb_logic.specs.declared.syntax.AggKind.TheVariants as kind;
ghost use Rattle.lit_core.specs.Literals.{value_in};
ghost use Rattle.ground_core.specs.declared.parts.Part.{Part as PartRow};
ghost use Rattle.term_bounds.specs.Amounts.{amount_of};
ghost use Rattle.term_bounds.specs.Reasons.{AreReasons, IsReason, differ};

use crate::linear::Line;
use crate::shares::{part_raise, sum_raise};
use ground_core::{Memory, Part};
use kb_logic::AggKind;
use lit_core::{Assignment, Lit};
use std::alloc::Global;

/// The literal of the variable that is false, where this literal has this value.
pub fn false_one(lit: Lit, value: bool) -> Lit
    ensures { result ≡ record { var = lit.var; positive = differ lit.positive value } }
{
    Lit {
        var: lit.var,
        positive: lit.positive != value,
    }
}

/// What is left of the spare.
fn left_of(spare: i128, raise: i128) -> i128
    requires low { pos 0 ≤ℤ raise }
    requires room { raise ≤ℤ spare }
    ensures value { result ≡ spare -ℤ raise }
    ensures low { pos 0 ≤ℤ result }
{
    spare - raise
}

/// What `literals` gives, of the parts of a sum: each counts its weight, and is not asked for its term's kind. In a
/// function of its own the loop keeps what it needs in registers.
#[inline(never)]
fn sum_literals(
    alloc: Global,
    parts: &[Part],
    spare: i128,
    assignment: &Assignment,
) -> Result<Vec<Lit>, Memory>
    requires within { All (λ (p : PartRow). p.lit.var.0 < length assignment.now) parts.now }
    requires spare { pos 0 ≤ℤ spare }
    ensures reasons { IfOk result (λ c. (bound : ExtInt) → AreReasons assignment.now kind.Sum bound parts.now spare
        c.items) }
{
    let mut clause = Vec::with_capacity(alloc, parts.len())?;
    let mut spare = spare;
    for part in parts {
        let value = assignment.value(part.lit);
        let raise = sum_raise(part, value);
        match value {
            Some(value) => {
                if raise > spare {
                    clause.push_reserved(false_one(part.lit, value));
                } else {
                    spare = left_of(spare, raise);
                }
            }
            None => {}
        }
    }
    Ok(clause)
}

/// Literals of the parts whose values raise the least sum, so many that what the others raise it by is at most the
/// spare.
fn literals(
    alloc: Global,
    line: Line,
    parts: &[Part],
    spare: i128,
    assignment: &Assignment,
) -> Result<Vec<Lit>, Memory>
    requires within { All (λ (p : PartRow). p.lit.var.0 < length assignment.now) parts.now }
    requires spare { pos 0 ≤ℤ spare }
    ensures reasons { IfOk result (λ c. AreReasons assignment.now line.kind (amount_of line.bound) parts.now spare
        c.items) }
{
    let mut clause = Vec::with_capacity(alloc, parts.len())?;
    let mut spare = spare;
    for part in parts {
        let value = assignment.value(part.lit);
        let raise = part_raise(line, part, value);
        match value {
            Some(value) => {
                if raise > spare {
                    clause.push(false_one(part.lit, value))?;
                } else {
                    spare = left_of(spare, raise);
                }
            }
            None => {}
        }
    }
    Ok(clause)
}

/// These literals, by the loop for the term's kind.
fn literals_of(
    alloc: Global,
    line: Line,
    parts: &[Part],
    spare: i128,
    assignment: &Assignment,
) -> Result<Vec<Lit>, Memory>
    requires within { All (λ (p : PartRow). p.lit.var.0 < length assignment.now) parts.now }
    requires spare { pos 0 ≤ℤ spare }
    ensures reasons { IfOk result (λ c. AreReasons assignment.now line.kind (amount_of line.bound) parts.now spare
        c.items) }
{
    match line.kind {
        AggKind::Sum => sum_literals(alloc, parts, spare, assignment),
        AggKind::Count | AggKind::Min | AggKind::Max => {
            literals(alloc, line, parts, spare, assignment)
        }
    }
}

/// A clause of literals of the parts whose values raise the least sum, so many that what the others raise it by is at
/// most the spare, and of the negation of the bound's output, which is true.
///
/// The output is mostly the newest variable. It comes last, so that the clause is in order where the parts are, and the
/// store need not sort it.
pub fn reasons(
    alloc: Global,
    line: Line,
    out: Lit,
    parts: &[Part],
    spare: i128,
    assignment: &Assignment,
) -> Result<Vec<Lit>, Memory>
    requires out { value_in assignment.now out ≡ Some true }
    requires within { All (λ (p : PartRow). p.lit.var.0 < length assignment.now) parts.now }
    requires spare { pos 0 ≤ℤ spare }
    ensures reason { IfOk result (λ c. IsReason assignment.now line.kind (amount_of line.bound) out parts.now
        spare c.items) }
{
    let mut clause = literals_of(alloc, line, parts, spare, assignment)?;
    clause.push(out.negated())?;
    Ok(clause)
}
