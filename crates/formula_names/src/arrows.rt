//! Chains of arrows, grouped.
ghost use Rattle.std.specs.Prelude.{◌≡◌, IfOk, map};
ghost use Rattle.stage_definitions.specs.NamedTrees as named;
ghost use Rattle.stage_definitions.specs.Numbering as numbers;
ghost use Rattle.stage_definitions.specs.NamedViews.{formula_view};

use grammar::Arrow;
use kb_logic::Memory;
use stage_definitions::NamedFormula;
use std::alloc::Global;

fn implication(
    alloc: Global,
    left: NamedFormula,
    right: NamedFormula,
) -> Result<NamedFormula, Memory>
    ensures { IfOk result (λ f. formula_view f ≡ named.implication (formula_view left) (formula_view right)) }
{
    Ok(NamedFormula::Implies(Box::new(alloc, left)?, Box::new(alloc, right)?))
}

/// `f => g => h` is `f => (g => h)`.
fn implies(
    alloc: Global,
    first: NamedFormula,
    mut more: Vec<NamedFormula>,
) -> Result<NamedFormula, Memory>
    ensures { IfOk result (λ f. formula_view f ≡ numbers.implies (formula_view first) (map formula_view more.items)) }
{
    let Some(mut right) = more.pop() else {
        return Ok(first);
    };
    while let Some(left) = more.pop() {
        right = implication(alloc, left, right)?;
    }
    let whole = implication(alloc, first, right)?;
    Ok(whole)
}

/// `f <= g <= h` is `(f <= g) <= h`, and `f <= g` is `g => f`.
fn implied_by(
    alloc: Global,
    first: NamedFormula,
    more: Vec<NamedFormula>,
) -> Result<NamedFormula, Memory>
    ensures { IfOk result (λ f. formula_view f ≡ numbers.implied_by (formula_view first)
        (map formula_view more.items)) }
{
    let mut left = first;
    for right in more {
        left = implication(alloc, right, left)?;
    }
    Ok(left)
}

/// `f <=> g <=> h` is `(f <=> g) <=> h`.
fn equivalent(
    alloc: Global,
    first: NamedFormula,
    more: Vec<NamedFormula>,
) -> Result<NamedFormula, Memory>
    ensures { IfOk result (λ f. formula_view f ≡ numbers.equivalent (formula_view first)
        (map formula_view more.items)) }
{
    let mut left = first;
    for right in more {
        left = NamedFormula::Iff(Box::new(alloc, left)?, Box::new(alloc, right)?);
    }
    Ok(left)
}

/// A chain of one arrow.
pub fn grouped(
    alloc: Global,
    arrow: Arrow,
    first: NamedFormula,
    more: Vec<NamedFormula>,
) -> Result<NamedFormula, Memory>
    ensures { IfOk result (λ f. formula_view f ≡ numbers.grouped arrow (formula_view first)
        (map formula_view more.items)) }
{
    match arrow {
        Arrow::Implies => implies(alloc, first, more),
        Arrow::ImpliedBy => implied_by(alloc, first, more),
        Arrow::Equivalent => equivalent(alloc, first, more),
    }
}
