//! The open instances of a formula.
ghost use Rattle.std.specs.Prelude.{◌≡◌, ◌++◌, drop, fold, IfOk, OnOk};
ghost use Rattle.std.specs.List.{AllByRecursion};
ghost use Rattle.kb_logic.specs.Structures.{choices};
ghost use Rattle.kb_logic.specs.Views.{formula_view};
ghost use Rattle.plain_evaluation.specs.Environments.{env_view};
ghost use Rattle.certain_truth.specs.KnownArithmetic.{CertaintyFits};
ghost use Rattle.quantifier_bounds.specs.Open.{open_choices, with_open};
ghost use Rattle.quantifier_bounds.specs.Steps.{is_unknown as unknown};

use certain_truth::certain_formula;
use kb_logic::{Bound, Elem, ElemList, Formula, Memory};
use partial_structures::{Partial, Truth};
use plain_evaluation::environments::{Env, extend, find, split_in};
use std::alloc::Global;

/// What is asked of each instance. The elements of an instance begin at the variable number `first`.
#[derive(Clone, Copy)]
struct Question<'a> {
    alloc: Global,
    known: &'a Partial,
    formula: &'a Formula,
    first: usize,
}

fn is_unknown(truth: Truth) -> bool
    ensures { result ≡ unknown truth }
{
    match truth {
        Truth::Unknown => true,
        _ => false,
    }
}

/// The elements of the variables from number `first` on.
fn row_from(alloc: Global, env: &Env<'_>, first: usize) -> Result<ElemList, Memory>
    ensures { IfOk result (λ row. row ≡ drop first (env_view env.now)) }
{
    let mut row = ElemList::new(alloc);
    let mut at = first;
    'elements: loop {
        match find(env, at) {
            Ok(elem) => row.push(elem.copy(alloc)?)?,
            Err(_) => return Ok(row),
        }
        match at.checked_add(1) {
            Some(next) => at = next,
            None => return Err(Memory),
        }
    }
}

/// Pushes the instance where it is open.
fn push_instance<'a>(
    question: Question<'a>,
    env: &'a Env<'a>,
    out: &mut Vec<ElemList>,
) -> Result<(), Memory>
    requires { CertaintyFits question.known.now (formula_view question.formula.now) (env_view env.now) }
    ensures { OnOk result (out.new.items ≡ with_open question.entry.known.now
        (formula_view question.entry.formula.now) question.entry.first out.old.items (env_view env.now)) }
{
    if !is_unknown(certain_formula(question.known, question.formula, &*env)) {
        return Ok(());
    }
    let row = row_from(question.alloc, env, question.first)?;
    out.push(row)?;
    Ok(())
}

/// Pushes the open instances, in domain order.
fn push_instances<'a>(
    question: Question<'a>,
    bounds: &'a [Bound],
    env: &'a Env<'a>,
    out: &mut Vec<ElemList>,
) -> Result<(), Memory>
    requires { AllByRecursion (λ a. CertaintyFits question.known.now (formula_view question.formula.now)
        (env_view env.now ++ a)) (choices question.known.now.domains bounds.now) }
    ensures { OnOk result (out.new.items ≡ fold (λ rows a. with_open question.entry.known.now
        (formula_view question.entry.formula.now) question.entry.first rows (env_view env.now ++ a)) out.old.items
        (choices question.entry.known.now.domains bounds.now)) }
{
    if bounds.is_empty() {
        return push_instance(question, env, out);
    }
    let (block, others) = split_in(question.known.domains().as_slice(), bounds);
    for number in 0..block.count {
        push_instances(question, others, &extend(env, block, number), out)?;
    }
    Ok(())
}

/// The assignments of `vars`, in domain order, under which the formula is not certain where the variables before them
/// have the elements of `env`.
pub fn open_instances(
    alloc: Global,
    s: &Partial,
    env: &[Elem],
    vars: &[Bound],
    f: &Formula,
) -> Result<Vec<ElemList>, Memory>
    requires { AllByRecursion (λ a. CertaintyFits s.now (formula_view f.now) (env.now ++ a))
        (choices s.now.domains vars.now) }
    ensures { IfOk result (λ rows. rows.items ≡ open_choices s.now env.now vars.now (formula_view f.now)) }
{
    let question = Question {
        alloc,
        known: s,
        formula: f,
        first: env.len(),
    };
    let mut rows = Vec::new(alloc);
    push_instances(question, vars, &Env::Given(env), &mut rows)?;
    Ok(rows)
}
