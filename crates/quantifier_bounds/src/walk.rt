//! What follows where a formula must have a value.
ghost use Rattle.std.specs.Prelude.{◌≡◌, ◌++◌, ◌||◌, ◌&&◌, map, not, true, false};
ghost use Rattle.std.specs.List.{AllByRecursion};
ghost use Rattle.kb_logic.specs.Trees.{formulas_of, implication, equivalence};
ghost use Rattle.kb_logic.specs.Views.{formula_view};
ghost use Rattle.kb_logic.specs.Structures.{choices};
ghost use Rattle.plain_evaluation.specs.Environments.{env_view};
ghost use Rattle.certain_truth.specs.Certainty.{certain_truth};
ghost use Rattle.bound_laws.specs.Lone.{LoneOf};
ghost use Rattle.bound_laws.specs.Closures.{opposes, Obeys, AllObey, LastObeys};
ghost use Rattle.quantifier_bounds.specs.Fits.{Fits, AllFit};
ghost use Rattle.quantifier_bounds.specs.Steps.{Narrows};
ghost use Rattle.quantifier_bounds.specs.Walks.{Demands, Follows, PartsObey, told_truth};

use crate::fault::BoundFault;
use crate::functions::is_no;
use crate::leaves::{atom_must, equation};
use crate::left::{Left, certainty, is_lost, left_in, not_lost};
use crate::order::nth;
use kb_logic::{Bound, Cmp, ElemList, Formula, Symbol};
use partial_structures::{Partial, Truth};
use plain_evaluation::environments::{Env, extend, split_in};
use std::alloc::Global;

/// What no step of a pass changes. A pass goes through instances and tuples from the first to the last, or where it is
/// `falling` from the last to the first.
#[derive(Clone, Copy)]
pub struct Setting<'a> {
    pub alloc: Global,
    pub symbols: &'a [Symbol],
    pub domains: &'a [ElemList],
    pub falling: bool,
}

/// What instances must be: of the value, where `left_only` only those that are not certainly of the other one.
#[derive(Clone, Copy)]
pub(crate) struct Want {
    pub value: bool,
    pub left_only: bool,
}

/// Whether one of two steps changed anything.
pub fn either(a: bool, b: bool) -> bool
    ensures { result ≡ (a || b) }
{
    a || b
}

/// Whether a part of an implication is asked for: where the whole must be false, or where the other part leaves it
/// alone.
fn is_asked<'a>(known: &'a Partial, v: bool, other: &'a Formula, w: bool, env: &'a Env<'a>) -> bool
    requires { Fits known.now.symbols known.now.domains (formula_view other.now) (env_view env.now) }
    ensures { result ≡ (not v || opposes w (certain_truth known.now (formula_view other.now) (env_view env.now))) }
{
    if v {
        return is_lost(known, other, w, env);
    }
    true
}

/// What is certain of the left side of an implication that must be true; one that must be false asks for its right side
/// in any case.
fn left_truth<'a>(known: &'a Partial, v: bool, left: &'a Formula, env: &'a Env<'a>) -> Truth
    requires { Fits known.now.symbols known.now.domains (formula_view left.now) (env_view env.now) }
    ensures { result ≡ told_truth v (certain_truth known.now (formula_view left.now) (env_view env.now)) }
{
    if v {
        return certainty(known, left, env);
    }
    Truth::Yes
}

fn is_yes(truth: Truth) -> bool
    ensures { result ≡ opposes false truth }
{
    match truth {
        Truth::Yes => true,
        _ => false,
    }
}

/// Whether the instance is passed over: it is certainly of the other value, and only those that are left are wanted.
fn is_passed<'a>(known: &'a Partial, formula: &'a Formula, want: Want, env: &'a Env<'a>) -> bool
    requires { Fits known.now.symbols known.now.domains (formula_view formula.now) (env_view env.now) }
    ensures { result ≡ (want.left_only && opposes want.value (certain_truth known.now (formula_view formula.now)
        (env_view env.now))) }
{
    if want.left_only {
        return is_lost(known, formula, want.value, env);
    }
    false
}

/// Makes known what follows where the formula must have this value. Whether that was anything.
#[cycle(must)]
pub fn must<'a>(
    known: &mut Partial,
    setting: Setting<'a>,
    formula: &'a Formula,
    v: bool,
    env: &'a Env<'a>,
) -> Result<bool, BoundFault>
    requires domains { setting.domains.now ≡ known.old.domains }
    requires fits { Fits known.old.symbols known.old.domains (formula_view formula.now) (env_view env.now) }
    ensures { Narrows known.old known.new result (λ q. Obeys q v (formula_view formula.now) (env_view env.now)) }
{
    known.consistency();
    match formula {
        Formula::True => not_lost(&*known, &*formula, v, &*env),
        Formula::False => not_lost(&*known, &*formula, v, &*env),
        Formula::Not(inner) => must(known, setting, inner, !v, env),
        Formula::And(formulas) => parts(known, setting, true, formulas, v, env),
        Formula::Or(formulas) => parts(known, setting, false, formulas, v, env),
        Formula::Implies(left, right) => implied(known, setting, left, right, v, env),
        Formula::Iff(left, right) => alike(known, setting, left, right, v, env),
        Formula::All(bounds, inner) => {
            if v {
                all_instances(known, setting, bounds, inner, true, env)
            } else {
                lone(known, setting, bounds, inner, false, env)
            }
        }
        Formula::Any(bounds, inner) => {
            if v {
                lone(known, setting, bounds, inner, true, env)
            } else {
                all_instances(known, setting, bounds, inner, false, env)
            }
        }
        Formula::Number(_, _, _, _) => not_lost(&*known, &*formula, v, &*env),
        Formula::Atom(symbol, args) => {
            not_lost(&*known, &*formula, v, &*env)?;
            atom_must(setting.alloc, known, *symbol, args, v, env)
        }
        Formula::Compare(cmp, left, right) => {
            not_lost(&*known, &*formula, v, &*env)?;
            match cmp {
                Cmp::Eq => equation(setting.alloc, known, left, right, v, env),
                Cmp::Ne | Cmp::Lt | Cmp::Gt | Cmp::Le | Cmp::Ge => Ok(false),
            }
        }
    }
}

/// The conjunction of the formulas, or their disjunction, must have this value.
#[cycle(must)]
fn parts<'a>(
    known: &mut Partial,
    setting: Setting<'a>,
    conjunction: bool,
    formulas: &'a [Formula],
    v: bool,
    env: &'a Env<'a>,
) -> Result<bool, BoundFault>
    requires domains { setting.domains.now ≡ known.old.domains }
    requires fits { AllFit known.old.symbols known.old.domains (formulas_of (map formula_view formulas.now))
        (env_view env.now) }
    ensures { Narrows known.old known.new result
        (λ q. PartsObey q conjunction v (formulas_of (map formula_view formulas.now)) (env_view env.now)) }
{
    if conjunction == v {
        all(known, setting, formulas, v, env)
    } else {
        last(known, setting, formulas, v, env)
    }
}

/// Each of the formulas must have this value.
#[cycle(must)]
fn all<'a>(
    known: &mut Partial,
    setting: Setting<'a>,
    formulas: &'a [Formula],
    v: bool,
    env: &'a Env<'a>,
) -> Result<bool, BoundFault>
    requires domains { setting.domains.now ≡ known.old.domains }
    requires fits { AllFit known.old.symbols known.old.domains (formulas_of (map formula_view formulas.now))
        (env_view env.now) }
    ensures { Narrows known.old known.new result
        (λ q. AllObey q v (formulas_of (map formula_view formulas.now)) (env_view env.now)) }
{
    let mut changed = false;
    for formula in formulas {
        let more = must(known, setting, formula, v, env)?;
        changed = either(changed, more);
    }
    Ok(changed)
}

/// One of the formulas must have this value: the last one of which that is open.
#[cycle(must)]
fn last<'a>(
    known: &mut Partial,
    setting: Setting<'a>,
    formulas: &'a [Formula],
    v: bool,
    env: &'a Env<'a>,
) -> Result<bool, BoundFault>
    requires domains { setting.domains.now ≡ known.old.domains }
    requires fits { AllFit known.old.symbols known.old.domains (formulas_of (map formula_view formulas.now))
        (env_view env.now) }
    ensures { Narrows known.old known.new result
        (λ q. LastObeys q v (formulas_of (map formula_view formulas.now)) (env_view env.now) false) }
{
    let mut lone: Option<usize> = None;
    for at in 0..formulas.len() {
        if is_lost(&*known, &formulas[at], v, &*env) {
            continue;
        }
        if lone.is_some() {
            return Ok(false);
        }
        lone = Some(at);
    }
    match lone {
        None => Err(BoundFault::Contradiction),
        Some(at) => must(known, setting, &formulas[at], v, env),
    }
}

/// The formula must have this value where it is asked for.
#[cycle(must)]
fn when<'a>(
    known: &mut Partial,
    setting: Setting<'a>,
    asked: bool,
    formula: &'a Formula,
    v: bool,
    env: &'a Env<'a>,
) -> Result<bool, BoundFault>
    requires domains { setting.domains.now ≡ known.old.domains }
    requires fits { Fits known.old.symbols known.old.domains (formula_view formula.now) (env_view env.now) }
    ensures { Narrows known.old known.new result
        (λ q. asked ≡ true → Obeys q v (formula_view formula.now) (env_view env.now)) }
{
    if asked {
        must(known, setting, formula, v, env)
    } else {
        Ok(false)
    }
}

// Mostly the left side says of which instances something is said at all, and is certainly false of the others: those
// are done with after this one question.
/// The implication must have this value.
#[cycle(must)]
fn implied<'a>(
    known: &mut Partial,
    setting: Setting<'a>,
    left: &'a Formula,
    right: &'a Formula,
    v: bool,
    env: &'a Env<'a>,
) -> Result<bool, BoundFault>
    requires domains { setting.domains.now ≡ known.old.domains }
    requires left { Fits known.old.symbols known.old.domains (formula_view left.now) (env_view env.now) }
    requires right { Fits known.old.symbols known.old.domains (formula_view right.now) (env_view env.now) }
    ensures { Narrows known.old known.new result
        (λ q. Obeys q v (implication (formula_view left.now) (formula_view right.now)) (env_view env.now)) }
{
    known.consistency();
    let told = left_truth(&*known, v, &*left, &*env);
    if is_no(told) {
        return Ok(false);
    }
    let first = when(known, setting, is_yes(told), right, v, env)?;
    let asked = is_asked(&*known, v, &*right, true, &*env);
    known.consistency();
    let second = when(known, setting, asked, left, !v, env)?;
    Ok(either(first, second))
}

/// The formula must have the value that the other side of an equivalence gives it.
#[cycle(must)]
fn follow<'a>(
    known: &mut Partial,
    setting: Setting<'a>,
    other: Truth,
    formula: &'a Formula,
    v: bool,
    env: &'a Env<'a>,
) -> Result<bool, BoundFault>
    requires domains { setting.domains.now ≡ known.old.domains }
    requires fits { Fits known.old.symbols known.old.domains (formula_view formula.now) (env_view env.now) }
    ensures { Narrows known.old known.new result
        (λ q. Follows q other v (not v) (formula_view formula.now) (env_view env.now)) }
{
    match other {
        Truth::Yes => must(known, setting, formula, v, env),
        Truth::No => must(known, setting, formula, !v, env),
        Truth::Unknown => Ok(false),
    }
}

/// The equivalence must have this value: so each side where the other one is certain.
#[cycle(must)]
fn alike<'a>(
    known: &mut Partial,
    setting: Setting<'a>,
    left: &'a Formula,
    right: &'a Formula,
    v: bool,
    env: &'a Env<'a>,
) -> Result<bool, BoundFault>
    requires domains { setting.domains.now ≡ known.old.domains }
    requires left { Fits known.old.symbols known.old.domains (formula_view left.now) (env_view env.now) }
    requires right { Fits known.old.symbols known.old.domains (formula_view right.now) (env_view env.now) }
    ensures { Narrows known.old known.new result
        (λ q. Obeys q v (equivalence (formula_view left.now) (formula_view right.now)) (env_view env.now)) }
{
    let other = certainty(&*known, &*left, &*env);
    let first = follow(known, setting, other, right, v, env)?;
    let other = certainty(&*known, &*right, &*env);
    known.consistency();
    let second = follow(known, setting, other, left, v, env)?;
    Ok(either(first, second))
}

/// What an instance must be.
#[cycle(must)]
fn instance<'a>(
    known: &mut Partial,
    setting: Setting<'a>,
    formula: &'a Formula,
    want: Want,
    env: &'a Env<'a>,
) -> Result<bool, BoundFault>
    requires domains { setting.domains.now ≡ known.old.domains }
    requires fits { Fits known.old.symbols known.old.domains (formula_view formula.now) (env_view env.now) }
    ensures { Narrows known.old known.new result
        (Demands known.old want.left_only want.value (formula_view formula.now) (env_view env.now)) }
{
    if is_passed(&*known, &*formula, want, &*env) {
        Ok(false)
    } else {
        must(known, setting, formula, want.value, env)
    }
}

/// Each instance of the formula must be what is wanted.
#[cycle(must)]
fn each<'a>(
    known: &mut Partial,
    setting: Setting<'a>,
    bounds: &'a [Bound],
    formula: &'a Formula,
    want: Want,
    env: &'a Env<'a>,
) -> Result<bool, BoundFault>
    requires domains { setting.domains.now ≡ known.old.domains }
    requires fits { AllByRecursion (λ a. Fits known.old.symbols known.old.domains (formula_view formula.now)
        (env_view env.now ++ a)) (choices setting.domains.now bounds.now) }
    ensures { Narrows known.old known.new result
        (λ q. AllByRecursion (λ a. Demands known.old want.left_only want.value (formula_view formula.now)
        (env_view env.now ++ a) q) (choices setting.entry.domains.now bounds.now)) }
{
    if bounds.is_empty() {
        return instance(known, setting, formula, want, env);
    }
    let (block, others) = split_in(setting.domains, bounds);
    let mut changed = false;
    for turn in 0..block.count {
        known.consistency();
        let inner = extend(env, block, nth(setting.falling, turn, block.count));
        let more = each(known, setting, others, formula, want, &inner)?;
        changed = either(changed, more);
    }
    Ok(changed)
}

/// Each instance of the formula must have this value.
#[cycle(must)]
fn all_instances<'a>(
    known: &mut Partial,
    setting: Setting<'a>,
    bounds: &'a [Bound],
    formula: &'a Formula,
    v: bool,
    env: &'a Env<'a>,
) -> Result<bool, BoundFault>
    requires domains { setting.domains.now ≡ known.old.domains }
    requires fits { AllByRecursion (λ a. Fits known.old.symbols known.old.domains (formula_view formula.now)
        (env_view env.now ++ a)) (choices known.old.domains bounds.now) }
    ensures { Narrows known.old known.new result
        (λ q. AllByRecursion (λ a. Obeys q v (formula_view formula.now) (env_view env.now ++ a))
        (choices q.domains bounds.now)) }
{
    let want = Want {
        value: v,
        left_only: false,
    };
    each(known, setting, bounds, formula, want, env)
}

/// One of the instances of the formula must have this value: the last one of which that is open.
#[cycle(must)]
fn lone<'a>(
    known: &mut Partial,
    setting: Setting<'a>,
    bounds: &'a [Bound],
    formula: &'a Formula,
    v: bool,
    env: &'a Env<'a>,
) -> Result<bool, BoundFault>
    requires domains { setting.domains.now ≡ known.old.domains }
    requires fits { AllByRecursion (λ a. Fits known.old.symbols known.old.domains (formula_view formula.now)
        (env_view env.now ++ a)) (choices known.old.domains bounds.now) }
    ensures { Narrows known.old known.new result
        (λ q. LoneOf (λ a. Obeys q v (formula_view formula.now) (env_view env.now ++ a))
        (λ a. opposes v (certain_truth q (formula_view formula.now) (env_view env.now ++ a)))
        (choices q.domains bounds.now) false) }
{
    let want = Want {
        value: v,
        left_only: true,
    };
    match left_in(&*known, &*bounds, &*formula, v, &*env, Left::None) {
        Left::None => Err(BoundFault::Contradiction),
        Left::One => each(known, setting, bounds, formula, want, env),
        Left::Many => Ok(false),
    }
}
