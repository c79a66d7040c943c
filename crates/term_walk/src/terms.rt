//! Terms that may be asked for, as a number and weighted literals.
ghost use Rattle.std.specs.Prelude.{◌≡◌, ◌≤◌, ◌^◌, ◌≤ℤ◌, [], pos, neg_ℤ, map, false, IfOk, OnOk};
ghost use Rattle.std.specs.List.{list_any, AllByRecursion};
ghost use Rattle.kb_logic.specs.Meaning.{signed_of};
ghost use Rattle.kb_logic.specs.Trees.{summands_of as summand_trees};
ghost use Rattle.kb_logic.specs.Values.{value_view};
ghost use Rattle.kb_logic.specs.Views.{signed_view, term_view};
ghost use Rattle.ground_core.specs.Problems.{AreLitsOf, ArePartsOf, IsLitOf};
ghost use Rattle.term_values.specs.KnownBases.{IsGroundBase};
ghost use Rattle.term_values.specs.RowArithmetic.{RowsFit, OperandRowsFit};
ghost use Rattle.term_values.specs.Rows.{rows_of_term};
ghost use Rattle.def_ground.specs.AskedTerms.{number_of, alone, summands_in, summands_of_term, other_weights};
ghost use Rattle.def_ground.specs.AskedTerms.{is_rowless as has_no_row, first_number as number_in_first};
ghost use Rattle.def_ground.specs.AskedTerms.{first_sum as sum_of_first, weigh, weigh_all, with_asked};
ghost use Rattle.def_ground.specs.AskedTerms.{base_of_summands, parts_of_summands, asked_sum as sum_asked};
ghost use Rattle.def_ground.specs.AskedTerms.{named_parts as with_named};
ghost use Rattle.def_ground.specs.Guards.{guarded_by};
ghost use Rattle.def_ground.specs.LinearViews.{linear_view};
ghost use Rattle.term_walk.specs.Askable.{summand_view, HasSmallRows, StaysSmall, IsAskable, weighted, others_of};
ghost use Rattle.term_walk.specs.Askable.{HasRowsIn};
ghost use Rattle.ground_walk.specs.Groundable.{HasVars, HaveLits, AreInstancesGroundable};

use def_ground::Linear;
use ground_core::{GroundTerm, LitList, Memory, Part, PartList, Problem};
use ground_walk::{Scope, add_aggregates, aggregates_of, extreme_of};
use kb_logic::values::Value;
use kb_logic::{AggKind, Name, Signed, Term};
use lit_core::Lit;
use plain_evaluation::environments::Env;
use std::alloc::Global;
use term_values::{GroundData, Rows};

/// A summand of a term: whether it has a minus, and its rows.
#[derive(Drop)]
pub struct SummandRows<'a> {
    pub minus: bool,
    pub rows: Rows<'a>,
}

/// The summand that a term is, without free variables.
fn summand<'a>(
    alloc: Global,
    base: &'a GroundData<'a>,
    minus: bool,
    term: &'a Term,
) -> Result<SummandRows<'a>, Memory>
    requires { RowsFit base.now (term_view term.now) [] }
    ensures { IfOk result (λ s. summand_view s
        ≡ record { minus = minus; rows = rows_of_term base.now (term_view term.now) [] }) }
{
    let rows = base.rows(alloc, term, &Env::Given(&[]))?;
    Ok(SummandRows { minus, rows })
}

/// The summands of a sum.
fn operands<'a>(
    alloc: Global,
    base: &'a GroundData<'a>,
    parts: &'a [Signed],
) -> Result<Vec<SummandRows<'a>>, Memory>
    requires { OperandRowsFit base.now (summand_trees (map signed_view parts.now)) [] }
    ensures { IfOk result (λ v. map summand_view v.items
        ≡ summands_in base.now (summand_trees (map signed_view parts.now))) }
{
    let mut summands = Vec::with_capacity(alloc, parts.len())?;
    for part in parts {
        let next = summand(alloc, base, part.minus, &part.term)?;
        summands.push(next)?;
    }
    Ok(summands)
}

/// A term that is no sum, as its only summand.
fn only<'a>(
    alloc: Global,
    base: &'a GroundData<'a>,
    term: &'a Term,
) -> Result<Vec<SummandRows<'a>>, Memory>
    requires { RowsFit base.now (term_view term.now) [] }
    ensures { IfOk result (λ v. map summand_view v.items ≡ alone base.now (term_view term.now)) }
{
    let mut summands = Vec::with_capacity(alloc, 1)?;
    let whole = summand(alloc, base, false, term)?;
    summands.push(whole)?;
    Ok(summands)
}

/// The summands of a term without free variables.
fn summands_of<'a>(
    alloc: Global,
    base: &'a GroundData<'a>,
    term: &'a Term,
) -> Result<Vec<SummandRows<'a>>, Memory>
    requires { RowsFit base.now (term_view term.now) [] }
    ensures { IfOk result (λ v. map summand_view v.items ≡ summands_of_term base.now (term_view term.now)) }
{
    match term {
        Term::Sum(parts) => operands(alloc, base, parts),
        Term::Var(_) => only(alloc, base, term),
        Term::Int(_) => only(alloc, base, term),
        Term::Made(..) => only(alloc, base, term),
        Term::Apply(..) => only(alloc, base, term),
        Term::Product(_) => only(alloc, base, term),
        Term::Agg(..) => only(alloc, base, term),
    }
}

/// The number that a value is in a sum.
fn number_in(value: Value<'_>) -> i64
    ensures { result ≡ number_of (value_view value.entry) }
{
    match value {
        Value::Num(n) => n,
        Value::Named(_) => 0,
        Value::NegInf => 0,
        Value::PosInf => 0,
        Value::Nothing => 0,
    }
}

/// The number, with a minus or without.
fn with_sign(minus: bool, n: i64) -> i64
    requires low { neg_ℤ (pos (2 ^ 62)) ≤ℤ n }
    requires high { n ≤ℤ pos (2 ^ 62) }
    ensures { result ≡ signed_of minus n }
{
    if minus { -n } else { n }
}

fn is_rowless(rows: &Rows<'_>) -> bool
    ensures { result ≡ has_no_row rows.now }
{
    rows.len() == 0
}

/// The number in the first row, 0 where there is none.
fn first_number(rows: &Rows<'_>) -> i64
    ensures { result ≡ number_in_first rows.now }
{
    if rows.len() == 0 {
        0
    } else {
        number_in(rows.value(0))
    }
}

/// Whether one of the summands has no row.
fn has_rowless(summands: &[SummandRows<'_>]) -> bool
    ensures { result ≡ list_any (λ s. has_no_row s.rows) (map summand_view summands.now) }
{
    for summand in summands {
        if is_rowless(&summand.rows) {
            return true;
        }
    }
    false
}

/// What the summands come to where in each the first row holds.
fn first_sum(summands: &[SummandRows<'_>]) -> i64
    requires small { AllByRecursion HasSmallRows (map summand_view summands.now) }
    requires sums { StaysSmall (pos 0) (map summand_view summands.now) }
    ensures { result ≡ sum_of_first (map summand_view summands.now) }
{
    let mut total = 0i64;
    for summand in summands {
        total += with_sign(summand.minus, first_number(&summand.rows));
    }
    total
}

/// A literal that says that all of the guards are true.
fn guard_literal(alloc: Global, guards: &[Lit], problem: &mut Problem) -> Result<Lit, Memory>
    requires { AreLitsOf problem.old.vars guards.now }
    ensures lit { IfOk result (λ l. l ≡ (guarded_by guards.now problem.old).lit) }
    ensures problem { IfOk result (λ l. problem.new ≡ (guarded_by guards.now problem.old).problem) }
    ensures within { IfOk result (λ l. IsLitOf problem.new.vars l) }
    ensures grows { IfOk result (λ l. problem.old.vars ≤ problem.new.vars) }
{
    match guards {
        [] => problem.add_gate(true, LitList::new(alloc)),
        [lit] => Ok(*lit),
        _ => problem.add_gate(true, LitList::from_vec(guards.to_vec(alloc)?)),
    }
}

/// Adds a part for guards.
fn push_part(
    alloc: Global,
    weight: i64,
    guards: &[Lit],
    parts: &mut PartList,
    problem: &mut Problem,
) -> Result<(), Memory>
    requires guards { AreLitsOf problem.old.vars guards.now }
    requires parts { ArePartsOf problem.old.vars parts.old }
    ensures made { OnOk result (weighted parts.new problem.new
        ≡ weigh weight guards.now (weighted parts.old problem.old)) }
    ensures within { OnOk result (ArePartsOf problem.new.vars parts.new) }
    ensures grows { OnOk result (problem.old.vars ≤ problem.new.vars) }
{
    let lit = guard_literal(alloc, guards, problem)?;
    parts.push(Part { lit, weight })
}

/// Adds a part for each row but the first.
fn push_others(
    alloc: Global,
    summand: &SummandRows<'_>,
    parts: &mut PartList,
    problem: &mut Problem,
) -> Result<(), Memory>
    requires small { HasSmallRows (summand_view summand.now) }
    requires rows { HaveLits problem.old.vars summand.now.rows }
    requires parts { ArePartsOf problem.old.vars parts.old }
    ensures made { OnOk result (weighted parts.new problem.new
        ≡ weigh_all (other_weights summand.now.minus summand.now.rows) (weighted parts.old problem.old)) }
    ensures within { OnOk result (ArePartsOf problem.new.vars parts.new) }
    ensures grows { OnOk result (problem.old.vars ≤ problem.new.vars) }
{
    let rows = &summand.rows;
    let first = first_number(rows);
    for row in 1..rows.len() {
        let weight = with_sign(summand.minus, number_in(rows.value(row)) - first);
        push_part(alloc, weight, rows.guards(row), parts, problem)?;
    }
    Ok(())
}

/// Adds the parts of each of the summands.
fn push_all(
    alloc: Global,
    summands: &[SummandRows<'_>],
    parts: &mut PartList,
    problem: &mut Problem,
) -> Result<(), Memory>
    requires small { AllByRecursion HasSmallRows (map summand_view summands.now) }
    requires rows { AllByRecursion (HasRowsIn problem.old.vars) (map summand_view summands.now) }
    requires parts { ArePartsOf problem.old.vars parts.old }
    ensures made { OnOk result (weighted parts.new problem.new
        ≡ weigh_all (others_of (map summand_view summands.now)) (weighted parts.old problem.old)) }
    ensures within { OnOk result (ArePartsOf problem.new.vars parts.new) }
    ensures grows { OnOk result (problem.old.vars ≤ problem.new.vars) }
{
    for summand in summands {
        push_others(alloc, summand, parts, problem)?;
    }
    Ok(())
}

/// What the summands come to where in each the first row holds, and a part for each other row; 0 and no part where a
/// summand has no row.
fn weighed(
    alloc: Global,
    summands: &[SummandRows<'_>],
    problem: &mut Problem,
) -> Result<(i64, PartList), Memory>
    requires small { AllByRecursion HasSmallRows (map summand_view summands.now) }
    requires sums { list_any (λ s. has_no_row s.rows) (map summand_view summands.now) ≡ false
        → StaysSmall (pos 0) (map summand_view summands.now) }
    requires rows { AllByRecursion (HasRowsIn problem.old.vars) (map summand_view summands.now) }
    ensures base { IfOk result (λ r. r.0 ≡ base_of_summands (map summand_view summands.now)) }
    ensures parts { IfOk result (λ r. weighted r.1 problem.new
        ≡ parts_of_summands (map summand_view summands.now) problem.old) }
    ensures within { IfOk result (λ r. ArePartsOf problem.new.vars r.1) }
    ensures grows { IfOk result (λ r. problem.old.vars ≤ problem.new.vars) }
{
    let mut parts = PartList::new(alloc);
    if has_rowless(summands) {
        return Ok((0, parts));
    }
    let first = first_sum(summands);
    push_all(alloc, summands, &mut parts, problem)?;
    Ok((first, parts))
}

/// The number and the parts of a term without free variables: those of its rows, and with them those of its counts and
/// sums.
fn asked_sum(
    alloc: Global,
    base: &GroundData<'_>,
    term: &Term,
    problem: &mut Problem,
) -> Result<Linear, Memory>
    requires given { IsGroundBase base.now }
    requires room { HasVars base.now problem.old }
    requires fits { IsAskable base.now (term_view term.now) }
    ensures made { IfOk result (λ s. linear_view s problem.new
        ≡ sum_asked base.now (term_view term.now) problem.old) }
    ensures within { IfOk result (λ s. ArePartsOf problem.new.vars s.parts) }
    ensures grows { IfOk result (λ s. problem.old.vars ≤ problem.new.vars) }
{
    let summands = summands_of(alloc, base, term)?;
    let (first, parts) = weighed(alloc, summands.as_slice(), problem)?;
    let mut linear = Linear { base: first, parts };
    let outermost = Env::Given(&[]);
    let scope = Scope {
        alloc,
        base,
        env: &outermost,
    };
    add_aggregates(scope, 1, term, &mut linear, problem)?;
    Ok(linear)
}

/// Names a number with parts.
fn push_named(
    alloc: Global,
    name: &Name,
    kind: AggKind,
    linear: Linear,
    problem: &mut Problem,
) -> Result<(), Memory>
    requires { ArePartsOf problem.old.vars linear.parts }
    ensures made { OnOk result (problem.new ≡ with_named name.now kind (linear_view linear problem.old)) }
    ensures grows { OnOk result (problem.old.vars ≤ problem.new.vars) }
{
    let name = name.copy(alloc)?;
    problem.add_term(GroundTerm {
        name,
        kind,
        base: linear.base,
        parts: linear.parts,
    })
}

/// Names a term that may be asked for, which has no free variables.
pub fn push_term(
    alloc: Global,
    base: &GroundData<'_>,
    name: &Name,
    term: &Term,
    problem: &mut Problem,
) -> Result<(), Memory>
    requires given { IsGroundBase base.now }
    requires room { HasVars base.now problem.old }
    requires fits { IsAskable base.now (term_view term.now) }
    ensures made { OnOk result (problem.new
        ≡ with_asked base.now problem.old (record { name = name.now; term = term_view term.now })) }
    ensures grows { OnOk result (problem.old.vars ≤ problem.new.vars) }
{
    match extreme_of(term) {
        Some(kind) => {
            let outermost = Env::Given(&[]);
            let scope = Scope {
                alloc,
                base,
                env: &outermost,
            };
            let linear = aggregates_of(scope, term, problem)?;
            push_named(alloc, name, kind, linear, problem)
        }
        None => {
            let linear = asked_sum(alloc, base, term, problem)?;
            push_named(alloc, name, AggKind::Sum, linear, problem)
        }
    }
}
