//! Atoms and comparisons, by the rows of their terms.
ghost use Rattle.std.specs.Prelude.{◌≡◌, ◌≤◌, IsNone, IfSome, MatchOption, Some, map, true, IfOk, OnOk, ⊤};
ghost use Rattle.std.specs.List.{AllByRecursion};
ghost use Rattle.kb_logic.specs.Bounds.{value_type_of};
ghost use Rattle.kb_logic.specs.Trees.{terms_of, atom};
ghost use Rattle.kb_logic.specs.Values.{value_view};
ghost use Rattle.kb_logic.specs.Views.{term_view};
ghost use Rattle.plain_evaluation.specs.Environments.{env_view};
ghost use Rattle.ground_core.specs.Problems.{AreLitsOf, ArePartsOf, ProblemState};
ghost use Rattle.term_values.specs.GroundBases.{row_index, tuples_at};
ghost use Rattle.term_values.specs.KnownBases.{IsGroundBase};
ghost use Rattle.term_values.specs.RowArithmetic.{RowsFit};
ghost use Rattle.term_values.specs.Rows.{map_rows, rows_of_term};
ghost use Rattle.term_values.specs.RowValues.{row_value};
ghost use Rattle.def_ground.specs.declared.answers.Answer.TheVariants.{Constant};
ghost use Rattle.def_ground.specs.Answers.{Makes, Grows, gate_of};
ghost use Rattle.def_ground.specs.Cases.{answer_without};
ghost use Rattle.def_ground.specs.CaseSentences.{assert_comparison};
ghost use Rattle.def_ground.specs.CaseViews.{case_view, guarded_view};
ghost use Rattle.def_ground.specs.Comparisons.{guard_answers as answers_of_guards, comparison_case, comparison_of};
ghost use Rattle.def_ground.specs.Forms.{form_of, atom_case, atom_answer as answer_at};
ghost use Rattle.def_ground.specs.LinearViews.{linear_view};
ghost use Rattle.def_ground.specs.Sentences.{assert_of};
ghost use Rattle.def_ground.specs.SumSides.{compared_sums, raised as raised_value};
ghost use Rattle.ground_walk.specs.Groundable.{HasVars, IsGroundable, HaveLits};

use crate::scopes::Scope;
use def_ground::{
    Answer, Case, GuardedValue, Linear, answer_of_cases, case_of, case_of_row, compared_beside,
    gate, push_answer, push_cases,
};
use ground_core::{LitList, Memory, Problem};
use kb_logic::values::{Value, compare};
use kb_logic::{Cmp, Term};
use lit_core::Lit;
use std::alloc::Global;
use term_values::{GroundData, RowValue, Rows, TupleRows};

/// Two terms that are compared.
#[derive(Clone, Copy)]
pub(crate) struct Compared<'a> {
    pub cmp: Cmp,
    pub left: &'a Term,
    pub right: &'a Term,
}

/// The rows of two terms that are compared. The base is added to the numbers of the left ones.
#[derive(Clone, Copy)]
struct ComparedRows<'a> {
    cmp: Cmp,
    base: i64,
    left: &'a Rows<'a>,
    right: &'a Rows<'a>,
}

/// What a predicate's atom with these arguments comes to.
fn atom_answer(base: &GroundData<'_>, symbol: u32, values: &[RowValue<'_>]) -> Answer
    requires { IsNone (value_type_of base.now.vocabulary symbol) }
    ensures { result ≡ answer_at base.now symbol (row_index (tuples_at base.now symbol) (map row_value values.now)) }
{
    match base.variable_at(symbol, values) {
        Some(var) => Answer::of_atom(base.known(var), var),
        None => Answer::Constant(false),
    }
}

// Most atoms have one row, without guards: their arguments are variables and names. These take no memory.
/// What the atom comes to where its arguments have one row, without guards.
fn single_atom(base: &GroundData<'_>, symbol: u32, rows: &TupleRows<'_>) -> Option<Answer>
    requires { IsNone (value_type_of base.now.vocabulary symbol) }
    ensures { MatchOption result ⊤ (λ a. answer_without (map (atom_case base.now symbol) rows.now) ≡ Some a) }
{
    if rows.len() != 1 {
        return None;
    }
    let [] = rows.guards(0) else {
        return None;
    };
    Some(atom_answer(base, symbol, rows.values(0)))
}

/// The cases of an atom, by the rows of its arguments.
fn atom_cases<'r>(
    alloc: Global,
    base: &GroundData<'_>,
    symbol: u32,
    rows: &'r TupleRows<'_>,
) -> Result<Vec<Case<'r>>, Memory>
    requires { IsNone (value_type_of base.now.vocabulary symbol) }
    ensures { IfOk result (λ cs. map case_view cs.items ≡ map (atom_case base.now symbol) rows.now) }
{
    let mut cases = Vec::with_capacity(alloc, rows.len())?;
    for row in 0..rows.len() {
        let answer = atom_answer(base, symbol, rows.values(row));
        cases.push(case_of(alloc, rows.guards(row), answer)?)?;
    }
    Ok(cases)
}

/// What an atom comes to.
pub(crate) fn atom<'a>(
    scope: Scope<'a>,
    symbol: u32,
    args: &'a [Term],
    problem: &mut Problem,
) -> Result<Answer, Memory>
    requires given { IsGroundBase scope.base.now }
    requires room { HasVars scope.base.now problem.old }
    requires fits { IsGroundable scope.base.now (atom symbol (terms_of (map term_view args.now)))
        (env_view scope.env.now) }
    ensures made { IfOk result
        (λ a. Makes (form_of scope.entry.base.now (atom symbol (terms_of (map term_view args.now)))
        (env_view scope.entry.env.now) problem.old) a problem.new) }
    ensures grows { IfOk result (λ a. Grows problem.old problem.new a) }
{
    let rows = scope.base.tuple_rows(scope.alloc, args, scope.env)?;
    match single_atom(scope.base, symbol, &rows) {
        Some(answer) => Ok(answer),
        None => {
            let cases = atom_cases(scope.alloc, scope.base, symbol, &rows)?;
            answer_of_cases(scope.alloc, cases.as_slice(), problem)
        }
    }
}

/// Says that one of the literals is true, or the atom is, or where the sign is false is not.
pub(crate) fn push_atom<'a>(
    scope: Scope<'a>,
    sign: bool,
    symbol: u32,
    args: &'a [Term],
    lits: &[Lit],
    problem: &mut Problem,
) -> Result<(), Memory>
    requires given { IsGroundBase scope.base.now }
    requires room { HasVars scope.base.now problem.old }
    requires fits { IsGroundable scope.base.now (atom symbol (terms_of (map term_view args.now)))
        (env_view scope.env.now) }
    requires lits { AreLitsOf problem.old.vars lits.now }
    ensures made { OnOk result (problem.new ≡ assert_of scope.entry.base.now sign
        (atom symbol (terms_of (map term_view args.now))) (env_view scope.entry.env.now) lits.now problem.old) }
    ensures grows { OnOk result (problem.old.vars ≤ problem.new.vars) }
{
    let rows = scope.base.tuple_rows(scope.alloc, args, scope.env)?;
    match single_atom(scope.base, symbol, &rows) {
        Some(answer) => push_answer(scope.alloc, answer.signed(sign), lits, problem),
        None => {
            let cases = atom_cases(scope.alloc, scope.base, symbol, &rows)?;
            push_cases(scope.alloc, sign, lits, cases.as_slice(), problem)
        }
    }
}

/// All of the guards, as one answer.
fn guard_answer(alloc: Global, guards: &[Lit], problem: &mut Problem) -> Result<Answer, Memory>
    requires { AreLitsOf problem.old.vars guards.now }
    ensures made { IfOk result (λ a. Makes (gate_of true guards.now problem.old) a problem.new) }
    ensures grows { IfOk result (λ a. Grows problem.old problem.new a) }
{
    match guards {
        [] => Ok(Answer::Constant(true)),
        [lit] => Ok(Answer::Literal(*lit)),
        _ => gate(true, LitList::from_vec(guards.to_vec(alloc)?), problem),
    }
}

/// The values of the rows, each with one answer in place of its guards.
fn guard_answers<'a>(
    alloc: Global,
    rows: &Rows<'a>,
    problem: &mut Problem,
) -> Result<Vec<GuardedValue<'a>>, Memory>
    requires { HaveLits problem.old.vars rows.now }
    ensures rows { IfOk result (λ v. map guarded_view v.items ≡ (answers_of_guards rows.now problem.old).rows) }
    ensures problem { IfOk result (λ v. problem.new ≡ (answers_of_guards rows.now problem.old).problem) }
{
    let mut answers = Vec::with_capacity(alloc, rows.len())?;
    for row in 0..rows.len() {
        let answer = guard_answer(alloc, rows.guards(row), problem)?;
        answers.push(GuardedValue {
            answer,
            value: rows.value(row),
        })?;
    }
    Ok(answers)
}

/// A value with a number more, where it is one. A number past 64 bits counts as out of memory.
fn raised<'a>(base: i64, value: Value<'a>) -> Result<Value<'a>, Memory>
    ensures { IfOk result (λ x. value_view x ≡ raised_value base (value_view value.entry)) }
{
    let Value::Num(number) = value else {
        return Ok(value);
    };
    match number.checked_add(base) {
        Some(number) => Ok(Value::Num(number)),
        None => Err(Memory),
    }
}

/// The cases of a comparison, by the rows of its left term.
fn comparison_cases<'r>(
    alloc: Global,
    rows: ComparedRows<'r>,
    right: &[GuardedValue<'_>],
) -> Result<Vec<Case<'r>>, Memory>
    ensures { IfOk result (λ cs. map case_view cs.items
        ≡ map (comparison_case rows.entry.cmp (map guarded_view right.now))
        (map_rows (raised_value rows.entry.base) rows.entry.left.now)) }
{
    let left = rows.left;
    let mut cases = Vec::with_capacity(alloc, left.len())?;
    for row in 0..left.len() {
        let value = raised(rows.base, left.value(row))?;
        let case = case_of_row(alloc, rows.cmp, left.guards(row), value, right)?;
        cases.push(case)?;
    }
    Ok(cases)
}

/// What a comparison of terms with these rows comes to.
fn compare_rows(
    alloc: Global,
    rows: ComparedRows<'_>,
    problem: &mut Problem,
) -> Result<Answer, Memory>
    requires left { HaveLits problem.old.vars rows.left.now }
    requires right { HaveLits problem.old.vars rows.right.now }
    ensures made { IfOk result (λ a. Makes
        (comparison_of rows.entry.cmp (map_rows (raised_value rows.entry.base) rows.entry.left.now)
        rows.entry.right.now problem.old) a problem.new) }
    ensures grows { IfOk result (λ a. Grows problem.old problem.new a) }
{
    if rows.left.len() == 0 {
        return Ok(Answer::Constant(true));
    }
    let values = guard_answers(alloc, rows.right, problem)?;
    let cases = comparison_cases(alloc, rows, values.as_slice())?;
    answer_of_cases(alloc, cases.as_slice(), problem)
}

// Most comparisons of a rule's conditions are of variables and numbers. These make no rows, and take no memory.
/// Whether the comparison is true of two terms that each have one row, without guards.
fn plain_comparison<'a>(scope: Scope<'a>, sides: Compared<'a>) -> Option<bool>
    ensures { IfSome result (λ c. (p : ProblemState)
        → comparison_of sides.entry.cmp
        (rows_of_term scope.entry.base.now (term_view sides.entry.left.now) (env_view scope.entry.env.now))
        (rows_of_term scope.entry.base.now (term_view sides.entry.right.now) (env_view scope.entry.env.now)) p
        ≡ record { answer = Constant c; problem = p }) }
{
    let Some(x) = scope.base.plain_value(sides.left, scope.env) else {
        return None;
    };
    let Some(y) = scope.base.plain_value(sides.right, scope.env) else {
        return None;
    };
    Some(compare(sides.cmp, x, y))
}

/// What a comparison of terms without aggregates comes to.
pub(crate) fn comparison<'a>(
    scope: Scope<'a>,
    sides: Compared<'a>,
    problem: &mut Problem,
) -> Result<Answer, Memory>
    requires given { IsGroundBase scope.base.now }
    requires room { HasVars scope.base.now problem.old }
    requires left { RowsFit scope.base.now (term_view sides.left.now) (env_view scope.env.now) }
    requires right { RowsFit scope.base.now (term_view sides.right.now) (env_view scope.env.now) }
    ensures made { IfOk result (λ a. Makes (comparison_of sides.entry.cmp
        (rows_of_term scope.entry.base.now (term_view sides.entry.left.now) (env_view scope.entry.env.now))
        (rows_of_term scope.entry.base.now (term_view sides.entry.right.now) (env_view scope.entry.env.now))
        problem.old) a problem.new) }
    ensures grows { IfOk result (λ a. Grows problem.old problem.new a) }
{
    if let Some(value) = plain_comparison(scope, sides) {
        return Ok(Answer::Constant(value));
    }
    let left_rows = scope.base.rows(scope.alloc, sides.left, scope.env)?;
    let right_rows = scope.base.rows(scope.alloc, sides.right, scope.env)?;
    let rows = ComparedRows {
        cmp: sides.cmp,
        base: 0,
        left: &left_rows,
        right: &right_rows,
    };
    compare_rows(scope.alloc, rows, problem)
}

// Where data fix each instance of the counts and sums, their whole is a number, and needs no constraint.
/// How counts and sums compare with what is left of the sides, of which these are the rows.
pub(crate) fn compare_sides(
    alloc: Global,
    cmp: Cmp,
    linear: &Linear,
    left: &Rows<'_>,
    right: &Rows<'_>,
    problem: &mut Problem,
) -> Result<Answer, Memory>
    requires parts { ArePartsOf problem.old.vars linear.now.parts }
    requires left { HaveLits problem.old.vars left.now }
    requires right { HaveLits problem.old.vars right.now }
    ensures made { IfOk result
        (λ a. Makes (compared_sums cmp (linear_view linear.now problem.old) left.now right.now) a problem.new) }
    ensures grows { IfOk result (λ a. Grows problem.old problem.new a) }
{
    if linear.parts.is_empty() {
        let rows = ComparedRows {
            cmp,
            base: linear.base,
            left,
            right,
        };
        return compare_rows(alloc, rows, problem);
    }
    compared_beside(alloc, cmp, linear, left, right, problem)
}

/// Says that one of the literals is true, or the comparison of terms with these rows is, or where the sign is false is
/// not.
fn push_compared(
    alloc: Global,
    sign: bool,
    rows: ComparedRows<'_>,
    lits: &[Lit],
    problem: &mut Problem,
) -> Result<(), Memory>
    requires left { HaveLits problem.old.vars rows.left.now }
    requires right { HaveLits problem.old.vars rows.right.now }
    requires lits { AreLitsOf problem.old.vars lits.now }
    ensures made { OnOk result (problem.new ≡ assert_comparison sign rows.entry.cmp
        (map_rows (raised_value rows.entry.base) rows.entry.left.now) rows.entry.right.now lits.now problem.old) }
    ensures grows { OnOk result (problem.old.vars ≤ problem.new.vars) }
{
    if rows.left.len() == 0 {
        let always = Answer::Constant(true);
        return push_answer(alloc, always.signed(sign), lits, problem);
    }
    let values = guard_answers(alloc, rows.right, problem)?;
    let cases = comparison_cases(alloc, rows, values.as_slice())?;
    push_cases(alloc, sign, lits, cases.as_slice(), problem)
}

/// Says that one of the literals is true, or the comparison of terms without aggregates is, or where the sign is false
/// is not.
pub(crate) fn push_comparison<'a>(
    scope: Scope<'a>,
    sign: bool,
    sides: Compared<'a>,
    lits: &[Lit],
    problem: &mut Problem,
) -> Result<(), Memory>
    requires given { IsGroundBase scope.base.now }
    requires room { HasVars scope.base.now problem.old }
    requires left { RowsFit scope.base.now (term_view sides.left.now) (env_view scope.env.now) }
    requires right { RowsFit scope.base.now (term_view sides.right.now) (env_view scope.env.now) }
    requires lits { AreLitsOf problem.old.vars lits.now }
    ensures made { OnOk result (problem.new ≡ assert_comparison sign sides.entry.cmp
        (rows_of_term scope.entry.base.now (term_view sides.entry.left.now) (env_view scope.entry.env.now))
        (rows_of_term scope.entry.base.now (term_view sides.entry.right.now) (env_view scope.entry.env.now))
        lits.now problem.old) }
    ensures grows { OnOk result (problem.old.vars ≤ problem.new.vars) }
{
    let left_rows = scope.base.rows(scope.alloc, sides.left, scope.env)?;
    let right_rows = scope.base.rows(scope.alloc, sides.right, scope.env)?;
    let rows = ComparedRows {
        cmp: sides.cmp,
        base: 0,
        left: &left_rows,
        right: &right_rows,
    };
    push_compared(scope.alloc, sign, rows, lits, problem)
}
