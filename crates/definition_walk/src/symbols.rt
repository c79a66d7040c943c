//! The symbols that have rules, and the variables of their atoms.
ghost use Rattle.std.specs.Prelude.{slice_get, Some, true};
ghost use Rattle.std.specs.Prelude.{◌≡◌, ◌≤◌, ◌<◌, ◌+◌, ◌-◌, ◌^◌, ◌∷◌, [], ℕ, List, length, map, fold, IfOk, OnOk};
ghost use Rattle.kb_logic.specs.Views.{rule_view};
ghost use Rattle.term_values.specs.GroundBases.{first_var as first_variable};
ghost use Rattle.def_ground.specs.declared.answers.Answer.{Answer as AnswerOf};
ghost use Rattle.def_ground.specs.Definitions.{complete_atom};
ghost use Rattle.ground_walk.specs.Groundable.{KnowsAtoms};
ghost use Rattle.kb_logic.specs.Trees.{DefinitionTree};
ghost use Rattle.definition_walk.specs.Lists.{lists_of, HaveBodies, AllWithin, numbers_from};
ghost use Rattle.definition_walk.specs.Marks.{HaveMarks, Spans};
ghost use Rattle.definition_walk.specs.WalkLaws.{ranges};

use crate::atoms::complete_range;
use crate::bodies::Bodies;
use ground_core::{Memory, Problem};
use kb_logic::Rule;
use std::alloc::Global;
use term_values::GroundData;

/// Variables from `first` on, before `past`. There is none where `past` is not above `first`.
#[derive(Clone, Copy)]
pub struct Span {
    pub first: u64,
    pub past: u64,
}

/// So many marks, none of them set.
fn no_marks(alloc: Global, count: usize) -> Result<Vec<bool>, Memory>
    ensures { IfOk result (λ marks. (length marks.items ≡ count)
        × HaveMarks (record { rules = [] }) marks.items) }
{
    let mut marks = Vec::with_capacity(alloc, count)?;
    for _mark in 0..count {
        marks.push(false)?;
    }
    Ok(marks)
}

/// Which of so many symbols have a rule. It takes time linear in the symbols and the rules.
pub fn marks_of(alloc: Global, rules: &[Rule], count: usize) -> Result<Vec<bool>, Memory>
    ensures { IfOk result (λ marks. (length marks.items ≡ count)
        × HaveMarks (record { rules = map rule_view rules.now }) marks.items) }
{
    let mut marks = no_marks(alloc, count)?;
    for rule in rules {
        let symbol = rule.symbol as usize;
        if symbol < marks.len() {
            marks[symbol] = true;
        }
    }
    Ok(marks)
}

/// The variable after those of the symbol's atoms.
fn next_var(base: &GroundData<'_>, symbol: usize) -> u64
    requires symbol { symbol < length base.now.vocabulary.symbols }
    requires few { length base.now.vocabulary.symbols ≤ 2 ^ 32 }
    requires known { KnowsAtoms base.now }
    ensures { result ≡ first_variable base.now (symbol + 1) }
{
    if symbol + 1 < base.vocabulary().symbols.len() {
        base.first_var((symbol + 1) as u32)
    } else {
        base.atoms() + 1
    }
}

/// The span with the variables of the symbol's atoms.
fn with_symbol(base: &GroundData<'_>, span: Span, symbol: usize) -> Span
    requires symbol { symbol < length base.now.vocabulary.symbols }
    requires few { length base.now.vocabulary.symbols ≤ 2 ^ 32 }
    requires known { KnowsAtoms base.now }
    ensures low { result.first ≤ span.first }
    ensures own { result.first ≤ first_variable base.now symbol }
    ensures high { span.past ≤ result.past }
    ensures past { first_variable base.now (symbol + 1) ≤ result.past }
{
    Span {
        first: span.first.min(base.first_var(symbol as u32)),
        past: span.past.max(next_var(base, symbol)),
    }
}

/// A span with the variables of the atoms of all marked symbols.
pub fn span_of(base: &GroundData<'_>, marks: &[bool]) -> Span
    requires marks { length marks.now ≡ length base.now.vocabulary.symbols }
    requires few { length base.now.vocabulary.symbols ≤ 2 ^ 32 }
    requires known { KnowsAtoms base.now }
    ensures { Spans base.now marks.now (length marks.now) result }
{
    let mut span = Span {
        first: u64::MAX,
        past: 0,
    };
    for symbol in 0..marks.len() {
        if marks[symbol] {
            span = with_symbol(base, span, symbol);
        }
    }
    span
}

/// Completes the atoms of one symbol.
fn complete_symbol(
    alloc: Global,
    base: &GroundData<'_>,
    bodies: &Bodies,
    symbol: usize,
    problem: &mut Problem,
) -> Result<(), Memory>
    requires symbol { symbol < length base.now.vocabulary.symbols }
    requires few { length base.now.vocabulary.symbols ≤ 2 ^ 32 }
    requires known { KnowsAtoms base.now }
    requires vars { length base.now.known ≤ problem.old.vars }
    requires low { bodies.now.first ≤ first_variable base.now symbol }
    requires high { first_variable base.now (symbol + 1) ≤ bodies.now.first + length bodies.now.lists.items }
    requires bodies { AllWithin problem.old.vars (lists_of bodies.now.lists) }
    ensures made { OnOk result ((told : List (ℕ × AnswerOf)) → HaveBodies told bodies.now.first
        (lists_of bodies.now.lists) → problem.new ≡ fold (complete_atom base.now told) problem.old
        (numbers_from (first_variable base.now symbol)
        (first_variable base.now (symbol + 1) - first_variable base.now symbol))) }
    ensures vars { OnOk result (problem.new.vars ≡ problem.old.vars) }
{
    // Brings the bound of the number of atoms into scope.
    let _atoms = base.atoms();
    let first = base.first_var(symbol as u32);
    let count = (next_var(base, symbol) - first) as usize;
    complete_range(alloc, base, bodies, first, count, problem)
}

/// Adds the clauses that say of each atom of a marked symbol that it is true exactly where one of its bodies is.
pub fn complete_marked(
    alloc: Global,
    base: &GroundData<'_>,
    marks: &[bool],
    bodies: &Bodies,
    problem: &mut Problem,
) -> Result<(), Memory>
    requires marks { length marks.now ≡ length base.now.vocabulary.symbols }
    requires few { length base.now.vocabulary.symbols ≤ 2 ^ 32 }
    requires known { KnowsAtoms base.now }
    requires vars { length base.now.known ≤ problem.old.vars }
    requires spans { (s : ℕ) → s < length marks.now → slice_get marks.now s ≡ Some true
        → (bodies.now.first ≤ first_variable base.now s)
        × (first_variable base.now (s + 1) ≤ bodies.now.first + length bodies.now.lists.items) }
    requires bodies { AllWithin problem.old.vars (lists_of bodies.now.lists) }
    ensures made { OnOk result ((d : DefinitionTree) (told : List (ℕ × AnswerOf)) → HaveMarks d marks.now
        → HaveBodies told bodies.now.first (lists_of bodies.now.lists)
        → problem.new ≡ fold (complete_atom base.now told) problem.old (ranges base.now d 1 0
        base.now.vocabulary.symbols)) }
    ensures vars { OnOk result (problem.new.vars ≡ problem.old.vars) }
{
    for symbol in 0..marks.len() {
        if marks[symbol] {
            complete_symbol(alloc, base, bodies, symbol, problem)?;
        }
    }
    Ok(())
}
