//! Cases, of which exactly one has true guards, as what a problem defines.
ghost use Rattle.std.specs.Prelude.{◌≡◌, ◌∷◌, [], not, map, filter, IfOk};
ghost use Rattle.std.specs.List.{list_all};
ghost use Rattle.def_ground.specs.Cases.{is_always, is_certain, only_literal, only_guard, single_answer, plain_answer};
ghost use Rattle.def_ground.specs.Cases.{unguarded_answer, side_of, answer_without, case_of as case_of_answer};
ghost use Rattle.def_ground.specs.CaseViews.{case_view};

use crate::answers::Answer;
use ground_core::{LitList, Memory};
use lit_core::Lit;
use std::alloc::Global;

/// Under the guards the whole is true where the side `yes` is, and false where `no` is. A side is a list
/// of literals, one of which is true, or None: it is true in any case.
#[derive(Drop)]
pub struct Case<'a> {
    pub guards: &'a [Lit],
    pub yes: Option<LitList>,
    pub no: Option<LitList>,
}

fn is_always(side: &Option<LitList>) -> bool
    ensures { result ≡ is_always side.now }
{
    match side {
        None => true,
        Some(_) => false,
    }
}

fn has_always(case: &Case<'_>, sign: bool) -> bool
    ensures { result ≡ is_always (side_of sign (case_view case.now)) }
{
    if sign {
        is_always(&case.yes)
    } else {
        is_always(&case.no)
    }
}

/// Whether the side of this sign is true in any case, at each of the cases.
fn all_have_always(cases: &[Case<'_>], sign: bool) -> bool
    ensures { result ≡ list_all (λ c. is_always (side_of sign c)) (map case_view cases.now) }
{
    for case in cases {
        if !has_always(case, sign) {
            return false;
        }
    }
    true
}

fn is_certain(case: &Case<'_>) -> bool
    ensures { result ≡ is_certain (case_view case.now) }
{
    has_always(case, true) || has_always(case, false)
}

fn are_certain(cases: &[Case<'_>]) -> bool
    ensures { result ≡ list_all is_certain (map case_view cases.now) }
{
    for case in cases {
        if !is_certain(case) {
            return false;
        }
    }
    true
}

/// Whether the side of this sign is true in any case, at none of the cases.
fn none_has_always(cases: &[Case<'_>], sign: bool) -> bool
    ensures { result ≡ list_all (λ c. not (is_always (side_of sign c))) (map case_view cases.now) }
{
    for case in cases {
        if has_always(case, sign) {
            return false;
        }
    }
    true
}

pub(crate) fn only_literal(lits: &[Lit]) -> Option<Lit>
    ensures { result ≡ only_literal lits.now }
{
    match lits {
        [lit] => Some(*lit),
        _ => None,
    }
}

/// The one guard of the one case whose side of this sign is true in any case.
fn only_guard(cases: &[Case<'_>], sign: bool) -> Option<Lit>
    ensures { result ≡ only_guard (filter (λ c. is_always (side_of sign c)) (map case_view cases.now)) }
{
    for place in 0..cases.len() {
        let case = &cases[place];
        if has_always(case, sign) {
            let (_, later) = cases.split_at(place + 1);
            return if none_has_always(later, sign) {
                only_literal(case.guards)
            } else {
                None
            };
        }
    }
    None
}

/// What a case comes to where it has no guards and one literal says what it is.
fn unguarded(case: &Case<'_>) -> Option<Answer>
    ensures { result ≡ unguarded_answer case.now.guards.now case.now.yes }
{
    let [] = case.guards else {
        return None;
    };
    let Some(lits) = &case.yes else {
        return None;
    };
    match lits.as_slice() {
        [lit] => Some(Answer::Literal(*lit)),
        _ => None,
    }
}

fn single(cases: &[Case<'_>]) -> Option<Answer>
    ensures { result ≡ single_answer (map case_view cases.now) }
{
    match cases {
        [case] => unguarded(case),
        _ => None,
    }
}

/// What the cases come to where no variable is needed.
fn plain(cases: &[Case<'_>]) -> Option<Answer>
    ensures { result ≡ plain_answer (map case_view cases.now) }
{
    if !are_certain(cases) {
        return single(cases);
    }
    match only_guard(cases, true) {
        Some(lit) => Some(Answer::Literal(lit)),
        None => match only_guard(cases, false) {
            Some(lit) => Some(Answer::Literal(lit.negated())),
            None => None,
        },
    }
}

/// The answer that needs no variable: a constant where all cases are true, or all false, or else the plain one.
pub(crate) fn without_variable(cases: &[Case<'_>]) -> Option<Answer>
    ensures { result ≡ answer_without (map case_view cases.now) }
{
    if all_have_always(cases, true) {
        return Some(Answer::Constant(true));
    }
    if all_have_always(cases, false) {
        return Some(Answer::Constant(false));
    }
    plain(cases)
}

fn one_literal(alloc: Global, lit: Lit) -> Result<LitList, Memory>
    ensures { IfOk result (λ ls. ls ≡ lit ∷ []) }
{
    let mut lits = LitList::new(alloc);
    lits.push(lit)?;
    Ok(lits)
}

/// The case that an answer is, under guards.
pub fn case_of<'a>(alloc: Global, guards: &'a [Lit], answer: Answer) -> Result<Case<'a>, Memory>
    ensures { IfOk result (λ c. case_view c ≡ case_of_answer guards.now answer) }
{
    match answer {
        Answer::Constant(true) => Ok(Case {
            guards,
            yes: None,
            no: Some(LitList::new(alloc)),
        }),
        Answer::Constant(false) => Ok(Case {
            guards,
            yes: Some(LitList::new(alloc)),
            no: None,
        }),
        Answer::Literal(lit) => Ok(Case {
            guards,
            yes: Some(one_literal(alloc, lit)?),
            no: Some(one_literal(alloc, lit.negated())?),
        }),
    }
}
