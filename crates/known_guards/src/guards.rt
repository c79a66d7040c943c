//! The atoms that settle a formula where they are certainly false.
ghost use Rattle.std.specs.Prelude.{◌≡◌, map, true, IfSome};
ghost use Rattle.kb_logic.specs.Trees.{atom, conjunction, disjunction, formulas_of, negation, terms_of};
ghost use Rattle.kb_logic.specs.Views.{formula_view, term_view};
ghost use Rattle.known_guards.specs.Guards.{AreGuarded, ArePlain, IsGuarded, IsPlain};

use kb_logic::{Formula, Term};

/// An atom of a formula.
#[derive(Clone, Copy)]
pub struct Guard<'a> {
    pub symbol: u32,
    pub args: &'a [Term],
}

/// Whether the term is a variable, an integer or a made element.
fn is_plain(term: &Term) -> bool
    ensures { result ≡ true → IsPlain (term_view term.now) }
{
    match term {
        Term::Var(_) => true,
        Term::Int(_) => true,
        Term::Made(..) => true,
        _ => false,
    }
}

fn are_plain(terms: &[Term]) -> bool
    ensures { result ≡ true → ArePlain (terms_of (map term_view terms.now)) }
{
    for term in terms {
        if !is_plain(term) {
            return false;
        }
    }
    true
}

/// Takes one off the number of atoms that are passed over. Whether there was one.
fn passes(skipped: &mut usize) -> bool {
    if *skipped == 0 {
        return false;
    }
    *skipped -= 1;
    true
}

/// An atom is false where it is false.
fn own_guard<'a>(v: bool, symbol: u32, args: &'a [Term], skipped: &mut usize) -> Option<Guard<'a>>
    ensures { IfSome result (IsGuarded v (atom symbol (terms_of (map term_view args.now)))) }
{
    if v {
        return None;
    }
    if !are_plain(args) {
        return None;
    }
    if passes(skipped) {
        return None;
    }
    Some(Guard { symbol, args })
}

/// So many atoms passed over, the next one of plain arguments such that the formula certainly has the value wherever
/// the atom is certainly false.
#[cycle(guarding)]
pub fn guard_in<'a>(v: bool, formula: &'a Formula, skipped: &mut usize) -> Option<Guard<'a>>
    ensures { IfSome result (IsGuarded v (formula_view formula.now)) }
{
    match formula {
        Formula::Atom(symbol, args) => own_guard(v, *symbol, args, skipped),
        Formula::Not(inner) => negated_guard(v, inner, skipped),
        Formula::And(formulas) => and_guard(v, formulas, skipped),
        Formula::Or(formulas) => or_guard(v, formulas, skipped),
        Formula::Implies(left, right) => {
            if !v {
                return None;
            }
            match guard_in(false, left, skipped) {
                Some(guard) => Some(guard),
                None => guard_in(true, right, skipped),
            }
        }
        _ => None,
    }
}

#[cycle(guarding)]
fn negated_guard<'a>(v: bool, inner: &'a Formula, skipped: &mut usize) -> Option<Guard<'a>>
    ensures { IfSome result (IsGuarded v (negation (formula_view inner.now))) }
{
    guard_in(!v, inner, skipped)
}

#[cycle(guarding)]
fn and_guard<'a>(v: bool, formulas: &'a [Formula], skipped: &mut usize) -> Option<Guard<'a>>
    ensures { IfSome result (IsGuarded v (conjunction (formulas_of (map formula_view formulas.now)))) }
{
    if v {
        return None;
    }
    guard_among(false, formulas, skipped)
}

#[cycle(guarding)]
fn or_guard<'a>(v: bool, formulas: &'a [Formula], skipped: &mut usize) -> Option<Guard<'a>>
    ensures { IfSome result (IsGuarded v (disjunction (formulas_of (map formula_view formulas.now)))) }
{
    if !v {
        return None;
    }
    guard_among(true, formulas, skipped)
}

/// One by which some of the formulas certainly has the value.
#[cycle(guarding)]
fn guard_among<'a>(v: bool, formulas: &'a [Formula], skipped: &mut usize) -> Option<Guard<'a>>
    ensures { IfSome result (AreGuarded v (formulas_of (map formula_view formulas.now))) }
{
    for formula in formulas {
        if let Some(guard) = guard_in(v, formula, skipped) {
            return Some(guard);
        }
    }
    None
}
