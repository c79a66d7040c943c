//! The atoms of a sentence that make an instance of it add nothing where they are known to be false.
ghost use Rattle.std.specs.Prelude.{◌≡◌, ◌&&◌, IfSome, map, false, true};
ghost use Rattle.kb_logic.specs.Trees.{atom, comparison, conjunction, disjunction, formulas_of};
ghost use Rattle.kb_logic.specs.Trees.{FormulaTree, implication, negation, terms_of};
ghost use Rattle.kb_logic.specs.Views.{formula_view, term_view};
ghost use Rattle.term_values.specs.GroundBases.{GroundBase};
ghost use Rattle.sentence_guards.specs.declared.guards.Part.TheVariants.{Found};
ghost use Rattle.sentence_guards.specs.Guards.{AreGuarded, AreParts, IsGuard, IsPart, are_leaves, is_leaf};

use kb_logic::{Cmp, Formula, Term};

/// An atom of a sentence.
#[derive(Clone, Copy)]
pub struct Guard<'a> {
    pub symbol: u32,
    pub args: &'a [Term],
}

/// What was found of parts of a disjunction: an atom that settles it where it is known to be false, or that they make
/// no variable.
#[derive(Clone, Copy)]
pub enum Part<'a> {
    Found(Guard<'a>),
    Quiet,
    Other,
}

/// Whether the term is a variable, an integer or a made element.
fn is_leaf(term: &Term) -> bool
    ensures { result ≡ is_leaf (term_view term.now) }
{
    match term {
        Term::Var(_) => true,
        Term::Int(_) => true,
        Term::Made(..) => true,
        _ => false,
    }
}

fn are_leaves(terms: &[Term]) -> bool
    ensures { result ≡ are_leaves (terms_of (map term_view terms.now)) }
{
    for term in terms {
        if !is_leaf(term) {
            return false;
        }
    }
    true
}

fn both_leaves(left: &Term, right: &Term) -> bool
    ensures { result ≡ (is_leaf (term_view left.now) && is_leaf (term_view right.now)) }
{
    is_leaf(left) && is_leaf(right)
}

/// Takes one off the number of atoms that are passed over. Whether there was one.
fn passes(skipped: &mut usize) -> bool {
    if *skipped == 0 {
        return false;
    }
    *skipped -= 1;
    true
}

/// What an atom of leaves is as a part of a disjunction, or its negation where the sign is false.
fn leaf_atom<'a>(sign: bool, symbol: u32, args: &'a [Term], skipped: &mut usize) -> Part<'a>
    requires { are_leaves (terms_of (map term_view args.now)) ≡ true }
    ensures { (b : GroundBase) → IsPart b sign (atom symbol (terms_of (map term_view args.now))) result }
{
    if sign {
        return Part::Quiet;
    }
    if passes(skipped) {
        return Part::Quiet;
    }
    Part::Found(Guard { symbol, args })
}

/// So of any atom.
fn atom_part<'a>(sign: bool, symbol: u32, args: &'a [Term], skipped: &mut usize) -> Part<'a>
    ensures { (b : GroundBase) → IsPart b sign (atom symbol (terms_of (map term_view args.now))) result }
{
    if are_leaves(args) {
        leaf_atom(sign, symbol, args, skipped)
    } else {
        Part::Other
    }
}

/// So of a comparison.
fn comparison_part<'a>(sign: bool, cmp: Cmp, left: &'a Term, right: &'a Term) -> Part<'a>
    ensures { (b : GroundBase) → IsPart b sign (comparison cmp (term_view left.now) (term_view right.now)) result }
{
    if both_leaves(left, right) {
        Part::Quiet
    } else {
        Part::Other
    }
}

/// The first atom, of those that are not passed over, that settles a disjunction of which the formula is a part, or its
/// negation where the sign is false.
#[cycle(disjunct)]
fn part_of<'a>(sign: bool, formula: &'a Formula, skipped: &mut usize) -> Part<'a>
    ensures { (b : GroundBase) → IsPart b sign (formula_view formula.now) result }
{
    match formula {
        Formula::Atom(symbol, args) => atom_part(sign, *symbol, args, skipped),
        Formula::Compare(cmp, left, right) => comparison_part(sign, *cmp, left, right),
        Formula::Not(inner) => negated_part(sign, inner, skipped),
        Formula::And(formulas) => and_part(sign, formulas, skipped),
        Formula::Or(formulas) => or_part(sign, formulas, skipped),
        Formula::Implies(left, right) => {
            if sign {
                let first = part_of(false, left, skipped);
                right_part(first, right, skipped)
            } else {
                Part::Other
            }
        }
        _ => Part::Other,
    }
}

#[cycle(disjunct)]
fn negated_part<'a>(sign: bool, inner: &'a Formula, skipped: &mut usize) -> Part<'a>
    ensures { (b : GroundBase) → IsPart b sign (negation (formula_view inner.now)) result }
{
    part_of(!sign, inner, skipped)
}

#[cycle(disjunct)]
fn and_part<'a>(sign: bool, formulas: &'a [Formula], skipped: &mut usize) -> Part<'a>
    ensures { (b : GroundBase)
        → IsPart b sign (conjunction (formulas_of (map formula_view formulas.now))) result }
{
    if sign {
        return Part::Other;
    }
    parts(false, formulas, skipped)
}

#[cycle(disjunct)]
fn or_part<'a>(sign: bool, formulas: &'a [Formula], skipped: &mut usize) -> Part<'a>
    ensures { (b : GroundBase)
        → IsPart b sign (disjunction (formulas_of (map formula_view formulas.now))) result }
{
    if sign {
        return parts(true, formulas, skipped);
    }
    Part::Other
}

/// So of an implication's right side, after what was found of its left one.
#[cycle(disjunct)]
fn right_part<'a>(first: Part<'a>, right: &'a Formula, skipped: &mut usize) -> Part<'a>
    ensures { (b : GroundBase) (f : FormulaTree) → IsPart b false f first.entry
        → IsPart b true (implication f (formula_view right.now)) result }
{
    match first {
        Part::Found(guard) => Part::Found(guard),
        Part::Quiet => part_of(true, right, skipped),
        Part::Other => Part::Other,
    }
}

/// So of several parts.
#[cycle(disjunct)]
fn parts<'a>(sign: bool, formulas: &'a [Formula], skipped: &mut usize) -> Part<'a>
    ensures { (b : GroundBase) → AreParts b sign (formulas_of (map formula_view formulas.now)) result }
{
    for formula in formulas {
        match part_of(sign, formula, skipped) {
            Part::Found(guard) => return Part::Found(guard),
            Part::Quiet => {}
            Part::Other => return Part::Other,
        }
    }
    Part::Quiet
}

/// The atom, if the part is settled by one.
fn found<'a>(part: Part<'a>) -> Option<Guard<'a>>
    ensures { IfSome result (λ g. part.entry ≡ Found g) }
{
    match part {
        Part::Found(guard) => Some(guard),
        Part::Quiet => None,
        Part::Other => None,
    }
}

/// So many atoms passed over, the next one by which an instance of the formula, or of its negation where the sign is
/// false, adds nothing where the atom is known to be false.
#[cycle(guarding)]
pub fn guard_in<'a>(sign: bool, formula: &'a Formula, skipped: &mut usize) -> Option<Guard<'a>>
    ensures { IfSome result (λ g. (b : GroundBase)
        → IsGuard b sign (formula_view formula.now) g.symbol (terms_of (map term_view g.args.now))) }
{
    match formula {
        Formula::Not(inner) => negated_guard(sign, inner, skipped),
        Formula::Implies(left, right) => implied_guard(sign, left, right, skipped),
        Formula::And(formulas) => and_guard(sign, formulas, skipped),
        Formula::Or(formulas) => or_guard(sign, formulas, skipped),
        _ => None,
    }
}

#[cycle(guarding)]
fn negated_guard<'a>(sign: bool, inner: &'a Formula, skipped: &mut usize) -> Option<Guard<'a>>
    ensures { IfSome result (λ g. (b : GroundBase)
        → IsGuard b sign (negation (formula_view inner.now)) g.symbol (terms_of (map term_view g.args.now))) }
{
    guard_in(!sign, inner, skipped)
}

fn implied_guard<'a>(
    sign: bool,
    left: &'a Formula,
    right: &'a Formula,
    skipped: &mut usize,
) -> Option<Guard<'a>>
    ensures { IfSome result (λ g. (b : GroundBase)
        → IsGuard b sign (implication (formula_view left.now) (formula_view right.now)) g.symbol
        (terms_of (map term_view g.args.now))) }
{
    if sign {
        return found(part_of(false, left, skipped));
    }
    None
}

fn and_guard<'a>(sign: bool, formulas: &'a [Formula], skipped: &mut usize) -> Option<Guard<'a>>
    ensures { IfSome result (λ g. (b : GroundBase)
        → IsGuard b sign (conjunction (formulas_of (map formula_view formulas.now))) g.symbol
        (terms_of (map term_view g.args.now))) }
{
    if sign {
        return None;
    }
    guard_of_others(false, formulas, skipped)
}

fn or_guard<'a>(sign: bool, formulas: &'a [Formula], skipped: &mut usize) -> Option<Guard<'a>>
    ensures { IfSome result (λ g. (b : GroundBase)
        → IsGuard b sign (disjunction (formulas_of (map formula_view formulas.now))) g.symbol
        (terms_of (map term_view g.args.now))) }
{
    if sign {
        return guard_of_others(true, formulas, skipped);
    }
    None
}

/// The same among the parts of a disjunction before the last one, or their negations where the sign is false.
fn guard_of_others<'a>(
    sign: bool,
    formulas: &'a [Formula],
    skipped: &mut usize,
) -> Option<Guard<'a>>
    ensures { IfSome result (λ g. (b : GroundBase) → AreGuarded b sign (formulas_of (map formula_view formulas.now))
        g.symbol (terms_of (map term_view g.args.now))) }
{
    let Some((_last, others)) = formulas.split_last() else {
        return None;
    };
    found(parts(sign, others, skipped))
}
