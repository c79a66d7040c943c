//! The raw trees, built from their parts. What one reader hands to another is boxed, so that a level of nesting takes
//! little of the stack.
ghost use Rattle.std.specs.Prelude.{◌≡◌, ◌∷◌, IfOk, map};
ghost use Rattle.grammar.specs.Trees as tree;
ghost use Rattle.grammar.specs.View.{name_view, vars_view, number_view, formula_view, link_view, or_view};
ghost use Rattle.grammar.specs.View.{or_tail_view, and_view, and_tail_view, unary_view, prim_view, term_view};
ghost use Rattle.grammar.specs.View.{sum_tail_view, product_view, product_tail_view, factor_view, app_view};
ghost use Rattle.grammar.specs.View.{terms_view, terms_tail_view, formula_of, or_of, and_of, term_of, product_of};
ghost use Rattle.grammar.specs.View.{terms_of};

use grammar::{
    Adding, Aggregation, Arrow, Comparison, RawAnd, RawAndTail, RawApp, RawFactor, RawFormula,
    RawInteger, RawLink, RawName, RawNumber, RawOpening, RawOr, RawOrTail, RawPrim, RawProduct,
    RawProductTail, RawSumTail, RawTermTree, RawTerms, RawTermsTail, RawUnary, RawVars, Text,
};
use sqlite_items::{Boxed, Items};
use std::alloc::{AllocError, Global};

pub fn named(alloc: Global, text: &[u8], place: usize) -> Result<RawName, AllocError>
    ensures { IfOk result (λ e. name_view e ≡ tree.name text.now place) }
{
    Ok(RawName {
        text: Text::new(alloc, text)?,
        place,
    })
}

pub fn alone(alloc: Global, or: RawOr) -> Result<Boxed<RawFormula>, AllocError>
    ensures { IfOk result (λ e. formula_view e ≡ tree.alone (or_view or)) }
{
    Boxed::new(alloc, RawFormula::Alone(or))
}

pub fn linked(
    alloc: Global,
    arrow: Arrow,
    first: RawOr,
    next: RawLink,
    more: Items<RawLink>,
) -> Result<Boxed<RawFormula>, AllocError>
    ensures { IfOk result (λ e. formula_view e ≡ formula_of arrow (or_view first)
        (link_view next ∷ map link_view more)) }
{
    Boxed::new(alloc, RawFormula::Linked(arrow, first, next, more))
}

pub fn link(place: usize, operand: Boxed<RawOr>) -> RawLink
    ensures { link_view result ≡ (place, or_view operand) }
{
    let operand = operand.into_inner();
    RawLink { place, operand }
}

pub fn or(alloc: Global, first: RawAnd, more: Items<RawOrTail>) -> Result<Boxed<RawOr>, AllocError>
    ensures { IfOk result (λ e. or_view e ≡ or_of (and_view first) (map or_tail_view more)) }
{
    Boxed::new(alloc, RawOr { first, more })
}

pub fn or_tail(place: usize, operand: Boxed<RawAnd>) -> RawOrTail
    ensures { or_tail_view result ≡ (place, and_view operand) }
{
    let operand = operand.into_inner();
    RawOrTail { place, operand }
}

pub fn and(
    alloc: Global,
    first: RawUnary,
    more: Items<RawAndTail>,
) -> Result<Boxed<RawAnd>, AllocError>
    ensures { IfOk result (λ e. and_view e ≡ and_of (unary_view first) (map and_tail_view more)) }
{
    Boxed::new(alloc, RawAnd { first, more })
}

pub fn and_tail(place: usize, operand: Boxed<RawUnary>) -> RawAndTail
    ensures { and_tail_view result ≡ (place, unary_view operand) }
{
    let operand = operand.into_inner();
    RawAndTail { place, operand }
}

pub fn negated(
    alloc: Global,
    place: usize,
    inner: Boxed<RawUnary>,
) -> Result<Boxed<RawUnary>, AllocError>
    ensures { IfOk result (λ e. unary_view e ≡ tree.not place (unary_view inner)) }
{
    Boxed::new(alloc, RawUnary::Not(place, inner))
}

pub fn every(
    alloc: Global,
    place: usize,
    vars: Boxed<RawVars>,
    colon: usize,
    inner: Boxed<RawFormula>,
) -> Result<Boxed<RawUnary>, AllocError>
    ensures { IfOk result (λ e. unary_view e ≡ tree.every place (vars_view vars) colon (formula_view inner)) }
{
    Boxed::new(alloc, RawUnary::Every(place, vars, colon, inner))
}

pub fn some(
    alloc: Global,
    place: usize,
    number: RawNumber,
    vars: Boxed<RawVars>,
    colon: usize,
    inner: Boxed<RawFormula>,
) -> Result<Boxed<RawUnary>, AllocError>
    ensures { IfOk result (λ e. unary_view e ≡ tree.some place (number_view number) (vars_view vars) colon
        (formula_view inner)) }
{
    Boxed::new(alloc, RawUnary::Some(place, number, vars, colon, inner))
}

pub fn prim(alloc: Global, prim: RawPrim) -> Result<Boxed<RawUnary>, AllocError>
    ensures { IfOk result (λ e. unary_view e ≡ tree.prim (prim_view prim)) }
{
    Boxed::new(alloc, RawUnary::Prim(prim))
}

pub fn group(start: usize, inner: Boxed<RawFormula>, close: usize) -> RawPrim
    ensures { prim_view result ≡ tree.group start (formula_view inner) close }
{
    RawPrim::Group(start, inner, close)
}

pub fn truth(value: bool, place: usize) -> RawPrim
    ensures { prim_view result ≡ tree.truth value place }
{
    RawPrim::Truth(value, place)
}

pub fn atom(app: Boxed<RawApp>) -> RawPrim
    ensures { prim_view result ≡ tree.atom (app_view app) }
{
    RawPrim::Atom(app.into_inner())
}

pub fn compare(
    left: Boxed<RawTermTree>,
    sign: Comparison,
    place: usize,
    right: Boxed<RawTermTree>,
) -> RawPrim
    ensures { prim_view result ≡ tree.compare (term_view left) sign place (term_view right) }
{
    RawPrim::Compare(left, sign, place, right)
}

pub fn term(
    alloc: Global,
    first: RawProduct,
    more: Items<RawSumTail>,
) -> Result<Boxed<RawTermTree>, AllocError>
    ensures { IfOk result (λ e. term_view e ≡ term_of (product_view first) (map sum_tail_view more)) }
{
    Boxed::new(alloc, RawTermTree { first, more })
}

pub fn sum_tail(sign: Adding, place: usize, operand: Boxed<RawProduct>) -> RawSumTail
    ensures { sum_tail_view result ≡ (sign, place, product_view operand) }
{
    let operand = operand.into_inner();
    RawSumTail {
        sign,
        place,
        operand,
    }
}

pub fn product(
    alloc: Global,
    first: RawFactor,
    more: Items<RawProductTail>,
) -> Result<Boxed<RawProduct>, AllocError>
    ensures { IfOk result (λ e. product_view e ≡ product_of (factor_view first) (map product_tail_view more)) }
{
    Boxed::new(alloc, RawProduct { first, more })
}

pub fn product_tail(place: usize, operand: Boxed<RawFactor>) -> RawProductTail
    ensures { product_tail_view result ≡ (place, factor_view operand) }
{
    let operand = operand.into_inner();
    RawProductTail { place, operand }
}

pub fn integer(alloc: Global, value: u64, place: usize) -> Result<Boxed<RawFactor>, AllocError>
    ensures { IfOk result (λ e. factor_view e ≡ tree.integer value place) }
{
    Boxed::new(alloc, RawFactor::Integer(RawInteger { value, place }))
}

pub fn value(alloc: Global, app: Boxed<RawApp>) -> Result<Boxed<RawFactor>, AllocError>
    ensures { IfOk result (λ e. factor_view e ≡ tree.value (app_view app)) }
{
    Boxed::new(alloc, RawFactor::Value(app.into_inner()))
}

pub fn brackets(
    alloc: Global,
    start: usize,
    inner: Boxed<RawTermTree>,
    close: usize,
) -> Result<Boxed<RawFactor>, AllocError>
    ensures { IfOk result (λ e. factor_view e ≡ tree.brackets start (term_view inner) close) }
{
    Boxed::new(alloc, RawFactor::Brackets(start, inner, close))
}

pub fn negative(
    alloc: Global,
    place: usize,
    inner: Boxed<RawFactor>,
) -> Result<Boxed<RawFactor>, AllocError>
    ensures { IfOk result (λ e. factor_view e ≡ tree.negative place (factor_view inner)) }
{
    Boxed::new(alloc, RawFactor::Negative(place, inner))
}

pub fn count(
    alloc: Global,
    opening: RawOpening,
    inner: Boxed<RawFormula>,
    close: usize,
) -> Result<Boxed<RawFactor>, AllocError>
    ensures { IfOk result (λ e. factor_view e ≡ tree.count opening.place opening.brace (vars_view opening.vars)
        opening.colon (formula_view inner) close) }
{
    Boxed::new(alloc, RawFactor::Count(opening, inner, close))
}

pub fn aggregate(
    alloc: Global,
    how: Aggregation,
    opening: RawOpening,
    inner: Boxed<RawFormula>,
    colon: usize,
    of: Boxed<RawTermTree>,
    close: usize,
) -> Result<Boxed<RawFactor>, AllocError>
    ensures { IfOk result (λ e. factor_view e ≡ tree.aggregate how opening.place opening.brace (vars_view opening.vars)
        opening.colon (formula_view inner) colon (term_view of) close) }
{
    Boxed::new(
        alloc,
        RawFactor::Aggregate(how, opening, inner, colon, of, close),
    )
}

pub fn constant(alloc: Global, name: RawName) -> Result<Boxed<RawApp>, AllocError>
    ensures { IfOk result (λ e. app_view e ≡ tree.constant (name_view name)) }
{
    Boxed::new(alloc, RawApp::Constant(name))
}

pub fn empty(
    alloc: Global,
    name: RawName,
    start: usize,
    close: usize,
) -> Result<Boxed<RawApp>, AllocError>
    ensures { IfOk result (λ e. app_view e ≡ tree.empty (name_view name) start close) }
{
    Boxed::new(alloc, RawApp::Empty(name, start, close))
}

pub fn apply(
    alloc: Global,
    name: RawName,
    start: usize,
    terms: RawTerms,
    close: usize,
) -> Result<Boxed<RawApp>, AllocError>
    ensures { IfOk result (λ e. app_view e ≡ tree.apply (name_view name) start (terms_view terms) close) }
{
    let terms = Boxed::new(alloc, terms)?;
    Boxed::new(alloc, RawApp::Apply(name, start, terms, close))
}

pub fn terms(first: RawTermTree, more: Items<RawTermsTail>) -> RawTerms
    ensures { terms_view result ≡ terms_of (term_view first) (map terms_tail_view more) }
{
    RawTerms { first, more }
}

pub fn terms_tail(place: usize, operand: Boxed<RawTermTree>) -> RawTermsTail
    ensures { terms_tail_view result ≡ (place, term_view operand) }
{
    let operand = operand.into_inner();
    RawTermsTail { place, operand }
}
