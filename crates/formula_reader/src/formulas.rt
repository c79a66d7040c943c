//! Formulas, and the operands of which they are made.
ghost use Rattle.std.specs.Prelude.{◌≡◌, ◌∷◌, ◌≤◌, ◌<◌, ℕ, List, length, map, true, false, IfOk};
ghost use Rattle.grammar.specs.Terminals.{Tok, toks, tok_at, word, sign};
ghost use Rattle.grammar.specs.Trees as tree;
ghost use Rattle.grammar.specs.Spelling.{put_unary, put_prim, put_term, put_factor};
ghost use Rattle.grammar.specs.Fine.{FineTerm, FineFactor, FineApp};
ghost use Rattle.token_reader.specs.Sorts.{app_formula, app_or, app_and, app_unary, app_term, app_factor};
ghost use Rattle.grammar.specs.View.{formula_of, or_of, and_of, link_view, or_tail_view, and_tail_view, formula_view};
ghost use Rattle.grammar.specs.View.{or_view, and_view, unary_view, prim_view, term_view, factor_view, app_view};
ghost use Rattle.token_reader.specs.Parts.{EndsFactor, EndsTerm, EndsPrim, TermsOnly};
ghost use Rattle.token_reader.specs.Signs.{next, No};
ghost use Rattle.formula_reader.specs.Chains.{AndsAre, OrsAre, LinksAre, MoreAnds, MoreOrs, MoreLinks};
ghost use Rattle.formula_reader.specs.Results.{Readers, UnaryIs, UnaryRead, AndRead, OrIs, OrRead, ConjunctionRead};
ghost use Rattle.formula_reader.specs.Results.{DisjunctionRead, FormulaRead, LinkedRead, OperandIs, OperandRead};
ghost use Rattle.formula_reader.specs.Results.{ContentRead, InsideRead, SettledRead, wrap_prim, wrap_factor, nots};
ghost use Rattle.formula_reader.specs.Results.{put_nots};
ghost use Rattle.grammar.specs.declared.terminal.Terminal.TheVariants as t;

use crate::expressions::Reader;
use crate::kinds::{Content, Operand, Pair};
use grammar::{
    Arrow, Item, RawAnd, RawAndTail, RawApp, RawFactor, RawFormula, RawLink, RawOr, RawOrTail,
    RawPrim, RawTermTree, RawUnary, ReadError, Terminal,
};
use sqlite_items::{Boxed, Items};
use std::alloc::{AllocError, Global};
use token_reader::binders::{binder, number};
use token_reader::build;
use token_reader::cursor::{
    Found, after_arrow, after_compare, connects, goes_on, place_at, sealed, sign, skip,
    skip_connective, split, start,
};

/// What was read, whether no quantified formula stands at its end, and the tokens after it.
type Chained<'a, T> = Result<(T, bool, &'a [Item<'a>]), ReadError>;

// The formula that is this operand alone.
fn only(alloc: Global, prim: RawPrim) -> Result<Boxed<RawFormula>, AllocError>
    ensures { IfOk result (λ f. formula_view f ≡ tree.alone (tree.one (tree.single (tree.prim (prim_view prim))))) }
{
    let unary = build::prim(alloc, prim)?;
    let and = build::and(alloc, unary.into_inner(), Items::new(alloc))?;
    let or = build::or(alloc, and.into_inner(), Items::new(alloc))?;
    build::alone(alloc, or.into_inner())
}

// The term that is this factor alone.
fn sole(alloc: Global, factor: Boxed<RawFactor>) -> Result<Boxed<RawTermTree>, AllocError>
    ensures { IfOk result (λ x. term_view x ≡ tree.product (tree.factor (factor_view factor))) }
{
    let product = build::product(alloc, factor.into_inner(), Items::new(alloc))?;
    build::term(alloc, product.into_inner(), Items::new(alloc))
}

// The application in these brackets, as a formula.
fn wrapped(alloc: Global, app: Boxed<RawApp>, pairs: Items<Pair>) -> Result<RawPrim, AllocError>
    ensures { IfOk result (λ x. prim_view x ≡ wrap_prim pairs (tree.atom (app_view app))) }
{
    let mut found = build::atom(app);
    let mut rest = pairs.as_slice();
    while let Some((pair, after)) = rest.split_first() {
        let inner = only(alloc, found)?;
        found = build::group(pair.start, inner, pair.close);
        rest = after;
    }
    Ok(found)
}

// The application in these brackets, as a term.
fn bracketed(
    alloc: Global,
    app: Boxed<RawApp>,
    pairs: Items<Pair>,
) -> Result<Boxed<RawFactor>, AllocError>
    ensures same { IfOk result (λ x. factor_view x ≡ wrap_factor pairs (tree.value (app_view app))) }
    ensures fine { IfOk result (λ x. FineApp (app_view app) → FineFactor (factor_view x)) }
{
    let mut found = build::value(alloc, app)?;
    let mut rest = pairs.as_slice();
    while let Some((pair, after)) = rest.split_first() {
        let inner = sole(alloc, found)?;
        found = build::brackets(alloc, pair.start, inner, pair.close)?;
        rest = after;
    }
    Ok(found)
}

// The signs `~` before an operand, the outermost first.
fn tildes<'a>(signs: &mut Items<usize>, items: &'a [Item<'a>]) -> Result<&'a [Item<'a>], AllocError>
    ensures reads { IfOk result (λ r. put_nots signs.old (toks items.now) ≡ put_nots signs.new (toks r.now)) }
    ensures ends { IfOk result (λ r. No t.Not (next (toks r.now))) }
    ensures shorter { IfOk result (λ r. length r.now ≤ length items.now) }
{
    let (_count, mut rest) = start(items);
    while let Some((place, after)) = skip(Terminal::Not, rest) {
        signs.push(place)?;
        rest = after;
    }
    Ok(rest)
}

// The operand after these signs, the outermost first.
fn negated(
    alloc: Global,
    mut signs: Items<usize>,
    first: Boxed<RawUnary>,
) -> Result<Boxed<RawUnary>, AllocError>
    ensures { IfOk result (λ u. unary_view u ≡ nots signs (unary_view first)) }
{
    let mut found = first;
    while let Some(place) = signs.pop() {
        found = build::negated(alloc, place, found)?;
    }
    Ok(found)
}

// An operand of a connective, which is no term.
fn settle(
    alloc: Global,
    found: Operand,
    rest: &[Item<'_>],
    end: usize,
) -> Result<(Boxed<RawUnary>, bool), ReadError>
    ensures reads { (ts : List Tok) → OperandIs ts found (toks rest.now) → SettledRead ts (toks rest.now) end result }
{
    match found {
        Operand::Formula(unary, closed) => Ok((unary, closed)),
        Operand::Either(app, pairs) => {
            let inside = wrapped(alloc, app, pairs)?;
            let unary = build::prim(alloc, inside)?;
            Ok((unary, true))
        }
        Operand::Term(_term) => Err(ReadError::Stuck(place_at(rest, end))),
    }
}

impl<
    'a,
    F: Fn(Global, &'a [Item<'a>], usize) -> Found<'a, Boxed<RawFormula>>,
    G: Fn(Global, &'a [Item<'a>], usize) -> Found<'a, Content>,
    H: Fn(Global, &'a [Item<'a>], usize) -> Found<'a, Boxed<RawTermTree>>,
> Reader<F, G, H> {
    // A term in the place of an operand, or the comparison that it begins.
    fn compared(&self, term: Boxed<RawTermTree>, items: &'a [Item<'a>]) -> Found<'a, Operand>
        requires nests { Readers self.now.left (F.pre self.now.formula) (F.post self.now.formula)
            (G.pre self.now.content) (G.post self.now.content) (H.pre self.now.term) (H.post self.now.term) }
        requires fewer { length items.now ≤ self.now.left }
        requires fine { FineTerm (term_view term) }
        requires ends { EndsTerm (toks items.now) }
        ensures reads { (EndsPrim (toks items.now) → app_term (term_view term) ≡ false)
            → OperandRead (put_term (term_view term) (toks items.now)) self.now.end result }
        ensures shorter { IfOk result (λ p. length p.1.now ≤ length items.now) }
    {
        let Some((sign, place, rest)) = after_compare(items) else {
            return Ok((Operand::Term(term), items));
        };
        let (right, last) = self.whole_term(rest)?;
        let found = build::prim(self.alloc, build::compare(term, sign, place, right))?;
        Ok((Operand::Formula(found, true), last))
    }

    // The operand that has begun with this factor.
    fn begun(&self, first: Boxed<RawFactor>, items: &'a [Item<'a>]) -> Found<'a, Operand>
        requires nests { Readers self.now.left (F.pre self.now.formula) (F.post self.now.formula)
            (G.pre self.now.content) (G.post self.now.content) (H.pre self.now.term) (H.post self.now.term) }
        requires fewer { length items.now ≤ self.now.left }
        requires fine { FineFactor (factor_view first) }
        requires ends { EndsFactor (toks items.now) }
        ensures reads { (EndsPrim (toks items.now) → app_factor (factor_view first) ≡ false)
            → OperandRead (put_factor (factor_view first) (toks items.now)) self.now.end result }
        ensures shorter { IfOk result (λ p. length p.1.now ≤ length items.now) }
    {
        let (term, rest) = self.summed(first, items)?;
        self.compared(term, rest)
    }

    // A factor that is no application, and what it begins.
    fn measured(&self, items: &'a [Item<'a>]) -> Found<'a, Operand>
        requires nests { Readers self.now.left (F.pre self.now.formula) (F.post self.now.formula)
            (G.pre self.now.content) (G.post self.now.content) (H.pre self.now.term) (H.post self.now.term) }
        requires fewer { length items.now ≤ self.now.left }
        ensures reads { TermsOnly (toks items.now) → OperandRead (toks items.now) self.now.end result }
        ensures shorter { IfOk result (λ p. length p.1.now ≤ length items.now) }
    {
        let (first, rest) = self.factor(items)?;
        self.begun(first, rest)
    }

    // An application in these brackets, or what it begins.
    fn applied(
        &self,
        app: Boxed<RawApp>,
        pairs: Items<Pair>,
        items: &'a [Item<'a>],
    ) -> Found<'a, Operand>
        requires nests { Readers self.now.left (F.pre self.now.formula) (F.post self.now.formula)
            (G.pre self.now.content) (G.post self.now.content) (H.pre self.now.term) (H.post self.now.term) }
        requires fewer { length items.now ≤ self.now.left }
        requires fine { FineApp (app_view app) }
        requires ends { EndsFactor (toks items.now) }
        ensures reads { OperandRead (put_prim (wrap_prim pairs (tree.atom (app_view app))) (toks items.now))
            self.now.end result }
        ensures shorter { IfOk result (λ p. length p.1.now ≤ length items.now) }
    {
        if goes_on(items) {
            let first = bracketed(self.alloc, app, pairs)?;
            return self.begun(first, items);
        }
        Ok((Operand::Either(app, pairs), items))
    }

    // A word, and what it begins.
    fn worded(&self, text: &[u8], place: usize, items: &'a [Item<'a>]) -> Found<'a, Operand>
        requires nests { Readers self.now.left (F.pre self.now.formula) (F.post self.now.formula)
            (G.pre self.now.content) (G.post self.now.content) (H.pre self.now.term) (H.post self.now.term) }
        requires fewer { length items.now < self.now.left }
        ensures reads { OperandRead (tok_at (word text.now) place ∷ toks items.now) self.now.end result }
        ensures shorter { IfOk result (λ p. length p.1.now ≤ length items.now) }
    {
        let name = build::named(self.alloc, text, place)?;
        let (app, rest) = self.arguments(name, items)?;
        sealed(rest)?;
        self.applied(app, Items::new(self.alloc), rest)
    }

    // What stands in brackets up to the closing one, and the place of that.
    fn inside(&self, items: &'a [Item<'a>]) -> Result<(Content, usize, &'a [Item<'a>]), ReadError>
        requires nests { Readers self.now.left (F.pre self.now.formula) (F.post self.now.formula)
            (G.pre self.now.content) (G.post self.now.content) (H.pre self.now.term) (H.post self.now.term) }
        requires fewer { length items.now < self.now.left }
        ensures reads { InsideRead (toks items.now) self.now.end result }
        ensures shorter { IfOk result (λ p. length p.2.now ≤ length items.now) }
    {
        let (inner, rest) = self.content(items)?;
        let (place, last) = sign(Terminal::Close, rest, self.end)?;
        sealed(last)?;
        Ok((inner, place, last))
    }

    // What stands in brackets, and what it begins.
    fn enclosed(&self, begin: usize, items: &'a [Item<'a>]) -> Found<'a, Operand>
        requires nests { Readers self.now.left (F.pre self.now.formula) (F.post self.now.formula)
            (G.pre self.now.content) (G.post self.now.content) (H.pre self.now.term) (H.post self.now.term) }
        requires fewer { length items.now < self.now.left }
        ensures reads { OperandRead (sign t.Open begin ∷ toks items.now) self.now.end result }
        ensures shorter { IfOk result (λ p. length p.1.now ≤ length items.now) }
    {
        let (inner, place, last) = self.inside(items)?;
        match inner {
            Content::Formula(formula) => {
                let found = build::prim(self.alloc, build::group(begin, formula, place))?;
                Ok((Operand::Formula(found, true), last))
            }
            Content::Term(term) => {
                let first = build::brackets(self.alloc, begin, term, place)?;
                self.begun(first, last)
            }
            Content::Either(app, mut pairs) => {
                pairs.push(Pair {
                    start: begin,
                    close: place,
                })?;
                self.applied(app, pairs, last)
            }
        }
    }

    fn every(&self, place: usize, items: &'a [Item<'a>]) -> Found<'a, Operand>
        requires nests { Readers self.now.left (F.pre self.now.formula) (F.post self.now.formula)
            (G.pre self.now.content) (G.post self.now.content) (H.pre self.now.term) (H.post self.now.term) }
        requires fewer { length items.now < self.now.left }
        ensures reads { OperandRead (sign t.Every place ∷ toks items.now) self.now.end result }
        ensures shorter { IfOk result (λ p. length p.1.now ≤ length items.now) }
    {
        let (vars, colon, rest) = binder(self.alloc, items, self.end)?;
        let (inner, last) = self.formula(rest)?;
        let found = build::every(self.alloc, place, vars, colon, inner)?;
        Ok((Operand::Formula(found, false), last))
    }

    fn some(&self, place: usize, items: &'a [Item<'a>]) -> Found<'a, Operand>
        requires nests { Readers self.now.left (F.pre self.now.formula) (F.post self.now.formula)
            (G.pre self.now.content) (G.post self.now.content) (H.pre self.now.term) (H.post self.now.term) }
        requires fewer { length items.now < self.now.left }
        ensures reads { OperandRead (sign t.Some place ∷ toks items.now) self.now.end result }
        ensures shorter { IfOk result (λ p. length p.1.now ≤ length items.now) }
    {
        let (count, rest) = number(items, self.end)?;
        let (vars, colon, rest) = binder(self.alloc, rest, self.end)?;
        let (inner, last) = self.formula(rest)?;
        let found = build::some(self.alloc, place, count, vars, colon, inner)?;
        Ok((Operand::Formula(found, false), last))
    }

    // An operand without `~` before it.
    fn plain(&self, items: &'a [Item<'a>]) -> Found<'a, Operand>
        requires nests { Readers self.now.left (F.pre self.now.formula) (F.post self.now.formula)
            (G.pre self.now.content) (G.post self.now.content) (H.pre self.now.term) (H.post self.now.term) }
        requires fewer { length items.now ≤ self.now.left }
        ensures reads { No t.Not (next (toks items.now)) → OperandRead (toks items.now) self.now.end result }
        ensures shorter { IfOk result (λ p. length p.1.now ≤ length items.now) }
    {
        let Some((item, rest)) = split(items) else {
            return self.measured(items);
        };
        match item.terminal {
            Terminal::Word => self.worded(item.text, item.place, rest),
            Terminal::Open => self.enclosed(item.place, rest),
            Terminal::Every => self.every(item.place, rest),
            Terminal::Some => self.some(item.place, rest),
            Terminal::Truth(value) => {
                sealed(rest)?;
                let found = build::prim(self.alloc, build::truth(value, item.place))?;
                Ok((Operand::Formula(found, true), rest))
            }
            _ => self.measured(items),
        }
    }

    // An operand of whatever sort, with the signs before it.
    fn operand(&self, items: &'a [Item<'a>]) -> Found<'a, Operand>
        requires nests { Readers self.now.left (F.pre self.now.formula) (F.post self.now.formula)
            (G.pre self.now.content) (G.post self.now.content) (H.pre self.now.term) (H.post self.now.term) }
        requires fewer { length items.now ≤ self.now.left }
        ensures reads { OperandRead (toks items.now) self.now.end result }
        ensures shorter { IfOk result (λ p. length p.1.now ≤ length items.now) }
    {
        let mut signs = Items::new(self.alloc);
        let rest = tildes(&mut signs, items)?;
        let (found, last) = self.plain(rest)?;
        if signs.is_empty() {
            return Ok((found, last));
        }
        let (inner, closed) = settle(self.alloc, found, last, self.end)?;
        let whole = negated(self.alloc, signs, inner)?;
        Ok((Operand::Formula(whole, closed), last))
    }

    // An operand of a connective, and whether no quantified formula stands at its end.
    fn unary(&self, items: &'a [Item<'a>]) -> Chained<'a, Boxed<RawUnary>>
        requires nests { Readers self.now.left (F.pre self.now.formula) (F.post self.now.formula)
            (G.pre self.now.content) (G.post self.now.content) (H.pre self.now.term) (H.post self.now.term) }
        requires fewer { length items.now ≤ self.now.left }
        ensures reads { UnaryRead (toks items.now) self.now.end result }
        ensures shorter { IfOk result (λ p. length p.2.now ≤ length items.now) }
    {
        let (found, last) = self.operand(items)?;
        let (inner, closed) = settle(self.alloc, found, last, self.end)?;
        Ok((inner, closed, last))
    }

    // The further operands of a chain of `&`, and whether no quantified formula stands at its end. What is kept across
    // the loop is lent, so that no way out of it has to give up a tree.
    fn more_ands(
        &self,
        more: &mut Items<RawAndTail>,
        ends: bool,
        items: &'a [Item<'a>],
    ) -> Found<'a, bool>
        requires nests { Readers self.now.left (F.pre self.now.formula) (F.post self.now.formula)
            (G.pre self.now.content) (G.post self.now.content) (H.pre self.now.term) (H.post self.now.term) }
        requires fewer { length items.now ≤ self.now.left }
        ensures reads { (ts : List Tok) (u : tree.Unary) → AndsAre ts (and_of u (map and_tail_view more.old)) ends
            (toks items.now)
            → MoreAnds ts u (map and_tail_view more.new) self.now.end result }
        ensures shorter { IfOk result (λ p. length p.1.now ≤ length items.now) }
    {
        let (_count, mut rest) = start(items);
        let mut closed = ends;
        while let Some((place, after)) = skip_connective(Terminal::And, closed, rest) {
            let (operand, still, after) = self.unary(after)?;
            more.push(build::and_tail(place, operand))?;
            closed = still;
            rest = after;
        }
        Ok((closed, rest))
    }

    // The chain of `&` that has begun with this operand.
    fn ands(
        &self,
        first: Boxed<RawUnary>,
        ends: bool,
        items: &'a [Item<'a>],
    ) -> Chained<'a, Boxed<RawAnd>>
        requires nests { Readers self.now.left (F.pre self.now.formula) (F.post self.now.formula)
            (G.pre self.now.content) (G.post self.now.content) (H.pre self.now.term) (H.post self.now.term) }
        requires fewer { length items.now ≤ self.now.left }
        ensures reads { UnaryIs (put_unary (unary_view first) (toks items.now)) (unary_view first) ends (toks items.now)
            → AndRead (put_unary (unary_view first) (toks items.now)) self.now.end result }
        ensures kind { IfOk result (λ p. app_and (and_view p.0) ≡ true → app_unary (unary_view first) ≡ true) }
        ensures shorter { IfOk result (λ p. length p.2.now ≤ length items.now) }
    {
        let mut more = Items::new(self.alloc);
        let (closed, rest) = self.more_ands(&mut more, ends, items)?;
        let chain = build::and(self.alloc, first.into_inner(), more)?;
        Ok((chain, closed, rest))
    }

    // An operand of `|`.
    fn conjunction(&self, items: &'a [Item<'a>]) -> Chained<'a, Boxed<RawAnd>>
        requires nests { Readers self.now.left (F.pre self.now.formula) (F.post self.now.formula)
            (G.pre self.now.content) (G.post self.now.content) (H.pre self.now.term) (H.post self.now.term) }
        requires fewer { length items.now ≤ self.now.left }
        ensures reads { ConjunctionRead (toks items.now) self.now.end result }
        ensures shorter { IfOk result (λ p. length p.2.now ≤ length items.now) }
    {
        let (first, closed, rest) = self.unary(items)?;
        self.ands(first, closed, rest)
    }

    // The further operands of a chain of `|`.
    fn more_ors(
        &self,
        more: &mut Items<RawOrTail>,
        ends: bool,
        items: &'a [Item<'a>],
    ) -> Found<'a, bool>
        requires nests { Readers self.now.left (F.pre self.now.formula) (F.post self.now.formula)
            (G.pre self.now.content) (G.post self.now.content) (H.pre self.now.term) (H.post self.now.term) }
        requires fewer { length items.now ≤ self.now.left }
        ensures reads { (ts : List Tok) (a : tree.And) → OrsAre ts (or_of a (map or_tail_view more.old)) ends
            (toks items.now)
            → MoreOrs ts a (map or_tail_view more.new) self.now.end result }
        ensures shorter { IfOk result (λ p. length p.1.now ≤ length items.now) }
    {
        let (_count, mut rest) = start(items);
        let mut closed = ends;
        while let Some((place, after)) = skip_connective(Terminal::Or, closed, rest) {
            let (operand, still, after) = self.conjunction(after)?;
            more.push(build::or_tail(place, operand))?;
            closed = still;
            rest = after;
        }
        Ok((closed, rest))
    }

    // The chain of `|` that has begun with this operand.
    fn ors(
        &self,
        first: Boxed<RawUnary>,
        ends: bool,
        items: &'a [Item<'a>],
    ) -> Chained<'a, Boxed<RawOr>>
        requires nests { Readers self.now.left (F.pre self.now.formula) (F.post self.now.formula)
            (G.pre self.now.content) (G.post self.now.content) (H.pre self.now.term) (H.post self.now.term) }
        requires fewer { length items.now ≤ self.now.left }
        ensures reads { UnaryIs (put_unary (unary_view first) (toks items.now)) (unary_view first) ends (toks items.now)
            → OrRead (put_unary (unary_view first) (toks items.now)) self.now.end result }
        ensures kind { IfOk result (λ p. app_or (or_view p.0) ≡ true → app_unary (unary_view first) ≡ true) }
        ensures shorter { IfOk result (λ p. length p.2.now ≤ length items.now) }
    {
        let (and, closed, rest) = self.ands(first, ends, items)?;
        let mut more = Items::new(self.alloc);
        let (closed, rest) = self.more_ors(&mut more, closed, rest)?;
        let chain = build::or(self.alloc, and.into_inner(), more)?;
        Ok((chain, closed, rest))
    }

    // An operand of an arrow.
    fn disjunction(&self, items: &'a [Item<'a>]) -> Chained<'a, Boxed<RawOr>>
        requires nests { Readers self.now.left (F.pre self.now.formula) (F.post self.now.formula)
            (G.pre self.now.content) (G.post self.now.content) (H.pre self.now.term) (H.post self.now.term) }
        requires fewer { length items.now ≤ self.now.left }
        ensures reads { DisjunctionRead (toks items.now) self.now.end result }
        ensures shorter { IfOk result (λ p. length p.2.now ≤ length items.now) }
    {
        let (first, closed, rest) = self.unary(items)?;
        self.ors(first, closed, rest)
    }

    // The further operands of a chain of this arrow.
    fn more_links(
        &self,
        more: &mut Items<RawLink>,
        arrow: Arrow,
        ends: bool,
        items: &'a [Item<'a>],
    ) -> Result<&'a [Item<'a>], ReadError>
        requires nests { Readers self.now.left (F.pre self.now.formula) (F.post self.now.formula)
            (G.pre self.now.content) (G.post self.now.content) (H.pre self.now.term) (H.post self.now.term) }
        requires fewer { length items.now ≤ self.now.left }
        ensures reads { (ts : List Tok) (o : tree.Or) (x : ℕ × tree.Or)
            → LinksAre ts (formula_of arrow o (x ∷ map link_view more.old)) ends (toks items.now)
            → MoreLinks ts arrow o (x ∷ map link_view more.new) self.now.end result }
        ensures shorter { IfOk result (λ r. length r.now ≤ length items.now) }
    {
        let (_count, mut rest) = start(items);
        let mut closed = ends;
        while let Some((place, after)) = skip_connective(Terminal::Arrow(arrow), closed, rest) {
            let (operand, still, after) = self.disjunction(after)?;
            more.push(build::link(place, operand))?;
            closed = still;
            rest = after;
        }
        Ok(rest)
    }

    // The chain of this arrow, which stands at this place after its first operand; the second one is next.
    fn chained(
        &self,
        first: Boxed<RawOr>,
        arrow: Arrow,
        place: usize,
        items: &'a [Item<'a>],
    ) -> Found<'a, Boxed<RawFormula>>
        requires nests { Readers self.now.left (F.pre self.now.formula) (F.post self.now.formula)
            (G.pre self.now.content) (G.post self.now.content) (H.pre self.now.term) (H.post self.now.term) }
        requires fewer { length items.now ≤ self.now.left }
        ensures reads { (ts : List Tok) → OrIs ts (or_view first) true (sign (t.Arrow arrow) place ∷ toks items.now)
            → LinkedRead ts self.now.end result }
        ensures kind { IfOk result (λ p. app_formula (formula_view p.0) ≡ false) }
        ensures shorter { IfOk result (λ p. length p.1.now ≤ length items.now) }
    {
        let (operand, closed, rest) = self.disjunction(items)?;
        let next = build::link(place, operand);
        let mut more = Items::new(self.alloc);
        let last = self.more_links(&mut more, arrow, closed, rest)?;
        let chain = build::linked(self.alloc, arrow, first.into_inner(), next, more)?;
        Ok((chain, last))
    }

    // The formula that has begun with this operand.
    fn linked(
        &self,
        first: Boxed<RawUnary>,
        ends: bool,
        items: &'a [Item<'a>],
    ) -> Found<'a, Boxed<RawFormula>>
        requires nests { Readers self.now.left (F.pre self.now.formula) (F.post self.now.formula)
            (G.pre self.now.content) (G.post self.now.content) (H.pre self.now.term) (H.post self.now.term) }
        requires fewer { length items.now ≤ self.now.left }
        ensures reads { UnaryIs (put_unary (unary_view first) (toks items.now)) (unary_view first) ends (toks items.now)
            → LinkedRead (put_unary (unary_view first) (toks items.now)) self.now.end result }
        ensures kind { IfOk result (λ p. app_formula (formula_view p.0) ≡ true → app_unary (unary_view first) ≡ true) }
        ensures shorter { IfOk result (λ p. length p.1.now ≤ length items.now) }
    {
        let (or, closed, rest) = self.ors(first, ends, items)?;
        let Some((arrow, place, after)) = after_arrow(closed, rest) else {
            let lone = build::alone(self.alloc, or.into_inner())?;
            return Ok((lone, rest));
        };
        self.chained(or, arrow, place, after)
    }

    /// A formula.
    pub fn whole_formula(&self, items: &'a [Item<'a>]) -> Found<'a, Boxed<RawFormula>>
        requires nests { Readers self.now.left (F.pre self.now.formula) (F.post self.now.formula)
            (G.pre self.now.content) (G.post self.now.content) (H.pre self.now.term) (H.post self.now.term) }
        requires fewer { length items.now ≤ self.now.left }
        ensures reads { FormulaRead (toks items.now) self.now.end result }
        ensures shorter { IfOk result (λ p. length p.1.now ≤ length items.now) }
    {
        let (first, closed, rest) = self.unary(items)?;
        self.linked(first, closed, rest)
    }

    /// What stands in brackets: a formula, a term, or what may be both.
    pub fn whole_content(&self, items: &'a [Item<'a>]) -> Found<'a, Content>
        requires nests { Readers self.now.left (F.pre self.now.formula) (F.post self.now.formula)
            (G.pre self.now.content) (G.post self.now.content) (H.pre self.now.term) (H.post self.now.term) }
        requires fewer { length items.now ≤ self.now.left }
        ensures reads { ContentRead (toks items.now) self.now.end result }
        ensures shorter { IfOk result (λ p. length p.1.now ≤ length items.now) }
    {
        let (found, rest) = self.operand(items)?;
        match found {
            Operand::Term(term) => Ok((Content::Term(term), rest)),
            Operand::Formula(first, closed) => {
                let (formula, last) = self.linked(first, closed, rest)?;
                Ok((Content::Formula(formula), last))
            }
            Operand::Either(app, pairs) => {
                if !connects(rest) {
                    return Ok((Content::Either(app, pairs), rest));
                }
                let inside = wrapped(self.alloc, app, pairs)?;
                let first = build::prim(self.alloc, inside)?;
                let (formula, last) = self.linked(first, true, rest)?;
                Ok((Content::Formula(formula), last))
            }
        }
    }
}
