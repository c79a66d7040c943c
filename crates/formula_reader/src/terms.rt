//! Terms, and the parts of them.
ghost use Rattle.std.specs.Prelude.{◌≡◌, ◌∷◌, ◌≤◌, ◌<◌, ℕ, List, length, map, IfOk};
ghost use Rattle.grammar.specs.Terminals.{Tok, toks, tok_at, word, sign};
ghost use Rattle.grammar.specs.Trees.{Name, Formula, Term, Product, Factor};
ghost use Rattle.grammar.specs.declared.terminal.Aggregation.{Aggregation};
ghost use Rattle.token_reader.specs.Machine.{fresh};
ghost use Rattle.grammar.specs.Spelling.{put_name, put_term, put_product, put_factor, put_terms};
ghost use Rattle.grammar.specs.Fine.{FineTerm, FineProduct, FineFactor, FineTerms};
ghost use Rattle.grammar.specs.View.{name_view, factor_view, product_tail_view, sum_tail_view, terms_tail_view};
ghost use Rattle.grammar.specs.View.{product_of, term_of, terms_of};
ghost use Rattle.token_reader.specs.Signs.{next, No};
ghost use Rattle.token_reader.specs.Parts.{EndsFactor, EndsTerm};
ghost use Rattle.grammar.specs.declared.terminal.Adding.TheVariants.{Minus};
ghost use Rattle.formula_reader.specs.Chains.{MoreFactors, MoreProducts, MoreTerms, ListedRead};
ghost use Rattle.formula_reader.specs.Results.{Readers, Opening, put_opening, FormulaIs, WeighedRead, ArgumentsRead};
ghost use Rattle.formula_reader.specs.Results.{OpeningRead, UnsignedRead, BareRead, put_minuses, FactorRead};
ghost use Rattle.formula_reader.specs.Results.{ProductRead, SumRead, TermRead, negatives};
ghost use Rattle.grammar.specs.declared.terminal.Terminal.TheVariants as t;

use crate::expressions::Reader;
use crate::kinds::Content;
use grammar::{
    Adding, Aggregation, Item, RawApp, RawFactor, RawFormula, RawName, RawOpening, RawProduct,
    RawProductTail, RawSumTail, RawTermTree, RawTerms, RawTermsTail, ReadError, Terminal,
};
use sqlite_items::{Boxed, Items};
use std::alloc::{AllocError, Global};
use token_reader::binders::binder;
use token_reader::build;
use token_reader::cursor::{Found, after_add, sealed, sign, skip, split, start};

// How an aggregate begins, after its word or `#`.
fn opening<'a>(
    alloc: Global,
    place: usize,
    items: &'a [Item<'a>],
    end: usize,
) -> Found<'a, RawOpening>
    ensures reads { OpeningRead place (toks items.now) end result }
    ensures shorter { IfOk result (λ p. length p.1.now < length items.now) }
{
    let (brace, rest) = sign(Terminal::OpenBrace, items, end)?;
    let (vars, colon, last) = binder(alloc, rest, end)?;
    let opening = RawOpening {
        place,
        brace,
        vars,
        colon,
    };
    Ok((opening, last))
}

// The signs before a factor, the outermost first.
fn minuses<'a>(
    signs: &mut Items<usize>,
    items: &'a [Item<'a>],
) -> Result<&'a [Item<'a>], AllocError>
    ensures reads { IfOk result (λ r. put_minuses signs.old (toks items.now) ≡ put_minuses signs.new (toks r.now)) }
    ensures ends { IfOk result (λ r. No (t.Add Minus) (next (toks r.now))) }
    ensures shorter { IfOk result (λ r. length r.now ≤ length items.now) }
{
    let (_count, mut rest) = start(items);
    while let Some((place, after)) = skip(Terminal::Add(Adding::Minus), rest) {
        signs.push(place)?;
        rest = after;
    }
    Ok(rest)
}

// The factor after these signs, the outermost first.
fn signed(
    alloc: Global,
    mut signs: Items<usize>,
    first: Boxed<RawFactor>,
) -> Result<Boxed<RawFactor>, AllocError>
    ensures { IfOk result (λ x. factor_view x ≡ negatives signs (factor_view first)) }
{
    let mut found = first;
    while let Some(place) = signs.pop() {
        found = build::negative(alloc, place, found)?;
    }
    Ok(found)
}

impl<
    'a,
    F: Fn(Global, &'a [Item<'a>], usize) -> Found<'a, Boxed<RawFormula>>,
    G: Fn(Global, &'a [Item<'a>], usize) -> Found<'a, Content>,
    H: Fn(Global, &'a [Item<'a>], usize) -> Found<'a, Boxed<RawTermTree>>,
> Reader<F, G, H> {
    // The further terms of a list in brackets, and the place of the closing bracket.
    fn more_terms(&self, more: &mut Items<RawTermsTail>, items: &'a [Item<'a>]) -> Found<'a, usize>
        requires nests { Readers self.now.left (F.pre self.now.formula) (F.post self.now.formula)
            (G.pre self.now.content) (G.post self.now.content) (H.pre self.now.term) (H.post self.now.term) }
        requires fewer { length items.now ≤ self.now.left }
        requires ends { EndsTerm (toks items.now) }
        ensures reads { (n : Name) (ts : List Tok) (start : ℕ) (x : Term)
            → ts ≡ sign t.Open start ∷ put_terms (terms_of x (map terms_tail_view more.old)) (toks items.now)
            → FineTerms (terms_of x (map terms_tail_view more.old))
            → MoreTerms n ts start x (map terms_tail_view more.new) self.now.end result }
        ensures shorter { IfOk result (λ p. length p.1.now ≤ length items.now) }
    {
        let (_count, mut rest) = start(items);
        while let Some((place, after)) = skip(Terminal::Comma, rest) {
            let (operand, after) = self.term(after)?;
            more.push(build::terms_tail(place, operand))?;
            rest = after;
        }
        sign(Terminal::Close, rest, self.end)
    }

    // The terms of a list in brackets, which is not empty, and the place of the closing bracket.
    fn listed(&self, items: &'a [Item<'a>]) -> Result<(RawTerms, usize, &'a [Item<'a>]), ReadError>
        requires nests { Readers self.now.left (F.pre self.now.formula) (F.post self.now.formula)
            (G.pre self.now.content) (G.post self.now.content) (H.pre self.now.term) (H.post self.now.term) }
        requires fewer { length items.now < self.now.left }
        ensures reads { (n : Name) (start : ℕ) → No t.Close (next (toks items.now))
            → ListedRead n (sign t.Open start ∷ toks items.now) start self.now.end result }
        ensures shorter { IfOk result (λ p. length p.2.now ≤ length items.now) }
    {
        let (first, rest) = self.term(items)?;
        let mut more = Items::new(self.alloc);
        let (place, last) = self.more_terms(&mut more, rest)?;
        Ok((build::terms(first.into_inner(), more), place, last))
    }

    /// The arguments after a word, if it has any.
    #[tactic(auto, using(token_reader::proofs::Signs::no_open))]
    pub fn arguments(&self, name: RawName, items: &'a [Item<'a>]) -> Found<'a, Boxed<RawApp>>
        requires nests { Readers self.now.left (F.pre self.now.formula) (F.post self.now.formula)
            (G.pre self.now.content) (G.post self.now.content) (H.pre self.now.term) (H.post self.now.term) }
        requires fewer { length items.now < self.now.left }
        ensures reads { ArgumentsRead (put_name (name_view name) (toks items.now)) self.now.end result }
        ensures shorter { IfOk result (λ p. length p.1.now ≤ length items.now) }
    {
        let Some((begin, rest)) = skip(Terminal::Open, items) else {
            return Ok((build::constant(self.alloc, name)?, items));
        };
        if let Some((place, last)) = skip(Terminal::Close, rest) {
            return Ok((build::empty(self.alloc, name, begin, place)?, last));
        }
        let (terms, place, last) = self.listed(rest)?;
        Ok((build::apply(self.alloc, name, begin, terms, place)?, last))
    }

    fn brackets(&self, begin: usize, items: &'a [Item<'a>]) -> Found<'a, Boxed<RawFactor>>
        requires nests { Readers self.now.left (F.pre self.now.formula) (F.post self.now.formula)
            (G.pre self.now.content) (G.post self.now.content) (H.pre self.now.term) (H.post self.now.term) }
        requires fewer { length items.now < self.now.left }
        ensures reads { UnsignedRead (sign t.Open begin ∷ toks items.now) self.now.end result }
        ensures shorter { IfOk result (λ p. length p.1.now ≤ length items.now) }
    {
        let (inner, rest) = self.term(items)?;
        let (place, last) = sign(Terminal::Close, rest, self.end)?;
        Ok((build::brackets(self.alloc, begin, inner, place)?, last))
    }

    fn count(&self, place: usize, items: &'a [Item<'a>]) -> Found<'a, Boxed<RawFactor>>
        requires nests { Readers self.now.left (F.pre self.now.formula) (F.post self.now.formula)
            (G.pre self.now.content) (G.post self.now.content) (H.pre self.now.term) (H.post self.now.term) }
        requires fewer { length items.now < self.now.left }
        ensures reads { UnsignedRead (sign t.Count place ∷ toks items.now) self.now.end result }
        ensures shorter { IfOk result (λ p. length p.1.now ≤ length items.now) }
    {
        let (head, rest) = opening(self.alloc, place, items, self.end)?;
        let (inner, rest) = self.formula(rest)?;
        let (brace, last) = sign(Terminal::CloseBrace, rest, self.end)?;
        Ok((build::count(self.alloc, head, inner, brace)?, last))
    }

    // The colon of an aggregate, its term and its closing brace, with the places of both signs.
    fn weighed(
        &self,
        items: &'a [Item<'a>],
    ) -> Result<(usize, Boxed<RawTermTree>, usize, &'a [Item<'a>]), ReadError>
        requires nests { Readers self.now.left (F.pre self.now.formula) (F.post self.now.formula)
            (G.pre self.now.content) (G.post self.now.content) (H.pre self.now.term) (H.post self.now.term) }
        requires fewer { length items.now < self.now.left }
        ensures reads { (how : Aggregation) (place : ℕ) (o : Opening) (f : Formula) (ts us : List Tok)
            → ts ≡ put_opening o us
            → FormulaIs us fresh f (toks items.now) → WeighedRead (sign (t.Aggregate how) place ∷ ts)
            (toks items.now) self.now.end result }
        ensures shorter { IfOk result (λ p. length p.3.now ≤ length items.now) }
    {
        let (second, rest) = sign(Terminal::Colon, items, self.end)?;
        let (of, rest) = self.term(rest)?;
        let (brace, last) = sign(Terminal::CloseBrace, rest, self.end)?;
        Ok((second, of, brace, last))
    }

    fn aggregate(
        &self,
        how: Aggregation,
        place: usize,
        items: &'a [Item<'a>],
    ) -> Found<'a, Boxed<RawFactor>>
        requires nests { Readers self.now.left (F.pre self.now.formula) (F.post self.now.formula)
            (G.pre self.now.content) (G.post self.now.content) (H.pre self.now.term) (H.post self.now.term) }
        requires fewer { length items.now < self.now.left }
        ensures reads { UnsignedRead (sign (t.Aggregate how) place ∷ toks items.now) self.now.end result }
        ensures shorter { IfOk result (λ p. length p.1.now ≤ length items.now) }
    {
        let (head, rest) = opening(self.alloc, place, items, self.end)?;
        let (inner, rest) = self.formula(rest)?;
        let (second, of, brace, last) = self.weighed(rest)?;
        let found = build::aggregate(self.alloc, how, head, inner, second, of, brace)?;
        Ok((found, last))
    }

    fn valued(
        &self,
        text: &[u8],
        place: usize,
        items: &'a [Item<'a>],
    ) -> Found<'a, Boxed<RawFactor>>
        requires nests { Readers self.now.left (F.pre self.now.formula) (F.post self.now.formula)
            (G.pre self.now.content) (G.post self.now.content) (H.pre self.now.term) (H.post self.now.term) }
        requires fewer { length items.now < self.now.left }
        ensures reads { UnsignedRead (tok_at (word text.now) place ∷ toks items.now) self.now.end result }
        ensures shorter { IfOk result (λ p. length p.1.now ≤ length items.now) }
    {
        let name = build::named(self.alloc, text, place)?;
        let (app, last) = self.arguments(name, items)?;
        Ok((build::value(self.alloc, app)?, last))
    }

    fn unsigned(&self, items: &'a [Item<'a>]) -> Found<'a, Boxed<RawFactor>>
        requires nests { Readers self.now.left (F.pre self.now.formula) (F.post self.now.formula)
            (G.pre self.now.content) (G.post self.now.content) (H.pre self.now.term) (H.post self.now.term) }
        requires fewer { length items.now ≤ self.now.left }
        requires unsigned { No (t.Add Minus) (next (toks items.now)) }
        ensures reads { UnsignedRead (toks items.now) self.now.end result }
        ensures shorter { IfOk result (λ p. length p.1.now ≤ length items.now) }
    {
        let Some((item, rest)) = split(items) else {
            return Err(ReadError::Stuck(self.end));
        };
        match item.terminal {
            Terminal::Integer(number) => {
                Ok((build::integer(self.alloc, number, item.place)?, rest))
            }
            Terminal::Word => self.valued(item.text, item.place, rest),
            Terminal::Open => self.brackets(item.place, rest),
            Terminal::Count => self.count(item.place, rest),
            Terminal::Aggregate(how) => self.aggregate(how, item.place, rest),
            _ => Err(ReadError::Stuck(item.place)),
        }
    }

    // A factor without `-` before it, after which no arguments stand but those that it has.
    fn bare(&self, items: &'a [Item<'a>]) -> Found<'a, Boxed<RawFactor>>
        requires nests { Readers self.now.left (F.pre self.now.formula) (F.post self.now.formula)
            (G.pre self.now.content) (G.post self.now.content) (H.pre self.now.term) (H.post self.now.term) }
        requires fewer { length items.now ≤ self.now.left }
        requires unsigned { No (t.Add Minus) (next (toks items.now)) }
        ensures reads { (ps : List ℕ) (ts : List Tok) → ts ≡ put_minuses ps (toks items.now)
            → BareRead ps ts self.now.end result }
        ensures shorter { IfOk result (λ p. length p.1.now ≤ length items.now) }
    {
        let (found, last) = self.unsigned(items)?;
        sealed(last)?;
        Ok((found, last))
    }

    /// A factor.
    pub fn factor(&self, items: &'a [Item<'a>]) -> Found<'a, Boxed<RawFactor>>
        requires nests { Readers self.now.left (F.pre self.now.formula) (F.post self.now.formula)
            (G.pre self.now.content) (G.post self.now.content) (H.pre self.now.term) (H.post self.now.term) }
        requires fewer { length items.now ≤ self.now.left }
        ensures reads { FactorRead (toks items.now) self.now.end result }
        ensures shorter { IfOk result (λ p. length p.1.now ≤ length items.now) }
    {
        let mut signs = Items::new(self.alloc);
        let rest = minuses(&mut signs, items)?;
        let (found, last) = self.bare(rest)?;
        Ok((signed(self.alloc, signs, found)?, last))
    }

    // The further factors of a product.
    fn more_factors(
        &self,
        more: &mut Items<RawProductTail>,
        items: &'a [Item<'a>],
    ) -> Result<&'a [Item<'a>], ReadError>
        requires nests { Readers self.now.left (F.pre self.now.formula) (F.post self.now.formula)
            (G.pre self.now.content) (G.post self.now.content) (H.pre self.now.term) (H.post self.now.term) }
        requires fewer { length items.now ≤ self.now.left }
        requires ends { EndsFactor (toks items.now) }
        ensures reads { (ts : List Tok) (x : Factor)
            → ts ≡ put_product (product_of x (map product_tail_view more.old)) (toks items.now)
            → FineProduct (product_of x (map product_tail_view more.old))
            → MoreFactors ts x (map product_tail_view more.new) self.now.end result }
        ensures shorter { IfOk result (λ r. length r.now ≤ length items.now) }
    {
        let (_count, mut rest) = start(items);
        while let Some((place, after)) = skip(Terminal::Times, rest) {
            let (operand, after) = self.factor(after)?;
            more.push(build::product_tail(place, operand))?;
            rest = after;
        }
        Ok(rest)
    }

    fn multiplied(
        &self,
        first: Boxed<RawFactor>,
        items: &'a [Item<'a>],
    ) -> Found<'a, Boxed<RawProduct>>
        requires nests { Readers self.now.left (F.pre self.now.formula) (F.post self.now.formula)
            (G.pre self.now.content) (G.post self.now.content) (H.pre self.now.term) (H.post self.now.term) }
        requires fewer { length items.now ≤ self.now.left }
        requires fine { FineFactor (factor_view first) }
        requires ends { EndsFactor (toks items.now) }
        ensures reads { ProductRead (put_factor (factor_view first) (toks items.now)) self.now.end result }
        ensures shorter { IfOk result (λ p. length p.1.now ≤ length items.now) }
    {
        let mut more = Items::new(self.alloc);
        let rest = self.more_factors(&mut more, items)?;
        let chain = build::product(self.alloc, first.into_inner(), more)?;
        Ok((chain, rest))
    }

    // The further products of a sum.
    fn more_products(
        &self,
        more: &mut Items<RawSumTail>,
        items: &'a [Item<'a>],
    ) -> Result<&'a [Item<'a>], ReadError>
        requires nests { Readers self.now.left (F.pre self.now.formula) (F.post self.now.formula)
            (G.pre self.now.content) (G.post self.now.content) (H.pre self.now.term) (H.post self.now.term) }
        requires fewer { length items.now ≤ self.now.left }
        requires ends { EndsFactor (toks items.now) }
        requires no_times { No t.Times (next (toks items.now)) }
        ensures reads { (ts : List Tok) (x : Product)
            → ts ≡ put_term (term_of x (map sum_tail_view more.old)) (toks items.now)
            → FineTerm (term_of x (map sum_tail_view more.old))
            → MoreProducts ts x (map sum_tail_view more.new) self.now.end result }
        ensures shorter { IfOk result (λ r. length r.now ≤ length items.now) }
    {
        let (_count, mut rest) = start(items);
        while let Some((sign, place, after)) = after_add(rest) {
            let (factor, after) = self.factor(after)?;
            let (operand, after) = self.multiplied(factor, after)?;
            more.push(build::sum_tail(sign, place, operand))?;
            rest = after;
        }
        Ok(rest)
    }

    /// The term that has begun with this factor.
    pub fn summed(
        &self,
        first: Boxed<RawFactor>,
        items: &'a [Item<'a>],
    ) -> Found<'a, Boxed<RawTermTree>>
        requires nests { Readers self.now.left (F.pre self.now.formula) (F.post self.now.formula)
            (G.pre self.now.content) (G.post self.now.content) (H.pre self.now.term) (H.post self.now.term) }
        requires fewer { length items.now ≤ self.now.left }
        requires fine { FineFactor (factor_view first) }
        requires ends { EndsFactor (toks items.now) }
        ensures reads { SumRead (put_factor (factor_view first) (toks items.now)) self.now.end result }
        ensures shorter { IfOk result (λ p. length p.1.now ≤ length items.now) }
    {
        let (product, rest) = self.multiplied(first, items)?;
        let mut more = Items::new(self.alloc);
        let last = self.more_products(&mut more, rest)?;
        let chain = build::term(self.alloc, product.into_inner(), more)?;
        Ok((chain, last))
    }

    /// A term.
    pub fn whole_term(&self, items: &'a [Item<'a>]) -> Found<'a, Boxed<RawTermTree>>
        requires nests { Readers self.now.left (F.pre self.now.formula) (F.post self.now.formula)
            (G.pre self.now.content) (G.post self.now.content) (H.pre self.now.term) (H.post self.now.term) }
        requires fewer { length items.now ≤ self.now.left }
        ensures reads { TermRead (toks items.now) self.now.end result }
        ensures shorter { IfOk result (λ p. length p.1.now ≤ length items.now) }
    {
        let (first, rest) = self.factor(items)?;
        self.summed(first, rest)
    }
}
