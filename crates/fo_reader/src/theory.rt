//! The theory, and the term in a block of its own.
ghost use Rattle.std.specs.Prelude.{◌≡◌, ◌∷◌, ◌≤◌, ◌<◌, length, map, IfOk};
ghost use Rattle.std.specs.Option.{option_map};
ghost use Rattle.grammar.specs.BlockTrees as tree;
ghost use Rattle.grammar.specs.BlockView.{binding_view, body_view, head_view, rule_view};
ghost use Rattle.grammar.specs.Terminals.{toks};
ghost use Rattle.grammar.specs.Terminals as terminals;
ghost use Rattle.fo_reader.specs.TheoryReads.{BindingsRead, BodyRead, ClauseRead, EndedRead, HeadRead, RuleRead};
ghost use Rattle.fo_reader.specs.TheoryReads.{RulesRead, StopRead, TermBlockRead, TheoryItemRead, TheoryItemsRead};
ghost use Rattle.fo_reader.specs.TheoryReads.{TheoryRead};
ghost use Rattle.grammar.specs.declared.terminal.Terminal.TheVariants as t;
ghost use Rattle.grammar.specs.declared.terminal.Outer.TheVariants as o;

use crate::block_formulas::{application, inner_term, statement};
use block_reader::block_ends::{closes, head_ends};
use block_reader::structure::header;
use grammar::{
    Comparison, Item, Outer, RawBinder, RawBody, RawDefinition, RawHead, RawRule, RawSentence,
    RawTerm, RawTheory, RawTheoryItem, Terminal,
};
use sqlite_items::Items;
use std::alloc::Global;
use token_reader::binders::binder;
use token_reader::cursor::{Found, sign, skip, start};

// A body and the place of the full stop after it, and a head before them.
type Ended = (Option<RawBody>, usize);

type Clause = (RawHead, Ended);

// The variables before a rule.
fn bindings<'a>(alloc: Global, items: &'a [Item<'a>], end: usize) -> Found<'a, Items<RawBinder>>
    ensures reads { BindingsRead (toks items.now) end result }
    ensures shorter { IfOk result (λ p. length p.1.now ≤ length items.now) }
{
    let (_count, mut rest) = start(items);
    let mut found = Items::new(alloc);
    while let Some((place, behind)) = skip(Terminal::Every, rest) {
        let (vars, colon, last) = binder(alloc, behind, end)?;
        found.push(RawBinder { place, vars, colon })?;
        rest = last;
    }
    Ok((found, rest))
}

// A head, with its body or the end of the rule ahead.
fn head<'a>(alloc: Global, items: &'a [Item<'a>], end: usize) -> Found<'a, RawHead>
    ensures reads { HeadRead (toks items.now) end result }
    ensures shorter { IfOk result (λ p. length p.1.now < length items.now) }
{
    let (app, rest) = application(alloc, items, end)?;
    let Some((place, behind)) = skip(Terminal::Compare(Comparison::Equal), rest) else {
        head_ends(rest, end)?;
        return Ok((RawHead::Atom(app), rest));
    };
    let (value, last) = inner_term(alloc, behind, end)?;
    head_ends(last, end)?;
    Ok((RawHead::Value(app, place, value), last))
}

// The body, if there is one, with the full stop ahead.
fn body<'a>(alloc: Global, items: &'a [Item<'a>], end: usize) -> Found<'a, Option<RawBody>>
    ensures reads { BodyRead (toks items.now) end result }
    ensures shorter { IfOk result (λ p. length p.1.now ≤ length items.now) }
{
    let Some((place, behind)) = skip(Terminal::Outer(Outer::If), items) else {
        let (_dot, _last) = sign(Terminal::Outer(Outer::Dot), items, end)?;
        return Ok((None, items));
    };
    if let Some((_dot, _last)) = skip(Terminal::Outer(Outer::Dot), behind) {
        let formula = None;
        return Ok((Some(RawBody { place, formula }), behind));
    }
    let (found, rest) = statement(alloc, behind, end)?;
    let formula = Some(found);
    Ok((Some(RawBody { place, formula }), rest))
}

// The body, if there is one, and the full stop.
fn ended<'a>(alloc: Global, items: &'a [Item<'a>], end: usize) -> Found<'a, Ended>
    ensures reads { EndedRead (toks items.now) end result }
    ensures shorter { IfOk result (λ p. length p.1.now < length items.now) }
{
    let (found, rest) = body(alloc, items, end)?;
    let (dot, last) = sign(Terminal::Outer(Outer::Dot), rest, end)?;
    Ok(((found, dot), last))
}

// A rule without its variables.
fn clause<'a>(alloc: Global, items: &'a [Item<'a>], end: usize) -> Found<'a, Clause>
    ensures reads { ClauseRead (toks items.now) end result }
    ensures shorter { IfOk result (λ p. length p.1.now < length items.now) }
{
    let (found, rest) = head(alloc, items, end)?;
    let (tail, last) = ended(alloc, rest, end)?;
    Ok(((found, tail), last))
}

fn ruled(binders: Items<RawBinder>, of: Clause) -> RawRule
    ensures { rule_view result ≡ tree.rule (map binding_view binders) (head_view of.0)
        (option_map body_view of.1.0) of.1.1 }
{
    let (head, tail) = of;
    let (body, dot) = tail;
    RawRule {
        binders,
        head,
        body,
        dot,
    }
}

// A rule.
fn rule<'a>(alloc: Global, items: &'a [Item<'a>], end: usize) -> Found<'a, RawRule>
    ensures reads { RuleRead (toks items.now) end result }
    ensures shorter { IfOk result (λ p. length p.1.now < length items.now) }
{
    let (binders, rest) = bindings(alloc, items, end)?;
    let (found, last) = clause(alloc, rest, end)?;
    Ok((ruled(binders, found), last))
}

// Rules up to the closing brace.
fn rules<'a>(alloc: Global, items: &'a [Item<'a>], end: usize) -> Found<'a, Items<RawRule>>
    ensures reads { RulesRead (toks items.now) end result }
    ensures shorter { IfOk result (λ p. length p.1.now ≤ length items.now) }
{
    let (_count, mut rest) = start(items);
    let mut found = Items::new(alloc);
    'rules: while !closes(rest) {
        let (next, last) = rule(alloc, rest, end)?;
        found.push(next)?;
        rest = last;
    }
    Ok((found, rest))
}

// A definition, after its brace.
fn definition<'a>(
    alloc: Global,
    begin: usize,
    items: &'a [Item<'a>],
    end: usize,
) -> Found<'a, RawTheoryItem>
    ensures reads { TheoryItemRead (terminals.sign t.OpenBrace begin ∷ toks items.now) end result }
    ensures shorter { IfOk result (λ p. length p.1.now ≤ length items.now) }
{
    let (rules, rest) = rules(alloc, items, end)?;
    let (close, last) = sign(Terminal::CloseBrace, rest, end)?;
    let found = RawDefinition {
        open: begin,
        rules,
        close,
    };
    Ok((RawTheoryItem::Definition(found), last))
}

// A sentence or a definition.
fn theory_item<'a>(alloc: Global, items: &'a [Item<'a>], end: usize) -> Found<'a, RawTheoryItem>
    ensures reads { TheoryItemRead (toks items.now) end result }
    ensures shorter { IfOk result (λ p. length p.1.now < length items.now) }
{
    if let Some((begin, behind)) = skip(Terminal::OpenBrace, items) {
        return definition(alloc, begin, behind, end);
    }
    let (formula, rest) = statement(alloc, items, end)?;
    let (dot, last) = sign(Terminal::Outer(Outer::Dot), rest, end)?;
    Ok((RawTheoryItem::Sentence(RawSentence { formula, dot }), last))
}

// Sentences and definitions up to the closing brace.
fn theory_items<'a>(
    alloc: Global,
    items: &'a [Item<'a>],
    end: usize,
) -> Found<'a, Items<RawTheoryItem>>
    ensures reads { TheoryItemsRead (toks items.now) end result }
    ensures shorter { IfOk result (λ p. length p.1.now ≤ length items.now) }
{
    let (_count, mut rest) = start(items);
    let mut found = Items::new(alloc);
    'items: while !closes(rest) {
        let (next, last) = theory_item(alloc, rest, end)?;
        found.push(next)?;
        rest = last;
    }
    Ok((found, rest))
}

/// A theory, after its word.
pub fn theory<'a>(
    alloc: Global,
    place: usize,
    items: &'a [Item<'a>],
    end: usize,
) -> Found<'a, RawTheory>
    ensures reads { TheoryRead (terminals.sign (t.Outer o.Theory) place ∷ toks items.now) end result }
    ensures shorter { IfOk result (λ p. length p.1.now ≤ length items.now) }
{
    let (header, rest) = header(alloc, Outer::Theory, place, items, end)?;
    let (items, rest) = theory_items(alloc, rest, end)?;
    let (close, last) = sign(Terminal::CloseBrace, rest, end)?;
    let found = RawTheory {
        header,
        items,
        close,
    };
    Ok((found, last))
}

// The full stop after a term, if there is one, with the closing brace ahead.
fn stop<'a>(items: &'a [Item<'a>], end: usize) -> Found<'a, Option<usize>>
    ensures reads { StopRead (toks items.now) end result }
    ensures shorter { IfOk result (λ p. length p.1.now ≤ length items.now) }
{
    let Some((dot, behind)) = skip(Terminal::Outer(Outer::Dot), items) else {
        let (_close, _last) = sign(Terminal::CloseBrace, items, end)?;
        return Ok((None, items));
    };
    let (_close, _last) = sign(Terminal::CloseBrace, behind, end)?;
    Ok((Some(dot), behind))
}

/// A term in a block of its own, after the block's word.
pub fn term_block<'a>(
    alloc: Global,
    place: usize,
    items: &'a [Item<'a>],
    end: usize,
) -> Found<'a, RawTerm>
    ensures reads { TermBlockRead (terminals.sign (t.Outer o.Term) place ∷ toks items.now) end result }
    ensures shorter { IfOk result (λ p. length p.1.now ≤ length items.now) }
{
    let (header, rest) = header(alloc, Outer::Term, place, items, end)?;
    let (term, rest) = inner_term(alloc, rest, end)?;
    let (dot, rest) = stop(rest, end)?;
    let (close, last) = sign(Terminal::CloseBrace, rest, end)?;
    let found = RawTerm {
        header,
        term,
        dot,
        close,
    };
    Ok((found, last))
}
