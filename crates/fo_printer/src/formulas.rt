//! The texts of formulas.
ghost use Rattle.std.specs.Prelude.{◌≡◌, ◌++◌, [], OnOk, OnErr, IfOk, codes, length, map, slice_get};
ghost use Rattle.std.specs.List.{list_any};
ghost use Rattle.std.specs.Str.{bytes_eq};
ghost use Rattle.kb_text.specs.Depth.{outermost};
ghost use Rattle.kb_text.specs.Tokens.{AreShallow, TokensFrom, unsupported_call_words, unsupported_chain_words};
ghost use Rattle.kb_logic.specs.Trees.{formulas_of, summands_of, terms_of};
ghost use Rattle.kb_logic.specs.Views.{formula_view, signed_view, term_view};
ghost use Rattle.printed_texts.specs.Written.{lexemes_at, outcome_at};
ghost use Rattle.stage_definitions.specs.Names.{Names};
ghost use Rattle.printed_texts.specs.Formulas.{add_text};
ghost use Rattle.printed_texts.specs.FormulaTexts.{minus_text, opened_text, spaced_text};
ghost use Rattle.printed_texts.specs.FormulaPrints.{
  arguments_text,
  bound_names,
  bound_text,
  bounds_text,
  cmp_sign,
  formula_text,
  formulas_text,
  kind_word,
  made_in,
  scope_word,
  summands_text,
  symbol_word,
  term_text,
  terms_text,
  type_word,
  with_weight,
};
ghost use Rattle.printed_texts.specs.ReadFormulas.{IsFormulaReadBack, IsSpoken, formula_parts};

use kb_logic::{AggKind, Bound, Cmp, ExtInt, Formula, Memory, Name, Signed, Term, Vocabulary};
use literal_printer::pieces::push_bytes;
use std::alloc::Global;

/// Appends a closed formula. Each formula but `true`, `false` and an atom stands in parentheses, and so does each sum
/// and product; a bound variable is written with its type, as `x[T]`. Where memory runs out, nothing is appended.
///
/// Where each number's word means that number among the names, and no token lies too deep, the text is that of one
/// formula, which by these names is this formula. Depth alone refuses the text.
pub fn print_formula(
    alloc: Global,
    out: &mut Vec<u8>,
    v: &Vocabulary,
    f: &Formula,
) -> Result<(), Memory>
    ensures ok { OnOk result (out.new.items ≡ out.old.items ++ formula_text v.now [] (formula_view f.now)) }
    ensures err { OnErr result (out.new.items ≡ out.old.items) }
    ensures back { (names : Names) → IsSpoken v.now names (formula_view f.now)
        → AreShallow outermost (lexemes_at 0 (formula_parts v.now (formula_view f.now)))
        → IsFormulaReadBack v.now names (formula_view f.now) }
    ensures deep { (names : Names) → IsSpoken v.now names (formula_view f.now)
        → TokensFrom outermost 0 (formula_text v.now [] (formula_view f.now))
        (outcome_at outermost 0 (formula_parts v.now (formula_view f.now))) }
{
    append_formula(alloc, out, v, f)
}

/// As `print_formula`, with its text alone.
fn append_formula(
    alloc: Global,
    out: &mut Vec<u8>,
    v: &Vocabulary,
    f: &Formula,
) -> Result<(), Memory>
    ensures ok { OnOk result (out.new.items ≡ out.old.items ++ formula_text v.now [] (formula_view f.now)) }
    ensures err { OnErr result (out.new.items ≡ out.old.items) }
{
    let mut text = Vec::new(alloc);
    let mut scope = Vec::new(alloc);
    push_formula(&mut text, &mut scope, v, f)?;
    out.extend_from_slice(&text)?;
    Ok(())
}

/// Words after which a `[` is read otherwise, so that a space stands before it.
const CHAIN_WORDS: [&[u8]; 3] = [b"MIN", b"MAX", b"SUCC"];
/// Words after which a `(` is read otherwise.
const CALL_WORDS: [&[u8]; 1] = [b"abs"];

fn is_any_of(text: &[u8], words: &[&[u8]]) -> bool
    ensures { result ≡ list_any (λ w. bytes_eq w.now text.now) words.now }
{
    words.iter().any(|word| *word == text)
}

fn push_square(out: &mut Vec<u8>, word: &[u8]) -> Result<(), Memory>
    ensures { OnOk result (out.new.items ≡ out.old.items ++ opened_text unsupported_chain_words (codes "[") word.now) }
{
    if is_any_of(word, &CHAIN_WORDS) {
        push_bytes(out, b" [")
    } else {
        push_bytes(out, b"[")
    }
}

fn push_round(out: &mut Vec<u8>, word: &[u8]) -> Result<(), Memory>
    ensures { OnOk result (out.new.items ≡ out.old.items ++ opened_text unsupported_call_words (codes "(") word.now) }
{
    if is_any_of(word, &CALL_WORDS) {
        push_bytes(out, b" (")
    } else {
        push_bytes(out, b"(")
    }
}

fn symbol_word(vocab: &Vocabulary, symbol: u32) -> &[u8]
    ensures { result.now ≡ symbol_word vocab.now symbol }
{
    match vocab.symbols.get(symbol as usize) {
        Some(symbol) => symbol.name.text(),
        None => b"",
    }
}

fn type_word(vocab: &Vocabulary, ty: u32) -> &[u8]
    ensures { result.now ≡ type_word vocab.now ty }
{
    match vocab.types.get(ty as usize) {
        Some(ty) => ty.name.text(),
        None => b"",
    }
}

fn push_made(out: &mut Vec<u8>, vocab: &Vocabulary, ty: u32, place: u32) -> Result<(), Memory>
    ensures { OnOk result (out.new.items ≡ out.old.items ++ made_in (slice_get vocab.now.types ty) place) }
{
    if let Some(ty) = vocab.types.get(ty as usize) {
        if let Some(name) = ty.made.get(place as usize) {
            return push_bytes(out, name.text());
        }
    }
    Ok(())
}

fn push_variable(out: &mut Vec<u8>, scope: &[Name], number: u32) -> Result<(), Memory>
    ensures { OnOk result (out.new.items ≡ out.old.items ++ scope_word scope.now number) }
{
    match scope.get(number as usize) {
        Some(name) => push_bytes(out, name.text()),
        None => Ok(()),
    }
}

fn cmp_sign(cmp: Cmp) -> &'static [u8]
    ensures { result.now ≡ cmp_sign cmp }
{
    match cmp {
        Cmp::Eq => b"=",
        Cmp::Ne => b"~=",
        Cmp::Lt => b"<",
        Cmp::Gt => b">",
        Cmp::Le => b"=<",
        Cmp::Ge => b">=",
    }
}

fn push_spaced(out: &mut Vec<u8>, sign: &[u8]) -> Result<(), Memory>
    ensures { OnOk result (out.new.items ≡ out.old.items ++ spaced_text sign.now) }
{
    push_bytes(out, b" ")?;
    push_bytes(out, sign)?;
    push_bytes(out, b" ")
}

fn kind_word(kind: AggKind) -> &'static [u8]
    ensures { result.now ≡ kind_word kind }
{
    match kind {
        AggKind::Count => b"#",
        AggKind::Sum => b"sum",
        AggKind::Min => b"min",
        AggKind::Max => b"max",
    }
}

fn push_bound(out: &mut Vec<u8>, vocab: &Vocabulary, bound: &Bound) -> Result<(), Memory>
    ensures { OnOk result (out.new.items ≡ out.old.items ++ bound_text vocab.now bound.now) }
{
    push_bytes(out, bound.name.text())?;
    push_square(out, bound.name.text())?;
    push_bytes(out, type_word(vocab, bound.ty))?;
    push_bytes(out, b"]")
}

fn push_bounds(out: &mut Vec<u8>, vocab: &Vocabulary, bounds: &[Bound]) -> Result<(), Memory>
    ensures { OnOk result (out.new.items ≡ out.old.items ++ bounds_text vocab.now bounds.now) }
{
    let Some((first, others)) = bounds.split_first() else {
        return Ok(());
    };
    push_bound(out, vocab, first)?;
    for bound in others {
        push_bytes(out, b" ")?;
        push_bound(out, vocab, bound)?;
    }
    Ok(())
}

/// Brings the names of a list of variables into scope.
fn push_names(scope: &mut Vec<Name>, bounds: &[Bound]) -> Result<(), Memory>
    ensures { OnOk result (scope.new.items ≡ scope.old.items ++ bound_names bounds.now) }
{
    let alloc = *scope.allocator();
    for bound in bounds {
        scope.push(bound.name.copy(alloc)?)?;
    }
    Ok(())
}

fn minus_sign(minus: bool) -> &'static [u8]
    ensures { result.now ≡ minus_text minus }
{
    if minus { b"-" } else { b"" }
}

fn add_sign(minus: bool) -> &'static [u8]
    ensures { result.now ≡ add_text minus }
{
    if minus { b"-" } else { b"+" }
}

#[cycle(printing)]
fn push_formula(
    out: &mut Vec<u8>,
    scope: &mut Vec<Name>,
    vocab: &Vocabulary,
    formula: &Formula,
) -> Result<(), Memory>
    ensures text { OnOk result (out.new.items ≡ out.old.items ++ formula_text vocab.now scope.old.items
        (formula_view formula.now)) }
    ensures same { OnOk result (scope.new.items ≡ scope.old.items) }
{
    match formula {
        Formula::True => push_bytes(out, b"true"),
        Formula::False => push_bytes(out, b"false"),
        Formula::Atom(symbol, terms) => {
            let word = symbol_word(vocab, *symbol);
            push_bytes(out, word)?;
            push_arguments(out, scope, vocab, word, terms)
        }
        Formula::Compare(cmp, left, right) => {
            push_bytes(out, b"(")?;
            push_term(out, scope, vocab, left)?;
            push_spaced(out, cmp_sign(*cmp))?;
            push_term(out, scope, vocab, right)?;
            push_bytes(out, b")")
        }
        Formula::Not(inner) => {
            push_bytes(out, b"(~")?;
            push_formula(out, scope, vocab, inner)?;
            push_bytes(out, b")")
        }
        Formula::And(parts) => {
            push_bytes(out, b"(")?;
            push_formulas(out, scope, vocab, b" & ", parts)?;
            push_bytes(out, b")")
        }
        Formula::Or(parts) => {
            push_bytes(out, b"(")?;
            push_formulas(out, scope, vocab, b" | ", parts)?;
            push_bytes(out, b")")
        }
        Formula::Implies(left, right) => {
            push_bytes(out, b"(")?;
            push_formula(out, scope, vocab, left)?;
            push_bytes(out, b" => ")?;
            push_formula(out, scope, vocab, right)?;
            push_bytes(out, b")")
        }
        Formula::Iff(left, right) => {
            push_bytes(out, b"(")?;
            push_formula(out, scope, vocab, left)?;
            push_bytes(out, b" <=> ")?;
            push_formula(out, scope, vocab, right)?;
            push_bytes(out, b")")
        }
        Formula::All(bounds, inner) => {
            push_bytes(out, b"(!")?;
            let before = push_scope(out, scope, vocab, bounds)?;
            push_formula(out, scope, vocab, inner)?;
            scope.truncate(before);
            push_bytes(out, b")")
        }
        Formula::Any(bounds, inner) => {
            push_bytes(out, b"(?")?;
            let before = push_scope(out, scope, vocab, bounds)?;
            push_formula(out, scope, vocab, inner)?;
            scope.truncate(before);
            push_bytes(out, b")")
        }
        Formula::Number(cmp, n, bounds, inner) => {
            push_bytes(out, b"(?")?;
            push_bytes(out, cmp_sign(*cmp))?;
            kb_logic::decimal(out, ExtInt::Num(*n))?;
            push_bytes(out, b" ")?;
            let before = push_scope(out, scope, vocab, bounds)?;
            push_formula(out, scope, vocab, inner)?;
            scope.truncate(before);
            push_bytes(out, b")")
        }
    }
}

#[cycle(printing)]
fn push_formulas(
    out: &mut Vec<u8>,
    scope: &mut Vec<Name>,
    vocab: &Vocabulary,
    sep: &[u8],
    formulas: &[Formula],
) -> Result<(), Memory>
    ensures text { OnOk result (out.new.items ≡ out.old.items ++ formulas_text vocab.now scope.old.items sep.now
        (formulas_of (map formula_view formulas.now))) }
    ensures same { OnOk result (scope.new.items ≡ scope.old.items) }
{
    let Some((first, others)) = formulas.split_first() else {
        return Ok(());
    };
    push_formula(out, scope, vocab, first)?;
    for formula in others {
        push_bytes(out, sep)?;
        push_formula(out, scope, vocab, formula)?;
    }
    Ok(())
}

#[cycle(printing)]
fn push_term(
    out: &mut Vec<u8>,
    scope: &mut Vec<Name>,
    vocab: &Vocabulary,
    term: &Term,
) -> Result<(), Memory>
    ensures text { OnOk result (out.new.items ≡ out.old.items ++ term_text vocab.now scope.old.items
        (term_view term.now)) }
    ensures same { OnOk result (scope.new.items ≡ scope.old.items) }
{
    match term {
        Term::Var(number) => push_variable(out, scope, *number),
        Term::Int(n) => kb_logic::decimal(out, ExtInt::Num(*n)),
        Term::Made(ty, place) => push_made(out, vocab, *ty, *place),
        Term::Apply(symbol, terms) => {
            let word = symbol_word(vocab, *symbol);
            push_bytes(out, word)?;
            push_arguments(out, scope, vocab, word, terms)
        }
        Term::Sum(parts) => {
            push_bytes(out, b"(")?;
            push_summands(out, scope, vocab, parts)?;
            push_bytes(out, b")")
        }
        Term::Product(factors) => {
            push_bytes(out, b"(")?;
            push_terms(out, scope, vocab, b" * ", factors)?;
            push_bytes(out, b")")
        }
        Term::Agg(kind, bounds, inner, weight) => {
            push_bytes(out, kind_word(*kind))?;
            push_bytes(out, b"{")?;
            let before = push_scope(out, scope, vocab, bounds)?;
            push_formula(out, scope, vocab, inner)?;
            push_weight(out, scope, vocab, *kind, weight)?;
            scope.truncate(before);
            Ok(())
        }
    }
}

#[cycle(printing)]
fn push_weight(
    out: &mut Vec<u8>,
    scope: &mut Vec<Name>,
    vocab: &Vocabulary,
    kind: AggKind,
    weight: &Term,
) -> Result<(), Memory>
    ensures text { OnOk result (out.new.items ≡ out.old.items ++ with_weight kind
        (term_text vocab.now scope.old.items (term_view weight.now))) }
    ensures same { OnOk result (scope.new.items ≡ scope.old.items) }
{
    match kind {
        AggKind::Count => push_bytes(out, b"}"),
        AggKind::Sum => push_last(out, scope, vocab, weight),
        AggKind::Min => push_last(out, scope, vocab, weight),
        AggKind::Max => push_last(out, scope, vocab, weight),
    }
}

#[cycle(printing)]
fn push_last(
    out: &mut Vec<u8>,
    scope: &mut Vec<Name>,
    vocab: &Vocabulary,
    weight: &Term,
) -> Result<(), Memory>
    ensures text { OnOk result (out.new.items ≡ out.old.items ++
        (codes ": " ++ (term_text vocab.now scope.old.items (term_view weight.now) ++ codes "}"))) }
    ensures same { OnOk result (scope.new.items ≡ scope.old.items) }
{
    push_bytes(out, b": ")?;
    push_term(out, scope, vocab, weight)?;
    push_bytes(out, b"}")
}

#[cycle(printing)]
fn push_terms(
    out: &mut Vec<u8>,
    scope: &mut Vec<Name>,
    vocab: &Vocabulary,
    sep: &[u8],
    terms: &[Term],
) -> Result<(), Memory>
    ensures text { OnOk result (out.new.items ≡ out.old.items ++ terms_text vocab.now scope.old.items sep.now
        (terms_of (map term_view terms.now))) }
    ensures same { OnOk result (scope.new.items ≡ scope.old.items) }
{
    let Some((first, others)) = terms.split_first() else {
        return Ok(());
    };
    push_term(out, scope, vocab, first)?;
    for term in others {
        push_bytes(out, sep)?;
        push_term(out, scope, vocab, term)?;
    }
    Ok(())
}

#[cycle(printing)]
fn push_arguments(
    out: &mut Vec<u8>,
    scope: &mut Vec<Name>,
    vocab: &Vocabulary,
    word: &[u8],
    terms: &[Term],
) -> Result<(), Memory>
    ensures text { OnOk result (out.new.items ≡ out.old.items ++ arguments_text vocab.now scope.old.items word.now
        (terms_of (map term_view terms.now))) }
    ensures same { OnOk result (scope.new.items ≡ scope.old.items) }
{
    if terms.is_empty() {
        return Ok(());
    }
    push_round(out, word)?;
    push_terms(out, scope, vocab, b",", terms)?;
    push_bytes(out, b")")
}

#[cycle(printing)]
fn push_summands(
    out: &mut Vec<u8>,
    scope: &mut Vec<Name>,
    vocab: &Vocabulary,
    parts: &[Signed],
) -> Result<(), Memory>
    ensures text { OnOk result (out.new.items ≡ out.old.items ++ summands_text vocab.now scope.old.items
        (summands_of (map signed_view parts.now))) }
    ensures same { OnOk result (scope.new.items ≡ scope.old.items) }
{
    let Some((first, others)) = parts.split_first() else {
        return Ok(());
    };
    push_first(out, scope, vocab, first)?;
    for part in others {
        push_spaced(out, add_sign(part.minus))?;
        push_signed(out, scope, vocab, part)?;
    }
    Ok(())
}

#[cycle(printing)]
fn push_signed(
    out: &mut Vec<u8>,
    scope: &mut Vec<Name>,
    vocab: &Vocabulary,
    part: &Signed,
) -> Result<(), Memory>
    ensures text { OnOk result (out.new.items ≡ out.old.items ++ term_text vocab.now scope.old.items
        (signed_view part.now).1) }
    ensures same { OnOk result (scope.new.items ≡ scope.old.items) }
{
    push_term(out, scope, vocab, &part.term)
}

#[cycle(printing)]
fn push_first(
    out: &mut Vec<u8>,
    scope: &mut Vec<Name>,
    vocab: &Vocabulary,
    part: &Signed,
) -> Result<(), Memory>
    ensures text { OnOk result (out.new.items ≡ out.old.items ++
        (minus_text (signed_view part.now).0 ++ term_text vocab.now scope.old.items (signed_view part.now).1)) }
    ensures same { OnOk result (scope.new.items ≡ scope.old.items) }
{
    push_bytes(out, minus_sign(part.minus))?;
    push_term(out, scope, vocab, &part.term)
}

/// Appends variables and the colon after them, and brings their names into scope; returns how many there were before.
fn push_scope(
    out: &mut Vec<u8>,
    scope: &mut Vec<Name>,
    vocab: &Vocabulary,
    bounds: &[Bound],
) -> Result<usize, Memory>
    ensures text { OnOk result (out.new.items ≡ out.old.items ++ (bounds_text vocab.now bounds.now ++ codes ": ")) }
    ensures inside { OnOk result (scope.new.items ≡ scope.old.items ++ bound_names bounds.now) }
    ensures before { IfOk result (λ n. n ≡ length scope.old.items) }
{
    let before = scope.len();
    push_bounds(out, vocab, bounds)?;
    push_bytes(out, b": ")?;
    push_names(scope, bounds)?;
    Ok(before)
}
