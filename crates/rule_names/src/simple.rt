//! What may stand in a head, and where terms begin.
ghost use Rattle.std.specs.Prelude.{◌≡◌};
ghost use Rattle.grammar.specs.View.{factor_view, term_view};
ghost use Rattle.stage_definitions.specs.Uses as use_of;
ghost use Rattle.formula_names.specs.Meanings.{meaning_view, names_in};
ghost use Rattle.rule_names.specs.Alone.{is_integer_alone};

use formula_names::scopes::Scope;
use formula_names::standings::is_lone;
use formula_names::tables::{Meaning, Table};
use formula_names::uses::meaning_at;
use formula_names::words::{app_count, app_name};
use grammar::{RawFactor, RawTermTree};

fn is_given(meaning: Meaning) -> bool
    ensures { result ≡ use_of.is_given (meaning_view meaning) }
{
    match meaning {
        Meaning::Variable(_) => true,
        Meaning::Made(_, _) => true,
        Meaning::Undeclared => false,
        Meaning::Integers => false,
        Meaning::Naturals => false,
        Meaning::TypeName(_) => false,
        Meaning::Predicate(_, _) => false,
        Meaning::Function(_, _) => false,
    }
}

/// An integer, in brackets or not.
#[cycle(integers)]
fn is_integer(raw: &RawFactor) -> bool
    ensures { result ≡ use_of.is_integer (factor_view raw.now) }
{
    match raw {
        RawFactor::Integer(_) => true,
        RawFactor::Brackets(_, inner, _) => is_integer_term(inner.get()),
        RawFactor::Value(_) => false,
        RawFactor::Negative(_, _) => false,
        RawFactor::Count(_, _, _) => false,
        RawFactor::Aggregate(_, _, _, _, _, _) => false,
    }
}

#[cycle(integers)]
fn is_integer_term(raw: &RawTermTree) -> bool
    ensures { result ≡ is_integer_alone (term_view raw.now) }
{
    is_lone(raw) && is_integer(&raw.first.first)
}

#[cycle(simple)]
fn is_simple_factor<'a>(table: &Table<'a>, scope: &Scope<'a>, raw: &'a RawFactor) -> bool
    ensures { result ≡ use_of.is_simple_factor (names_in table.now) scope.now (factor_view raw.now) }
{
    match raw {
        RawFactor::Integer(_) => true,
        RawFactor::Value(app) => is_given(meaning_at(table, scope, app_name(app), app_count(app))),
        RawFactor::Brackets(_, inner, _) => is_simple(table, scope, inner.get()),
        RawFactor::Negative(_, inner) => is_integer(inner.get()),
        RawFactor::Count(_, _, _) => false,
        RawFactor::Aggregate(_, _, _, _, _, _) => false,
    }
}

/// Whether a term may stand as an argument or as the value of a head.
#[cycle(simple)]
pub fn is_simple<'a>(table: &Table<'a>, scope: &Scope<'a>, raw: &'a RawTermTree) -> bool
    ensures { result ≡ use_of.is_simple (names_in table.now) scope.now (term_view raw.now) }
{
    is_lone(raw) && is_simple_factor(table, scope, &raw.first.first)
}

fn factor_place(raw: &RawFactor) -> usize
    ensures { result ≡ use_of.place_of_factor (factor_view raw.now) }
{
    match raw {
        RawFactor::Integer(integer) => integer.place,
        RawFactor::Value(app) => app_name(app).place,
        RawFactor::Brackets(place, _, _) => *place,
        RawFactor::Negative(place, _) => *place,
        RawFactor::Count(opening, _, _) => opening.place,
        RawFactor::Aggregate(_, opening, _, _, _, _) => opening.place,
    }
}

/// The place of a term's first token.
pub fn term_place(raw: &RawTermTree) -> usize
    ensures { result ≡ use_of.place_of_term (term_view raw.now) }
{
    factor_place(&raw.first.first)
}
