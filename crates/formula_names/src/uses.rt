//! One use of a word: what it means there, and whether it is refused.
ghost use Rattle.std.specs.Prelude.{◌≡◌, ◌&&◌, [], ◌∷◌};
ghost use Rattle.stage_definitions.specs.Names.{meaning_at, meaning_of};
ghost use Rattle.stage_definitions.specs.NamesStage as stage;
ghost use Rattle.stage_definitions.specs.NamesStage.{name_noted};
ghost use Rattle.stage_definitions.specs.Numbering as numbers;
ghost use Rattle.stage_definitions.specs.Uses as use_of;
ghost use Rattle.grammar.specs.View.{name_view};
ghost use Rattle.stage_definitions.specs.Earliest.{noted_if};
ghost use Rattle.kb_text.specs.declared.fault.K.TheVariants.{UnknownName, WrongArity, Unsupported};
ghost use Rattle.formula_names.specs.Meanings.{meaning_view, names_in};
ghost use Rattle.formula_names.specs.Steps.{IsStep, context_of, names_known};
ghost use Rattle.stage_definitions.specs.Scopes.{is_among};

use crate::resolver::Resolver;
use crate::scopes::Scope;
use crate::tables::{Meaning, Table, declared_meaning};
use grammar::RawName;
use kb_text::K;
use stage_definitions::Earliest;

fn is_undeclared(meaning: Meaning) -> bool
    ensures { result ≡ stage.is_undeclared (meaning_view meaning) }
{
    match meaning {
        Meaning::Undeclared => true,
        Meaning::Integers => false,
        Meaning::Naturals => false,
        Meaning::TypeName(_) => false,
        Meaning::Predicate(_, _) => false,
        Meaning::Function(_, _) => false,
        Meaning::Made(_, _) => false,
        Meaning::Variable(_) => false,
    }
}

fn is_type(meaning: Meaning) -> bool
    ensures { result ≡ stage.is_type (meaning_view meaning) }
{
    match meaning {
        Meaning::Undeclared => false,
        Meaning::Integers => true,
        Meaning::Naturals => true,
        Meaning::TypeName(_) => true,
        Meaning::Predicate(_, _) => false,
        Meaning::Function(_, _) => false,
        Meaning::Made(_, _) => false,
        Meaning::Variable(_) => false,
    }
}

fn is_number_type(meaning: Meaning) -> bool
    ensures { result ≡ stage.is_number_type (meaning_view meaning) }
{
    match meaning {
        Meaning::Undeclared => false,
        Meaning::Integers => true,
        Meaning::Naturals => true,
        Meaning::TypeName(_) => false,
        Meaning::Predicate(_, _) => false,
        Meaning::Function(_, _) => false,
        Meaning::Made(_, _) => false,
        Meaning::Variable(_) => false,
    }
}

fn is_no_type(meaning: Meaning) -> bool
    ensures { result ≡ stage.is_no_type (meaning_view meaning) }
{
    match meaning {
        Meaning::Undeclared => false,
        Meaning::Integers => false,
        Meaning::Naturals => false,
        Meaning::TypeName(_) => false,
        Meaning::Predicate(_, _) => true,
        Meaning::Function(_, _) => true,
        Meaning::Made(_, _) => true,
        Meaning::Variable(_) => true,
    }
}

fn is_no_formula(meaning: Meaning, count: usize) -> bool
    ensures { result ≡ stage.is_no_formula (meaning_view meaning) count }
{
    match meaning {
        Meaning::Undeclared => false,
        Meaning::Integers => false,
        Meaning::Naturals => false,
        Meaning::TypeName(_) => false,
        Meaning::Predicate(_, arity) => arity != count,
        Meaning::Function(_, _) => true,
        Meaning::Made(_, _) => true,
        Meaning::Variable(_) => true,
    }
}

fn is_no_term(meaning: Meaning, count: usize) -> bool
    ensures { result ≡ stage.is_no_term (meaning_view meaning) count }
{
    match meaning {
        Meaning::Undeclared => false,
        Meaning::Integers => false,
        Meaning::Naturals => false,
        Meaning::TypeName(_) => false,
        Meaning::Predicate(_, _) => true,
        Meaning::Function(_, arity) => arity != count,
        Meaning::Made(_, _) => count != 0,
        Meaning::Variable(_) => false,
    }
}

fn is_no_function(meaning: Meaning, count: usize) -> bool
    ensures { result ≡ stage.is_no_function (meaning_view meaning) count }
{
    match meaning {
        Meaning::Undeclared => false,
        Meaning::Integers => false,
        Meaning::Naturals => false,
        Meaning::TypeName(_) => false,
        Meaning::Predicate(_, _) => true,
        Meaning::Function(_, arity) => arity != count,
        Meaning::Made(_, _) => true,
        Meaning::Variable(_) => true,
    }
}

fn is_symbol(meaning: Meaning) -> bool
    ensures { result ≡ stage.is_symbol (meaning_view meaning) }
{
    match meaning {
        Meaning::Undeclared => false,
        Meaning::Integers => false,
        Meaning::Naturals => false,
        Meaning::TypeName(_) => false,
        Meaning::Predicate(_, _) => true,
        Meaning::Function(_, _) => true,
        Meaning::Made(_, _) => false,
        Meaning::Variable(_) => false,
    }
}

/// Whether a word with this meaning is a symbol that the definition round it defines.
fn is_defined<'a>(defined: &Scope<'a>, word: &'a RawName, meaning: Meaning) -> bool
    ensures { result ≡ (stage.is_symbol (meaning_view meaning) && is_among word.now.text defined.now) }
{
    is_symbol(meaning) && defined.level(word.text.as_slice()).is_some()
}

/// A number past the greatest count is refused, and counts as 0.
pub fn within_count(count: u32, number: usize) -> u32
    ensures { result ≡ numbers.within_count count number }
{
    if number < count as usize {
        number as u32
    } else {
        0
    }
}

fn type_number(meaning: Meaning) -> u32
    ensures { result ≡ numbers.type_number (meaning_view meaning) }
{
    match meaning {
        Meaning::TypeName(number) => within_count(256, number),
        Meaning::Undeclared => 0,
        Meaning::Integers => 0,
        Meaning::Naturals => 0,
        Meaning::Predicate(_, _) => 0,
        Meaning::Function(_, _) => 0,
        Meaning::Made(_, _) => 0,
        Meaning::Variable(_) => 0,
    }
}

fn function_number(meaning: Meaning) -> u32
    ensures { result ≡ numbers.function_number (meaning_view meaning) }
{
    match meaning {
        Meaning::Function(number, _) => within_count(1024, number),
        Meaning::Undeclared => 0,
        Meaning::Integers => 0,
        Meaning::Naturals => 0,
        Meaning::TypeName(_) => 0,
        Meaning::Predicate(_, _) => 0,
        Meaning::Made(_, _) => 0,
        Meaning::Variable(_) => 0,
    }
}

fn predicate_number(meaning: Meaning) -> u32
    ensures { result ≡ numbers.predicate_number (meaning_view meaning) }
{
    match meaning {
        Meaning::Predicate(number, _) => within_count(1024, number),
        Meaning::Undeclared => 0,
        Meaning::Integers => 0,
        Meaning::Naturals => 0,
        Meaning::TypeName(_) => 0,
        Meaning::Function(_, _) => 0,
        Meaning::Made(_, _) => 0,
        Meaning::Variable(_) => 0,
    }
}

/// What a word means, where these variables are in scope.
pub fn meaning_at<'a>(
    table: &Table<'a>,
    scope: &Scope<'a>,
    word: &'a RawName,
    count: usize,
) -> Meaning
    ensures { meaning_view result ≡ meaning_at (names_in table.now) scope.now (name_view word.now) count }
{
    if count != 0 {
        return declared_meaning(table, word.text.as_slice());
    }
    match scope.level(word.text.as_slice()) {
        Some(level) => Meaning::Variable(level),
        None => declared_meaning(table, word.text.as_slice()),
    }
}

fn note_word(
    earliest: &mut Earliest,
    place: usize,
    is_unknown: bool,
    is_wrong: bool,
    is_unsupported: bool,
)
    ensures { earliest.new.first ≡ noted_if is_unsupported Unsupported place
        (noted_if is_wrong WrongArity place (noted_if is_unknown UnknownName place earliest.old.first)) }
{
    earliest.note_if(is_unknown, K::UnknownName, place);
    earliest.note_if(is_wrong, K::WrongArity, place);
    earliest.note_if(is_unsupported, K::Unsupported, place);
}

impl<'r, 'a> Resolver<'r, 'a> {
    /// A word as a formula: the number of its predicate.
    pub fn formula_word(&mut self, word: &'a RawName, count: usize) -> u32
        ensures { IsStep self.old self.new result (numbers.predicate_number (meaning_at (names_known self.old)
            self.old.scope (name_view word.now) count))
            self.old.scope (use_of.formula_word (context_of self.old) (name_view word.now) count ∷ []) }
    {
        let meaning = meaning_at(self.known.table, &self.scope, word, count);
        note_word(
            &mut self.earliest,
            word.place,
            is_undeclared(meaning),
            is_no_formula(meaning, count),
            is_type(meaning) || is_defined(self.known.defined, word, meaning),
        );
        predicate_number(meaning)
    }

    /// A word as a term: what it means there.
    pub fn term_word(&mut self, word: &'a RawName, count: usize) -> Meaning
        ensures { IsStep self.old self.new (meaning_view result) (meaning_at (names_known self.old) self.old.scope
            (name_view word.now) count)
            self.old.scope (use_of.term_word (context_of self.old) (name_view word.now) count ∷ []) }
    {
        let meaning = meaning_at(self.known.table, &self.scope, word, count);
        note_word(
            &mut self.earliest,
            word.place,
            is_undeclared(meaning),
            is_no_term(meaning, count),
            is_type(meaning) || is_defined(self.known.defined, word, meaning),
        );
        meaning
    }

    /// A word as the function of a head: its number.
    pub fn function_word(&mut self, word: &'a RawName, count: usize) -> u32
        ensures { IsStep self.old self.new result (numbers.function_number (meaning_at (names_known self.old)
            self.old.scope (name_view word.now) count))
            self.old.scope (use_of.function_word self.old.scope (name_view word.now) count ∷ []) }
    {
        let meaning = meaning_at(self.known.table, &self.scope, word, count);
        note_word(
            &mut self.earliest,
            word.place,
            is_undeclared(meaning),
            is_no_function(meaning, count),
            is_type(meaning),
        );
        function_number(meaning)
    }
}

/// The type of an argument, a value or a variable.
pub fn position<'a>(table: &Table<'a>, word: &'a RawName, earliest: &mut Earliest) -> u32
    ensures number { result ≡ numbers.type_number_of (names_in table.now) (name_view word.now) }
    ensures noted { earliest.new.first ≡ name_noted (names_in table.now) earliest.old.first
        (use_of.position (name_view word.now)) }
{
    let meaning = declared_meaning(table, word.text.as_slice());
    note_word(
        earliest,
        word.place,
        is_undeclared(meaning),
        is_no_type(meaning),
        is_number_type(meaning),
    );
    type_number(meaning)
}

/// The word after `isa`: what it means.
pub fn parent<'a>(table: &Table<'a>, word: &'a RawName, earliest: &mut Earliest) -> Meaning
    ensures meaning { meaning_view result ≡ meaning_of (names_in table.now) word.now.text }
    ensures noted { earliest.new.first ≡ name_noted (names_in table.now) earliest.old.first
        (use_of.parent (name_view word.now)) }
{
    let meaning = declared_meaning(table, word.text.as_slice());
    note_word(
        earliest,
        word.place,
        is_undeclared(meaning),
        is_no_type(meaning),
        false,
    );
    meaning
}
