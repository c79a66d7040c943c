//! Which values a word may be given.
ghost use Rattle.std.specs.Prelude.{◌≡◌, length};
ghost use Rattle.grammar.specs.BlockView.{value_view};
ghost use Rattle.stage_definitions.specs.DataEntries as said;
ghost use Rattle.structure_entries.specs.EntryViews.{sense_view, subject_view};

use crate::senses::Sense;
use crate::subjects::Subject;
use grammar::RawValue;
use kb_logic::Symbol;

fn is_truth(raw: &RawValue) -> bool
    ensures { result ≡ said.is_truth (value_view raw.now) }
{
    match raw {
        RawValue::Truth(_, _) => true,
        RawValue::Element(_) => false,
        RawValue::Table(_) => false,
    }
}

fn is_table(raw: &RawValue) -> bool
    ensures { result ≡ said.is_table (value_view raw.now) }
{
    match raw {
        RawValue::Truth(_, _) => false,
        RawValue::Element(_) => false,
        RawValue::Table(_) => true,
    }
}

/// Whether a constant may have so many rows.
fn are_for_constant(sense: Sense, count: usize) -> bool
    ensures { result ≡ said.are_for_constant (sense_view sense) count }
{
    count == 1 || (sense.is_certainly_false() && 0 < count)
}

fn form_of_symbol(sense: Sense, count: usize, symbol: &Symbol, raw: &RawValue) -> bool
    ensures { result ≡ said.form_of_symbol (sense_view sense) count symbol.now.args symbol.now.value
        (value_view raw.now) }
{
    match symbol.args.as_slice() {
        [] => match symbol.value {
            None => is_truth(raw),
            Some(_) => !is_truth(raw) && are_for_constant(sense, count),
        },
        [_, ..] => is_table(raw),
    }
}

/// Whether the value, which has so many rows, is of the form that the word asks for.
pub fn has_form(subject: Subject<'_>, sense: Sense, count: usize, raw: &RawValue) -> bool
    ensures { result ≡ said.has_form (subject_view subject.entry) (sense_view sense) count (value_view raw.now) }
{
    match subject {
        Subject::Nothing => false,
        Subject::OfElement => false,
        Subject::OfType(_, _) => is_table(raw),
        Subject::OfSymbol(_, symbol) => form_of_symbol(sense, count, symbol, raw),
    }
}
