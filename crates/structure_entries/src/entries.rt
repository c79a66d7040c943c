//! The entries of a structure.
ghost use Rattle.std.specs.Prelude.{◌≡◌, map, IfOk};
ghost use Rattle.std.specs.Option.{option_map};
ghost use Rattle.grammar.specs.View.{name_view};
ghost use Rattle.kb_logic.specs.declared.vocabularies.Vocabulary.{Vocabulary as AVocabulary};
ghost use Rattle.grammar.specs.BlockView.{entry_view, mark_view, structure_view};
ghost use Rattle.stage_definitions.specs.DataEntries as said;
ghost use Rattle.structure_entries.specs.SaidViews.{said_view};
ghost use Rattle.structure_entries.specs.Naming.{AreSubjectsOf};

use crate::forms::has_form;
use crate::rows::written_rows;
use crate::senses::{mark_name, sense_of};
use crate::subjects::Subjects;
use crate::written::Entry;
use grammar::{RawEntry, RawName, RawStructure};
use kb_logic::{Memory, Vocabulary};
use std::alloc::Global;

fn mark_of<'a>(raw: &'a RawEntry) -> Option<&'a RawName>
    ensures { option_map (λ m. name_view m.now) result ≡ option_map said.mark_name (option_map mark_view raw.now.mark) }
{
    match &raw.mark {
        Some(mark) => Some(mark_name(mark)),
        None => None,
    }
}

/// What an entry says.
fn entry<'a>(alloc: Global, subjects: &Subjects<'a>, raw: &'a RawEntry) -> Result<Entry<'a>, Memory>
    ensures { IfOk result (λ e. (v : AVocabulary) → AreSubjectsOf v subjects.now
        → said_view e ≡ said.said v (entry_view raw.now)) }
{
    let subject = subjects.find(raw.name.text.as_slice());
    let mark = mark_of(raw);
    let mut rows = written_rows(alloc, subject.is_plain_list(), &raw.value)?;
    let fits = has_form(subject, sense_of(mark), rows.len(), &raw.value);
    if !fits {
        rows.clear();
    }
    Ok(Entry {
        word: &raw.name,
        subject,
        mark,
        fits,
        rows,
    })
}

/// What a structure says, entry by entry.
pub fn entries<'a>(
    alloc: Global,
    vocab: &'a Vocabulary,
    raw: &'a RawStructure,
) -> Result<Vec<Entry<'a>>, Memory>
    ensures { IfOk result (λ es. map said_view es.items ≡ said.said_in vocab.now (structure_view raw.now)) }
{
    let subjects = Subjects::of(alloc, vocab)?;
    let mut entries = Vec::new(alloc);
    for raw in raw.entries.as_slice() {
        entries.push(entry(alloc, &subjects, raw)?)?;
    }
    Ok(entries)
}
