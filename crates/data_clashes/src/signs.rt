//! The symbols of which rows say both that atoms are true and that atoms are false.
//!
//! A predicate whose rows all have one sign is left out of the search for rows that clash.
ghost use Rattle.std.specs.Prelude.{◌≡◌, ◌==◌, ◌&&◌, ◌||◌, ℕ, List, [], true, false, is_some, map, IfOk, OnOk};
ghost use Rattle.stage_definitions.specs.DataEntries as said;
ghost use Rattle.stage_definitions.specs.DataFacts as stated;
ghost use Rattle.structure_entries.specs.EntryViews.{sense_view, subject_view};
ghost use Rattle.structure_entries.specs.SaidViews.{said_view};
ghost use Rattle.data_clashes.specs.Signs.{is_opposable, may_say, says, AreSignsOf};
ghost use Rattle.data_clashes.specs.Tables.{is_wide};

use indexmap::IndexSet;
use kb_logic::Memory;
use std::alloc::Global;
use structure_entries::senses::{Sense, sense_of};
use structure_entries::subjects::Subject;
use structure_entries::written::Entry;

/// The symbols of which entries say that atoms are true, and those of which they say that atoms are false.
#[derive(Drop)]
pub struct Signs {
    pub affirmed: IndexSet<usize>,
    pub denied: IndexSet<usize>,
}

/// Whether rows with this sense are true.
fn affirms(sense: Sense) -> bool
    ensures { result ≡ says true (sense_view sense) }
{
    match sense {
        Sense::Everything => true,
        Sense::CertainlyTrue => true,
        Sense::CertainlyFalse => false,
        Sense::Unread => false,
    }
}

/// Whether rows with this sense are false.
fn denies(sense: Sense) -> bool
    ensures { result ≡ says false (sense_view sense) }
{
    match sense {
        Sense::Everything => false,
        Sense::CertainlyTrue => false,
        Sense::CertainlyFalse => true,
        Sense::Unread => false,
    }
}

/// One more symbol, where it is to be added.
fn add_if(is_wanted: bool, symbols: &mut IndexSet<usize>, symbol: usize) -> Result<(), Memory>
    ensures { OnOk result ((s : ℕ) → is_wide symbols.new.keys s ≡ (is_wide symbols.old.keys s
        || (is_wanted && (symbol == s)))) }
{
    if is_wanted {
        symbols.insert_full(symbol)?;
    }
    Ok(())
}

impl Signs {
    fn new(alloc: Global) -> Signs
        ensures { AreSignsOf [] result }
    {
        Signs {
            affirmed: IndexSet::new(alloc),
            denied: IndexSet::new(alloc),
        }
    }

    /// What an entry of this symbol says.
    fn add_symbol(&mut self, symbol: usize, has_value: bool, sense: Sense) -> Result<(), Memory>
        ensures affirmed { OnOk result ((s : ℕ) → is_wide self.new.affirmed.keys s ≡ (is_wide self.old.affirmed.keys s
            || ((has_value || says true (sense_view sense)) && (symbol == s)))) }
        ensures denied { OnOk result ((s : ℕ) → is_wide self.new.denied.keys s ≡ (is_wide self.old.denied.keys s
            || ((has_value || says false (sense_view sense)) && (symbol == s)))) }
    {
        add_if(has_value || affirms(sense), &mut self.affirmed, symbol)?;
        add_if(has_value || denies(sense), &mut self.denied, symbol)?;
        Ok(())
    }

    fn add(&mut self, entry: &Entry<'_>) -> Result<(), Memory>
        ensures affirmed { OnOk result ((s : ℕ) → is_wide self.new.affirmed.keys s ≡ (is_wide self.old.affirmed.keys s
            || may_say true s (said_view entry.now))) }
        ensures denied { OnOk result ((s : ℕ) → is_wide self.new.denied.keys s ≡ (is_wide self.old.denied.keys s
            || may_say false s (said_view entry.now))) }
    {
        match entry.subject {
            Subject::Nothing => Ok(()),
            Subject::OfElement => Ok(()),
            Subject::OfType(_, _) => Ok(()),
            Subject::OfSymbol(symbol, declared) => {
                self.add_symbol(symbol, declared.value.is_some(), sense_of(entry.mark))
            }
        }
    }

    /// What all entries say.
    pub fn of(alloc: Global, entries: &[Entry<'_>]) -> Result<Signs, Memory>
        ensures { IfOk result (AreSignsOf (map said_view entries.now)) }
    {
        let mut signs = Signs::new(alloc);
        for entry in entries {
            signs.add(entry)?;
        }
        Ok(signs)
    }

    /// Whether rows of what a word names may clash.
    pub fn has_both(&self, subject: Subject<'_>) -> bool
        ensures { (es : List said.Said) → AreSignsOf es self.now
            → result ≡ is_opposable es (subject_view subject.entry) }
    {
        match subject {
            Subject::Nothing => false,
            Subject::OfElement => false,
            Subject::OfType(_, _) => false,
            Subject::OfSymbol(symbol, _) => {
                self.affirmed.contains(&symbol) && self.denied.contains(&symbol)
            }
        }
    }
}
