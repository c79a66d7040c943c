//! What is false since it is not listed.
ghost use Rattle.std.specs.Prelude.{◌<◌, ◌∷◌, [], length, map, OnOk};
ghost use Rattle.std.specs.List.{AllByRecursion};
ghost use Rattle.structure_entries.specs.EntryViews.{subject_view};
ghost use Rattle.structure_entries.specs.SaidViews.{said_view};
ghost use Rattle.data_filling.specs.Filling.{Closes, ClosesSubject, IsNumberOver, IsSubjectOver};

use crate::facts::symbol_number;
use kb_logic::Memory;
use partial_structures::Partial;
use structure_entries::subjects::Subject;
use structure_entries::written::Entry;

/// An entry without a mark gives its symbol whole.
fn close_entry(entry: &Entry<'_>, partial: &mut Partial) -> Result<(), Memory>
    requires { IsSubjectOver partial.old.symbols (said_view entry.now) }
    ensures { OnOk result (Closes partial.old partial.new (said_view entry.now ∷ [])) }
{
    match entry.mark {
        Some(_) => Ok(()),
        None => close_subject(entry.subject, partial),
    }
}

/// Makes false what is unknown of the symbol that the entry's word names.
fn close_subject(subject: Subject<'_>, partial: &mut Partial) -> Result<(), Memory>
    requires { IsNumberOver partial.old.symbols (subject_view subject) }
    ensures { OnOk result (ClosesSubject partial.old partial.new (subject_view subject.entry)) }
{
    match subject {
        Subject::Nothing => Ok(()),
        Subject::OfElement => Ok(()),
        Subject::OfType(_, _) => Ok(()),
        Subject::OfSymbol(symbol, _) => {
            partial.close(symbol_number(symbol)?);
            Ok(())
        }
    }
}

/// Makes false what entries without a mark do not list.
pub fn close_entries(entries: &[Entry<'_>], partial: &mut Partial) -> Result<(), Memory>
    requires { AllByRecursion (IsSubjectOver partial.old.symbols) (map said_view entries.now) }
    ensures { OnOk result (Closes partial.old partial.new (map said_view entries.now)) }
{
    for entry in entries {
        close_entry(entry, partial)?;
    }
    Ok(())
}
