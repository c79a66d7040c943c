//! What is noted of entries, of their marks and of their rows.
ghost use Rattle.std.specs.Prelude.{◌≡◌, ◌&&◌, ◌∷◌, ◌++◌, [], List, fold, map, nat_lt, not, IfOk, OnOk};
ghost use Rattle.std.specs.List.{list_all};
ghost use Rattle.kb_text.specs.declared.fault.K.TheVariants as k;
ghost use Rattle.stage_definitions.specs.Earliest.{noted_if};
ghost use Rattle.stage_definitions.specs.Elements as set;
ghost use Rattle.std.specs.Option.{option_map};
ghost use Rattle.std.specs.Str.{bytes_eq};
ghost use Rattle.kb_logic.specs.declared.vocabularies.TypeDecl.{TypeDecl as AType};
ghost use Rattle.grammar.specs.View.{name_view};
ghost use Rattle.stage_definitions.specs.Names.{place_of_name, text_of};
ghost use Rattle.stage_definitions.specs.DataEntries as said;
ghost use Rattle.stage_definitions.specs.DataDomains as domain;
ghost use Rattle.stage_definitions.specs.DataStage as stage;
ghost use Rattle.structure_entries.specs.EntryViews.{cell_view, row_view, sense_view, subject_view};
ghost use Rattle.structure_entries.specs.SaidViews.{said_view};
ghost use Rattle.data_domains.specs.Sets.{IsSetOf};
ghost use Rattle.data_domains.specs.TypeSets.{AreTypesOf};

use crate::spots::note_written;
use crate::tuples::misses_a_tuple;
use crate::types::ELEMENT_LIMIT;
use data_domains::cells::{add_given, add_made};
use data_domains::sets::ElementSet;
use data_domains::types::TypeData;
use grammar::RawName;
use kb_logic::{Memory, Symbol, TypeDecl};
use kb_text::K;
use stage_definitions::Earliest;
use std::alloc::Global;
use structure_entries::elements::Cell;
use structure_entries::rows::Row;
use structure_entries::senses::{Sense, sense_of};
use structure_entries::spots::fits_in;
use structure_entries::subjects::Subject;
use structure_entries::written::Entry;

fn same_word(a: &RawName, b: &RawName) -> bool
    ensures { result ≡ bytes_eq (text_of (name_view a.now)) (text_of (name_view b.now)) }
{
    a.text.as_slice() == b.text.as_slice()
}

/// Two entries of one word may differ only in that one says what is true, and the other what is false.
fn same_marks(a: Option<&RawName>, b: Option<&RawName>) -> bool
    ensures { result ≡ stage.same_marks (option_map (λ m. name_view m.now) a.entry)
        (option_map (λ m. name_view m.now) b.entry) }
{
    match a {
        None => true,
        Some(a) => match b {
            None => true,
            Some(b) => same_word(a, b),
        },
    }
}

/// Whether one of the entries before has the same word, and no other mark.
fn is_again(before: &[Entry<'_>], entry: &Entry<'_>) -> bool
    ensures { result ≡ stage.is_again (stage.entry (map said_view before.now) (said_view entry.now)) }
{
    for other in before {
        if same_word(other.word, entry.word) && same_marks(other.mark, entry.mark) {
            return true;
        }
    }
    false
}

fn is_unread(sense: Sense) -> bool
    ensures { result ≡ stage.is_no_mark (sense_view sense) }
{
    match sense {
        Sense::Everything => false,
        Sense::CertainlyTrue => false,
        Sense::CertainlyFalse => false,
        Sense::Unread => true,
    }
}

/// Notes a mark on a type, or one that is not read.
fn note_mark(earliest: &mut Earliest, subject: Subject<'_>, mark: Option<&RawName>)
    ensures { (all : List AType) (es : List said.Said) → earliest.new.first ≡ fold (stage.data_noted all es)
        earliest.old.first (stage.mark_uses (subject_view subject.entry)
        (option_map (λ m. name_view m.now) mark.entry)) }
{
    match mark {
        None => {}
        Some(name) => {
            let is_refused = subject.is_a_type() || is_unread(sense_of(mark));
            earliest.note_if(is_refused, K::Unsupported, name.place);
        }
    }
}

fn note_row(earliest: &mut Earliest, subject: Subject<'_>, row: &Row<'_>)
    ensures { (all : List AType) (es : List said.Said) → earliest.new.first ≡ stage.data_noted all es earliest.old.first
        (stage.row (subject_view subject.entry) (row_view row.now)) }
{
    earliest.note_if(!fits_in(subject, row), K::WrongArity, row.place);
}

/// Notes each row of another length.
fn note_rows(earliest: &mut Earliest, subject: Subject<'_>, rows: &[Row<'_>])
    ensures { (all : List AType) (es : List said.Said) → earliest.new.first ≡ fold (stage.data_noted all es)
        earliest.old.first (map (stage.row (subject_view subject.entry)) (map row_view rows.now)) }
{
    for row in rows {
        note_row(earliest, subject, row);
    }
}

fn made_of<'a>(alloc: Global, decl: &'a TypeDecl) -> Result<Vec<Cell<'a>>, Memory>
    ensures { IfOk result (λ cells. map cell_view cells.items ≡ domain.made_cells decl.now) }
{
    let mut cells = Vec::new(alloc);
    add_made(decl, &mut cells)?;
    Ok(cells)
}

fn given_by<'a>(alloc: Global, entry: &Entry<'a>) -> Result<Vec<Cell<'a>>, Memory>
    ensures { IfOk result (λ cells. map cell_view cells.items ≡ domain.cells_given (said_view entry.now)) }
{
    let mut cells = Vec::new(alloc);
    add_given(alloc, entry, &mut cells)?;
    Ok(cells)
}

/// Whether each of these cells is covered by the set.
fn are_covered<'a>(elements: &ElementSet<'a>, cells: &[Cell<'a>]) -> bool
    ensures { (others : List set.Cell) → IsSetOf others elements.now → result ≡ list_all (set.is_covered others)
        (map cell_view cells.now) }
{
    for cell in cells {
        if !elements.covers(*cell) {
            return false;
        }
    }
    true
}

fn not_both(a: bool, b: bool) -> bool
    ensures { result ≡ not (a && b) }
{
    !a || !b
}

/// Whether a constructed type is given another set than its names.
fn is_other_set<'a>(alloc: Global, decl: &'a TypeDecl, entry: &Entry<'a>) -> Result<bool, Memory>
    ensures { IfOk result (λ b. b ≡ stage.is_other_set (domain.made_cells decl.now)
        (domain.cells_given (said_view entry.now))) }
{
    let made = made_of(alloc, decl)?;
    let given = given_by(alloc, entry)?;
    let made_set = ElementSet::of(alloc, &made)?;
    let given_set = ElementSet::of(alloc, &given)?;
    let are_given = are_covered(&given_set, &made);
    let are_made = are_covered(&made_set, &given);
    Ok(not_both(are_given, are_made))
}

/// Whether a function without a mark misses a value.
fn is_partial<'a>(
    alloc: Global,
    types: &[TypeData<'a>],
    symbol: &Symbol,
    entry: &Entry<'a>,
) -> Result<bool, Memory>
    ensures { IfOk result (λ b. (all : List AType) (es : List said.Said) → AreTypesOf all es types.now
        → b ≡ stage.is_partial all es (said_view entry.now).mark symbol.now (said_view entry.now)) }
{
    if entry.mark.is_none() && symbol.value.is_some() {
        misses_a_tuple(alloc, types, symbol.args.as_slice(), entry)
    } else {
        Ok(false)
    }
}

/// Whether a constructed type has another set, or a function misses a value.
fn is_not_whole<'a>(
    alloc: Global,
    types: &[TypeData<'a>],
    entry: &Entry<'a>,
) -> Result<bool, Memory>
    ensures { IfOk result (λ b. (all : List AType) (es : List said.Said) → AreTypesOf all es types.now
        → b ≡ stage.is_not_whole all es (said_view entry.now) (said_view entry.now).subject) }
{
    match entry.subject {
        Subject::Nothing => Ok(false),
        Subject::OfElement => Ok(false),
        Subject::OfType(_, decl) => {
            if decl.made.is_empty() {
                Ok(false)
            } else {
                is_other_set(alloc, decl, entry)
            }
        }
        Subject::OfSymbol(_, symbol) => is_partial(alloc, types, symbol, entry),
    }
}

/// Whether a type's list has too many elements.
fn is_too_large(alloc: Global, entry: &Entry<'_>) -> Result<bool, Memory>
    ensures { IfOk result (λ b. b ≡ (said.is_a_type (said_view entry.now).subject && nat_lt stage.element_limit
        (set.count_of (domain.cells_given (said_view entry.now))))) }
{
    if entry.subject.is_a_type() {
        let given = given_by(alloc, entry)?;
        let elements = ElementSet::of(alloc, &given)?;
        Ok(ELEMENT_LIMIT < elements.count())
    } else {
        Ok(false)
    }
}

/// Notes a second entry; where it would not count, none is sought.
fn note_again(earliest: &mut Earliest, before: &[Entry<'_>], entry: &Entry<'_>)
    ensures { earliest.new.first ≡ noted_if (stage.is_again (stage.entry (map said_view before.now)
        (said_view entry.now))) k.Redeclared (place_of_name (said_view entry.now).word) earliest.old.first }
{
    let place = entry.word.place;
    if !earliest.stands_before(place) {
        earliest.note_if(is_again(before, entry), K::Redeclared, place);
    }
}

/// Notes an entry, at its word.
fn note_entry<'a>(
    alloc: Global,
    earliest: &mut Earliest,
    types: &[TypeData<'a>],
    before: &[Entry<'a>],
    entry: &Entry<'a>,
) -> Result<(), Memory>
    ensures { OnOk result ((all : List AType) (es : List said.Said) → AreTypesOf all es types.now → earliest.new.first
        ≡ stage.data_noted all es earliest.old.first (stage.entry (map said_view before.now) (said_view entry.now))) }
{
    let place = entry.word.place;
    let is_nothing = entry.subject.is_nothing();
    earliest.note_if(is_nothing, K::UnknownName, place);
    note_again(earliest, before, entry);
    earliest.note_if(!is_nothing && !entry.fits, K::WrongArity, place);
    earliest.note_if(is_not_whole(alloc, types, entry)?, K::DataClash, place);
    earliest.note_if(is_too_large(alloc, entry)?, K::TooLarge, place);
    Ok(())
}

/// Notes an entry after these: its word, its mark, its rows, and what stands in these.
fn note_whole<'a>(
    alloc: Global,
    earliest: &mut Earliest,
    types: &[TypeData<'a>],
    before: &[Entry<'a>],
    entry: &Entry<'a>,
) -> Result<(), Memory>
    ensures { OnOk result ((all : List AType) (es : List said.Said) → AreTypesOf all es types.now → earliest.new.first
        ≡ fold (stage.data_noted all es) earliest.old.first (stage.uses_of_entry (map said_view before.now)
        (said_view entry.now))) }
{
    note_entry(alloc, earliest, types, before, entry)?;
    note_mark(earliest, entry.subject, entry.mark);
    note_rows(earliest, entry.subject, &entry.rows);
    note_written(alloc, earliest, types, entry)
}

/// Notes each entry.
pub fn note_entries<'a>(
    alloc: Global,
    earliest: &mut Earliest,
    types: &[TypeData<'a>],
    entries: &[Entry<'a>],
) -> Result<(), Memory>
    ensures { OnOk result ((all : List AType) (es : List said.Said) → AreTypesOf all es types.now → earliest.new.first
        ≡ fold (stage.data_noted all es) earliest.old.first (stage.uses_of_entries [] (map said_view entries.now))) }
{
    for i in 0..entries.len() {
        note_whole(alloc, earliest, types, &entries[..i], &entries[i])?;
    }
    Ok(())
}
