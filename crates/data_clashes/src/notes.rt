//! What is noted of rows that clash.
ghost use Rattle.std.specs.Prelude.{◌≡◌, ◌++◌, ◌∷◌, [], Contains, IfSome, IsTrue, List, None, false, fold, map};
ghost use Rattle.std.specs.Prelude.{OnOk};
ghost use Rattle.kb_logic.specs.declared.vocabularies.TypeDecl.{TypeDecl as AType};
ghost use Rattle.stage_definitions.specs.DataEntries as said;
ghost use Rattle.stage_definitions.specs.DataFacts as stated;
ghost use Rattle.stage_definitions.specs.DataStage as stage;
ghost use Rattle.structure_entries.specs.EntryViews.{cell_view, fact_view};
ghost use Rattle.data_clashes.specs.SinglesViews.{AreSinglesOf};
ghost use Rattle.data_clashes.specs.Tables.{IsKept};

use crate::clashes::clashes_with;
use crate::singles::Singles;
use crate::tables::Table;
use kb_logic::Memory;
use kb_text::K;
use stage_definitions::Earliest;
use std::alloc::Global;
use structure_entries::elements::Cell;
use structure_entries::facts::Fact;

/// Notes a fact that clashes with one of these; where it would not count, none is sought.
fn note_fact(earliest: &mut Earliest, before: &[Fact<'_>], fact: &Fact<'_>)
    ensures { (all : List AType) (es : List said.Said) → earliest.new.first ≡ stage.data_noted all es earliest.old.first
        (stage.fact (map fact_view before.now) (fact_view fact.now)) }
{
    if !earliest.stands_before(fact.place) {
        earliest.note_if(clashes_with(before, fact), K::DataClash, fact.place);
    }
}

/// Notes a fact that clashes with one of these, unless it is clear that it does not.
fn note_unless(is_clear: bool, earliest: &mut Earliest, before: &[Fact<'_>], fact: &Fact<'_>)
    requires { IsTrue is_clear → stated.clashes_with (map fact_view before.now) (fact_view fact.now) ≡ false }
    ensures { (all : List AType) (es : List said.Said) → earliest.new.first ≡ stage.data_noted all es earliest.old.first
        (stage.fact (map fact_view before.now) (fact_view fact.now)) }
{
    if !is_clear {
        note_fact(earliest, before, fact);
    }
}

/// The only argument of a fact that has one alone, and no value.
fn only_argument<'a>(fact: &Fact<'a>) -> Option<Cell<'a>>
    ensures { IfSome result (λ c. (map cell_view fact.now.args.items ≡ cell_view c ∷ []) × (fact.now.value ≡ None)) }
{
    if fact.value.is_some() {
        return None;
    }
    match fact.args.as_slice() {
        [cell] => Some(*cell),
        [] => None,
        [_, _, ..] => None,
    }
}

/// Notes a fact with this only argument that clashes with one before it; where it would not count, none is sought.
fn note_single<'a>(
    alloc: Global,
    earliest: &mut Earliest,
    singles: &mut Singles<'a>,
    fact: &Fact<'a>,
    cell: Cell<'a>,
) -> Result<(), Memory>
    requires only { map cell_view fact.now.args.items ≡ cell_view cell ∷ [] }
    requires plain { fact.now.value ≡ None }
    ensures noted { OnOk result ((all : List AType) (es : List said.Said) (before : List stated.Fact)
        → AreSinglesOf before singles.old → earliest.new.first ≡ stage.data_noted all es earliest.old.first
        (stage.fact before (fact_view fact.now))) }
    ensures kept { OnOk result ((before : List stated.Fact) → AreSinglesOf before singles.old
        → AreSinglesOf before singles.new) }
{
    if earliest.stands_before(fact.place) {
        return Ok(());
    }
    let clash = singles.do_clash(alloc, fact, cell)?;
    earliest.note_if(clash, K::DataClash, fact.place);
    Ok(())
}

/// Notes such a fact, and adds it to the singles; the table compares no other fact of its symbol by hash.
fn note_plain<'a>(
    alloc: Global,
    earliest: &mut Earliest,
    table: &mut Table<'a>,
    singles: &mut Singles<'a>,
    before: &[Fact<'a>],
    fact: &Fact<'a>,
    cell: Cell<'a>,
) -> Result<(), Memory>
    requires singles { AreSinglesOf (map fact_view before.now) singles.old }
    requires table { (f : stated.Fact) → Contains (map fact_view before.now) f → IsKept table.old f }
    requires only { map cell_view fact.now.args.items ≡ cell_view cell ∷ [] }
    requires plain { fact.now.value ≡ None }
    ensures noted { OnOk result ((all : List AType) (es : List said.Said) → earliest.new.first
        ≡ stage.data_noted all es earliest.old.first (stage.fact (map fact_view before.now) (fact_view fact.now))) }
    ensures singles { OnOk result (AreSinglesOf (map fact_view before.now ++ fact_view fact.now ∷ []) singles.new) }
    ensures kept { OnOk result ((f : stated.Fact) → IsKept table.old f → IsKept table.new f) }
    ensures own { OnOk result (IsKept table.new (fact_view fact.now)) }
{
    note_single(alloc, earliest, singles, fact, cell)?;
    table.widen(fact.symbol)?;
    singles.push(alloc, fact)?;
    Ok(())
}

/// Notes any other fact that clashes with one before it, and adds it to the table and the singles.
fn note_other<'a>(
    alloc: Global,
    earliest: &mut Earliest,
    table: &mut Table<'a>,
    singles: &mut Singles<'a>,
    before: &[Fact<'a>],
    fact: &Fact<'a>,
) -> Result<(), Memory>
    requires singles { AreSinglesOf (map fact_view before.now) singles.old }
    requires table { (f : stated.Fact) → Contains (map fact_view before.now) f → IsKept table.old f }
    ensures noted { OnOk result ((all : List AType) (es : List said.Said) → earliest.new.first
        ≡ stage.data_noted all es earliest.old.first (stage.fact (map fact_view before.now) (fact_view fact.now))) }
    ensures singles { OnOk result (AreSinglesOf (map fact_view before.now ++ fact_view fact.now ∷ []) singles.new) }
    ensures kept { OnOk result ((f : stated.Fact) → IsKept table.old f → IsKept table.new f) }
    ensures own { OnOk result (IsKept table.new (fact_view fact.now)) }
{
    let is_clear = table.add(alloc, fact)?;
    note_unless(is_clear, earliest, before, fact);
    singles.push(alloc, fact)?;
    Ok(())
}

/// Notes a fact that clashes with one of these, which the table and the singles have, and adds it to them.
fn note_next<'a>(
    alloc: Global,
    earliest: &mut Earliest,
    table: &mut Table<'a>,
    singles: &mut Singles<'a>,
    before: &[Fact<'a>],
    fact: &Fact<'a>,
) -> Result<(), Memory>
    requires singles { AreSinglesOf (map fact_view before.now) singles.old }
    requires table { (f : stated.Fact) → Contains (map fact_view before.now) f → IsKept table.old f }
    ensures noted { OnOk result ((all : List AType) (es : List said.Said) → earliest.new.first
        ≡ stage.data_noted all es earliest.old.first (stage.fact (map fact_view before.now) (fact_view fact.now))) }
    ensures singles { OnOk result (AreSinglesOf (map fact_view before.now ++ fact_view fact.now ∷ []) singles.new) }
    ensures kept { OnOk result ((f : stated.Fact) → IsKept table.old f → IsKept table.new f) }
    ensures own { OnOk result (IsKept table.new (fact_view fact.now)) }
{
    match only_argument(fact) {
        Some(cell) => note_plain(alloc, earliest, table, singles, before, fact, cell),
        None => note_other(alloc, earliest, table, singles, before, fact),
    }
}

/// Notes each fact that clashes with one before it.
pub fn note_clashes<'a>(
    alloc: Global,
    earliest: &mut Earliest,
    facts: &[Fact<'a>],
) -> Result<(), Memory>
    ensures { OnOk result ((all : List AType) (es : List said.Said) → earliest.new.first
        ≡ fold (stage.data_noted all es) earliest.old.first (stage.uses_of_facts [] (map fact_view facts.now))) }
{
    let mut table = Table::new(alloc);
    let mut singles = Singles::new(alloc);
    for i in 0..facts.len() {
        note_next(
            alloc,
            earliest,
            &mut table,
            &mut singles,
            &facts[..i],
            &facts[i],
        )?;
    }
    Ok(())
}
