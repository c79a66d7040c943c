//! What rows say of atoms, in a partial structure.
ghost use Rattle.std.specs.Prelude.{◌≡◌, ◌≤◌, ◌+ℤ◌, pos, ◌∷◌, [], map, OnOk, IfOk};
ghost use Rattle.std.specs.List.{AllByRecursion};
ghost use Rattle.kb_logic.specs.declared.elements.Elem.TheVariants as elem;
ghost use Rattle.kb_logic.specs.Models.{IsAtomOver, atom_of};
ghost use Rattle.partial_structures.specs.KnownAtoms.{value_at, with_false, with_true};
ghost use Rattle.partial_structures.specs.declared.truths.Truth.TheVariants.{No, Yes};
ghost use Rattle.stage_definitions.specs.DataFacts.{facts_in, facts_of};
ghost use Rattle.stage_definitions.specs.Elements.{span};
ghost use Rattle.stage_definitions.specs.Elements as set;
ghost use Rattle.structure_entries.specs.EntryViews.{fact_view};
ghost use Rattle.structure_entries.specs.SaidViews.{said_view};
ghost use Rattle.structure_entries.specs.WholeViews.{whole_view};
ghost use Rattle.data_filling.specs.Filling.{Adds, IsFactOver, IsOpenTo, atom_with, fact_with};

use crate::elements::{elems_of, number, value_of};
use crate::rows::{add_rows, have_range};
use crate::together::add_together;
use kb_logic::{ElemList, Literal, Memory};
use partial_structures::{Partial, SetError};
use std::alloc::Global;
use structure_entries::elements::Cell;
use structure_entries::facts::{Fact, add_facts};
use structure_entries::senses::{Sense, sense_of};
use structure_entries::wholes::Whole;
use structure_entries::written::Entry;

/// The number of a symbol in 32 bits; there are never so many that it has none.
pub fn symbol_number(symbol: usize) -> Result<u32, Memory>
    ensures { IfOk result (λ s. s ≡ symbol) }
{
    if symbol > 0xffff_ffff {
        return Err(Memory);
    }
    Ok(symbol as u32)
}

/// Makes an atom true that is not false.
fn affirm(partial: &mut Partial, atom: &Literal) -> Result<(), Memory>
    requires over { IsAtomOver partial.old.symbols partial.old.domains (atom_of atom.now) }
    requires free { value_at partial.old (atom_of atom.now) ≡ No → ⊥ }
    ensures { OnOk result (partial.new ≡ with_true partial.old (atom_of atom.now)) }
{
    match partial.set_true(atom) {
        Ok(()) => Ok(()),
        Err(SetError::Memory) => Err(Memory),
        Err(SetError::DataClash) => unreachable!(),
    }
}

/// Makes an atom false that is not true.
fn deny(partial: &mut Partial, atom: &Literal) -> Result<(), Memory>
    requires over { IsAtomOver partial.old.symbols partial.old.domains (atom_of atom.now) }
    requires free { value_at partial.old (atom_of atom.now) ≡ Yes → ⊥ }
    ensures { OnOk result (partial.new ≡ with_false partial.old (atom_of atom.now)) }
{
    match partial.set_false(atom) {
        Ok(()) => Ok(()),
        Err(SetError::Memory) => Err(Memory),
        Err(SetError::DataClash) => unreachable!(),
    }
}

/// The atom of a fact with these arguments.
fn atom(alloc: Global, fact: &Fact<'_>, args: ElemList) -> Result<Literal, Memory>
    ensures { IfOk result (λ l. atom_of l ≡ atom_with (fact_view fact.now) args) }
{
    let symbol = symbol_number(fact.symbol)?;
    let value = value_of(alloc, fact.value)?;
    Ok(Literal {
        positive: fact.holds,
        symbol,
        args,
        value,
    })
}

/// What a fact says of the atom with these arguments.
fn add_tuple(
    alloc: Global,
    fact: &Fact<'_>,
    args: ElemList,
    partial: &mut Partial,
) -> Result<(), Memory>
    requires over { IsFactOver partial.old.symbols partial.old.domains (fact_with (fact_view fact.now) args) }
    requires open_to { IsOpenTo partial.old (fact_with (fact_view fact.now) args ∷ []) }
    ensures { OnOk result (Adds partial.old partial.new (fact_with (fact_view fact.now) args ∷ [])) }
{
    let atom = atom(alloc, fact, args)?;
    if fact.holds {
        affirm(partial, &atom)
    } else {
        deny(partial, &atom)
    }
}

/// What a fact says of the atom whose one argument is the integer so many places after this one.
fn add_number(
    alloc: Global,
    fact: &Fact<'_>,
    low: Whole,
    k: usize,
    partial: &mut Partial,
) -> Result<(), Memory>
    requires small { k ≤ 2000001 }
    requires over { IsFactOver partial.old.symbols partial.old.domains
        (fact_with (fact_view fact.now) (elem.Num (whole_view low +ℤ pos k) ∷ [])) }
    requires open_to { IsOpenTo partial.old (fact_with (fact_view fact.now)
        (elem.Num (whole_view low +ℤ pos k) ∷ []) ∷ []) }
    ensures { OnOk result (Adds partial.old partial.new (fact_with (fact_view fact.now)
        (elem.Num (whole_view low +ℤ pos k) ∷ []) ∷ [])) }
{
    let mut args = ElemList::new(alloc);
    args.push(number(number_after(low, k))?)?;
    add_tuple(alloc, fact, args, partial)
}

/// What a fact says whose one argument is each of these integers. No domain has more than two million.
fn add_range(
    alloc: Global,
    fact: &Fact<'_>,
    low: Whole,
    high: Whole,
    partial: &mut Partial,
) -> Result<(), Memory>
    requires range { (fact_view fact.now).args ≡ span (whole_view low) (whole_view high) ∷ [] }
    requires over { IsFactOver partial.old.symbols partial.old.domains (fact_view fact.now) }
    requires open_to { IsOpenTo partial.old (fact_view fact.now ∷ []) }
    ensures { OnOk result (Adds partial.old partial.new (fact_view fact.now ∷ [])) }
{
    let count = size_of(low, high)?;
    for k in 0..count {
        add_number(alloc, fact, low, k, partial)?;
    }
    Ok(())
}

/// The integer that stands so many places after this one.
fn number_after(low: Whole, k: usize) -> i128
    requires { k ≤ 2000001 }
    ensures { result ≡ whole_view low +ℤ pos k }
{
    low.value() + k as i128
}

/// How many integers there are from the first to the second; no domain has more than two million.
fn size_of(low: Whole, high: Whole) -> Result<usize, Memory>
    ensures size { IfOk result (λ n. n ≡ set.size_of (set.as_interval (whole_view low) (whole_view high))) }
    ensures small { IfOk result (λ n. n ≤ 2000001) }
{
    let first = low.value();
    let last = high.value();
    if last < first {
        return Ok(0);
    }
    if last - first > 2_000_000 {
        return Err(Memory);
    }
    Ok((last - first) as usize + 1)
}

/// What a fact says. A range is its only argument.
fn add_fact(alloc: Global, fact: &Fact<'_>, partial: &mut Partial) -> Result<(), Memory>
    requires over { IsFactOver partial.old.symbols partial.old.domains (fact_view fact.now) }
    requires open_to { IsOpenTo partial.old (fact_view fact.now ∷ []) }
    ensures { OnOk result (Adds partial.old partial.new (fact_view fact.now ∷ [])) }
{
    match fact.args.as_slice() {
        [Cell::Span(low, high)] => add_range(alloc, fact, *low, *high, partial),
        cells => match elems_of(alloc, cells)? {
            Some(args) => add_tuple(alloc, fact, args, partial),
            None => Err(Memory),
        },
    }
}

/// What some facts say.
pub(crate) fn add_each(
    alloc: Global,
    facts: &[Fact<'_>],
    partial: &mut Partial,
) -> Result<(), Memory>
    requires over { AllByRecursion (IsFactOver partial.old.symbols partial.old.domains) (map fact_view facts.now) }
    requires open_to { IsOpenTo partial.old (map fact_view facts.now) }
    ensures { OnOk result (Adds partial.old partial.new (map fact_view facts.now)) }
{
    for fact in facts {
        add_fact(alloc, fact, partial)?;
    }
    Ok(())
}

/// What an entry says of atoms, where the arguments that stand alone are made a set first.
fn add_as_set(alloc: Global, entry: &Entry<'_>, partial: &mut Partial) -> Result<(), Memory>
    requires over { AllByRecursion (IsFactOver partial.old.symbols partial.old.domains)
        (facts_of (said_view entry.now)) }
    requires open_to { IsOpenTo partial.old (facts_of (said_view entry.now)) }
    ensures { OnOk result (Adds partial.old partial.new (facts_of (said_view entry.now))) }
{
    let mut facts = Vec::new(alloc);
    add_facts(alloc, entry, &mut facts)?;
    add_together(alloc, &facts, partial)
}

/// What an entry says of atoms.
fn add_entry(alloc: Global, entry: &Entry<'_>, partial: &mut Partial) -> Result<(), Memory>
    requires over { AllByRecursion (IsFactOver partial.old.symbols partial.old.domains)
        (facts_of (said_view entry.now)) }
    requires open_to { IsOpenTo partial.old (facts_of (said_view entry.now)) }
    ensures { OnOk result (Adds partial.old partial.new (facts_of (said_view entry.now))) }
{
    // Only in a plain list may ranges stand, so the rows of all others are not looked at for them.
    if entry.subject.is_plain_list() && have_range(entry) {
        return add_as_set(alloc, entry, partial);
    }
    match sense_of(entry.mark) {
        Sense::Everything => add_rows(alloc, true, entry, partial),
        Sense::CertainlyTrue => add_rows(alloc, true, entry, partial),
        Sense::CertainlyFalse => add_rows(alloc, false, entry, partial),
        Sense::Unread => Ok(()),
    }
}

/// What entries say of atoms.
pub fn add_entries(
    alloc: Global,
    entries: &[Entry<'_>],
    partial: &mut Partial,
) -> Result<(), Memory>
    requires over { AllByRecursion (IsFactOver partial.old.symbols partial.old.domains)
        (facts_in (map said_view entries.now)) }
    requires open_to { IsOpenTo partial.old (facts_in (map said_view entries.now)) }
    ensures { OnOk result (Adds partial.old partial.new (facts_in (map said_view entries.now))) }
{
    for entry in entries {
        add_entry(alloc, entry, partial)?;
    }
    Ok(())
}
