//! The tuples that a function's rows have, and whether there are more.
ghost use Rattle.std.specs.Prelude.{◌≡◌, ◌*◌, ◌∷◌, [], List, fold, filter, map, IfOk, OnOk};
ghost use Rattle.std.specs.List.{filter_map};
ghost use Rattle.std.specs.Option.{option_map};
ghost use Rattle.kb_logic.specs.declared.vocabularies.TypeDecl.{TypeDecl as AType};
ghost use Rattle.kb_logic.specs.declared.elements.Elem.{Elem as AnElem};
ghost use Rattle.stage_definitions.specs.DataEntries as said;
ghost use Rattle.stage_definitions.specs.DataFacts as stated;
ghost use Rattle.stage_definitions.specs.SizesStage.{capped};
ghost use Rattle.structure_entries.specs.EntryViews.{elem_view, items_of, row_view, subject_view};
ghost use Rattle.structure_entries.specs.SaidViews.{said_view};
ghost use Rattle.data_domains.specs.TypeSets.{AreTypesOf};
ghost use Rattle.data_refusals.specs.Labels.{tuple_view, AreSameTuples};

use crate::labels::{Label, label_of};
use data_domains::lookups::{count_of, has_element};
use data_domains::types::TypeData;
use indexmap::IndexSet;
use kb_logic::Memory;
use std::alloc::Global;
use structure_entries::elements::{Element, single_element};
use structure_entries::items::RowItems;
use structure_entries::rows::Row;
use structure_entries::spots::fits_in;
use structure_entries::subjects::Subject;
use structure_entries::written::Entry;

/// Tuples, each once.
#[derive(Drop)]
pub struct Tuples<'a> {
    pub table: IndexSet<Vec<Label<'a>>>,
}

fn times(a: u64, b: u64) -> u64
    ensures { result ≡ capped (a * b) }
{
    a.saturating_mul(b)
}

/// How many tuples there are over these types, at most the greatest of 64 bits.
fn tuple_count(types: &[TypeData<'_>], args: &[u32]) -> u64
    ensures { (all : List AType) (es : List said.Said) → AreTypesOf all es types.now
        → result ≡ capped (stated.tuple_count all es args.now) }
{
    let mut count = 1u64;
    for ty in args {
        count = times(count, count_of(types, *ty as usize));
    }
    count
}

/// The arguments of a row, where it has no range.
fn single_elements<'a>(
    alloc: Global,
    items: RowItems<'a>,
) -> Result<Option<Vec<Element<'a>>>, Memory>
    ensures { IfOk result (λ read. option_map (λ xs. map elem_view xs.items) read ≡ stated.single_elements
        (items_of items.entry)) }
{
    let mut elements = Vec::new(alloc);
    let mut rest = items;
    while let Some((item, after)) = rest.split_first() {
        match single_element(item) {
            None => return Ok(None),
            Some(x) => elements.push(x)?,
        }
        rest = after;
    }
    Ok(Some(elements))
}

/// Whether each argument is an element of its type.
fn is_over<'a>(types: &[TypeData<'a>], args: &[u32], elements: &[Element<'a>]) -> bool
    ensures { (all : List AType) (es : List said.Said) → AreTypesOf all es types.now
        → result ≡ stated.is_over all es args.now (map elem_view elements.now) }
{
    for i in 0..args.len() {
        if i >= elements.len() {
            return false;
        }
        if !has_element(types, args[i] as usize, elements[i]) {
            return false;
        }
    }
    elements.len() <= args.len()
}

fn labels_of<'a>(alloc: Global, elements: &[Element<'a>]) -> Result<Vec<Label<'a>>, Memory>
    ensures { IfOk result (λ ls. tuple_view ls.items ≡ map elem_view elements.now) }
{
    let mut labels = Vec::with_capacity(alloc, elements.len())?;
    for x in elements {
        labels.push(label_of(*x))?;
    }
    Ok(labels)
}

impl<'a> Tuples<'a> {
    fn add(&mut self, tuple: Vec<Label<'a>>) -> Result<(), Memory>
        ensures { OnOk result ((ts : List (List AnElem)) → AreSameTuples
            (map (λ k. tuple_view k.items) self.old.table.keys) ts
            → AreSameTuples (map (λ k. tuple_view k.items) self.new.table.keys)
            (stated.with_tuple ts (tuple_view tuple.entry.items))) }
    {
        self.table.insert_full(tuple)?;
        Ok(())
    }

    /// The arguments of a row, if it fits, has no range and is over the types.
    fn add_row(
        &mut self,
        alloc: Global,
        types: &[TypeData<'a>],
        args: &[u32],
        subject: Subject<'a>,
        row: &Row<'a>,
    ) -> Result<(), Memory>
        ensures { OnOk result ((all : List AType) (es : List said.Said) → AreTypesOf all es types.now
            → (ts : List (List AnElem)) → AreSameTuples (map (λ k. tuple_view k.items) self.old.table.keys) ts
            → AreSameTuples (map (λ k. tuple_view k.items) self.new.table.keys)
            (fold stated.with_tuple ts (filter (stated.is_over all es args.now)
            (filter_map (λ r. stated.single_elements r.items) (filter (said.fits_in (subject_view subject.entry))
            (row_view row.now ∷ [])))))) }
    {
        if !fits_in(subject, row) {
            return Ok(());
        }
        match single_elements(alloc, row.items)? {
            None => Ok(()),
            Some(elements) => {
                if is_over(types, args, &elements) {
                    self.add(labels_of(alloc, &elements)?)
                } else {
                    Ok(())
                }
            }
        }
    }
}

/// Whether the rows of the entry have fewer tuples over these types than there are.
pub fn misses_a_tuple<'a>(
    alloc: Global,
    types: &[TypeData<'a>],
    args: &[u32],
    entry: &Entry<'a>,
) -> Result<bool, Memory>
    ensures { IfOk result (λ b. (all : List AType) (es : List said.Said) → AreTypesOf all es types.now
        → b ≡ stated.misses_a_tuple all es args.now (said_view entry.now)) }
{
    let mut tuples = Tuples {
        table: IndexSet::new(alloc),
    };
    for row in &entry.rows {
        tuples.add_row(alloc, types, args, entry.subject, row)?;
    }
    Ok((tuples.table.len() as u64) < tuple_count(types, args))
}
