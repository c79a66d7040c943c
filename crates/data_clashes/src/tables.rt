//! Facts by hash, so that most are seen to clash with none before them without a look at these.
ghost use Rattle.std.specs.Prelude.{◌≡◌, ℕ, None, Option, Some, List, IsTrue, IfSome, false, map, IfOk, OnOk};
ghost use Rattle.std.specs.Option.{option_map};
ghost use Rattle.kb_logic.specs.declared.elements.Elem.{Elem as AnElem};
ghost use Rattle.stage_definitions.specs.Elements.{one, same_element};
ghost use Rattle.stage_definitions.specs.DataFacts as stated;
ghost use Rattle.structure_entries.specs.EntryViews.{cell_view, elem_view, fact_view};
ghost use Rattle.data_refusals.specs.Labels.{label_view, tuple_view};
ghost use Rattle.data_clashes.specs.Tables.{is_clear, is_denied, is_wide, value_in, IsKept};

use crate::keys::Key;
use data_refusals::labels::{Label, label_of};
use indexmap::{IndexMap, IndexSet};
use kb_logic::Memory;
use std::alloc::Global;
use structure_entries::elements::{Cell, Element};
use structure_entries::facts::Fact;

/// The values of rows that hold by the rows, the atoms that are false, and the symbols whose facts are compared one by
/// one, since a range is among them or one was not clear.
#[derive(Drop)]
pub struct Table<'a> {
    pub values: IndexMap<Key<'a>, Option<Label<'a>>>,
    pub denied: IndexSet<Key<'a>>,
    pub wide: IndexSet<usize>,
}

/// The arguments of a fact that has no range.
fn labels_of<'a>(alloc: Global, cells: &[Cell<'a>]) -> Result<Option<Vec<Label<'a>>>, Memory>
    ensures { IfOk result (λ o. IfSome o (λ ls. map cell_view cells.now ≡ map (λ x. one x) (tuple_view ls.items))) }
{
    let mut labels = Vec::with_capacity(alloc, cells.len())?;
    for cell in cells {
        match cell {
            Cell::One(x) => labels.push(label_of(*x))?,
            Cell::Span(_, _) => return Ok(None),
        }
    }
    Ok(Some(labels))
}

fn value_label<'a>(value: Option<Element<'a>>) -> Option<Label<'a>>
    ensures { option_map label_view result ≡ option_map elem_view value.entry }
{
    match value {
        Some(x) => Some(label_of(x)),
        None => None,
    }
}

fn same_label(a: Label<'_>, b: Label<'_>) -> bool
    ensures { result ≡ same_element (label_view a.entry) (label_view b.entry) }
{
    match a {
        Label::Word(a) => match b {
            Label::Word(b) => a == b,
            Label::Number(_) => false,
        },
        Label::Number(a) => match b {
            Label::Word(_) => false,
            Label::Number(b) => a == b,
        },
    }
}

fn same_value(a: Option<Label<'_>>, b: Option<Label<'_>>) -> bool
    ensures { result ≡ stated.same_value_of (option_map label_view a.entry) (option_map label_view b.entry) }
{
    match a {
        None => b.is_none(),
        Some(a) => match b {
            None => false,
            Some(b) => same_label(a, b),
        },
    }
}

/// Whether a fact clashes with none, with what stands beside its arguments, and whether its atom is denied.
fn is_clear(
    holds: bool,
    known: Option<Option<Label<'_>>>,
    value: Option<Label<'_>>,
    denied: bool,
) -> bool
    ensures { result ≡ is_clear holds (option_map (λ v. option_map label_view v) known.entry)
        (option_map label_view value.entry) denied }
{
    match known {
        None => !holds || !denied,
        Some(known) => {
            if holds {
                same_value(known, value) && !denied
            } else {
                !same_value(known, value)
            }
        }
    }
}

impl<'a> Table<'a> {
    /// A table without facts: no value stands in it, no atom is denied, and each symbol's facts are found by hash.
    pub fn new(alloc: Global) -> Table<'a>
        ensures values { (s : ℕ) (xs : List AnElem) → value_in result.values.entries s xs ≡ None }
        ensures denied { (s : ℕ) (xs : List AnElem) (v : Option AnElem) → is_denied result.denied.keys s xs v ≡ false }
        ensures wide { (s : ℕ) → is_wide result.wide.keys s ≡ false }
    {
        Table {
            values: IndexMap::new(alloc),
            denied: IndexSet::new(alloc),
            wide: IndexSet::new(alloc),
        }
    }

    /// From now on the symbol's facts are compared one by one.
    pub fn widen(&mut self, symbol: usize) -> Result<(), Memory>
        ensures kept { OnOk result ((f : stated.Fact) → IsKept self.old f → IsKept self.new f) }
        ensures wide { OnOk result (IsTrue (is_wide self.new.wide.keys symbol)) }
    {
        self.wide.insert_full(symbol)?;
        Ok(())
    }

    /// The value that stands beside a row.
    fn value_of(&self, row: &Key<'a>) -> Option<Option<Label<'a>>>
        requires { row.now.value ≡ None }
        ensures { option_map (λ v. option_map label_view v) result ≡ value_in self.now.values.entries row.now.symbol
            (tuple_view row.now.args.items) }
    {
        match self.values.get(row) {
            Some(value) => Some(*value),
            None => None,
        }
    }

    fn is_denied(&self, atom: &Key<'a>) -> bool
        ensures { result ≡ is_denied self.now.denied.keys atom.now.symbol (tuple_view atom.now.args.items)
            (option_map label_view atom.now.value) }
    {
        self.denied.contains(atom)
    }

    /// The value of a row that has none yet.
    fn enter_value(&mut self, row: Key<'a>, value: Option<Label<'a>>) -> Result<(), Memory>
        requires none { row.value ≡ None }
        requires absent { value_in self.old.values.entries row.symbol (tuple_view row.args.items) ≡ None }
        ensures kept { OnOk result ((f : stated.Fact) → IsKept self.old f → IsKept self.new f) }
        ensures own { OnOk result (value_in self.new.values.entries row.entry.symbol (tuple_view row.entry.args.items)
            ≡ Some (option_map label_view value.entry)) }
    {
        self.values.insert(row, value)?;
        Ok(())
    }

    fn enter_denied(&mut self, atom: Key<'a>) -> Result<(), Memory>
        ensures kept { OnOk result ((f : stated.Fact) → IsKept self.old f → IsKept self.new f) }
        ensures own { OnOk result (IsTrue (is_denied self.new.denied.keys atom.entry.symbol
            (tuple_view atom.entry.args.items) (option_map label_view atom.entry.value))) }
    {
        self.denied.insert_full(atom)?;
        Ok(())
    }

    /// Adds a fact with these arguments, whose symbol is not compared one by one, if it is clear.
    fn add_clear(
        &mut self,
        alloc: Global,
        fact: &Fact<'a>,
        args: Vec<Label<'a>>,
    ) -> Result<bool, Memory>
        requires args { map cell_view fact.now.args.items ≡ map (λ x. one x) (tuple_view args.items) }
        requires narrow { is_wide self.old.wide.keys fact.now.symbol ≡ false }
        ensures kept { OnOk result ((f : stated.Fact) → IsKept self.old f → IsKept self.new f) }
        ensures own { OnOk result (IsKept self.new (fact_view fact.now)) }
        ensures clear { IfOk result (λ b. IsTrue b → (f : stated.Fact) → IsKept self.old f
            → stated.do_clash f (fact_view fact.now) ≡ false) }
    {
        let row = Key {
            symbol: fact.symbol,
            args: Vec::from_slice(alloc, &args)?,
            value: None,
        };
        let value = value_label(fact.value);
        let atom = Key {
            symbol: fact.symbol,
            args,
            value,
        };
        let known = self.value_of(&row);
        if !is_clear(fact.holds, known, value, self.is_denied(&atom)) {
            self.widen(fact.symbol)?;
            return Ok(false);
        }
        if !fact.holds {
            self.enter_denied(atom)?;
            return Ok(true);
        }
        if known.is_none() {
            self.enter_value(row, value)?;
        }
        Ok(true)
    }

    /// Adds a fact, and says whether it is certain to clash with none that was added.
    pub fn add(&mut self, alloc: Global, fact: &Fact<'a>) -> Result<bool, Memory>
        ensures kept { OnOk result ((f : stated.Fact) → IsKept self.old f → IsKept self.new f) }
        ensures own { OnOk result (IsKept self.new (fact_view fact.now)) }
        ensures clear { IfOk result (λ b. IsTrue b → (f : stated.Fact) → IsKept self.old f
            → stated.do_clash f (fact_view fact.now) ≡ false) }
    {
        if self.wide.contains(&fact.symbol) {
            return Ok(false);
        }
        match labels_of(alloc, &fact.args)? {
            None => {
                self.widen(fact.symbol)?;
                Ok(false)
            }
            Some(args) => self.add_clear(alloc, fact, args),
        }
    }
}
