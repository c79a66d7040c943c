//! Whether a fact with one argument and no value clashes with one before it.
ghost use Rattle.std.specs.Prelude.{◌≡◌, ◌++◌, ◌∷◌, [], true, None, List, IfOk, OnOk, map};
ghost use Rattle.stage_definitions.specs.DataFacts as stated;
ghost use Rattle.structure_entries.specs.EntryViews.{cell_view, fact_view};
ghost use Rattle.data_clashes.specs.SinglesViews.{AreSinglesOf};

use crate::runs::Runs;
use data_domains::sets::ElementSet;
use indexmap::IndexSet;
use kb_logic::Memory;
use std::alloc::Global;
use structure_entries::elements::Cell;
use structure_entries::facts::Fact;

/// The arguments of facts, and what stands against facts of this symbol and sign and without a value, if that is known:
/// the rows of an entry have the same.
#[derive(Drop)]
pub struct Singles<'a> {
    pub runs: Runs<'a>,
    pub symbol: usize,
    pub holds: bool,
    pub is_known: bool,
    pub elements: ElementSet<'a>,
}

impl<'a> Singles<'a> {
    pub fn new(alloc: Global) -> Singles<'a>
        ensures { AreSinglesOf [] result }
    {
        let runs = Runs::new(alloc);
        Singles {
            runs,
            symbol: 0,
            holds: false,
            is_known: false,
            elements: ElementSet {
                words: IndexSet::new(alloc),
                intervals: Vec::new(alloc),
            },
        }
    }

    /// Whether it is known what stands against such a fact.
    fn is_for(&self, fact: &Fact<'a>) -> bool
        ensures { result ≡ true → (self.now.is_known ≡ true) × (self.now.symbol ≡ fact.now.symbol)
            × (self.now.holds ≡ fact.now.holds) }
    {
        self.is_known && self.symbol == fact.symbol && self.holds == fact.holds
    }

    /// Whether the fact stands against none of those.
    fn keeps(&self, fact: &Fact<'a>) -> bool
        ensures { result ≡ true → (self.now.is_known ≡ true) × (self.now.symbol ≡ fact.now.symbol)
            × (self.now.holds ≡ fact.now.holds) × (fact.now.value ≡ None) }
    {
        if fact.value.is_some() {
            return false;
        }
        self.is_for(fact)
    }

    /// One more fact.
    pub fn push(&mut self, alloc: Global, fact: &Fact<'a>) -> Result<(), Memory>
        ensures { OnOk result ((before : List stated.Fact) → AreSinglesOf before self.old
            → AreSinglesOf (before ++ fact_view fact.now ∷ []) self.new) }
    {
        self.is_known = self.keeps(fact);
        self.runs.push(alloc, fact)?;
        Ok(())
    }

    /// From now on it is known what stands against such a fact.
    fn face(&mut self, alloc: Global, fact: &Fact<'a>) -> Result<(), Memory>
        ensures kept { OnOk result ((before : List stated.Fact) → AreSinglesOf before self.old
            → AreSinglesOf before self.new) }
        ensures known { OnOk result ((self.new.is_known ≡ true) × (self.new.symbol ≡ fact.now.symbol)
            × (self.new.holds ≡ fact.now.holds)) }
    {
        if self.is_for(fact) {
            return Ok(());
        }
        self.elements = self.runs.against(alloc, fact.symbol, fact.holds)?;
        self.symbol = fact.symbol;
        self.holds = fact.holds;
        self.is_known = true;
        Ok(())
    }

    /// Whether a fact whose only argument is this cell, and which has no value, clashes with one before it.
    pub fn do_clash(
        &mut self,
        alloc: Global,
        fact: &Fact<'a>,
        cell: Cell<'a>,
    ) -> Result<bool, Memory>
        requires only { map cell_view fact.now.args.items ≡ cell_view cell ∷ [] }
        requires plain { fact.now.value ≡ None }
        ensures clash { IfOk result (λ b. (before : List stated.Fact) → AreSinglesOf before self.old
            → b ≡ stated.clashes_with before (fact_view fact.now)) }
        ensures kept { OnOk result ((before : List stated.Fact) → AreSinglesOf before self.old
            → AreSinglesOf before self.new) }
    {
        self.face(alloc, fact)?;
        Ok(self.elements.meets(cell))
    }
}
