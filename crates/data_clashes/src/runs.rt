//! The only arguments of facts, in runs of one symbol and one sign.
//!
//! The rows of an entry are one run, so what stands against a row is found run by run.
ghost use Rattle.std.specs.Prelude.{◌≡◌, ◌++◌, ◌&&◌, ◌==◌, ◌∷◌, [], ℕ, Bool, true, is_some, flat_map, map, not, IfOk};
ghost use Rattle.std.specs.Prelude.{OnOk, if◌then◌else◌};
ghost use Rattle.stage_definitions.specs.DataFacts as stated;
ghost use Rattle.structure_entries.specs.EntryViews.{cell_view, fact_view};
ghost use Rattle.data_domains.specs.Sets.{IsSetOf};
ghost use Rattle.data_clashes.specs.Opposing.{opposing_of};
ghost use Rattle.data_clashes.specs.RunViews.{cells_against, run_against};

use crate::clashes::are_opposed;
use data_domains::sets::ElementSet;
use kb_logic::Memory;
use std::alloc::Global;
use std::mem;
use structure_entries::elements::Cell;
use structure_entries::facts::Fact;

/// The arguments of some facts of a symbol with this sign, each with a value, or each without.
#[derive(Drop)]
pub struct Run<'a> {
    pub symbol: usize,
    pub holds: bool,
    pub valued: bool,
    pub cells: Vec<Cell<'a>>,
}

/// The runs that are over, and the last one.
#[derive(Drop)]
pub struct Runs<'a> {
    pub over: Vec<Run<'a>>,
    pub last: Run<'a>,
}

fn one_cell<'a>(alloc: Global, cell: Cell<'a>) -> Result<Vec<Cell<'a>>, Memory>
    ensures { IfOk result (λ cells. cells.items ≡ cell.entry ∷ []) }
{
    let mut cells = Vec::new(alloc);
    cells.push(cell)?;
    Ok(cells)
}

impl<'a> Run<'a> {
    /// Whether facts of the run clash with one of this symbol and sign and without a value, where they share with it.
    fn is_against(&self, symbol: usize, holds: bool) -> bool
        ensures { result ≡ ((self.now.symbol == symbol) && stated.are_opposed self.now.holds holds
            (not self.now.valued)) }
    {
        self.symbol == symbol && are_opposed(self.holds, holds, !self.valued)
    }

    fn add_against(
        &self,
        symbol: usize,
        holds: bool,
        cells: &mut Vec<Cell<'a>>,
    ) -> Result<(), Memory>
        ensures { OnOk result (map cell_view cells.new.items ≡ map cell_view cells.old.items ++ run_against symbol
            holds self.now) }
    {
        if !self.is_against(symbol, holds) {
            return Ok(());
        }
        for cell in &self.cells {
            cells.push(*cell)?;
        }
        Ok(())
    }

    fn is_alike(&self, fact: &Fact<'a>) -> bool
        ensures { result ≡ true → (self.now.symbol ≡ fact.now.symbol) × (self.now.holds ≡ fact.now.holds)
            × (self.now.valued ≡ is_some fact.now.value) }
    {
        self.symbol == fact.symbol
            && self.holds == fact.holds
            && self.valued == fact.value.is_some()
    }
}

impl<'a> Runs<'a> {
    pub fn new(alloc: Global) -> Runs<'a>
        ensures { (symbol : ℕ) (holds : Bool) → cells_against symbol holds result ≡ [] }
    {
        let over = Vec::new(alloc);
        let cells = Vec::new(alloc);
        Runs {
            over,
            last: Run {
                symbol: 0,
                holds: false,
                valued: false,
                cells,
            },
        }
    }

    /// One more cell at the end of the last run.
    fn push_cell(&mut self, cell: Cell<'a>) -> Result<(), Memory>
        ensures { OnOk result ((symbol : ℕ) (holds : Bool) → cells_against symbol holds self.new
            ≡ cells_against symbol holds self.old ++ (if (self.old.last.symbol == symbol) && stated.are_opposed
            self.old.last.holds holds (not self.old.last.valued) then cell_view cell.entry ∷ [] else [])) }
    {
        self.last.cells.push(cell)?;
        Ok(())
    }

    /// From now on another run, which begins with this cell.
    fn begin(&mut self, alloc: Global, fact: &Fact<'a>, cell: Cell<'a>) -> Result<(), Memory>
        ensures { OnOk result ((symbol : ℕ) (holds : Bool) → cells_against symbol holds self.new
            ≡ cells_against symbol holds self.old ++ (if (fact.now.symbol == symbol) && stated.are_opposed
            fact.now.holds holds (not (is_some fact.now.value)) then cell_view cell.entry ∷ [] else [])) }
    {
        let cells = one_cell(alloc, cell)?;
        let next = Run {
            symbol: fact.symbol,
            holds: fact.holds,
            valued: fact.value.is_some(),
            cells,
        };
        let over = mem::replace(&mut self.last, next);
        self.over.push(over)?;
        Ok(())
    }

    /// The argument of a fact that has no other one.
    fn push_only(&mut self, alloc: Global, fact: &Fact<'a>, cell: Cell<'a>) -> Result<(), Memory>
        requires { map cell_view fact.now.args.items ≡ cell_view cell ∷ [] }
        ensures { OnOk result ((symbol : ℕ) (holds : Bool) → cells_against symbol holds self.new
            ≡ cells_against symbol holds self.old ++ opposing_of symbol holds (fact_view fact.now)) }
    {
        if self.last.is_alike(fact) {
            self.push_cell(cell)?;
            return Ok(());
        }
        self.begin(alloc, fact, cell)?;
        Ok(())
    }

    /// A fact's argument, where it has one alone.
    pub fn push(&mut self, alloc: Global, fact: &Fact<'a>) -> Result<(), Memory>
        ensures { OnOk result ((symbol : ℕ) (holds : Bool) → cells_against symbol holds self.new
            ≡ cells_against symbol holds self.old ++ opposing_of symbol holds (fact_view fact.now)) }
    {
        match fact.args.as_slice() {
            [cell] => self.push_only(alloc, fact, *cell),
            [] => Ok(()),
            [_, _, ..] => Ok(()),
        }
    }

    fn add_over(&self, symbol: usize, holds: bool, cells: &mut Vec<Cell<'a>>) -> Result<(), Memory>
        ensures { OnOk result (map cell_view cells.new.items ≡ map cell_view cells.old.items ++ flat_map
            (run_against symbol holds) self.now.over.items) }
    {
        for run in &self.over {
            run.add_against(symbol, holds, cells)?;
        }
        Ok(())
    }

    fn cells(&self, alloc: Global, symbol: usize, holds: bool) -> Result<Vec<Cell<'a>>, Memory>
        ensures { IfOk result (λ cells. map cell_view cells.items ≡ cells_against symbol holds self.now) }
    {
        let mut cells = Vec::new(alloc);
        self.add_over(symbol, holds, &mut cells)?;
        self.last.add_against(symbol, holds, &mut cells)?;
        Ok(cells)
    }

    /// What stands against a fact of this symbol and sign and without a value.
    pub fn against(
        &self,
        alloc: Global,
        symbol: usize,
        holds: bool,
    ) -> Result<ElementSet<'a>, Memory>
        ensures { IfOk result (IsSetOf (cells_against symbol holds self.now)) }
    {
        let cells = self.cells(alloc, symbol, holds)?;
        Ok(ElementSet::of(alloc, &cells)?)
    }
}
