//! Kept cores, and how those are found that are contained in given literals.
ghost use Rattle.std.specs.Prelude.{◌≡◌, ℕ, ◌-◌, ◌++◌, ◌∷◌, [], List, Some, length, slice_get, slice_index_or, All};
ghost use Rattle.std.specs.Prelude.{Contains, IfOk, OnOk, OnErr, IfNone, IfSome, MatchOption};
ghost use Rattle.lit_core.specs.declared.literals.Lit.{Lit};
ghost use Rattle.ground_core.specs.Solving.{IsSublist, HasCoreWithin};
ghost use Rattle.search_engine.specs.LitSets.{HasLit};
ghost use Rattle.clause_learning.specs.CoreIndexes.{EndsWith, IsIndexed, newest_of};

use ground_core::{LitList, Memory};
use lit_core::Lit;
use search_engine::{LitSet, chosen};
use std::alloc::Global;

/// Kept cores. One that is contained in given literals is found by its last literal, so that no
/// core is looked at whose last literal is not among them.
#[derive(Drop)]
pub struct CoreIndex {
    pub cores: Vec<LitList>,
    /// For each variable the newest core that ends with its positive literal, counted from 1, or 0.
    pub positive: Vec<usize>,
    /// The same of its negative literal.
    pub negative: Vec<usize>,
    /// For each core the newest one before it with the same last literal, counted from 1, or 0.
    pub older: Vec<usize>,
    /// For each core the number in the log of the clause that says it, or 0. The clause has negations of the core's
    /// literals and, where a bound was assumed, of wider bounds' selectors.
    pub numbers: Vec<u64>,
    /// Whether one of the cores has no literals.
    pub refuted: bool,
    /// The number of that one's clause.
    pub refuted_number: u64,
}

/// The number at a place, and 0 past the end.
fn number_at(numbers: &[usize], place: usize) -> usize
    ensures { result ≡ slice_index_or numbers.now place 0 }
{
    match numbers.get(place) {
        Some(number) => *number,
        None => 0,
    }
}

/// The same of numbers in a log.
fn log_number(numbers: &[u64], place: usize) -> u64 {
    match numbers.get(place) {
        Some(number) => *number,
        None => 0,
    }
}

/// Puts a number in a place, and hands back the one that was there.
fn replace_at(numbers: &mut Vec<usize>, place: usize, number: usize) -> Result<usize, Memory>
    ensures was { IfOk result (λ was. was ≡ slice_index_or numbers.old.items place 0) }
    ensures here { OnOk result (slice_index_or numbers.new.items place 0 ≡ number) }
    ensures others { OnOk result ((k : ℕ) → (k ≡ place → ⊥) → slice_index_or numbers.new.items k 0
        ≡ slice_index_or numbers.old.items k 0) }
    ensures err { OnErr result (numbers.new.items ≡ numbers.old.items) }
{
    if place >= numbers.len() {
        let Some(len) = place.checked_add(1) else {
            return Err(Memory);
        };
        numbers.resize(len, 0)?;
    }
    let was = numbers[place];
    numbers[place] = number;
    Ok(was)
}

impl CoreIndex {
    /// No cores.
    pub fn new(alloc: Global) -> CoreIndex
        ensures indexed { IsIndexed result }
        ensures empty { result.cores.items ≡ [] }
    {
        CoreIndex {
            cores: Vec::new(alloc),
            positive: Vec::new(alloc),
            negative: Vec::new(alloc),
            older: Vec::new(alloc),
            numbers: Vec::new(alloc),
            refuted: false,
            refuted_number: 0,
        }
    }

    /// The newest core that ends with the literal, counted from 1, or 0.
    fn newest(&self, lit: Lit) -> usize
        ensures { result ≡ newest_of self.now lit }
    {
        let var = lit.var.0 as usize;
        if lit.positive {
            number_at(&self.positive, var)
        } else {
            number_at(&self.negative, var)
        }
    }

    /// The place of a core that ends with the literal and whose literals are all in the set.
    fn find_ending(&self, set: &LitSet, lit: Lit) -> Option<usize>
        requires indexed { IsIndexed self.now }
        ensures none { IfNone result ((j : ℕ) (c : List Lit) → slice_get self.now.cores.items j ≡ Some c
            → EndsWith self.now j lit → All (HasLit set.now) c → ⊥) }
        ensures some { IfSome result (λ j. (c : List Lit) × (slice_get self.now.cores.items j ≡ Some c)
            × All (HasLit set.now) c) }
    {
        let mut at = self.newest(lit);
        while at > 0 {
            let place = at - 1;
            if set.has_all(self.cores[place].as_slice()) {
                return Some(place);
            }
            at = self.older[place];
        }
        None
    }

    /// The place of a core that ends with one of the literals and whose literals are all in the set.
    fn find(&self, set: &LitSet, lits: &[Lit]) -> Option<usize>
        requires indexed { IsIndexed self.now }
        ensures none { IfNone result ((l : Lit) (j : ℕ) (c : List Lit) → Contains lits.now l
            → slice_get self.now.cores.items j ≡ Some c → EndsWith self.now j l → All (HasLit set.now) c → ⊥) }
        ensures some { IfSome result (λ j. (c : List Lit) × (slice_get self.now.cores.items j ≡ Some c)
            × All (HasLit set.now) c) }
    {
        for lit in lits {
            match self.find_ending(set, *lit) {
                Some(place) => return Some(place),
                None => {}
            }
        }
        None
    }

    /// Those of the literals, in their order, of which a kept core is made, if they contain one.
    pub fn contained(&self, alloc: Global, lits: &[Lit]) -> Result<Option<LitList>, Memory>
        requires indexed { IsIndexed self.now }
        ensures { IfOk result (λ found. MatchOption found (HasCoreWithin self.now.cores.items lits.now → ⊥)
            (λ core. IsSublist core lits.now × HasCoreWithin self.now.cores.items core)) }
    {
        if self.refuted {
            return Ok(Some(LitList::new(alloc)));
        }
        let set = LitSet::of(alloc, lits)?;
        match self.find(&set, lits) {
            None => Ok(None),
            Some(place) => {
                let core = LitSet::of(alloc, self.cores[place].as_slice())?;
                Ok(Some(chosen(alloc, lits, &core)?))
            }
        }
    }

    /// The number in the log of a kept core's clause, if the literals contain such a core.
    pub fn number_within(&self, alloc: Global, lits: &[Lit]) -> Result<Option<u64>, Memory>
        requires indexed { IsIndexed self.now }
        ensures { IfOk result (λ found. MatchOption found (HasCoreWithin self.now.cores.items lits.now → ⊥)
            (λ number. HasCoreWithin self.now.cores.items lits.now)) }
    {
        if self.refuted {
            return Ok(Some(self.refuted_number));
        }
        let set = LitSet::of(alloc, lits)?;
        match self.find(&set, lits) {
            None => Ok(None),
            Some(place) => Ok(Some(log_number(&self.numbers, place))),
        }
    }

    /// Makes a core with this number, counted from 1, the newest that ends with the literal, and
    /// hands back the one that was.
    fn make_newest(&mut self, lit: Lit, number: usize) -> Result<usize, Memory>
        ensures was { IfOk result (λ was. was ≡ newest_of self.old lit) }
        ensures here { OnOk result (newest_of self.new lit ≡ number) }
        ensures others { OnOk result ((l : Lit) → (l ≡ lit → ⊥) → newest_of self.new l ≡ newest_of self.old l) }
        ensures err { OnErr result ((l : Lit) → newest_of self.new l ≡ newest_of self.old l) }
        ensures cores { self.new.cores ≡ self.old.cores }
        ensures older { self.new.older ≡ self.old.older }
        ensures refuted { self.new.refuted ≡ self.old.refuted }
        ensures numbers { self.new.numbers ≡ self.old.numbers }
        ensures refuted_number { self.new.refuted_number ≡ self.old.refuted_number }
    {
        let var = lit.var.0 as usize;
        if lit.positive {
            replace_at(&mut self.positive, var, number)
        } else {
            replace_at(&mut self.negative, var, number)
        }
    }

    /// Keeps a core that ends with the literal.
    fn push(&mut self, core: LitList, lit: Lit, number: u64) -> Result<(), Memory>
        requires indexed { IsIndexed self.old }
        requires last { slice_get core (length core - 1) ≡ Some lit }
        ensures indexed { IsIndexed self.new }
        ensures ok { OnOk result (self.new.cores.items ≡ self.old.cores.items ++ core ∷ []) }
        ensures err { OnErr result (self.new.cores.items ≡ self.old.cores.items) }
    {
        self.cores.reserve(1)?;
        self.older.reserve(1)?;
        self.numbers.reserve(1)?;
        let newest = self.cores.len() + 1;
        let was = self.make_newest(lit, newest)?;
        self.older.push_reserved(was);
        self.cores.push_reserved(core);
        self.numbers.push_reserved(number);
        Ok(())
    }

    /// Keeps a core without literals.
    fn push_empty(&mut self, core: LitList, number: u64) -> Result<(), Memory>
        requires indexed { IsIndexed self.old }
        requires empty { core ≡ [] }
        ensures indexed { IsIndexed self.new }
        ensures ok { OnOk result (self.new.cores.items ≡ self.old.cores.items ++ core ∷ []) }
        ensures err { OnErr result (self.new.cores.items ≡ self.old.cores.items) }
    {
        self.cores.reserve(1)?;
        self.older.reserve(1)?;
        self.numbers.reserve(1)?;
        self.older.push_reserved(0);
        self.cores.push_reserved(core);
        self.numbers.push_reserved(number);
        self.refuted = true;
        self.refuted_number = number;
        Ok(())
    }

    /// Keeps one more core, whose clause has this number in the log.
    pub fn keep(&mut self, alloc: Global, core: &[Lit], number: u64) -> Result<(), Memory>
        requires indexed { IsIndexed self.old }
        ensures indexed { IsIndexed self.new }
        ensures ok { OnOk result (self.new.cores.items ≡ self.old.cores.items ++ core.now ∷ []) }
        ensures err { OnErr result (self.new.cores.items ≡ self.old.cores.items) }
    {
        let copy = LitList::from_vec(Vec::from_slice(alloc, core)?);
        match core.last() {
            Some(lit) => self.push(copy, *lit, number),
            None => self.push_empty(copy, number),
        }
    }

    /// Gives up all cores.
    pub fn clear(&mut self)
        ensures indexed { IsIndexed self.new }
        ensures empty { self.new.cores.items ≡ [] }
    {
        self.cores.clear();
        self.positive.clear();
        self.negative.clear();
        self.older.clear();
        self.numbers.clear();
        self.refuted = false;
    }
}
