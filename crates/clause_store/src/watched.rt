//! Clauses that are watched by two of their literals, and what changes them.
//!
//! The watched literals of Chaff (Moskewicz and others, 2001): a clause is looked at only when one of the two
//! literals that it watches becomes false. It then watches another literal, or its last one becomes true, or it is
//! false. The lists of watches are linked through the clauses' nodes, so that a watch moves without memory.
//!
//! What holds of the two literals over the propagated part of the trail: where one is false, the other is true, and
//! became so at no higher level. So a backtrack that keeps the false one keeps the true one, and touches no watch. A
//! clause with a literal that is true at level 0 may watch anything.
//!
//! Clauses are attached late. `push_clause` touches neither trail nor lists, so that it may come under any trail,
//! and `propagate` begins with the clauses that were pushed since. A clause whose literals are false but for one is
//! watched by that one and by a literal that became false at the same level or later. A learnt clause that is pushed
//! after the backtrack has such a literal, so that the search pays nothing for it.
//!
//! Clauses of two to four literals that were packed are not watched: each stands in the lists of all of its literals,
//! with the others beside its number (short_visits.rt). A walk reads such a list in order, where a visit of a watch
//! costs a cache miss or two, and moves nothing. Later clauses are watched, so that a push takes no memory for lists.
//!
//! A clause of one literal is not watched either: from when it is looked at its literal is true at level 0, until all
//! are looked at anew. The known atoms of a problem come as such clauses, often a million of them.
//!
//! A clause of which no literal is true is the reason for nothing, so it may be removed under any trail (`release`):
//! that is for clauses that served once, and of which more come than a search could watch. Its nodes stay in their
//! lists until a walk meets them there, and are then taken out, so that each costs one visit more at most.
//!
//! Where a decision was made before all was propagated, or a pushed clause has no such literal, a literal may become
//! true at a higher level than the one at which its clause forced it, and what holds of the levels is lost. `stale`
//! says so: levels are compared no more, and the next backtrack empties the lists, after which each clause is
//! watched anew. A search that propagates before each decision never pays for that.
ghost use Rattle.std.specs.Prelude.{◌≡◌, ◌≢◌, ℕ, ◌+◌, ◌*◌, ◌^◌, ◌<◌, ◌≤◌, [], length, max, List, Option, Some, None};
ghost use Rattle.std.specs.Prelude.{true, false, All, Contains, IsOk, IsTrue, IfOk, OnOk, OnErr, ◌⊎◌, slice_get};
ghost use Rattle.std.specs.Prelude.{slice_index_or};
ghost use Rattle.std.specs.Option.{ForSome};
ghost use Rattle.lit_core.specs.declared.literals.Lit.{Lit};
ghost use Rattle.lit_core.specs.Literals.{value_in, negated};
ghost use Rattle.clause_base.specs.declared.trail.Step.{Step};
ghost use Rattle.clause_base.specs.StoreState.{IsEachOnceOf, IsHeld, Implies, empty_store, with_clause, with_spare};
ghost use Rattle.clause_base.specs.StoreState.{with_trail, with_variables, without_clause};
ghost use Rattle.clause_base.specs.TrailLaws.{CutsAt, IsFixed, IsStepOf, cleared, level_after, with_step};
ghost use Rattle.clause_store.specs.Releasing.{HasTrue, Releases};
ghost use Rattle.clause_store.specs.Visits.{MayAssign};
ghost use Rattle.clause_store.specs.Watching.{code_of, store_of, IsWatcher};

use clause_base::{ClauseDb, LinkedLists, ShortClauses, Trail};
use lit_core::{Assignment, Lit, Memory, PackedLit, Var};
use std::alloc::Global;

/// Which two literals of a clause are watched.
#[derive(Clone, Copy)]
pub struct Watch {
    pub first: Lit,
    pub second: Lit,
}

/// Clauses with their watches, and the trail.
#[derive(Debug, Drop)]
pub struct Watcher {
    pub held: ClauseDb,
    /// The short clauses that were packed, each under all of its literals.
    pub short: ShortClauses,
    /// For each literal the clauses that watch it. Clause n has the nodes 2n and 2n + 1, one for each literal that it
    /// watches, and each is labelled with the number of the other one's literal.
    pub lists: LinkedLists,
    pub trail: Trail,
    /// How many steps of the trail are propagated.
    pub queue: usize,
    /// How many clauses are watched.
    pub checked: usize,
    /// Whether a decision was made before all was propagated.
    pub stale: bool,
}

/// The number of the list of a literal.
pub fn list_of(lit: Lit) -> usize
    requires { 2 * lit.var.0 + 1 < 2 ^ 64 }
    ensures { result ≡ code_of lit }
{
    let place = lit.var.0 as usize * 2;
    if lit.positive { place + 1 } else { place }
}

/// The number of a literal, as it is written on a node.
pub fn label_of(lit: Lit) -> u32
    requires { lit.var.0 < 2 ^ 31 }
    ensures { result ≡ code_of lit }
{
    let number = lit.var.0 as u32 * 2;
    if lit.positive { number + 1 } else { number }
}

/// The literal with this number.
pub fn literal_of(label: u32) -> Lit
    ensures { code_of result ≡ label }
{
    Lit {
        var: Var(label as u64 / 2),
        positive: label % 2 == 1,
    }
}

/// Whether one of the literals is true.
fn is_any_true(assignment: &Assignment, lits: &[PackedLit]) -> bool
    requires { All (λ l. l.var.0 < length assignment.now) lits.now }
    ensures yes { IsTrue result → (l : Lit) × Contains lits.now l × (value_in assignment.now l ≡ Some true) }
    ensures no { result ≡ false → All (λ l. value_in assignment.now l ≢ Some true) lits.now }
{
    for lit in lits {
        match assignment.value(lit.lit()) {
            Some(true) => return true,
            _ => {}
        }
    }
    false
}

impl Watcher {
    ghost use Rattle.clause_store.specs.declared.watched.Watcher.{Watcher};

    /// The watcher of no variables and no clauses.
    pub fn new(alloc: Global) -> Watcher
        ensures watcher { IsWatcher result }
        ensures empty { store_of result ≡ empty_store }
    {
        Watcher {
            held: ClauseDb::new(alloc),
            short: ShortClauses::new(alloc),
            lists: LinkedLists::new(alloc),
            trail: Trail::new(alloc),
            queue: 0,
            checked: 0,
            stale: false,
        }
    }

    /// Adds unassigned variables, so that there are at least `n`.
    pub fn reserve_vars(&mut self, n: u64) -> Result<(), Memory>
        requires watcher { IsWatcher self.old }
        ensures watcher { IsWatcher self.new }
        ensures ok { OnOk result (store_of self.new ≡ with_variables n (store_of self.old)) }
        ensures err { OnErr result (store_of self.new ≡ store_of self.old) }
    {
        // The numbers of literals are of 32 bits.
        if n > 2_147_483_648 {
            return Err(Memory);
        }
        self.lists.add_lists(2 * n as usize)?;
        self.short.grow_lists(2 * n as usize)?;
        self.trail.grow(n as usize)
    }

    /// Makes room for one clause of at most this length.
    pub fn reserve_clause(&mut self, len: usize) -> Result<(), Memory>
        requires watcher { IsWatcher self.old }
        ensures watcher { IsWatcher self.new }
        ensures ok { OnOk result (store_of self.new ≡ with_spare (store_of self.old)
            (max self.old.held.spare (len + 1))) }
        ensures err { OnErr result (store_of self.new ≡ store_of self.old) }
        ensures room { len < self.old.held.spare → IsOk result }
    {
        if self.held.has_room(len) {
            return Ok(());
        }
        let count = self.held.len() + 1;
        self.lists.add_nodes(2 * count)?;
        self.held.reserve(len)
    }

    /// Adds a clause and returns its number. It holds each of the literals once.
    pub fn push_clause(&mut self, lits: &[Lit]) -> Result<u64, Memory>
        requires watcher { IsWatcher self.old }
        requires in_range { All (λ l. l.var.0 < length self.old.trail.values) lits.now }
        requires unopposed { All (λ l. IsFixed self.old.trail (negated l) → ⊥) lits.now }
        ensures watcher { IsWatcher self.new }
        ensures ok { IfOk result (λ id. (id ≡ length self.old.held.clauses) × ((c : List Lit) × IsEachOnceOf lits.now c
            × (store_of self.new ≡ with_clause (store_of self.old) c))) }
        ensures err { OnErr result (store_of self.new ≡ store_of self.old) }
        ensures room { length lits.now < self.old.held.spare → IsOk result }
    {
        self.reserve_clause(lits.len())?;
        let id = self.held.len() as u64;
        self.held.push(lits);
        Ok(id)
    }

    /// Removes a clause where nothing is assigned.
    pub fn remove(&mut self, id: u64)
        requires watcher { IsWatcher self.old }
        requires id { id < length self.old.held.clauses }
        requires unassigned { self.old.trail.steps ≡ [] }
        ensures watcher { IsWatcher self.new }
        ensures removed { store_of self.new ≡ without_clause (store_of self.old) id }
    {
        self.held.remove(id);
    }

    /// Whether a literal of the clause is true. One that was removed has none.
    fn has_true(&self, id: u64) -> bool
        requires watcher { IsWatcher self.now }
        requires id { id < length self.now.held.clauses }
        ensures yes { IsTrue result → HasTrue (store_of self.now) id }
        ensures no { result ≡ false → HasTrue (store_of self.now) id → ⊥ }
    {
        match self.held.get(id as usize) {
            None => false,
            Some(lits) => is_any_true(self.trail.assignment(), lits),
        }
    }

    /// Removes a clause of which no literal is true, under any trail, and answers whether it is gone.
    pub fn release(&mut self, id: u64) -> bool
        requires watcher { IsWatcher self.old }
        requires id { id < length self.old.held.clauses }
        ensures watcher { IsWatcher self.new }
        ensures released { Releases (store_of self.old) id (store_of self.new) result }
    {
        if self.has_true(id) {
            return false;
        }
        self.held.remove(id);
        true
    }

    /// Lists the short clauses that are held, where nothing is assigned. The others are watched anew later.
    pub fn pack(&mut self) -> Result<(), Memory>
        requires watcher { IsWatcher self.old }
        requires unassigned { self.old.trail.steps ≡ [] }
        ensures watcher { IsWatcher self.new }
        ensures store { store_of self.new ≡ store_of self.old }
    {
        self.lists.clear();
        self.checked = 0;
        self.short.add_lists(2 * self.trail.assignment().len())?;
        self.short.pack(&self.held)
    }

    /// Remembers that a decision was made before all was propagated.
    pub fn mark_stale(&mut self)
        requires watcher { IsWatcher self.old }
        ensures watcher { IsWatcher self.new }
        ensures store { store_of self.new ≡ store_of self.old }
        ensures stale { self.new.stale ≡ true }
        ensures checked { self.new.checked ≡ self.old.checked }
        ensures short { self.new.short ≡ self.old.short }
    {
        self.stale = true;
    }

    /// Remembers a decision that is made before all is propagated.
    fn note_decision(&mut self, reason: Option<u64>)
        requires watcher { IsWatcher self.old }
        ensures watcher { IsWatcher self.new }
        ensures store { store_of self.new ≡ store_of self.old }
        ensures current { MayAssign self.new reason }
    {
        if reason.is_none() && self.queue < self.trail.lits().len() {
            self.mark_stale();
        }
    }

    /// Makes a literal true where no level is passed over.
    pub fn assign_here(&mut self, lit: Lit, reason: Option<u64>)
        requires watcher { IsWatcher self.old }
        requires in_range { lit.var.0 < length self.old.trail.values }
        requires unassigned { value_in self.old.trail.values lit ≡ None }
        requires reason { ForSome reason (λ id. Implies (store_of self.old) id lit) }
        requires current { MayAssign self.old reason }
        ensures watcher { IsWatcher self.new }
        ensures step { store_of self.new ≡ with_trail (store_of self.old)
            (with_step self.old.trail (record {
              lit = lit;
              level = level_after self.old.trail.level reason;
              reason = reason;
            })) }
        ensures checked { self.new.checked ≡ self.old.checked }
        ensures short { self.new.short ≡ self.old.short }
    {
        self.trail.assign(lit, reason);
    }

    /// Makes a literal true, under a new decision where it has no reason.
    pub fn assign(&mut self, lit: Lit, reason: Option<u64>)
        requires watcher { IsWatcher self.old }
        requires in_range { lit.var.0 < length self.old.trail.values }
        requires unassigned { value_in self.old.trail.values lit ≡ None }
        requires reason { ForSome reason (λ id. Implies (store_of self.old) id lit) }
        ensures watcher { IsWatcher self.new }
        ensures step { store_of self.new ≡ with_trail (store_of self.old)
            (with_step self.old.trail (record {
              lit = lit;
              level = level_after self.old.trail.level reason;
              reason = reason;
            })) }
    {
        self.note_decision(reason);
        self.assign_here(lit, reason);
    }

    /// Backtracks: takes back what was made true above the level.
    pub fn back_to(&mut self, level: u64)
        requires watcher { IsWatcher self.old }
        requires level { level ≤ self.old.trail.level }
        ensures watcher { IsWatcher self.new }
        ensures held { self.new.held ≡ self.old.held }
        ensures trail { CutsAt level self.old.trail self.new.trail }
    {
        self.trail.back_to(level);
        if self.stale {
            self.lists.clear();
            self.queue = 0;
            self.checked = 0;
            self.stale = level > 0;
        } else {
            let len = self.trail.lits().len();
            self.queue = self.queue.min(len);
        }
    }

    /// Fixes a literal at level 0, with no decision, where no clause has its negation.
    pub fn fix(&mut self, lit: Lit)
        requires watcher { IsWatcher self.old }
        requires level { self.old.trail.level ≡ 0 }
        requires in_range { lit.var.0 < length self.old.trail.values }
        requires unassigned { value_in self.old.trail.values lit ≡ None }
        requires unopposed { (id : ℕ) (c : List Lit) → IsHeld (store_of self.old) id c → Contains c (negated lit) → ⊥ }
        ensures watcher { IsWatcher self.new }
        ensures step { store_of self.new ≡ with_trail (store_of self.old)
            (with_step self.old.trail (record { lit = lit; level = 0; reason = None })) }
    {
        self.trail.fix(lit);
    }

    /// Makes every variable unassigned.
    pub fn clear(&mut self)
        requires watcher { IsWatcher self.old }
        ensures watcher { IsWatcher self.new }
        ensures cleared { store_of self.new ≡ with_trail (store_of self.old) (cleared self.old.trail) }
    {
        self.trail.clear();
        self.lists.clear();
        self.queue = 0;
        self.checked = 0;
        self.stale = false;
    }

    /// The level of an assigned variable.
    pub fn level_of(&self, var: Var) -> u64
        requires watcher { IsWatcher self.now }
        requires in_range { var.0 < length self.now.trail.values }
        requires assigned { slice_index_or self.now.trail.values var.0 None ≢ None }
        ensures { (t : Step) × IsStepOf self.now.trail var t × (t.level ≡ result) }
    {
        self.trail.step(self.trail.place_of(var)).level
    }
}
