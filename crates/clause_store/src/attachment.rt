//! How a clause that is not yet watched gets its two watched literals.
ghost use Rattle.std.specs.Prelude.{◌≡◌, ℕ, ◌<◌, ◌≤◌, ◌+◌, length, Option, Some, None, List, All, Contains, IfNone};
ghost use Rattle.std.specs.Prelude.{IfSome, ◌⊎◌, ◌≢◌, true};
ghost use Rattle.lit_core.specs.declared.literals.Lit.{Lit};
ghost use Rattle.lit_core.specs.Literals.{value_in};
ghost use Rattle.clause_base.specs.StoreState.{IsHeld, IsConflict, Propagates};
ghost use Rattle.clause_store.specs.declared.attachment.WatchChoice.TheVariants.{One, Single};
ghost use Rattle.clause_store.specs.Visits.{AttachGives, CanAttach, IsLast, IsPartner, NeedsNoWatch, OpensAt};
ghost use Rattle.clause_store.specs.Visits.{WatchChoiceGives};
ghost use Rattle.clause_store.specs.Watching.{store_of, IsWatcher};

use crate::propagation::find_replacement;
use crate::watched::{Watch, Watcher, label_of, list_of};
use clause_base::is_short;
use lit_core::{Assignment, Lit, PackedLit};

/// Which literals of a clause are not false.
#[derive(Clone, Copy)]
pub enum WatchChoice {
    /// The clause needs no watch: it was removed, or is listed with the short ones.
    Unwatched,
    /// This one, and it is the only one that the clause has.
    Single(Lit),
    /// These two at least.
    Two(Watch),
    /// This one alone.
    One(Lit),
    /// None.
    Conflict,
}

/// The first literal that is not false.
fn open_literal(assignment: &Assignment, lits: &[PackedLit]) -> Option<Lit>
    requires { All (λ l. l.var.0 < length assignment.now) lits.now }
    ensures { OpensAt assignment.now lits.now result }
{
    for lit in lits {
        let lit = lit.lit();
        match assignment.value(lit) {
            Some(false) => {}
            _ => return Some(lit),
        }
    }
    None
}

impl Watcher {
    ghost use Rattle.clause_store.specs.declared.watched.Watcher.{Watcher};

    /// Watches the next clause that is not yet watched.
    fn attach(&mut self, watch: Watch)
        requires watcher { IsWatcher self.old }
        requires more { self.old.checked < length self.old.held.clauses }
        requires in_range { (watch.first.var.0 < length self.old.trail.values)
            × (watch.second.var.0 < length self.old.trail.values) }
        requires watch { CanAttach self.old watch }
        ensures watcher { IsWatcher self.new }
        ensures store { store_of self.new ≡ store_of self.old }
        ensures checked { self.new.checked ≡ self.old.checked + 1 }
    {
        let node = 2 * self.checked;
        self.lists.link(list_of(watch.first), node);
        self.lists.link(list_of(watch.second), node + 1);
        self.lists.set_label(node, label_of(watch.second));
        self.lists.set_label(node + 1, label_of(watch.first));
        self.checked += 1;
    }

    /// Passes over the next clause, which was removed or needs no watch.
    fn skip(&mut self)
        requires watcher { IsWatcher self.old }
        requires more { self.old.checked < length self.old.held.clauses }
        requires passed { (c : List Lit) → IsHeld (store_of self.old) self.old.checked c
            → NeedsNoWatch self.old self.old.checked c }
        ensures watcher { IsWatcher self.new }
        ensures store { store_of self.new ≡ store_of self.old }
        ensures checked { self.new.checked ≡ self.old.checked + 1 }
    {
        self.checked += 1;
    }

    /// Passes over the rest of the clauses, which were all removed.
    fn skip_rest(&mut self)
        requires watcher { IsWatcher self.old }
        requires gone { (id : ℕ) (c : List Lit) → self.old.checked ≤ id → IsHeld (store_of self.old) id c → ⊥ }
        ensures watcher { IsWatcher self.new }
        ensures store { store_of self.new ≡ store_of self.old }
        ensures checked { self.new.checked ≡ length self.new.held.clauses }
    {
        self.checked = self.held.len();
    }

    /// Which literals of a clause could be watched.
    fn pick(&self, id: usize) -> WatchChoice
        requires watcher { IsWatcher self.now }
        requires id { id < length self.now.held.clauses }
        ensures { WatchChoiceGives self.now id result }
    {
        let Some(lits) = self.held.get(id) else {
            return WatchChoice::Unwatched;
        };
        if id < self.short.packed() && is_short(lits.len()) {
            return WatchChoice::Unwatched;
        }
        match open_literal(self.trail.assignment(), lits) {
            None => WatchChoice::Conflict,
            Some(first) if lits.len() < 2 => WatchChoice::Single(first),
            Some(first) => match find_replacement(self.trail.assignment(), lits, 0, first) {
                Some(place) => WatchChoice::Two(Watch {
                    first,
                    second: lits[place].lit(),
                }),
                None => WatchChoice::One(first),
            },
        }
    }

    /// Watches the next clause, if it needs that, and makes its last literal true where the others are false.
    fn attach_next(&mut self) -> Option<u64>
        requires watcher { IsWatcher self.old }
        requires more { self.old.checked < length self.old.held.clauses }
        ensures watcher { IsWatcher self.new }
        ensures same { Propagates (store_of self.old) (store_of self.new) }
        ensures next { AttachGives self.old self.new result }
    {
        match self.pick(self.checked) {
            WatchChoice::Unwatched => {
                self.skip();
                None
            }
            WatchChoice::Single(lit) => {
                self.pass_single(lit);
                None
            }
            WatchChoice::Two(watch) => {
                self.attach(watch);
                None
            }
            WatchChoice::One(lit) => {
                self.attach_last(lit);
                None
            }
            WatchChoice::Conflict => Some(self.checked as u64),
        }
    }

    /// Makes the last literal of the next clause true, if it is not.
    fn make_true(&mut self, lit: Lit)
        requires watcher { IsWatcher self.old }
        requires last { (c : List Lit) × IsLast self.old self.old.checked lit c }
        ensures watcher { IsWatcher self.new }
        ensures same { Propagates (store_of self.old) (store_of self.new) }
        ensures checked { self.new.checked ≡ self.old.checked }
        ensures short { self.new.short ≡ self.old.short }
        ensures is_true { value_in self.new.trail.values lit ≡ Some true }
    {
        match self.trail.assignment().value(lit) {
            None => self.assign_here(lit, Some(self.checked as u64)),
            Some(_) => {}
        }
    }

    /// Remembers a literal that was made true above level 0.
    fn mark_above(&mut self)
        requires watcher { IsWatcher self.old }
        ensures watcher { IsWatcher self.new }
        ensures store { store_of self.new ≡ store_of self.old }
        ensures checked { self.new.checked ≡ self.old.checked }
        ensures short { self.new.short ≡ self.old.short }
        ensures low { (self.new.stale ≡ true) ⊎ (self.new.trail.level ≡ 0) }
    {
        if self.trail.level() > 0 {
            self.mark_stale();
        }
    }

    /// Makes the literal of the next clause true, which has no other one, and passes over the clause: what is true at
    /// level 0 stays so while the clause counts as looked at.
    fn pass_single(&mut self, lit: Lit)
        requires watcher { IsWatcher self.old }
        requires more { self.old.checked < length self.old.held.clauses }
        requires last { WatchChoiceGives self.old self.old.checked (WatchChoice.Single lit) }
        ensures watcher { IsWatcher self.new }
        ensures same { Propagates (store_of self.old) (store_of self.new) }
        ensures checked { self.new.checked ≡ self.old.checked + 1 }
    {
        self.make_true(lit);
        self.mark_above();
        self.skip();
    }

    /// Another literal of the next clause, which became false no earlier than this one became true.
    fn partner(&self, lit: Lit) -> Option<Lit>
        requires watcher { IsWatcher self.now }
        requires more { self.now.checked < length self.now.held.clauses }
        requires in_range { lit.var.0 < length self.now.trail.values }
        requires is_true { value_in self.now.trail.values lit ≡ Some true }
        ensures { IfSome result (λ m. IsPartner self.now self.now.checked lit m) }
    {
        let level = self.level_of(lit.var);
        let lits = self.held.get(self.checked)?;
        for other in lits {
            let other = other.lit();
            if other != lit
                && self.trail.assignment().value(other) == Some(false)
                && self.level_of(other.var) >= level
            {
                return Some(other);
            }
        }
        None
    }

    /// Makes the last literal of the next clause true, if it is not, and watches the clause by it.
    fn attach_last(&mut self, lit: Lit)
        requires watcher { IsWatcher self.old }
        requires more { self.old.checked < length self.old.held.clauses }
        requires last { WatchChoiceGives self.old self.old.checked (WatchChoice.One lit) }
        ensures watcher { IsWatcher self.new }
        ensures same { Propagates (store_of self.old) (store_of self.new) }
        ensures checked { self.new.checked ≡ self.old.checked + 1 }
    {
        self.make_true(lit);
        match self.partner(lit) {
            Some(second) => self.attach(Watch { first: lit, second }),
            None => {
                self.mark_above();
                self.attach(Watch {
                    first: lit,
                    second: lit,
                });
            }
        }
    }

    /// Watches all clauses that are not yet watched.
    pub fn attach_all(&mut self) -> Option<u64>
        requires watcher { IsWatcher self.old }
        ensures watcher { IsWatcher self.new }
        ensures same { Propagates (store_of self.old) (store_of self.new) }
        ensures done { IfNone result (self.new.checked ≡ length self.new.held.clauses) }
        ensures conflict { IfSome result (λ id. IsConflict (store_of self.new) id) }
    {
        while self.checked < self.held.live() {
            if let Some(id) = self.attach_next() {
                return Some(id);
            }
        }
        self.skip_rest();
        None
    }
}
