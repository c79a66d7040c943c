//! Unit propagation: what a visit of a clause leaves, and the walk over the clauses that watch a literal.
ghost use Rattle.std.specs.Prelude.{◌≡◌, ℕ, ◌+◌, ◌*◌, ◌^◌, ◌<◌, ◌≤◌, length, Option, Some, None, All, Contains, IfNone};
ghost use Rattle.std.specs.Prelude.{IfSome, List};
ghost use Rattle.lit_core.specs.declared.literals.Lit.{Lit};
ghost use Rattle.clause_base.specs.ListsState.{nodes_of};
ghost use Rattle.clause_base.specs.StoreState.{IsHeld, IsQuiet, IsConflict, Propagates};
ghost use Rattle.clause_store.specs.Visits.{CanMove, CanImply, ReplacementGives, IsAt, IsNext, Keeps, LookGives};
ghost use Rattle.clause_store.specs.Visits.{OneGives, ReplacesAt, VisitGives};
ghost use Rattle.clause_store.specs.Watching.{code_of, store_of, IsWatcher, IsNodeOf};

use crate::watched::{Watcher, label_of, list_of, literal_of};
use lit_core::{Assignment, Lit, PackedLit};

/// What became of a clause of which a watched literal became false.
#[derive(Clone, Copy)]
pub enum Visit {
    /// It is false.
    Conflict,
    /// It is watched. The clauses that are still to be visited follow this node in their list.
    Done(Option<usize>),
}

/// How the watches of a clause stand after a literal became false.
#[derive(Clone, Copy)]
pub enum Look {
    /// The other watched literal is true.
    Satisfied,
    /// The other watched literal, this one, is not true.
    Unsatisfied(Lit),
}

/// What may stand in for a watched literal that became false.
#[derive(Clone, Copy)]
pub enum Replacement {
    /// The clause was removed.
    Deleted,
    /// This literal, at this place of the clause.
    Literal(Lit, usize),
    /// Nothing: the other watched literal is the last that is not false.
    Unit,
    /// Nothing: all literals are false.
    Conflict,
}

/// The clause of a node.
fn clause_of(node: usize) -> usize
    ensures { IsNodeOf node result }
{
    node / 2
}

/// The other node of the clause.
fn partner_of(node: usize) -> usize
    requires { node < 2 ^ 32 }
    ensures first { (id : ℕ) → node ≡ 2 * id → result ≡ 2 * id + 1 }
    ensures second { (id : ℕ) → node ≡ 2 * id + 1 → result ≡ 2 * id }
{
    if node % 2 == 0 { node + 1 } else { node - 1 }
}

/// The place of a literal that is not false and is not the other watched one.
fn find_in(assignment: &Assignment, lits: &[PackedLit], other: Lit) -> Option<usize>
    requires { All (λ l. l.var.0 < length assignment.now) lits.now }
    ensures { ReplacesAt assignment.now lits.now other result }
{
    for place in 0..lits.len() {
        let lit = lits[place].lit();
        if lit != other && assignment.value(lit) != Some(false) {
            return Some(place);
        }
    }
    None
}

/// A clause of more literals is long.
const SHORT: usize = 128;

/// How far ahead in a long clause a search for another literal to watch begins.
const STRIDE: usize = 4;

/// Where in a clause of this length a search for another literal to watch begins, where the last one ended here.
///
/// Literals side by side often become false one after another, as those of atoms that follow from one another, and a
/// watch that goes from each to the next is moved by all of them. So in a clause that a bound implies, or that excludes
/// a model, it goes some literals further, but not past the end: all before the place may be false, and would be passed
/// over again at each of the last moves. A wider step would be into another cache line each time.
fn search_start(from: usize, len: usize) -> usize
    ensures { result ≤ len }
{
    if len > SHORT && from < len.saturating_sub(STRIDE) {
        from + STRIDE
    } else {
        from.min(len)
    }
}

/// The place of a literal that is not false and is not the other watched one, sought from this place on, round the
/// clause.
///
/// The literals before the place were false when the watch came there, and mostly are still. A search that began
/// with the first literal each time would pass over them again at each move of the watch, so that a long clause of
/// which one literal after another becomes false, as one that excludes a model, would take the square of its length.
pub fn find_replacement(
    assignment: &Assignment,
    lits: &[PackedLit],
    from: usize,
    other: Lit,
) -> Option<usize>
    requires { All (λ l. l.var.0 < length assignment.now) lits.now }
    ensures { ReplacesAt assignment.now lits.now other result }
{
    let (before, after) = lits.split_at(search_start(from, lits.len()));
    match find_in(assignment, after, other) {
        Some(place) => Some(before.len() + place),
        None => find_in(assignment, before, other),
    }
}

impl Watcher {
    ghost use Rattle.clause_store.specs.declared.watched.Watcher.{Watcher};

    /// Looks at the other watched literal of a clause after one became false.
    ///
    /// Its number stands on the node itself (a blocking literal), so that a clause of which it is true is passed by
    /// without a look at the clause or its entry.
    fn look(&self, node: usize, falsified: Lit) -> Look
        requires watcher { IsWatcher self.now }
        requires falsified { IsNext self.now falsified }
        requires listed { Contains (nodes_of self.now.lists (code_of falsified)) node }
        ensures { LookGives self.now node falsified result }
    {
        let other = literal_of(self.lists.label(node));
        if self.trail.assignment().value(other) == Some(true) {
            Look::Satisfied
        } else {
            Look::Unsatisfied(other)
        }
    }

    /// What becomes of a clause of which one watched literal is false and the other not true.
    fn seek(&self, id: usize, from: usize, other: Lit) -> Replacement
        requires watcher { IsWatcher self.now }
        requires id { id < length self.now.held.clauses }
        requires other { other.var.0 < length self.now.trail.values }
        ensures { ReplacementGives self.now id other result }
    {
        let Some(lits) = self.held.get(id) else {
            return Replacement::Deleted;
        };
        match find_replacement(self.trail.assignment(), lits, from, other) {
            Some(place) => Replacement::Literal(lits[place].lit(), place),
            None => match self.trail.assignment().value(other) {
                Some(_) => Replacement::Conflict,
                None => Replacement::Unit,
            },
        }
    }

    /// Watches another literal of a clause, which stands at this place of it.
    fn move_watch(
        &mut self,
        node: usize,
        before: Option<usize>,
        falsified: Lit,
        lit: Lit,
        place: usize,
    )
        requires watcher { IsWatcher self.old }
        requires falsified { IsNext self.old falsified }
        requires at { IsAt self.old.lists (code_of falsified) before node }
        requires moved { CanMove self.old node falsified lit }
        requires place { place < 2 ^ 32 }
        ensures watcher { IsWatcher self.new }
        ensures same { Propagates (store_of self.old) (store_of self.new) }
        ensures keeps { Keeps self.old self.new node }
        ensures done { VisitGives self.old self.new node falsified before (Visit.Done before) }
    {
        self.lists.unlink(list_of(falsified), before, node);
        self.lists.link(list_of(lit), node);
        self.lists.set_label(partner_of(node), label_of(lit));
        self.held.set_place(node, place);
    }

    /// Takes the node of a clause that was removed out of its list.
    fn unlist(&mut self, node: usize, before: Option<usize>, falsified: Lit)
        requires watcher { IsWatcher self.old }
        requires falsified { IsNext self.old falsified }
        requires at { IsAt self.old.lists (code_of falsified) before node }
        requires removed { (id : ℕ) (c : List Lit) → IsNodeOf node id → IsHeld (store_of self.old) id c → ⊥ }
        ensures watcher { IsWatcher self.new }
        ensures same { Propagates (store_of self.old) (store_of self.new) }
        ensures keeps { Keeps self.old self.new node }
        ensures done { VisitGives self.old self.new node falsified before (Visit.Done before) }
    {
        self.lists.unlink(list_of(falsified), before, node);
    }

    /// Makes the last literal of a clause true.
    fn imply(&mut self, node: usize, before: Option<usize>, other: Lit, falsified: Lit)
        requires watcher { IsWatcher self.old }
        requires falsified { IsNext self.old falsified }
        requires last { CanImply self.old node falsified other }
        ensures watcher { IsWatcher self.new }
        ensures same { Propagates (store_of self.old) (store_of self.new) }
        ensures keeps { Keeps self.old self.new node }
        ensures done { VisitGives self.old self.new node falsified before (Visit.Done (Some node)) }
    {
        self.trail.assign(other, Some(clause_of(node) as u64));
    }

    /// Looks at a clause after a literal became false, and watches another literal or makes the last one true.
    fn visit(&mut self, node: usize, before: Option<usize>, falsified: Lit) -> Visit
        requires watcher { IsWatcher self.old }
        requires falsified { IsNext self.old falsified }
        requires at { IsAt self.old.lists (code_of falsified) before node }
        ensures watcher { IsWatcher self.new }
        ensures same { Propagates (store_of self.old) (store_of self.new) }
        ensures keeps { Keeps self.old self.new node }
        ensures visit { VisitGives self.old self.new node falsified before result }
    {
        match self.look(node, falsified) {
            Look::Satisfied => Visit::Done(Some(node)),
            Look::Unsatisfied(other) => match self.seek(
                clause_of(node),
                self.held.place(node),
                other,
            ) {
                Replacement::Deleted => {
                    self.unlist(node, before, falsified);
                    Visit::Done(before)
                }
                Replacement::Literal(lit, place) => {
                    self.move_watch(node, before, falsified, lit, place);
                    Visit::Done(before)
                }
                Replacement::Unit => {
                    self.imply(node, before, other, falsified);
                    Visit::Done(Some(node))
                }
                Replacement::Conflict => Visit::Conflict,
            },
        }
    }

    /// Propagates the first step that is not yet propagated.
    fn propagate_one(&mut self) -> Option<u64>
        requires watcher { IsWatcher self.old }
        requires checked { self.old.checked ≡ length self.old.held.clauses }
        requires more { self.old.queue < length self.old.trail.steps }
        ensures watcher { IsWatcher self.new }
        ensures same { Propagates (store_of self.old) (store_of self.new) }
        ensures one { OneGives self.old self.new result }
    {
        let falsified = self.trail.lits()[self.queue].negated();
        if let Some(id) = self.visit_short(falsified) {
            return Some(id);
        }
        let mut before = None;
        let mut at = self.lists.first(list_of(falsified));
        while let Some(node) = at {
            at = self.lists.after(node);
            match self.visit(node, before, falsified) {
                Visit::Conflict => return Some(clause_of(node) as u64),
                Visit::Done(last) => before = last,
            }
        }
        self.queue += 1;
        None
    }

    /// Propagates all steps.
    fn propagate_all(&mut self) -> Option<u64>
        requires watcher { IsWatcher self.old }
        requires checked { self.old.checked ≡ length self.old.held.clauses }
        ensures watcher { IsWatcher self.new }
        ensures same { Propagates (store_of self.old) (store_of self.new) }
        ensures quiet { IfNone result (IsQuiet (store_of self.new)) }
        ensures conflict { IfSome result (λ id. IsConflict (store_of self.new) id) }
    {
        while self.queue < self.trail.lits().len() {
            if let Some(id) = self.propagate_one() {
                return Some(id);
            }
        }
        None
    }

    /// Makes true what follows from one clause at a time, up to a false clause.
    pub fn propagate(&mut self) -> Option<u64>
        requires watcher { IsWatcher self.old }
        ensures watcher { IsWatcher self.new }
        ensures same { Propagates (store_of self.old) (store_of self.new) }
        ensures quiet { IfNone result (IsQuiet (store_of self.new)) }
        ensures conflict { IfSome result (λ id. IsConflict (store_of self.new) id) }
    {
        if let Some(id) = self.attach_all() {
            return Some(id);
        }
        self.propagate_all()
    }
}
