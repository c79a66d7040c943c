//! The constraints that changed since they were asked.
ghost use Rattle.std.specs.Prelude.{◌≡◌, ◌<◌, [], length, All, IfOk, IfSome};
ghost use Rattle.clause_store.specs.StoreState.{IsStore};
ghost use Rattle.aggregate_propagators.specs.Implied.{IsWithin};
ghost use Rattle.sum_ledger.specs.Asking.{IsImpliedAt};

use crate::accounts::Account;
use crate::consequences::Consequences;
use aggregate_propagators::{gain_of, implied_each, threshold_of};
use clause_store::Store;
use ground_core::{AggCon, Memory};
use lit_core::Lit;
use std::alloc::Global;

/// A place where a variable stands in a constraint.
#[derive(Clone, Copy)]
struct Occurrence {
    /// The constraint's number.
    sum: usize,
    /// What is gained where the literal is true; 0 for the result.
    gain: i64,
    /// The literal's sign.
    positive: bool,
    /// The variable's next place.
    next: Option<usize>,
}

/// For each constraint the ends of what its parts can gain, kept along the trail of a search, and which constraints
/// changed.
///
/// A literal that becomes true costs the places of its variable, and so does one that is taken back. The ledger says
/// which constraints are asked; what is answered comes from the constraints themselves, so no contract speaks of what
/// is counted.
#[derive(Drop)]
pub struct Ledger {
    accounts: Vec<Account>,
    /// The first place of each variable.
    heads: Vec<Option<usize>>,
    occurrences: Vec<Occurrence>,
    /// The constraints that changed since they were asked.
    waiting: Vec<usize>,
    /// So many steps of the trail are counted.
    counted: usize,
    /// So often was something taken back.
    time: u64,
}

impl Ledger {
    /// No constraints.
    pub fn new(alloc: Global) -> Ledger {
        Ledger {
            accounts: Vec::new(alloc),
            heads: Vec::new(alloc),
            occurrences: Vec::new(alloc),
            waiting: Vec::new(alloc),
            counted: 0,
            time: 0,
        }
    }

    /// Forgets all constraints.
    fn clear(&mut self) {
        self.accounts.clear();
        self.heads.clear();
        self.occurrences.clear();
        self.waiting.clear();
        self.counted = 0;
    }

    /// Begins a search about these constraints, to which some may have been added since the last one: nothing is
    /// counted, and each of them is to be asked.
    pub fn begin(&mut self, sums: &[AggCon]) -> Result<(), Memory> {
        if self.accounts.len() == sums.len() {
            self.forget();
            return Ok(());
        }
        self.clear();
        self.enter_all(sums)
    }

    /// Takes back all that is counted.
    fn forget(&mut self) {
        self.counted = 0;
        for place in 0..self.accounts.len() {
            if let Some(account) = self.accounts.get_mut(place) {
                account.begin();
            }
            self.wake(place);
        }
    }

    /// Enters the constraints; none where there is no memory for all.
    fn enter_all(&mut self, sums: &[AggCon]) -> Result<(), Memory> {
        for place in 0..sums.len() {
            if let Err(error) = self.enter_one(place, &sums[place]) {
                self.clear();
                return Err(error);
            }
        }
        Ok(())
    }

    /// Enters a constraint, whose variables have no values yet.
    fn enter_one(&mut self, place: usize, sum: &AggCon) -> Result<(), Memory> {
        let threshold = threshold_of(sum);
        self.add_place(place, sum.out, 0)?;
        for part in sum.parts.as_slice() {
            let gain = gain_of(threshold.kind, threshold.least, part.weight);
            self.add_place(place, part.lit, gain)?;
        }
        self.waiting.push(place)?;
        self.accounts.push(Account::of(sum))?;
        Ok(())
    }

    /// Enters a place of a literal's variable.
    fn add_place(&mut self, sum: usize, lit: Lit, gain: i64) -> Result<(), Memory> {
        let var = lit.var.0 as usize;
        if var >= self.heads.len() {
            let Some(len) = var.checked_add(1) else {
                return Err(Memory);
            };
            self.heads.resize(len, None)?;
        }
        let place = self.occurrences.len();
        let Some(head) = self.heads.get_mut(var) else {
            return Err(Memory);
        };
        self.occurrences.push(Occurrence {
            sum,
            gain,
            positive: lit.positive,
            next: *head,
        })?;
        *head = Some(place);
        Ok(())
    }

    /// The place after one of a variable, and what stands there.
    fn visit(&mut self, place: usize, value: bool, is_new: bool) -> Option<usize> {
        let occurrence = *self.occurrences.get(place)?;
        let value = value == occurrence.positive;
        if let Some(account) = self.accounts.get_mut(occurrence.sum) {
            if is_new {
                account.count(occurrence.gain, value);
                self.wake(occurrence.sum);
            } else {
                account.take_back(occurrence.gain, value);
            }
        }
        occurrence.next
    }

    /// Notes at each place of a literal's variable that it became true, or that it is so no more.
    fn visit_all(&mut self, lit: Lit, is_new: bool) {
        let mut next = match self.heads.get(lit.var.0 as usize) {
            Some(head) => *head,
            None => None,
        };
        // No variable has more places than there are.
        for _ in 0..self.occurrences.len() {
            let Some(place) = next else {
                return;
            };
            next = self.visit(place, lit.positive, is_new);
        }
    }

    /// Notes that a constraint changed.
    fn wake(&mut self, sum: usize) {
        let Some(account) = self.accounts.get_mut(sum) else {
            return;
        };
        if account.is_waiting {
            return;
        }
        // There is room, since each constraint waits once.
        account.is_waiting = self.waiting.push(sum).is_ok();
    }

    /// Counts the steps of the trail that are not counted yet.
    fn count_steps(&mut self, store: &Store) {
        let trail = store.trail();
        for place in self.counted..trail.len() {
            self.visit_all(trail[place], true);
        }
        self.counted = trail.len();
    }

    /// Notes that what became true above the level is to be taken back.
    pub fn take_back(&mut self, store: &Store, level: u64)
        requires laws { IsStore store.now }
    {
        if self.accounts.is_empty() {
            return;
        }
        self.time = self.time.wrapping_add(1);
        let count = self.counted.min(store.trail().len());
        for place in (0..count).rev() {
            let step = store.step(place);
            if step.level <= level {
                self.counted = place + 1;
                return;
            }
            self.visit_all(step.lit, false);
        }
        self.counted = 0;
    }

    /// What the constraint with this number implies, if it is worth a look.
    fn ask_one(
        &mut self,
        alloc: Global,
        sums: &[AggCon],
        store: &Store,
        place: usize,
    ) -> Result<Option<Consequences>, Memory>
        requires laws { IsStore store.now }
        requires within { All (IsWithin store.now.trail.values) sums.now }
        ensures all { IfOk result (λ o. IfSome o (λ found. All (IsImpliedAt sums.now store.now.trail.values found.place)
            found.clauses)) }
        ensures some { IfOk result (λ o. IfSome o (λ found. found.clauses ≡ [] → ⊥)) }
        ensures place { IfOk result (λ o. IfSome o (λ found. found.place < length sums.now)) }
    {
        let time = self.time;
        let Some(account) = self.accounts.get_mut(place) else {
            return Ok(None);
        };
        account.is_waiting = false;
        let values = store.assignment();
        if place >= sums.len() || !account.is_tight(values) || account.is_seen(values, time) {
            return Ok(None);
        }
        account.note_look(values, time);
        let is_plain = account.is_plain;
        let clauses = implied_each(alloc, &sums[place], values)?;
        if clauses.is_empty() {
            return Ok(None);
        }
        if !is_plain {
            // It may imply more.
            self.wake(place);
        }
        Ok(Some(Consequences { place, clauses }))
    }

    /// What one of the constraints that changed implies: clauses, at least one, each of which is false now or has one
    /// literal left, with the constraint's place; None where none was found.
    pub fn ask(
        &mut self,
        alloc: Global,
        sums: &[AggCon],
        store: &Store,
    ) -> Result<Option<Consequences>, Memory>
        requires laws { IsStore store.now }
        requires within { All (IsWithin store.now.trail.values) sums.now }
        ensures all { IfOk result (λ o. IfSome o (λ found. All (IsImpliedAt sums.now store.now.trail.values found.place)
            found.clauses)) }
        ensures some { IfOk result (λ o. IfSome o (λ found. found.clauses ≡ [] → ⊥)) }
        ensures place { IfOk result (λ o. IfSome o (λ found. found.place < length sums.now)) }
    {
        if self.accounts.is_empty() {
            return Ok(None);
        }
        self.count_steps(store);
        for _ in 0..self.waiting.len() {
            let Some(place) = self.waiting.pop() else {
                return Ok(None);
            };
            if let Some(found) = self.ask_one(alloc, sums, store, place)? {
                return Ok(Some(found));
            }
        }
        Ok(None)
    }
}
