//! How short clauses are put into lists, one for each literal.
ghost use Rattle.std.specs.Prelude.{◌≡◌, ◌≢◌, ℕ, ◌-◌, ◌*◌, ◌^◌, ◌<◌, ◌≤◌, ◌↔◌, ◌⊎◌, length, cond, nat_lt};
ghost use Rattle.std.specs.Prelude.{All, Contains, IsTrue, List, OnOk, MatchOption, Some, slice_get};
ghost use Rattle.lit_core.specs.declared.literals.Lit.{Lit};
ghost use Rattle.lit_core.specs.Packing.{number_of};
ghost use Rattle.clause_base.specs.ShortState.{IsRest, IsShort, IsListed, HaveLists};
ghost use Rattle.clause_base.specs.ShortFields.{Grows, lists_of};

use crate::clause_db::ClauseDb;
use crate::occurrences::Occurrence;
use lit_core::{Lit, Memory, PackedLit};

/// Up to which clause there is room, and how many occurrences may be listed after those.
#[derive(Drop)]
pub struct Plan {
    pub end: usize,
    pub left: usize,
}

/// Whether a clause of this length is listed.
pub fn is_short(len: usize) -> bool
    ensures { IsTrue result ↔ ((2 ≤ len) × (len ≤ 4)) }
{
    2 <= len && len <= 4
}

/// The number of the list of a literal.
pub fn list_of(lit: Lit) -> usize
    requires { number_of lit < 2 ^ 64 }
    ensures { result ≡ number_of lit }
{
    let place = lit.var.0 as usize * 2;
    if lit.positive { place + 1 } else { place }
}

/// The literals of the clause with this number, where it is held and short.
pub fn short_clause(held: &ClauseDb, id: usize) -> Option<&[PackedLit]>
    requires { id < length held.now.clauses }
    ensures { MatchOption result
        ((c : List Lit) → slice_get held.now.clauses id ≡ Some (Some c) → IsShort c → ⊥)
        (λ c. (slice_get held.now.clauses id ≡ Some (Some c.now)) × IsShort c.now) }
{
    match held.get(id) {
        Some(lits) => if is_short(lits.len()) {
            Some(lits)
        } else {
            None
        },
        None => None,
    }
}

/// Adds one for the list of each of these literals.
fn count_each(counts: &mut Vec<u32>, lits: &[PackedLit])
    requires { All (λ l. number_of l < length counts.old.items) lits.now }
    ensures { length counts.new.items ≡ length counts.old.items }
{
    for lit in lits {
        let list = list_of(lit.lit());
        counts[list] = counts[list].saturating_add(1);
    }
}

/// Counts for each list what the clauses from this one on add to it, as far as there is room.
pub fn count(counts: &mut Vec<u32>, held: &ClauseDb, from: usize, left: usize) -> Plan
    requires { HaveLists (length counts.old.items) held.now.clauses }
    ensures within { result.end ≤ length held.now.clauses }
    ensures small { result.end < 2 ^ 32 }
    ensures len { length counts.new.items ≡ length counts.old.items }
{
    let end = held.len().min(u32::MAX as usize);
    let mut left = left;
    for id in from..end {
        let Some(lits) = short_clause(held, id) else {
            continue;
        };
        if lits.len() > left {
            return Plan { end: id, left };
        }
        left -= lits.len();
        count_each(counts, lits);
    }
    Plan { end, left }
}

/// Makes the room in each list that was counted: lists that double when they are full take three times as long.
pub fn make_room(lists: &mut Vec<Vec<Occurrence>>, counts: &[u32]) -> Result<(), Memory>
    requires { length counts.now ≡ length lists.old.items }
    ensures { lists_of lists.new ≡ lists_of lists.old }
{
    for list in 0..lists.len() {
        lists[list].reserve(counts[list] as usize)?;
    }
    Ok(())
}

/// Adds a clause, as the literal sees it, to the literal's list.
fn add(lists: &mut Vec<Vec<Occurrence>>, lit: PackedLit, seen: Occurrence) -> Result<(), Memory>
    requires { number_of lit < length lists.old.items }
    ensures grows { (c : List Lit) → Contains c lit → IsRest c lit seen
        → Grows (lists_of lists.old) (lists_of lists.new) seen.id c }
    ensures here { OnOk result (IsListed (lists_of lists.new) lit seen.id) }
{
    lists[list_of(lit.lit())].push(seen)?;
    Ok(())
}

/// The place, or as many places before it as there are where it is past the end.
fn wrapped(place: usize, len: usize) -> usize
    requires { place < 2 * len }
    ensures { result ≡ cond (nat_lt place len) place (place - len) }
{
    if place < len { place } else { place - len }
}

/// The other places of a short clause, one of them more than once where there are fewer than three.
fn others(place: usize, len: usize) -> (usize, usize, usize)
    requires short { (2 ≤ len) × (len ≤ 4) }
    requires place { place < len }
    ensures within { (result.0 < len) × (result.1 < len) × (result.2 < len) }
    ensures all { (k : ℕ) → k < len → k ≢ place → (k ≡ result.0) ⊎ (k ≡ result.1) ⊎ (k ≡ result.2) }
{
    let first = wrapped(place + 1, len);
    match len {
        2 => (first, first, first),
        3 => (first, wrapped(place + 2, len), first),
        _ => (first, wrapped(place + 2, len), wrapped(place + 3, len)),
    }
}

/// The clause with this number, as its literal at this place sees it.
fn seen_from(id: u32, lits: &[PackedLit], place: usize) -> Occurrence
    requires short { IsShort lits.now }
    requires place { place < length lits.now }
    ensures id { result.id ≡ id }
    ensures rest { (l : Lit) → slice_get lits.now place ≡ Some l → IsRest lits.now l result }
{
    let (first, second, third) = others(place, lits.len());
    Occurrence {
        id,
        first: lits[first],
        second: lits[second],
        third: lits[third],
    }
}

/// Lists a short clause.
pub fn add_clause(
    lists: &mut Vec<Vec<Occurrence>>,
    id: u32,
    lits: &[PackedLit],
) -> Result<(), Memory>
    requires short { IsShort lits.now }
    requires lists { All (λ l. number_of l < length lists.old.items) lits.now }
    ensures grows { Grows (lists_of lists.old) (lists_of lists.new) id lits.now }
    ensures all { OnOk result (All (λ l. IsListed (lists_of lists.new) l id) lits.now) }
{
    for place in 0..lits.len() {
        let seen = seen_from(id, lits, place);
        add(lists, lits[place], seen)?;
    }
    Ok(())
}
