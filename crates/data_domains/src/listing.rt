//! Elements that are listed one after another, each once.
//!
//! A word is found by hash, an integer at its place. There it is said how many integers from it on are known to be
//! listed, so that a range is gone through by what is new of it: a walk that passes by listed integers says at each
//! place where it stood what it found at the next one, and the next walk makes half as many steps.
ghost use Rattle.std.specs.Prelude.{◌≡◌, ◌<◌, ◌≤◌, ◌+◌, ◌-◌, ◌+ℤ◌, ◌≤ℤ◌, ℕ, [], pos, negsuc, fold, get_or, length};
ghost use Rattle.std.specs.Prelude.{IfOk, OnOk};
ghost use Rattle.kb_logic.specs.declared.elements.Elem.TheVariants as elem;
ghost use Rattle.stage_definitions.specs.Elements as set;
ghost use Rattle.data_domains.specs.Listings.{IsListing};
ghost use Rattle.data_domains.specs.Sets.{interval_view};

use crate::intervals::Interval;
use indexmap::IndexSet;
use kb_logic::{Elem, ElemList, Memory, Name};
use std::alloc::Global;

/// The elements so far, the words among them, and for so many integers from the first one on how many are listed from
/// there on; 0 where the integer itself is not.
#[derive(Drop)]
pub struct Listing<'a> {
    pub elems: ElemList,
    pub words: IndexSet<&'a [u8]>,
    pub base: i64,
    pub ahead: Vec<u32>,
}

/// The sum of both, or less where it would be too great.
fn sum(a: u32, b: u32) -> u32
    ensures low { a ≤ result }
    ensures high { result ≤ a + b }
{
    a.saturating_add(b)
}

fn number_at(numbers: &[u32], place: usize) -> u32
    ensures { result ≡ get_or numbers.now place 0 }
{
    match numbers.get(place) {
        Some(number) => *number,
        None => 0,
    }
}

/// The least integer of a hull, or 1,000,000 where there is none.
fn first_of(hull: Interval) -> i64
    requires low { negsuc 999999 ≤ℤ (interval_view hull).low }
    requires high { (interval_view hull).low ≤ℤ pos 1000000 }
    ensures { result ≡ (interval_view hull).low }
{
    hull.low.value() as i64
}

/// How many integers a hull has.
fn size_of(hull: Interval) -> usize
    requires { pos (set.size_of (interval_view hull)) ≤ℤ pos 2000001 }
    ensures { result ≡ set.size_of (interval_view hull) }
{
    hull.size() as usize
}

impl<'a> Listing<'a> {
    /// Nothing is listed yet. The integers that will be lie in the hull.
    pub fn new(alloc: Global, hull: Interval) -> Result<Listing<'a>, Memory>
        requires low { negsuc 999999 ≤ℤ (interval_view hull).low }
        requires high { (interval_view hull).low ≤ℤ pos 1000000 }
        requires size { pos (set.size_of (interval_view hull)) ≤ℤ pos 2000001 }
        ensures listing { IfOk result IsListing }
        ensures elems { IfOk result (λ s. s.elems ≡ []) }
        ensures base { IfOk result (λ s. s.base ≡ (interval_view hull).low) }
        ensures count { IfOk result (λ s. length s.ahead.items ≡ set.size_of (interval_view hull)) }
    {
        Ok(Listing {
            elems: ElemList::new(alloc),
            words: IndexSet::new(alloc),
            base: first_of(hull),
            ahead: vec![in alloc; 0; size_of(hull)]?,
        })
    }

    /// The integer at a place.
    fn elem_at(&self, place: usize) -> Elem
        requires low { negsuc 999999 ≤ℤ self.now.base }
        requires high { (self.now.base +ℤ pos place) ≤ℤ pos 1000000 }
        ensures { result ≡ elem.Num (self.now.base +ℤ pos place) }
    {
        Elem::Num(self.base + place as i64)
    }

    pub fn add_word(&mut self, alloc: Global, word: &'a [u8]) -> Result<(), Memory>
        requires listing { IsListing self.old }
        ensures listing { OnOk result (IsListing self.new) }
        ensures elems { OnOk result (self.new.elems ≡ set.with_element self.old.elems (elem.Named word.now)) }
        ensures base { OnOk result (self.new.base ≡ self.old.base) }
        ensures count { OnOk result (length self.new.ahead.items ≡ length self.old.ahead.items) }
    {
        if self.words.contains(word) {
            return Ok(());
        }
        self.words.insert_full(word)?;
        self.elems.push(Elem::Named(Name::new(alloc, word)?))?;
        Ok(())
    }

    /// Lists the integer at this place, which is not listed.
    fn list(&mut self, place: usize) -> Result<(), Memory>
        requires listing { IsListing self.old }
        requires range { (self.old.base +ℤ pos (length self.old.ahead.items)) ≤ℤ pos 1000001 }
        requires low { negsuc 999999 ≤ℤ self.old.base }
        requires within { place < length self.old.ahead.items }
        requires missing { get_or self.old.ahead.items place 0 ≡ 0 }
        ensures listing { OnOk result (IsListing self.new) }
        ensures elems { OnOk result (self.new.elems ≡ set.with_element self.old.elems
            (elem.Num (self.old.base +ℤ pos place))) }
        ensures base { OnOk result (self.new.base ≡ self.old.base) }
        ensures count { OnOk result (length self.new.ahead.items ≡ length self.old.ahead.items) }
    {
        let elem = self.elem_at(place);
        self.elems.push(elem)?;
        self.ahead[place] = 1;
        Ok(())
    }

    /// Says at this place, from which so many integers are listed, what is said behind these too.
    fn join(&mut self, place: usize, step: u32)
        requires listing { IsListing self.old }
        requires within { place < length self.old.ahead.items }
        requires step { get_or self.old.ahead.items place 0 ≡ step }
        requires some { 0 < step }
        ensures listing { IsListing self.new }
        ensures elems { self.new.elems ≡ self.old.elems }
        ensures base { self.new.base ≡ self.old.base }
        ensures count { length self.new.ahead.items ≡ length self.old.ahead.items }
    {
        let further = number_at(&self.ahead, place + step as usize);
        self.ahead[place] = sum(step, further);
    }

    /// Lists the integer at this place, if it is not; the place of the next one that may not be.
    fn turn(&mut self, place: usize) -> Result<usize, Memory>
        requires listing { IsListing self.old }
        requires range { (self.old.base +ℤ pos (length self.old.ahead.items)) ≤ℤ pos 1000001 }
        requires low { negsuc 999999 ≤ℤ self.old.base }
        requires within { place < length self.old.ahead.items }
        ensures later { IfOk result (λ next. place < next) }
        ensures listing { OnOk result (IsListing self.new) }
        ensures elems { IfOk result (λ next. (end : ℕ) → place < end → fold set.with_element self.new.elems
            (set.integers_from (self.old.base +ℤ pos next) (end - next)) ≡ fold set.with_element self.old.elems
            (set.integers_from (self.old.base +ℤ pos place) (end - place))) }
        ensures base { OnOk result (self.new.base ≡ self.old.base) }
        ensures count { OnOk result (length self.new.ahead.items ≡ length self.old.ahead.items) }
    {
        let step = number_at(&self.ahead, place);
        if step == 0 {
            self.list(place)?;
            return Ok(place + 1);
        }
        self.join(place, step);
        Ok(place + step as usize)
    }

    /// The integers from one place to before another one.
    pub fn add_integers(&mut self, from: usize, end: usize) -> Result<(), Memory>
        requires listing { IsListing self.old }
        requires range { (self.old.base +ℤ pos (length self.old.ahead.items)) ≤ℤ pos 1000001 }
        requires low { negsuc 999999 ≤ℤ self.old.base }
        requires within { end ≤ length self.old.ahead.items }
        ensures listing { OnOk result (IsListing self.new) }
        ensures elems { OnOk result (self.new.elems ≡ fold set.with_element self.old.elems
            (set.integers_from (self.old.base +ℤ pos from) (end - from))) }
        ensures base { OnOk result (self.new.base ≡ self.old.base) }
        ensures count { OnOk result (length self.new.ahead.items ≡ length self.old.ahead.items) }
    {
        let mut place = from;
        while place < end {
            place = self.turn(place)?;
        }
        Ok(())
    }
}
