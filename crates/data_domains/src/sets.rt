//! Sets of elements.
ghost use Rattle.std.specs.Prelude.{◌≡◌, ◌++◌, ◌∷◌, [], ◌||◌, ◌≤ℤ◌, ℤ, false, List, fold, map, sum_by, true, IfOk, IfSome, IsTrue, OnOk};
ghost use Rattle.std.specs.List.{list_any};
ghost use Rattle.std.specs.Str.{bytes_eq};
ghost use Rattle.kb_logic.specs.declared.elements.Elem.TheVariants as elem;
ghost use Rattle.stage_definitions.specs.Scopes.{Text};
ghost use Rattle.stage_definitions.specs.Elements as set;
ghost use Rattle.stage_definitions.specs.SizesStage.{capped};
ghost use Rattle.structure_entries.specs.WholeViews.{whole_view};
ghost use Rattle.structure_entries.specs.EntryViews.{cell_view, elem_view};
ghost use Rattle.data_domains.specs.Runs.{is_hollow, is_inside};
ghost use Rattle.data_domains.specs.Sets.{interval_view, runs_in, words_in, AreSameWords, IsGathered, IsKnownWord, IsSetOf};

use crate::intervals::Interval;
use crate::runs::{merged, reaching};
use indexmap::IndexSet;
use kb_logic::Memory;
use std::alloc::Global;
use structure_entries::elements::{Cell, Element};
use structure_entries::wholes::Whole;

/// Some words, and some integers in intervals that rise, with a gap before each next one.
#[derive(Drop)]
pub struct ElementSet<'a> {
    pub words: IndexSet<&'a [u8]>,
    pub intervals: Vec<Interval>,
}

fn capped_size(interval: Interval) -> u64
    ensures { result ≡ capped (set.size_of (interval_view interval)) }
{
    let size = interval.size();
    if size > i128::from(u64::MAX) {
        u64::MAX
    } else {
        size as u64
    }
}

/// Whether the word stands at this place.
fn is_word_at<'a>(words: &IndexSet<&'a [u8]>, word: &'a [u8], place: usize) -> bool
    ensures { IsTrue result → list_any (bytes_eq word.now) (map (λ w. w.now) words.now.keys) ≡ true }
{
    match words.get_index(place) {
        Some(other) => word == *other,
        None => false,
    }
}

/// The place of the word, where it stands at this place or at the next one.
fn word_near<'a>(words: &IndexSet<&'a [u8]>, word: &'a [u8], near: usize) -> Option<usize>
    ensures { IfSome result (λ _. list_any (bytes_eq word.now) (map (λ w. w.now) words.now.keys) ≡ true) }
{
    if is_word_at(words, word, near) {
        return Some(near);
    }
    let next = near.saturating_add(1);
    if is_word_at(words, word, next) {
        return Some(next);
    }
    None
}

/// One more word; whether it is new, and its place.
fn add_word<'a>(words: &mut IndexSet<&'a [u8]>, word: &'a [u8]) -> Result<(bool, usize), Memory>
    ensures words { OnOk result ((ws : List Text) → AreSameWords (map (λ w. w.now) words.old.keys) ws
        → AreSameWords (map (λ w. w.now) words.new.keys) (set.with_word ws word.now)) }
    ensures known { IfOk result (λ r. r.0 ≡ false → (ws : List Text)
        → AreSameWords (map (λ w. w.now) words.old.keys) ws → list_any (bytes_eq word.now) ws ≡ true) }
{
    let (place, is_new) = words.insert_full(word)?;
    Ok((is_new, place))
}

/// One more interval, unless it is empty.
fn add_interval(intervals: &mut Vec<Interval>, interval: Interval) -> Result<(), Memory>
    ensures hollow { OnOk result (list_any is_hollow (map interval_view intervals.old.items) ≡ false
        → list_any is_hollow (map interval_view intervals.new.items) ≡ false) }
    ensures inside { OnOk result ((z : ℤ) → is_inside (map interval_view intervals.new.items) z
        ≡ (is_inside (map interval_view intervals.old.items) z || set.is_between (interval_view interval).low
        (interval_view interval).high z)) }
{
    if !interval.is_empty() {
        intervals.push(interval)?;
    }
    Ok(())
}

/// The words and the integers of a cell; whether it is more than a word that stood there before, and the place of the
/// word.
fn add_cell<'a>(
    words: &mut IndexSet<&'a [u8]>,
    intervals: &mut Vec<Interval>,
    cell: Cell<'a>,
) -> Result<(bool, usize), Memory>
    ensures words { OnOk result ((ws : List Text) → AreSameWords (map (λ w. w.now) words.old.keys) ws
        → AreSameWords (map (λ w. w.now) words.new.keys) (fold set.with_word ws
        (set.words_in (cell_view cell.entry)))) }
    ensures hollow { OnOk result (list_any is_hollow (map interval_view intervals.old.items) ≡ false
        → list_any is_hollow (map interval_view intervals.new.items) ≡ false) }
    ensures inside { OnOk result ((z : ℤ) → is_inside (map interval_view intervals.new.items) z
        ≡ (is_inside (map interval_view intervals.old.items) z || set.is_in (elem.Num z) (cell_view cell.entry))) }
    ensures known { IfOk result (λ r. r.0 ≡ false → (ws : List Text)
        → AreSameWords (map (λ w. w.now) words.old.keys) ws → IsKnownWord ws (cell_view cell.entry)) }
{
    match cell {
        Cell::One(x) => match x {
            Element::Word(word) => add_word(words, word),
            Element::Number(n) => {
                add_interval(intervals, Interval { low: n, high: n })?;
                Ok((true, 0))
            }
        },
        Cell::Span(low, high) => {
            add_interval(intervals, Interval { low, high })?;
            Ok((true, 0))
        }
    }
}

impl<'a> ElementSet<'a> {
    pub fn new(alloc: Global) -> ElementSet<'a>
        ensures { IsGathered [] result }
    {
        ElementSet {
            words: IndexSet::new(alloc),
            intervals: Vec::new(alloc),
        }
    }

    /// One more cell; whether it is more than a word that stood there before, and the place of the word. Nothing may be
    /// asked of the set before it is settled.
    ///
    /// A word is compared with the one at a place that the caller names, and with the next, before it is hashed: rows
    /// are mostly written in order, so that a word is that of the row before it, or the one that came after that.
    pub fn add(&mut self, cell: Cell<'a>, near: usize) -> Result<(bool, usize), Memory>
        ensures gathered { OnOk result ((cells : List set.Cell) → IsGathered cells self.old
            → IsGathered (cells ++ cell_view cell.entry ∷ []) self.new) }
        ensures known { IfOk result (λ r. r.0 ≡ false → (cells : List set.Cell) → IsGathered cells self.old
            → set.listed (cells ++ cell_view cell.entry ∷ []) ≡ set.listed cells) }
    {
        if let Some(place) = self.place_near(cell, near) {
            return Ok((false, place));
        }
        let added = add_cell(&mut self.words, &mut self.intervals, cell)?;
        Ok(added)
    }

    /// The place of the cell, where it is the word at this place or at the next one.
    fn place_near(&self, cell: Cell<'a>, near: usize) -> Option<usize>
        ensures { IfSome result (λ _. IsKnownWord (words_in self.now) (cell_view cell.entry)) }
    {
        match cell {
            Cell::One(x) => match x {
                Element::Word(word) => word_near(&self.words, word, near),
                Element::Number(_) => None,
            },
            Cell::Span(_, _) => None,
        }
    }

    /// Puts the intervals in order, after all cells.
    pub fn settle(&mut self, alloc: Global) -> Result<(), Memory>
        requires { list_any is_hollow (runs_in self.old) ≡ false }
        ensures { OnOk result ((cells : List set.Cell) → IsGathered cells self.old → IsSetOf cells self.new) }
    {
        let gathered = std::mem::replace(&mut self.intervals, Vec::new(alloc));
        self.intervals = merged(alloc, gathered)?;
        Ok(())
    }

    /// The elements of these cells.
    pub fn of(alloc: Global, cells: &[Cell<'a>]) -> Result<ElementSet<'a>, Memory>
        ensures { IfOk result (IsSetOf (map cell_view cells.now)) }
    {
        let mut words = IndexSet::new(alloc);
        let mut intervals = Vec::new(alloc);
        for cell in cells {
            add_cell(&mut words, &mut intervals, *cell)?;
        }
        Ok(ElementSet {
            words,
            intervals: merged(alloc, intervals)?,
        })
    }

    fn has_number(&self, n: Whole) -> bool
        ensures { (cells : List set.Cell) → IsSetOf cells self.now
            → result ≡ set.is_among cells (elem.Num (whole_view n)) }
    {
        match reaching(&self.intervals, n) {
            Some(interval) => !n.is_below(interval.low),
            None => false,
        }
    }

    pub fn contains(&self, x: Element<'a>) -> bool
        ensures { (cells : List set.Cell) → IsSetOf cells self.now → result ≡ set.is_among cells (elem_view x.entry) }
    {
        match x {
            Element::Word(word) => self.words.contains(word),
            Element::Number(n) => self.has_number(n),
        }
    }

    /// How many elements there are, at most the greatest of 64 bits.
    pub fn count(&self) -> u64
        ensures { (cells : List set.Cell) → IsSetOf cells self.now → result ≡ capped (set.count_of cells) }
    {
        let mut count = self.words.len() as u64;
        for interval in &self.intervals {
            count = count.saturating_add(capped_size(*interval));
        }
        count
    }

    /// Whether each integer of the interval is in the set: all lie in one interval, since there are gaps between these.
    fn covers_interval(&self, wanted: Interval) -> bool
        ensures { (cells : List set.Cell) → IsSetOf cells self.now → result ≡ set.is_covered cells
            (set.span (whole_view wanted.low) (whole_view wanted.high)) }
    {
        if wanted.is_empty() {
            return true;
        }
        match reaching(&self.intervals, wanted.low) {
            Some(interval) => interval.includes(wanted),
            None => false,
        }
    }

    /// Whether each element of the cell is in the set.
    pub fn covers(&self, cell: Cell<'a>) -> bool
        ensures { (cells : List set.Cell) → IsSetOf cells self.now → result ≡ set.is_covered cells
            (cell_view cell.entry) }
    {
        match cell {
            Cell::One(x) => self.contains(x),
            Cell::Span(low, high) => self.covers_interval(Interval { low, high }),
        }
    }

    /// Whether some integer of the interval is in the set.
    fn meets_interval(&self, wanted: Interval) -> bool
        ensures { (cells : List set.Cell) → IsSetOf cells self.now
            → result ≡ list_any (set.do_share (set.span (whole_view wanted.low) (whole_view wanted.high))) cells }
    {
        if wanted.is_empty() {
            return false;
        }
        match reaching(&self.intervals, wanted.low) {
            Some(interval) => !wanted.high.is_below(interval.low),
            None => false,
        }
    }

    /// Whether some element of the cell is in the set.
    pub fn meets(&self, cell: Cell<'a>) -> bool
        ensures { (cells : List set.Cell) → IsSetOf cells self.now
            → result ≡ list_any (set.do_share (cell_view cell.entry)) cells }
    {
        match cell {
            Cell::One(x) => self.contains(x),
            Cell::Span(low, high) => self.meets_interval(Interval { low, high }),
        }
    }
}
