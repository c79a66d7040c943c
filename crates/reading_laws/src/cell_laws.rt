//! What the tests of cells and tuples mean.
ghost use Rattle.reading_laws.specs.CellLaws.{
  CoveredIsEach,
  ListedAreAmong,
  ListedAreCounted,
  ListedAreDistinct,
  MissedIsSome,
  SharedIsSome,
};

/// An element is among some cells exactly where it is listed.
pub fn listed_are_among()
    ensures { ListedAreAmong }
{}

/// The listed elements are distinct.
pub fn listed_are_distinct()
    ensures { ListedAreDistinct }
{}

/// As many elements are counted as are listed.
pub fn listed_are_counted()
    ensures { ListedAreCounted }
{}

/// A cell is covered exactly where each of its elements is among the others.
pub fn covered_is_each()
    ensures { CoveredIsEach }
{}

/// Two cells share exactly where an element of one is in the other.
pub fn shared_is_some()
    ensures { SharedIsSome }
{}

/// A function misses a tuple exactly where some tuple over the domains has no row.
pub fn missed_is_some()
    ensures { MissedIsSome }
{}
