//! Laws of what the walk over terms asks of its callers.
ghost use Rattle.term_walk.specs.Laws.{BoundedAreAskable};

/// A well typed term whose bounds are small can be made a number and weighted literals.
pub fn bounded_are_askable()
    ensures { BoundedAreAskable }
{}
