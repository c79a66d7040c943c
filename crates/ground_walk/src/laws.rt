//! Laws of what the walk asks of its callers.
ghost use Rattle.ground_walk.specs.Laws.{BoundedAreGroundable, DataKnowAtoms};

/// A formula whose terms have small bounds can be grounded under elements of the types of its scope.
pub fn bounded_are_groundable()
    ensures { BoundedAreGroundable }
{}

/// Data say of each ground atom whether it is known.
pub fn data_know_atoms()
    ensures { DataKnowAtoms }
{}
