//! Laws of the walk over definitions.
ghost use Rattle.definition_walk.specs.WalkLaws.{TypedCanBeGround, DefinedAreRanges};

/// What typing gives is what the walk asks for.
pub fn typed_can_be_ground()
    ensures { TypedCanBeGround }
{}

/// The atoms of a defined symbol stand one after another.
pub fn defined_are_ranges()
    ensures { DefinedAreRanges }
{}
