//! What the definitions of the stage of types say.
ghost use Rattle.type_derivation.specs.Examples.{TypesAreWorkedOut};
ghost use Rattle.type_derivation.specs.ListedTrees.{TypesAreInOrder};

/// Types by places, by sides and as written; what fits where, and where it does not.
pub fn worked_examples()
    ensures { TypesAreWorkedOut }
{}

/// The variables of a typed tree have the types that are found, in the order in which they are bound in the text.
pub fn types_are_in_order()
    ensures { TypesAreInOrder }
{}
