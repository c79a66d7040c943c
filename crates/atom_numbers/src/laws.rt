//! Laws of the definitions.
ghost use Rattle.atom_numbers.specs.Laws.{LiteralsHoldByTheirVariables};

/// A literal is true in the structure of a valuation exactly where the literal of its atom's variable is.
pub fn literals_hold_by_their_variables()
    ensures { LiteralsHoldByTheirVariables }
{}
