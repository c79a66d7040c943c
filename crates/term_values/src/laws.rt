//! Laws of the structures of valuations, and of the rows of terms.
ghost use Rattle.term_values.specs.Laws.{RowsAreRight, RowsAreFew, AtomsHaveVariables, ValuationsMakeStructures};
ghost use Rattle.term_values.specs.Laws.{StructuresHaveValuations, OnlyAtomsMatter, KnownIsExtended};

/// Exactly one row of a term has true guards, and its value is the term's.
pub fn rows_are_right()
    ensures { RowsAreRight }
{}

/// An atom is true in the structure of a valuation exactly where its variable is.
pub fn atoms_have_variables()
    ensures { AtomsHaveVariables }
{}

/// A valuation with one value for each function at each tuple makes a structure.
pub fn valuations_make_structures()
    ensures { ValuationsMakeStructures }
{}

/// Each structure is that of a valuation.
pub fn structures_have_valuations()
    ensures { StructuresHaveValuations }
{}

/// Only the variables of the atoms matter to the structure.
pub fn only_atoms_matter()
    ensures { OnlyAtomsMatter }
{}

/// A valuation has what is known exactly where its structure extends the data.
pub fn known_is_extended()
    ensures { KnownIsExtended }
{}

/// A well typed term has no more rows than its applications outside aggregates have values.
pub fn rows_are_few()
    ensures { RowsAreFew }
{}
