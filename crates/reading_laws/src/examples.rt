//! Worked examples of the stages of data and sizes.
ghost use Rattle.reading_laws.specs.CellExamples.{CellsAreWorkedOut};
ghost use Rattle.reading_laws.specs.Examples.{AreasAreWorkedOut, NumbersAreWorkedOut};
ghost use Rattle.reading_laws.specs.FileExamples.{FilesAreWorkedOut};
ghost use Rattle.reading_laws.specs.SizesExamples.{SizesAreWorkedOut};

/// Sets of elements that are said by ranges.
pub fn cells_worked_out()
    ensures { CellsAreWorkedOut }
{}

/// A structure over areas and colors: what is refused in it, and what it gives.
pub fn areas_worked_out()
    ensures { AreasAreWorkedOut }
{}

/// Numbers, constants and propositions.
pub fn numbers_worked_out()
    ensures { NumbersAreWorkedOut }
{}

/// What the structures of whole files give.
pub fn files_worked_out()
    ensures { FilesAreWorkedOut }
{}

/// Numbers of ground atoms, weights and static bounds.
pub fn sizes_worked_out()
    ensures { SizesAreWorkedOut }
{}
