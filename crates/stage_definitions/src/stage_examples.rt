//! Worked examples of the stage of blocks and of types below one another.
ghost use Rattle.stage_definitions.specs.StageExamples.{BelowIsWorkedOut, BlocksAreWorkedOut};

/// Headers, equal names, blocks too many, and the block that a name chooses.
pub fn blocks_worked_out()
    ensures { BlocksAreWorkedOut }
{}

/// A chain of types, and two under one parent.
pub fn below_worked_out()
    ensures { BelowIsWorkedOut }
{}
