//! Laws of structure blocks that are printed.
ghost use Rattle.printed_texts.specs.SpelledBlocks.{BlocksAreSpelled};

/// The text of a block is that of one structure block of the grammar, which is read as what was written.
pub fn blocks_are_spelled()
    ensures { BlocksAreSpelled }
{}
