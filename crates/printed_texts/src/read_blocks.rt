//! Printed structure blocks are read back.
ghost use Rattle.printed_texts.specs.ReadBlocks.{BlocksAreReadBack, NoTwoHaveOneText};

/// The text of a partial structure is that of one structure block, which gives this partial structure again.
pub fn blocks_are_read_back()
    ensures { BlocksAreReadBack }
{}

/// No two partial structures over one vocabulary have one text.
pub fn no_two_have_one_text()
    ensures { NoTwoHaveOneText }
{}
