//! What the stages see of a file is fixed by its text.
ghost use Rattle.std.specs.Prelude.{◌≡◌, ℕ, List};
ghost use Rattle.grammar.specs.declared.raw_blocks.RawKb.{RawKb};
ghost use Rattle.grammar.specs.BlockTrees.{Block};
ghost use Rattle.grammar.specs.BlockView.{IsKb};
ghost use Rattle.stage_definitions.specs.FileView.{file_in};
ghost use Rattle.stage_definitions.specs.FileTrees.{file_of};

/// What the stages see in a raw file is what they see in the blocks that it was read from. So each contract over a
/// raw file speaks of the blocks of its text.
pub fn files_are_their_blocks()
    ensures { (blocks : List Block) (len : ℕ) (kb : RawKb) → IsKb blocks len kb → file_in kb ≡ file_of blocks len }
{}
