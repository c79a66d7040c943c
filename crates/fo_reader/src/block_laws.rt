//! Laws of the grammar of files.
ghost use Rattle.std.specs.Prelude.{◌≡◌, ℕ, List, [], Result};
ghost use Rattle.kb_text.specs.declared.fault.KbFault.{KbFault};
ghost use Rattle.grammar.specs.Terminals.{Tok};
ghost use Rattle.token_reader.specs.Binders.{Whole};
ghost use Rattle.grammar.specs.BlockTrees.{Block, Declaration, TheoryItem, Rule, Entry};
ghost use Rattle.grammar.specs.BlockSpelling.{put_block, put_declaration, put_theory_item, put_rule, put_entry};
ghost use Rattle.grammar.specs.BlockFine.{IsFile, FineBlock, FineTheoryItem, FineRule};
ghost use Rattle.block_reader.specs.BlockParts.{Anything, EndsDeclaration, OneAtAPlace};
ghost use Rattle.grammar.specs.FileReads.{KbReads};

/// No text is written by two files.
pub fn one_file()
    ensures { (ts : List Tok) (f g : List Block) → IsFile ts f → IsFile ts g → f ≡ g }
{}

/// No text is two lists of blocks, nor has it two first refusals, nor both.
pub fn one_file_reading()
    ensures { (src : List ℕ) (r s : Result (List Block) KbFault) → KbReads src r → KbReads src s → r ≡ s }
{}

/// What begins at a place is a whole item there or none: no block, declaration, sentence, definition, rule or entry is
/// a prefix of a longer one, so that the longest is the only one.
pub fn one_item()
    ensures blocks { OneAtAPlace put_block FineBlock Anything }
    ensures declarations { OneAtAPlace put_declaration Whole EndsDeclaration }
    ensures theory_items { OneAtAPlace put_theory_item FineTheoryItem Anything }
    ensures rules { OneAtAPlace put_rule FineRule Anything }
    ensures entries { OneAtAPlace put_entry Whole Anything }
{}
