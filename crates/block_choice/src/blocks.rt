//! Blocks with a header, of each kind.
ghost use Rattle.std.specs.Prelude.{◌≡◌, fold, map, position, unwrap_or};
ghost use Rattle.stage_definitions.specs.BlocksStage as stage;
ghost use Rattle.stage_definitions.specs.BlocksStage.{block_noted, header_names, is_called, one_of_each};
ghost use Rattle.stage_definitions.specs.FileView.{header_in};
ghost use Rattle.stage_definitions.specs.Files.{Header};
ghost use Rattle.block_choice.specs.Choices.{word_given};

use grammar::{RawHeader, RawStructure, RawTerm, RawTheory};
use kb_text::K;
use stage_definitions::Earliest;

/// A block with a header.
pub trait Headed {
    ghost header_of: { Self → Header };

    fn header(&self) -> &RawHeader
        ensures { header_in result.now ≡ header_of self.now };
}

impl Headed for RawTheory {
    ghost header_of = { λ t. header_in t.header };

    fn header(&self) -> &RawHeader {
        &self.header
    }
}

impl Headed for RawStructure {
    ghost header_of = { λ s. header_in s.header };

    fn header(&self) -> &RawHeader {
        &self.header
    }
}

impl Headed for RawTerm {
    ghost header_of = { λ t. header_in t.header };

    fn header(&self) -> &RawHeader {
        &self.header
    }
}

/// The number of the block of this name.
fn named<B: Headed>(blocks: &[B], word: &[u8]) -> Option<usize>
    ensures { result ≡ position (λ b. is_called word.now (B.header_of b).name) blocks.now }
{
    blocks
        .iter()
        .position(|block| word == block.header().name.text.as_slice())
}

/// The number of the block of the name that is given, or of the first one.
fn chosen<B: Headed>(blocks: &[B], choice: Option<&[u8]>) -> Option<usize>
    ensures { result ≡ stage.chosen (header_names (map B.header_of blocks.now)) (word_given choice.entry) }
{
    match choice {
        Some(word) => named(blocks, word),
        None => { if blocks.is_empty() { None } else { Some(0) } }
    }
}

/// The number of the chosen block, 0 where there is none, which is refused at the end of the file.
pub fn choose<B: Headed>(
    blocks: &[B],
    choice: Option<&[u8]>,
    end: usize,
    earliest: &mut Earliest,
) -> usize
    ensures number { result ≡ unwrap_or (stage.chosen (header_names (map B.header_of blocks.now))
        (word_given choice.entry)) 0 }
    ensures noted { earliest.new.first ≡ block_noted earliest.old.first
        (stage.wanted (header_names (map B.header_of blocks.now)) (word_given choice.entry) end) }
{
    let number = chosen(blocks, choice);
    earliest.note_if(number.is_none(), K::BlockChoice, end);
    number.unwrap_or(0)
}

/// Every block but the first is one too many.
pub fn note_further<B: Headed>(blocks: &[B], earliest: &mut Earliest)
    ensures { earliest.new.first ≡ fold block_noted earliest.old.first
        (one_of_each 0 (map (λ h. h.place) (map B.header_of blocks.now))) }
{
    for (i, block) in blocks.iter().enumerate() {
        earliest.note_if(i > 0, K::BlockChoice, block.header().place);
    }
}

/// Every block but the first is one too many, unless a name says which is chosen.
pub fn note_unless_named<B: Headed>(blocks: &[B], choice: Option<&[u8]>, earliest: &mut Earliest)
    ensures { earliest.new.first ≡ fold block_noted earliest.old.first (stage.one_unless_named (word_given choice.entry)
        (map (λ h. h.place) (map B.header_of blocks.now))) }
{
    match choice {
        Some(_) => {}
        None => note_further(blocks, earliest),
    }
}
