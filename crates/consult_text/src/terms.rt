//! Looks the names of term blocks up.
ghost use Rattle.std.specs.Prelude.{◌≡◌, position};
ghost use Rattle.std.specs.Str.{bytes_eq};
ghost use Rattle.consult_base.specs.Opened.{base_of};
ghost use Rattle.consult_text.specs.Ranges.{FindsTerm};

use crate::lines::CommandError;
use crate::refusals::F;
use consult_base::KnowledgeBase;
use kb_logic::Term;
use type_derivation::Named;

/// The number of the first block of this name.
fn named(blocks: &[Named<Term>], name: &[u8]) -> Option<usize>
    ensures { result ≡ position (λ b. bytes_eq name.now b.name) blocks.now }
{
    blocks.iter().position(|block| name == block.name.text())
}

/// The number of the term block of this name. There is no memory for so many blocks that 32 bits do not number them.
pub fn find_term(kb: &KnowledgeBase, name: &[u8]) -> Result<u32, CommandError>
    ensures { FindsTerm (base_of kb.now) name.now result }
{
    let Some(number) = named(kb.typed().terms.as_slice(), name) else {
        return Err(CommandError::Refused(F::UnknownTerm));
    };
    match u32::try_from(number) {
        Ok(number) => Ok(number),
        Err(_) => Err(CommandError::Memory),
    }
}
