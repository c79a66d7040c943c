//! The lines that say claims. Where memory runs out, a part may have been appended.
ghost use Rattle.std.specs.Prelude.{◌≡◌, ◌++◌, OnOk, map, slice_get};
ghost use Rattle.consult_base.specs.Opened.{base_of};
ghost use Rattle.stage_definitions.specs.FileBases.{named_term};
ghost use Rattle.type_derivation.specs.TypedViews.{named_term_view};
ghost use Rattle.verified_claims.specs.ClaimLines.{claim_label, choices_text, claim_text, claim_line, name_of};

use crate::said::SaidClaim;
use consult_base::KnowledgeBase;
use itoa::Buffer;
use kb_logic::{Literal, Memory, Term, Vocabulary};
use literal_printer::pieces::push_bytes;
use literal_printer::push_literal;
use type_derivation::Named;

/// Appends `claim 2 ` for line 2.
fn push_label(out: &mut Vec<u8>, line: u64) -> Result<(), Memory>
    ensures { OnOk result (out.new.items ≡ out.old.items ++ claim_label line) }
{
    let mut buffer = Buffer::new();
    push_bytes(out, b"claim ")?;
    push_bytes(out, buffer.format(line).as_bytes())?;
    push_bytes(out, b" ")
}

/// Appends nothing, or ` from a, b`.
fn push_choices(out: &mut Vec<u8>, vocab: &Vocabulary, choices: &[Literal]) -> Result<(), Memory>
    ensures { OnOk result (out.new.items ≡ out.old.items ++ choices_text vocab.now choices.now) }
{
    let Some((first, others)) = choices.split_first() else {
        return Ok(());
    };
    push_bytes(out, b" from ")?;
    push_literal(out, vocab, first)?;
    for other in others {
        push_bytes(out, b", ")?;
        push_literal(out, vocab, other)?;
    }
    Ok(())
}

/// The name of the term block of this number.
fn term_name(blocks: &[Named<Term>], number: u32) -> &[u8]
    ensures { result.now ≡ name_of (slice_get (map named_term (map named_term_view blocks.now)) number) }
{
    match blocks.get(number as usize) {
        Some(block) => block.name.text(),
        None => b"",
    }
}

/// Appends it.
fn push_term_name(out: &mut Vec<u8>, kb: &KnowledgeBase, number: u32) -> Result<(), Memory>
    ensures { OnOk result (out.new.items ≡ out.old.items ++ name_of (slice_get (base_of kb.now).terms number)) }
{
    push_bytes(out, term_name(kb.typed().terms.as_slice(), number))
}

/// Appends the claim without its newline.
fn push_claim_text(out: &mut Vec<u8>, kb: &KnowledgeBase, said: &SaidClaim) -> Result<(), Memory>
    ensures { OnOk result (out.new.items ≡ out.old.items ++ claim_text (base_of kb.now) said.now) }
{
    match said {
        SaidClaim::Inconsistent(line, choices) => {
            push_label(out, *line)?;
            push_bytes(out, b"inconsistent")?;
            push_choices(out, kb.vocabulary(), choices.as_slice())
        }
        SaidClaim::Forced(line, literal, choices) => {
            push_label(out, *line)?;
            push_bytes(out, b"forced ")?;
            push_literal(out, kb.vocabulary(), literal)?;
            push_choices(out, kb.vocabulary(), choices.as_slice())
        }
        SaidClaim::Least(line, term, value, choices) => {
            push_label(out, *line)?;
            push_bytes(out, b"least ")?;
            push_term_name(out, kb, *term)?;
            push_bytes(out, b" ")?;
            kb_logic::decimal(out, *value)?;
            push_choices(out, kb.vocabulary(), choices.as_slice())
        }
    }
}

/// Appends the line of the claim.
pub(crate) fn push_claim(
    out: &mut Vec<u8>,
    kb: &KnowledgeBase,
    said: &SaidClaim,
) -> Result<(), Memory>
    ensures { OnOk result (out.new.items ≡ out.old.items ++ claim_line (base_of kb.now) said.now) }
{
    push_claim_text(out, kb, said)?;
    push_bytes(out, b"\n")
}
