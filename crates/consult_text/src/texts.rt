//! The texts of replies.
ghost use Rattle.std.specs.Prelude.{◌≡◌, ◌++◌, OnOk, OnErr, IfOk, codes};
ghost use Rattle.std.specs.Fmt.{decimal};
ghost use Rattle.std.specs.String.{string_bytes};
ghost use Rattle.consult_text.specs.Refusals.{text_of};
ghost use Rattle.consult_text.specs.Texts.{end_line, labelled_lines, minimum_text, model_block, models_text};
ghost use Rattle.consult_text.specs.Texts.{reply_text};

use crate::refusals::F;
use crate::replies::Reply;
use atom_numbers::FoundStructure;
use kb_logic::{ExtInt, Literal, Memory, Vocabulary};
use literal_printer::pieces::push_bytes;
use literal_printer::{push_literal, push_symbols};
use std::alloc::Global;

/// Appends the lines of a reply. Where memory runs out, nothing is appended.
pub fn write_reply(
    alloc: Global,
    out: &mut Vec<u8>,
    vocab: &Vocabulary,
    reply: &Reply,
) -> Result<(), Memory>
    ensures ok { OnOk result (out.new.items ≡ out.old.items ++ reply_text vocab.now reply.now) }
    ensures err { OnErr result (out.new.items ≡ out.old.items) }
{
    let mut text = Vec::new(alloc);
    push_reply(alloc, &mut text, vocab, reply)?;
    out.extend_from_slice(&text)?;
    Ok(())
}

/// As `write_reply`, but where memory runs out a part may have been appended.
pub fn push_reply(
    alloc: Global,
    out: &mut Vec<u8>,
    vocab: &Vocabulary,
    reply: &Reply,
) -> Result<(), Memory>
    ensures { OnOk result (out.new.items ≡ out.old.items ++ reply_text vocab.now reply.now) }
{
    match reply {
        Reply::Fine => push_bytes(out, b"ok\n"),
        Reply::Refused(cause) => push_refusal(out, *cause),
        Reply::Choices(choices) => push_labelled(out, vocab, b"choice ", choices.as_slice()),
        Reply::Model(m) => push_model(out, vocab, m),
        Reply::Models(models, all) => push_models(out, vocab, models.as_slice(), *all),
        Reply::Forced(literals) => push_labelled(out, vocab, b"forced ", literals.as_slice()),
        Reply::Minimum(value, m) => push_minimum(out, vocab, *value, m),
        Reply::Supported(choices) => push_labelled(out, vocab, b"support ", choices.as_slice()),
        Reply::Free => push_bytes(out, b"open\n"),
        Reply::Conflict(choices) => push_labelled(out, vocab, b"conflict ", choices.as_slice()),
        Reply::Consistent => push_bytes(out, b"consistent\n"),
        Reply::Inconsistent => push_bytes(out, b"inconsistent\n"),
        Reply::Undecided(budget) => push_bytes(out, undecided_line(alloc, *budget)?.as_bytes()),
    }
}

fn undecided_line(alloc: Global, budget: u64) -> Result<String, Memory>
    ensures { IfOk result (λ line. string_bytes line ≡ codes "undecided " ++ (decimal budget ++ codes "\n")) }
{
    Ok(format!(in alloc; "undecided {budget}\n")?)
}

fn push_refusal(out: &mut Vec<u8>, cause: F) -> Result<(), Memory>
    ensures { OnOk result (out.new.items ≡ out.old.items ++ (codes "refused " ++ (text_of cause ++ codes "\n"))) }
{
    push_bytes(out, b"refused F")?;
    kb_logic::decimal(out, ExtInt::Num(i64::from(cause.number())))?;
    push_bytes(out, b" ")?;
    push_bytes(out, cause.name().as_bytes())?;
    push_bytes(out, b"\n")
}

/// Appends a line for each literal, with the label before it, and `done`.
fn push_labelled(
    out: &mut Vec<u8>,
    vocab: &Vocabulary,
    label: &[u8],
    literals: &[Literal],
) -> Result<(), Memory>
    ensures { OnOk result (out.new.items ≡ out.old.items ++ labelled_lines label.now vocab.now literals.now) }
{
    for literal in literals {
        push_bytes(out, label)?;
        push_literal(out, vocab, literal)?;
        push_bytes(out, b"\n")?;
    }
    push_bytes(out, b"done\n")
}

fn push_model(out: &mut Vec<u8>, vocab: &Vocabulary, m: &FoundStructure) -> Result<(), Memory>
    ensures { OnOk result (out.new.items ≡ out.old.items ++ model_block vocab.now m.now) }
{
    push_bytes(out, b"model\n")?;
    push_symbols(out, vocab, m.tables())?;
    push_bytes(out, b"done\n")
}

/// Appends a value and the lines of a model's symbols.
fn push_minimum(
    out: &mut Vec<u8>,
    vocab: &Vocabulary,
    value: ExtInt,
    m: &FoundStructure,
) -> Result<(), Memory>
    ensures { OnOk result (out.new.items ≡ out.old.items ++ minimum_text vocab.now value m.now) }
{
    push_bytes(out, b"minimum ")?;
    kb_logic::decimal(out, value)?;
    push_bytes(out, b"\n")?;
    push_symbols(out, vocab, m.tables())?;
    push_bytes(out, b"done\n")
}

/// Appends a block for each model, and whether there are no others.
fn push_models(
    out: &mut Vec<u8>,
    vocab: &Vocabulary,
    models: &[FoundStructure],
    all: bool,
) -> Result<(), Memory>
    ensures { OnOk result (out.new.items ≡ out.old.items ++ models_text vocab.now models.now all) }
{
    for m in models {
        push_model(out, vocab, m)?;
    }
    push_bytes(out, end(all))
}

/// The last line after models.
fn end(all: bool) -> &'static [u8]
    ensures { result.now ≡ end_line all }
{
    if all { b"complete\n" } else { b"more\n" }
}
