//! How many literals follow from a knowledge base, and the least cost of its models.
ghost use Rattle.std.specs.Prelude.{◌≡◌, ◌++◌, List, length, IfOk, OnOk, Some, None, codes};
ghost use Rattle.std.specs.Option.{IfSome};
ghost use Rattle.kb_logic.specs.Decimals.{decimal_text};
ghost use Rattle.kb_logic.specs.declared.structures.Literal.{Literal};
ghost use Rattle.kb_logic.specs.declared.structures.Structure.{Structure};
ghost use Rattle.consult_base.specs.Opened.{base_of};
ghost use Rattle.consult_text.specs.States.{first_state};
ghost use Rattle.consult_text.specs.declared.replies.Reply.TheVariants as reply;
ghost use Rattle.consultation.specs.Turns.{RepliesTo};
ghost use Rattle.idp_cli.specs.Summaries.{AnswersQuestions, summary_text};

use chooser::FirstGreatest;
use consult_base::KnowledgeBase;
use consult_text::Reply;
use consultant_session::Session;
use consultation::reply_to;
use generated_files::Kind;
use kb_logic::{ExtInt, Memory, decimal};
use std::alloc::Global;

/// What is said of a knowledge base.
#[derive(Clone, Copy)]
pub struct Summary {
    /// How many literals follow, beside those that the data say themselves.
    pub forced: usize,
    /// The least cost of a model.
    pub least: ExtInt,
}

/// How many literals follow.
fn forced(alloc: Global, session: &mut Session<FirstGreatest>) -> Result<Option<usize>, Memory>
    ensures right { IfOk result (λ found. IfSome found (λ count. (ls : List Literal) × (count ≡ length ls)
        × RepliesTo (base_of session.old.kb) session.old.state (codes "propagate.") (Some (reply.Forced ls))
        session.new.state)) }
    ensures kb { session.new.kb ≡ session.old.kb }
{
    match reply_to(alloc, session, b"propagate.") {
        Ok(Some(Reply::Forced(literals))) => Ok(Some(literals.len())),
        Ok(_) => Ok(None),
        Err(Memory) => Err(Memory),
    }
}

/// The least cost of a model.
fn least(alloc: Global, session: &mut Session<FirstGreatest>) -> Result<Option<ExtInt>, Memory>
    ensures { IfOk result (λ found. IfSome found (λ value. (m : Structure)
        × RepliesTo (base_of session.old.kb) session.old.state (codes "minimize cost.") (Some (reply.Minimum value m))
        session.new.state)) }
{
    match reply_to(alloc, session, b"minimize cost.") {
        Ok(Some(Reply::Minimum(value, _))) => Ok(Some(value)),
        Ok(_) => Ok(None),
        Err(Memory) => Err(Memory),
    }
}

/// The summary of the knowledge base of a session in its first state; none where it has no model, or no cost.
fn summary_by(
    alloc: Global,
    session: &mut Session<FirstGreatest>,
) -> Result<Option<Summary>, Memory>
    requires { session.old.state ≡ first_state None }
    ensures { IfOk result (λ found. IfSome found (λ summary. (ls : List Literal) × (summary.forced ≡ length ls)
        × AnswersQuestions (base_of session.old.kb) ls summary.least)) }
{
    let Some(forced) = forced(alloc, session)? else {
        return Ok(None);
    };
    match least(alloc, session)? {
        Some(least) => Ok(Some(Summary { forced, least })),
        None => Ok(None),
    }
}

/// The summary of a knowledge base; none where it has no model, or no cost.
pub fn summary_of(alloc: Global, kb: KnowledgeBase) -> Result<Option<Summary>, Memory>
    ensures { IfOk result (λ found. IfSome found (λ summary. (ls : List Literal) × (summary.forced ≡ length ls)
        × AnswersQuestions (base_of kb) ls summary.least)) }
{
    let mut session = Session::open(alloc, kb, None, FirstGreatest)?;
    let found = summary_by(alloc, &mut session);
    session.let_go();
    found
}

/// Appends a line.
fn push_line(text: &mut Vec<u8>, line: &[u8]) -> Result<(), Memory>
    ensures { OnOk result (text.new.items ≡ text.old.items ++ (line.now ++ codes "\n")) }
{
    text.extend_from_slice(line)?;
    text.push(b'\n')?;
    Ok(())
}

/// The line of the least cost.
fn least_line(alloc: Global, least: ExtInt) -> Result<Vec<u8>, Memory>
    ensures { IfOk result (λ line. line.items ≡ codes "minimum " ++ decimal_text least) }
{
    let mut line = b"minimum ".as_slice().to_vec(alloc)?;
    decimal(&mut line, least)?;
    Ok(line)
}

/// The three lines of a summary.
pub fn summary_text(
    alloc: Global,
    kind: Kind,
    number: u32,
    summary: &Summary,
) -> Result<Vec<u8>, Memory>
    ensures { IfOk result (λ text. text.items
        ≡ summary_text kind number summary.now.forced summary.now.least) }
{
    let name = kind.name();
    let file = format!(in alloc; "{name} {number}")?;
    let count = summary.forced;
    let forced = format!(in alloc; "forced {count}")?;
    let least = least_line(alloc, summary.least)?;
    let mut text = Vec::new(alloc);
    push_line(&mut text, file.as_bytes())?;
    push_line(&mut text, forced.as_bytes())?;
    push_line(&mut text, &least)?;
    Ok(text)
}
