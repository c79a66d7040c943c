//! The bytes of an answer, and what a log states of it.
ghost use Rattle.std.specs.Prelude.{◌≡◌, ◌≤◌, ◌<◌, ◌++◌, ℕ, List, IfOk, OnOk};
ghost use Rattle.std.specs.Option.{IfSome};
ghost use Rattle.derivation_log.specs.Lines.{entry_text};
ghost use Rattle.derivation_log.specs.declared.entries.Entry.TheVariants.{Mark};
ghost use Rattle.search_log.specs.Entries.{AreEntries};
ghost use Rattle.log_checker.specs.Growing.{GoesOn};
ghost use Rattle.narrowed_bases.specs.Narrowings.{IsProblemOf};
ghost use Rattle.consult_text.specs.RightReplies.{RightReply};
ghost use Rattle.consult_text.specs.States.{State, state_after};
ghost use Rattle.consult_text.specs.Texts.{reply_text};
ghost use Rattle.consult_base.specs.Opened.{base_of};
ghost use Rattle.consultation.specs.Consultation.{said_text};
ghost use Rattle.consultation.specs.Statements.{IsRightBefore, IsStatement};
ghost use Rattle.consultation.specs.declared.said.Said.TheVariants as said;

use crate::said::Said;
use chooser::FirstGreatest;
use consult_text::{Command, F, Reply, write_reply};
use consultant_session::Session;
use derivation_log::{Entry, write_entry};
use derived_claims::derived_claims;
use kb_logic::{Memory, Vocabulary};
use log_checker::Checker;
use std::alloc::Global;
use tightened_entries::under_last_bound;

/// The bytes of a reply.
fn text_of_reply(alloc: Global, vocab: &Vocabulary, reply: &Reply) -> Result<Vec<u8>, Memory>
    ensures { IfOk result (λ text. text.items ≡ reply_text vocab.now reply.now) }
{
    let mut text = Vec::new(alloc);
    write_reply(alloc, &mut text, vocab, reply)?;
    Ok(text)
}

/// The bytes of what is said.
pub(crate) fn text_of(alloc: Global, vocab: &Vocabulary, said: &Said) -> Result<Vec<u8>, Memory>
    ensures { IfOk result (λ text. text.items ≡ said_text vocab.now said.now) }
{
    match said {
        Said::Nothing => Ok(Vec::new(alloc)),
        Said::TooLong => text_of_reply(alloc, vocab, &Reply::Refused(F::LineTooLong)),
        Said::Refused(f) => text_of_reply(alloc, vocab, &Reply::Refused(*f)),
        Said::Replied(_, reply) => text_of_reply(alloc, vocab, reply),
    }
}

/// The mark of the line with this number.
fn mark_of(alloc: Global, number: u64) -> Result<Vec<u8>, Memory>
    ensures { IfOk result (λ bytes. bytes.items ≡ entry_text (Mark number)) }
{
    let mut bytes = Vec::new(alloc);
    write_entry(&mut bytes, &Entry::Mark(number))?;
    Ok(bytes)
}

// A search for a least value assumes each wider bound beside the tightest, so that what it learnt under one stays of
// use. Its claim may cite the selector of the tightest alone.
/// Appends the entries that the session left; those of a search for a least value as derived under the last bound.
fn push_entries(
    alloc: Global,
    bytes: &mut Vec<u8>,
    session: &Session<FirstGreatest>,
    reply: &Reply,
    checker: &Checker,
) -> Result<(), Memory>
    ensures { OnOk result ((entries : List ℕ) × AreEntries entries × (bytes.new.items ≡ bytes.old.items ++ entries)) }
{
    match reply {
        Reply::Minimum(_, _) => {
            let constraints = checker.constraints()?;
            bytes.extend_from_slice(&under_last_bound(alloc, session.entries(), constraints)?)?;
        }
        _ => bytes.extend_from_slice(session.entries())?,
    }
    Ok(())
}

/// The mark of the line with this number, the entries that the session left, and the claims that belong to the reply
/// to the command; None where the solver knows no clause of one of them.
fn found_statement(
    alloc: Global,
    session: &Session<FirstGreatest>,
    number: u64,
    command: &Command,
    reply: &Reply,
    checker: &Checker,
) -> Result<Option<Vec<u8>>, Memory>
    requires { (s : State) × RightReply (base_of session.now.kb) s command.now reply.now }
    ensures { IfOk result (λ found. IfSome found (λ bytes. IsStatement (base_of session.now.kb) session.now.state number
        (said.Replied command.now reply.now) bytes.items)) }
{
    let Some(claims) = session.claims(command, reply)? else {
        return Ok(None);
    };
    let mut bytes = mark_of(alloc, number)?;
    push_entries(alloc, &mut bytes, session, reply, checker)?;
    bytes.extend_from_slice(&claims)?;
    Ok(Some(bytes))
}

/// The mark alone, of which the checker knows then.
fn marked(alloc: Global, number: u64, checker: &mut Checker) -> Result<Vec<u8>, Memory>
    requires { checker.old.state.line < number }
    ensures mark { IfOk result (λ bytes. bytes.items ≡ entry_text (Mark number)) }
    ensures steps { IfOk result (λ bytes. GoesOn checker.old bytes.items checker.new) }
    ensures line { OnOk result (checker.new.state.line ≡ number) }
{
    let bytes = mark_of(alloc, number)?;
    checker.mark(number);
    Ok(bytes)
}

/// The mark, and the claims of the reply, with entries by which they follow that no search made.
fn derived_statement(
    alloc: Global,
    session: &Session<FirstGreatest>,
    number: u64,
    command: &Command,
    reply: &Reply,
    checker: &mut Checker,
) -> Result<Vec<u8>, Memory>
    requires right { (s : State) × RightReply (base_of session.now.kb) s command.now reply.now
        × (session.now.state ≡ state_after (base_of session.now.kb) s command.now) }
    requires problem { IsProblemOf (base_of session.now.kb) checker.old.problem }
    requires line { checker.old.state.line < number }
    ensures statement { IfOk result (λ bytes. IsStatement (base_of session.now.kb) session.now.state number
        (said.Replied command.now reply.now) bytes.items) }
    ensures steps { IfOk result (λ bytes. GoesOn checker.old bytes.items checker.new) }
    ensures line { OnOk result (checker.new.state.line ≡ number) }
{
    session.known();
    let mut bytes = marked(alloc, number, checker)?;
    let choices = session.choices().as_slice();
    let claims = derived_claims(alloc, session.kb(), checker, choices, command, reply)?;
    bytes.extend_from_slice(&claims)?;
    Ok(bytes)
}

// What a search states of itself rests on how it was done, and the contract of a search does not say that each entry is
// a step. So each statement is checked before it is written, as whoever reads the log will check it; and where it is no
// sequence of steps, which nobody has seen yet, the claims are derived by cases, for which a right reply is enough.
/// What is stated of the line with this number, which is this command and has this reply.
fn checked_reply(
    alloc: Global,
    session: &Session<FirstGreatest>,
    number: u64,
    command: &Command,
    reply: &Reply,
    checker: &mut Checker,
) -> Result<Vec<u8>, Memory>
    requires right { (s : State) × RightReply (base_of session.now.kb) s command.now reply.now
        × (session.now.state ≡ state_after (base_of session.now.kb) s command.now) }
    requires problem { IsProblemOf (base_of session.now.kb) checker.old.problem }
    requires line { checker.old.state.line < number }
    ensures statement { IfOk result (λ bytes. IsStatement (base_of session.now.kb) session.now.state number
        (said.Replied command.now reply.now) bytes.items) }
    ensures steps { IfOk result (λ bytes. GoesOn checker.old bytes.items checker.new) }
    ensures line { OnOk result (checker.new.state.line ≡ number) }
{
    if let Some(statement) = found_statement(alloc, session, number, command, reply, checker)? {
        if checker.go_on(number, &statement)? {
            return Ok(statement);
        }
    }
    derived_statement(alloc, session, number, command, reply, checker)
}

/// What is stated of the line with this number, to which this is said, of which the checker knows then.
pub(crate) fn statement_of(
    alloc: Global,
    session: &Session<FirstGreatest>,
    number: u64,
    said: &Said,
    checker: &mut Checker,
) -> Result<Vec<u8>, Memory>
    requires right { IsRightBefore (base_of session.now.kb) session.now.state said.now }
    requires problem { IsProblemOf (base_of session.now.kb) checker.old.problem }
    requires line { checker.old.state.line < number }
    ensures statement { IfOk result
        (λ bytes. IsStatement (base_of session.now.kb) session.now.state number said.now bytes.items) }
    ensures steps { IfOk result (λ bytes. GoesOn checker.old bytes.items checker.new) }
    ensures line { OnOk result (checker.new.state.line ≤ number) }
{
    match said {
        Said::Nothing => Ok(Vec::new(alloc)),
        Said::TooLong => marked(alloc, number, checker),
        Said::Refused(_) => marked(alloc, number, checker),
        Said::Replied(command, reply) => {
            checked_reply(alloc, session, number, command, reply, checker)
        }
    }
}
