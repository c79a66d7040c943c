//! Answers to the lines of the commands.
ghost use Rattle.std.specs.Prelude.{◌≡◌, ◌≤◌, ◌<◌, ◌+◌, [], length, true, is_some, IfOk, IfErr, OnOk, Some};
ghost use Rattle.std.specs.Bool.{OnFalse, OnTrue};
ghost use Rattle.kb_io.specs.Lines.{longest_line};
ghost use Rattle.kb_io.specs.Pending.{most_bytes};
ghost use Rattle.consult_base.specs.Opened.{base_of};
ghost use Rattle.consult_text.specs.States.{first_state};
ghost use Rattle.narrowed_bases.specs.Narrowings.{IsProblemOf};
ghost use Rattle.consultation.specs.Accepted.{BreaksAfterSteps, IsBefore, IsFreshFor, IsUpTo, KeepsSteps, LogsAccepted};
ghost use Rattle.consultation.specs.Answering.{AnswersCommands};
ghost use Rattle.consultation.specs.Statements.{IsRightBefore};
ghost use Rattle.consultation.specs.Streams.{held, streams};
ghost use Rattle.consultation.specs.Turns.{States, HasCounts, Tells, AnswersLine, Turns};
ghost use Rattle.consultation.specs.Turns.{IsJustOpened, IsSameButChecker, IsSameButState};

use crate::printing::say;
use crate::said::{Said, said_to};
use crate::statements::{statement_of, text_of};
use crate::stop::Stop;
use chooser::FirstGreatest;
use consult_base::KnowledgeBase;
use consultant_session::Session;
use kb_io::{LineError, LineState, Next, Sink, Source, next_line};
use kb_logic::Memory;
use log_checker::Checker;
use std::alloc::Global;
use std::marker::Model;
use verified_claims::checker_of;

/// A session, with what it takes to read lines.
#[derive(Drop)]
pub struct Consultant {
    alloc: Global,
    session: Session<FirstGreatest>,
    lines: LineState,
    /// What the log so far comes to, where one is kept.
    checker: Option<Checker>,
    /// How many lines were read: the number of the last one.
    number: u64,
}

impl Model for Consultant {
    ghost use Rattle.std.specs.Coded.{codes};
    ghost use Rattle.std.specs.Prelude.{is_some};
    ghost use Rattle.type_derivation.specs.contracts.typed.TypedKb as typed_kb;
    ghost use Rattle.narrowed_bases.specs.contracts.narrowings.Narrowing as narrowings;
    ghost use Rattle.consultation.specs.Turns.{ConsultantState};

    ghost Value = { ConsultantState };

    ghost coded = { Prim.hlevel (codes, typed_kb.the_row.coded, narrowings.the_row.coded) };

    ghost view = { λ c. record {
      kb = c.session.kb;
      state = c.session.state;
      lines = c.lines;
      logs = is_some c.checker;
      checker = c.checker;
      number = c.number;
    } };
}

/// What a consultant begins with beside its session.
#[derive(Drop)]
struct Start {
    lines: LineState,
    checker: Option<Checker>,
}

/// A checker of the log, where one is asked for.
fn checker_for(alloc: Global, kb: &KnowledgeBase, logs: bool) -> Result<Option<Checker>, Memory>
    ensures asked { IfOk result (λ checker. is_some checker ≡ logs) }
    ensures fresh { IfOk result (IsFreshFor (base_of kb.now)) }
{
    if !logs {
        return Ok(None);
    }
    match checker_of(alloc, kb) {
        Ok(checker) => Ok(Some(checker)),
        Err(Memory) => Err(Memory),
    }
}

/// Tells the session to keep a log, where one is asked for, and makes what it takes to check the log and to read lines.
fn begin(alloc: Global, session: &mut Session<FirstGreatest>, logs: bool) -> Result<Start, Memory>
    ensures lines { IfOk result (λ start. start.lines ≡ record { taken = 0; ahead = []; line = [] }) }
    ensures asked { IfOk result (λ start. is_some start.checker ≡ logs) }
    ensures fresh { IfOk result (λ start. IsFreshFor (base_of session.old.kb) start.checker) }
    ensures session { session.new ≡ session.old }
{
    if logs {
        session.keep_log()?;
    }
    let Ok(lines) = LineState::new(alloc) else {
        return Err(Memory);
    };
    match checker_for(alloc, session.kb(), logs) {
        Ok(checker) => Ok(Start { lines, checker }),
        Err(Memory) => Err(Memory),
    }
}

/// States in the log what is said to the line with this number, and flushes.
fn write_statement<L: Sink>(
    alloc: Global,
    session: &mut Session<FirstGreatest>,
    number: u64,
    said: &Said,
    checker: &mut Checker,
    log: &mut L,
) -> Result<(), Stop>
    requires right { IsRightBefore (base_of session.old.kb) session.old.state said.now }
    requires problem { IsProblemOf (base_of session.old.kb) checker.old.problem }
    requires line { checker.old.state.line < number }
    ensures states { States result true (base_of session.old.kb) session.old.state number said.now (L.holds log.old)
        (L.holds log.new) (L.faults log.old) (L.faults log.new) }
    ensures steps { OnOk result (KeepsSteps number (Some checker.old) (Some checker.new) (L.holds log.old)
        (L.holds log.new)) }
    ensures breaks { IfErr result (λ stop. BreaksAfterSteps stop (Some checker.old) (L.holds log.old)
        (L.holds log.new)) }
    ensures session { session.new ≡ session.old }
{
    let Ok(statement) = statement_of(alloc, session, number, said, checker) else {
        return Err(Stop::Memory);
    };
    session.clear_entries();
    match say(log, &statement) {
        Ok(()) => Ok(()),
        Err(_) => Err(Stop::LogFault),
    }
}

impl Consultant {
    /// No line was read. Where `logs` a log is kept from now on.
    pub fn open(
        alloc: Global,
        kb: KnowledgeBase,
        budget: Option<u64>,
        logs: bool,
    ) -> Result<Consultant, Memory>
        ensures new { IfOk result IsJustOpened }
        ensures kb { IfOk result (λ c. c.kb ≡ kb) }
        ensures budget { IfOk result (λ c. c.state.budget ≡ budget) }
        ensures logs { IfOk result (λ c. c.logs ≡ logs) }
    {
        let mut session = Session::open(alloc, kb, budget, FirstGreatest)?;
        match begin(alloc, &mut session, logs) {
            Ok(start) => Ok(Consultant {
                alloc,
                session,
                lines: start.lines,
                checker: start.checker,
                number: 0,
            }),
            Err(Memory) => {
                session.let_go();
                Err(Memory)
            }
        }
    }

    // As of a session: proved once, and not where a consultant ends.
    /// Gives the consultant up, with its session.
    pub fn let_go(self) {
        self.session.let_go();
    }

    /// States in the log what is said to the last line, where a log is kept, and flushes.
    fn state<L: Sink>(&mut self, said: &Said, log: &mut L) -> Result<(), Stop>
        requires right { IsRightBefore (base_of self.old.kb) self.old.state said.now }
        requires line { IsBefore (base_of self.old.kb) self.old.number self.old.checker }
        ensures states { States result self.old.logs (base_of self.old.kb) self.old.state self.old.number said.now
            (L.holds log.old) (L.holds log.new) (L.faults log.old) (L.faults log.new) }
        ensures steps { OnOk result (KeepsSteps self.old.number self.old.checker self.new.checker (L.holds log.old)
            (L.holds log.new)) }
        ensures breaks { IfErr result (λ stop. BreaksAfterSteps stop self.old.checker (L.holds log.old)
            (L.holds log.new)) }
        ensures none { OnFalse self.old.logs (log.new ≡ log.old) }
        ensures kept { IsSameButChecker self.old self.new }
    {
        match &mut self.checker {
            None => Ok(()),
            Some(checker) => {
                write_statement(
                    self.alloc,
                    &mut self.session,
                    self.number,
                    said,
                    checker,
                    log,
                )
            }
        }
    }

    /// States what is said to the last line, and then prints it and flushes. All memory that it takes is taken before.
    fn tell<W: Sink, L: Sink>(&mut self, said: &Said, out: &mut W, log: &mut L) -> Result<(), Stop>
        requires right { IsRightBefore (base_of self.old.kb) self.old.state said.now }
        requires line { IsBefore (base_of self.old.kb) self.old.number self.old.checker }
        ensures told { Tells result self.old.logs (base_of self.old.kb) self.old.state self.old.number said.now
            (held (W.holds out.old) (L.holds log.old)) (held (W.holds out.new) (L.holds log.new)) }
        ensures counts { HasCounts result self.old.logs (W.faults out.old) (W.faults out.new) (L.faults log.old)
            (L.faults log.new) }
        ensures steps { OnOk result (KeepsSteps self.old.number self.old.checker self.new.checker (L.holds log.old)
            (L.holds log.new)) }
        ensures breaks { IfErr result (λ stop. BreaksAfterSteps stop self.old.checker (L.holds log.old)
            (L.holds log.new)) }
        ensures none { OnFalse self.old.logs (log.new ≡ log.old) }
        ensures kept { IsSameButChecker self.old self.new }
    {
        if let Said::Nothing = said {
            return Ok(());
        }
        let Ok(text) = text_of(self.alloc, self.session.kb().vocabulary(), said) else {
            return Err(Stop::Memory);
        };
        self.state(said, log)?;
        match say(out, &text) {
            Ok(()) => Ok(()),
            Err(_) => Err(Stop::WriteFault),
        }
    }

    /// Answers the line that was read.
    fn answer<W: Sink, L: Sink>(&mut self, out: &mut W, log: &mut L) -> Result<(), Stop>
        requires line { length self.old.lines.line ≤ longest_line }
        requires number { IsBefore (base_of self.old.kb) self.old.number self.old.checker }
        ensures answered { AnswersLine result self.old.logs (base_of self.old.kb) self.old.number self.old.state
            self.new.state self.old.lines.line (held (W.holds out.old) (L.holds log.old))
            (held (W.holds out.new) (L.holds log.new)) }
        ensures counts { HasCounts result self.old.logs (W.faults out.old) (W.faults out.new) (L.faults log.old)
            (L.faults log.new) }
        ensures steps { OnOk result (KeepsSteps self.old.number self.old.checker self.new.checker (L.holds log.old)
            (L.holds log.new)) }
        ensures breaks { IfErr result (λ stop. BreaksAfterSteps stop self.old.checker (L.holds log.old)
            (L.holds log.new)) }
        ensures none { OnFalse self.old.logs (log.new ≡ log.old) }
        ensures kept { IsSameButState self.old self.new }
    {
        match said_to(self.alloc, &mut self.session, self.lines.line()) {
            Ok(said) => self.tell(&said, out, log),
            Err(Memory) => Err(Stop::Memory),
        }
    }

    /// Reads the next line and answers it; false where no line is left.
    fn answer_next<C: Source, W: Sink, L: Sink>(
        &mut self,
        commands: &mut C,
        out: &mut W,
        log: &mut L,
    ) -> Result<bool, Stop>
        requires number { self.old.number ≤ most_bytes }
        requires line { IsUpTo (base_of self.old.kb) self.old.number self.old.checker }
        ensures turn { Turns result self.old.logs (base_of self.old.kb) (self.old.number + 1) self.old.state
            self.new.state self.old.lines self.new.lines
            (streams (C.left commands.old) (C.faults commands.old) (W.holds out.old) (W.faults out.old)
            (L.holds log.old) (L.faults log.old))
            (streams (C.left commands.new) (C.faults commands.new) (W.holds out.new) (W.faults out.new)
            (L.holds log.new) (L.faults log.new)) }
        ensures steps { OnOk result (KeepsSteps self.new.number self.old.checker self.new.checker (L.holds log.old)
            (L.holds log.new)) }
        ensures breaks { IfErr result (λ stop. BreaksAfterSteps stop self.old.checker (L.holds log.old)
            (L.holds log.new)) }
        ensures none { OnFalse self.old.logs (log.new ≡ log.old) }
        ensures kb { self.new.kb ≡ self.old.kb }
        ensures logs { self.new.logs ≡ self.old.logs }
        ensures number { IfOk result (λ more. OnTrue more (self.new.number ≡ self.old.number + 1)) }
    {
        match next_line(commands, &mut self.lines) {
            Ok(Next::Line) => {
                self.number += 1;
                self.answer(out, log)?;
            }
            Ok(Next::LongLine) => {
                self.number += 1;
                self.tell(&Said::TooLong, out, log)?;
            }
            Ok(Next::End) => return Ok(false),
            Err(LineError::Fault) => return Err(Stop::ReadFault),
            Err(LineError::TooLong) => return Err(Stop::ScriptTooLong),
        }
        Ok(true)
    }

    /// Answers the lines that the commands have left, each before the next one is read; what a log states of a line is
    /// in it before the answer is printed.
    pub fn answer_all<C: Source, W: Sink, L: Sink>(
        &mut self,
        commands: &mut C,
        out: &mut W,
        log: &mut L,
    ) -> Result<(), Stop>
        requires { IsJustOpened self.old }
        ensures ends { AnswersCommands self.old.logs result (base_of self.old.kb) (first_state self.old.state.budget)
            (streams (C.left commands.old) (C.faults commands.old) (W.holds out.old) (W.faults out.old)
            (L.holds log.old) (L.faults log.old))
            (streams (C.left commands.new) (C.faults commands.new) (W.holds out.new) (W.faults out.new)
            (L.holds log.new) (L.faults log.new)) }
        ensures accepted { OnTrue self.old.logs (LogsAccepted result (base_of self.old.kb) (L.holds log.old)
            (L.holds log.new)) }
        ensures none { OnFalse self.old.logs (log.new ≡ log.old) }
    {
        while self.answer_next(commands, out, log)? {}
        Ok(())
    }
}
