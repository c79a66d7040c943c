//! Sessions over a knowledge base.
ghost use Rattle.std.specs.Prelude.{◌≡◌, All, IfOk, MatchBool, OnOk, OnErr, Some};
ghost use Rattle.consult_text.specs.declared.replies.Reply.{Reply as AReply};
ghost use Rattle.ground_task.specs.Tasks.{AreRefuted, atom_base};
ghost use Rattle.consult_text.specs.Replies.{IsQuery, NeedsModel};
ghost use Rattle.session_queries.specs.Queries.{CoversReply, Refutes};
ghost use Rattle.session_queries.specs.Solvers.{IsSolverOf};
ghost use Rattle.consultant_session.specs.Commands.{IsNotRefused, IsRefused, IsRefusedAtOnce, Searches};
ghost use Rattle.consultant_session.specs.Sessions.{AreChoicesOver, IsJustOpened, IsKeptAnswer, IsKeptLast};
ghost use Rattle.consultant_session.specs.Sessions.{IsRepeated, Replies};
ghost use Rattle.consultant_session.specs.Sessions.{IsSameButAnswers, PropagatesUpTo, SupportsAfter, TakesMemory};
ghost use Rattle.kept_answers.specs.Answers.{kept_reply};
ghost use Rattle.kept_supports.specs.Supports.{IsSupported};
ghost use Rattle.consult_base.specs.Opened.{base_of};
ghost use Rattle.consult_text.specs.Lines.{IsCommandOver};
ghost use Rattle.consult_text.specs.RightReplies.{RightReply};
ghost use Rattle.consult_text.specs.States.{state_after};

mod asking;
mod changing;
mod logging;

use chooser::Choose;
use clause_learning::Solver;
use consult_base::KnowledgeBase;
use consult_text::{Command, Reply};
use found_models::FoundModels;
use ground_task::Task;
use indexmap::IndexSet;
use kb_logic::{LiteralList, Memory};
use kept_answers::KeptAnswers;
use kept_supports::KeptSupports;
use lit_core::Lit;
use session_queries::{is_query, is_undecided, needs_model, opened};
use size_stage::atoms;
use std::alloc::Global;
use std::marker::Model;

/// A session over a knowledge base. Its solver, which decides by the rule, is kept from one query to the next.
#[derive(Drop)]
pub struct Session<C: Choose + Copy + Drop> {
    alloc: Global,
    kb: KnowledgeBase,
    rule: C,
    task: Task<Solver<C>>,
    /// Whether the task's solver was made ready for many searches.
    is_ready: bool,
    /// The literals of the variables of the atoms that the data leave unknown.
    unknown: Vec<Lit>,
    /// Models that queries found, for later ones.
    found: FoundModels,
    /// Literals that were found forced, with choices that force them.
    supports: KeptSupports,
    /// The last answer to each kind of query, which is right in this state.
    answered: KeptAnswers,
    choices: LiteralList,
    /// The literals of the choices' variables: whether a literal is a choice is asked of these.
    hashed: IndexSet<Lit>,
    budget: Option<u64>,
    /// Whether the solver keeps a log: its numbers then go on from one query to the next.
    logs: bool,
}

impl<C: Choose + Copy + Drop> Model for Session<C> {
    ghost use Rattle.std.specs.Coded.{codes};
    ghost use Rattle.type_derivation.specs.contracts.typed.TypedKb as typed_kb;
    ghost use Rattle.narrowed_bases.specs.contracts.narrowings.Narrowing as narrowings;
    ghost use Rattle.consultant_session.specs.Sessions.{SessionState, IsSession};

    ghost Value = { SessionState };

    ghost coded = { Prim.hlevel (codes, typed_kb.the_row.coded, narrowings.the_row.coded) };

    ghost view = { λ s. record {
      kb = s.kb;
      state = record { choices = s.choices; budget = s.budget };
      solver = s.task.solver.kept;
      supports = s.supports;
      answered = s.answered;
    } };

    ghost invariant = { λ s. IsSession s.kb (record { choices = s.choices; budget = s.budget }) s.hashed.keys
        s.unknown.items s.found s.supports s.answered s.task.numbers s.task.solver.kept };
}

impl<C: Choose + Copy + Drop> Session<C> {
    /// A session without choices, with this budget: how many conflicts a query may meet, without a limit where there is
    /// no number. Its solver decides by the rule.
    pub fn open(
        alloc: Global,
        kb: KnowledgeBase,
        budget: Option<u64>,
        rule: C,
    ) -> Result<Session<C>, Memory>
        ensures { IfOk result (IsJustOpened kb budget) }
    {
        let (task, unknown) = opened(alloc, &kb, rule)?;
        let found = FoundModels::new(alloc, atoms(kb.vocabulary(), kb.data().domains()));
        let supports = KeptSupports::new(alloc);
        let answered = KeptAnswers::new(alloc);
        Ok(Session {
            alloc,
            kb,
            rule,
            task,
            is_ready: false,
            unknown,
            found,
            supports,
            answered,
            choices: LiteralList::new(alloc),
            hashed: IndexSet::new(alloc),
            budget,
            logs: false,
        })
    }

    // Whoever owns a session and ends proves how each of its parts is given up, beside all else that it does, and so at
    // each of its ends. Here it is proved once.
    /// Gives the session up, with its knowledge base and its solver.
    pub fn let_go(self) {}

    /// What `open` took.
    pub fn kb(&self) -> &KnowledgeBase
        ensures { result.now ≡ self.now.kb }
    {
        &self.kb
    }

    /// The choices, in the order in which they were made.
    pub fn choices(&self) -> &LiteralList
        ensures { result.now ≡ self.now.state.choices }
    {
        &self.choices
    }

    /// How many conflicts a command may meet; without a limit where there is no number.
    pub fn budget(&self) -> Option<u64>
        ensures { result ≡ self.now.state.budget }
    {
        self.budget
    }

    /// How many searches its solver began.
    pub fn searches(&self) -> u64
        ensures { result ≡ self.now.solver.searches }
    {
        self.task.searches()
    }

    /// What holds of every session. It does nothing.
    pub fn known(&self)
        ensures choices { AreChoicesOver self.now.kb self.now.state.choices }
        ensures solver { IsSolverOf (base_of self.now.kb) self.now.solver }
        ensures supported { All (IsSupported (base_of self.now.kb) self.now.state.choices) self.now.supports }
        ensures answered { All (IsKeptAnswer (base_of self.now.kb) self.now.state self.now.supports self.now.solver)
            self.now.answered }
    {
        let _budget = self.budget;
    }

    /// The reply to the command. Where memory runs out the choices and the budget are as before.
    pub fn step(&mut self, command: &Command) -> Result<Reply, Memory>
        requires { IsCommandOver (base_of self.old.kb) command.now }
        ensures right { IfOk result (λ reply. RightReply (base_of self.old.kb) self.old.state command.now reply) }
        ensures after { OnOk result (self.new.state ≡ state_after (base_of self.old.kb) self.old.state command.now) }
        ensures kept { OnErr result (self.new.state ≡ self.old.state) }
        ensures prompt { OnErr result (TakesMemory command.now) }
        ensures kb { self.new.kb ≡ self.old.kb }
        ensures searches { Searches (base_of self.old.kb) command.now self.old.state.budget result self.old.solver
            self.new.solver }
        ensures refuted { IfOk result (Refutes (atom_base (base_of self.old.kb)) self.new.state.choices
            self.new.solver.cores) }
        ensures decided { NeedsModel command.now
            → AreRefuted (atom_base (base_of self.old.kb)) self.old.state.choices self.old.solver.cores
            → IsRefusedAtOnce result self.old.solver self.new.solver }
        ensures repeated { (reply : AReply) → kept_reply self.old.answered command.now ≡ Some reply
            → IsRepeated reply result self.old self.new }
        ensures last { IfOk result (λ reply. IsQuery command.now → IsKeptLast self.new.answered command.now reply) }
        ensures supports { SupportsAfter (base_of self.old.kb) self.old.state command.now self.old.supports
            self.new.supports }
        ensures covers { IfOk result (CoversReply (base_of self.old.kb) self.new.state.choices self.new.supports) }
        ensures propagates { PropagatesUpTo (base_of self.old.kb) command.now self.old.supports self.old.solver
            self.new.solver }
    {
        self.known();
        if let Some(reply) = self.answered.find(command) {
            return reply.copy(self.alloc);
        }
        self.reply_anew(command)
    }

    /// The reply to a command that is no repeated query; it is kept.
    fn reply_anew(&mut self, command: &Command) -> Result<Reply, Memory>
        requires { IsCommandOver (base_of self.old.kb) command.now }
        ensures replies { Replies (base_of self.old.kb) command.now result self.old self.new }
        ensures last { IfOk result (λ reply. IsQuery command.now → IsKeptLast self.new.answered command.now reply) }
    {
        match self.answer(command) {
            Ok(reply) => match self.keep(command, &reply) {
                Ok(()) => Ok(reply),
                Err(Memory) => Err(Memory),
            },
            Err(Memory) => Err(Memory),
        }
    }

    /// Keeps the reply to a query, unless it stays undecided.
    fn keep(&mut self, command: &Command, reply: &Reply) -> Result<(), Memory>
        requires right { IsQuery command.now
            → RightReply (base_of self.old.kb) self.old.state command.now reply.now }
        requires refuted { Refutes (atom_base (base_of self.old.kb)) self.old.state.choices self.old.solver.cores
            reply.now }
        requires covers { CoversReply (base_of self.old.kb) self.old.state.choices self.old.supports reply.now }
        ensures last { OnOk result (IsQuery command.now → IsKeptLast self.new.answered command.now reply.now) }
        ensures prompt { OnErr result (IsQuery command.now) }
        ensures same { IsSameButAnswers self.old self.new }
    {
        if !is_query(command) {
            return Ok(());
        }
        if is_undecided(reply) {
            return Ok(());
        }
        self.answered.keep(self.alloc, command, reply)
    }

    /// The reply to a command, where none is kept.
    fn answer(&mut self, command: &Command) -> Result<Reply, Memory>
        requires { IsCommandOver (base_of self.old.kb) command.now }
        ensures { Replies (base_of self.old.kb) command.now result self.old self.new }
    {
        match self.refuses(command) {
            Ok(true) => Ok(Reply::Inconsistent),
            Ok(false) => {
                self.make_ready(command);
                self.carry_out(command)
            }
            Err(Memory) => Err(Memory),
        }
    }

    /// Whether the command needs a model though a kept core lies within the literals of the choices.
    fn refuses(&self, command: &Command) -> Result<bool, Memory>
        ensures told { IfOk result (λ refused. MatchBool refused
            (IsRefused (base_of self.now.kb) self.now.state self.now.solver command.now)
            (IsNotRefused (base_of self.now.kb) self.now.state self.now.solver command.now)) }
        ensures prompt { OnErr result (NeedsModel command.now) }
        ensures solver { IsSolverOf (base_of self.now.kb) self.now.solver }
    {
        // Brings the invariant of the type into scope.
        let _budget = self.budget;
        if !needs_model(command) {
            return Ok(false);
        }
        let lits = self.task.lits_of(self.alloc, self.choices.as_slice())?;
        match self.task.clause_of(lits.as_slice()) {
            Ok(Some(_)) => Ok(true),
            Ok(None) => Ok(false),
            Err(_) => Err(Memory),
        }
    }

    // This takes as long as some eight searches, and holds for as long as the task: it is done once, and not for the
    // first query, which may be the only one.
    /// Makes ready for the searches of a query.
    fn make_ready(&mut self, command: &Command)
        ensures { self.new ≡ self.old }
    {
        if self.is_ready || !is_query(command) || self.task.searches() == 0 {
            return;
        }
        self.task.make_ready();
        self.is_ready = true;
    }

    /// The reply to a command whose choices are not known to admit no model.
    fn carry_out(&mut self, command: &Command) -> Result<Reply, Memory>
        requires over { IsCommandOver (base_of self.old.kb) command.now }
        requires open { IsNotRefused (base_of self.old.kb) self.old.state self.old.solver command.now }
        ensures { Replies (base_of self.old.kb) command.now result self.old self.new }
    {
        self.known();
        match command {
            Command::Assert(literal) => self.assert(literal),
            Command::Retract(literal) => Ok(self.retract(literal)),
            Command::Reset => Ok(self.reset()),
            Command::Choices => self.list_choices(),
            Command::Model => self.model(),
            Command::Models(most) => self.models(*most),
            Command::Propagate => self.propagate(),
            Command::Minimize(term) => self.minimize(*term),
            Command::Explain(literal) => self.explain(literal),
            Command::Why => self.why(),
            Command::Budget(budget) => Ok(self.limit(*budget)),
            Command::Forget => Ok(self.forget()),
        }
    }
}
