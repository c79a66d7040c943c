//! Kept answers.
ghost use Rattle.std.specs.Prelude.{◌≡◌, None, Some, IfOk, MatchOption, OnErr, OnOk, []};
ghost use Rattle.kept_answers.specs.Answers.{kept_reply, with_answer, without_kind};

use crate::queries::{are_of_one_kind, are_same_queries};
use consult_text::{Command, Reply};
use kb_logic::Memory;
use std::alloc::Global;
use std::marker::Model;

/// A query with its reply.
#[derive(Drop)]
pub struct Answered {
    pub query: Command,
    pub reply: Reply,
}

/// The last answer to each kind of query: at most six.
#[derive(Drop)]
pub struct KeptAnswers {
    list: Vec<Answered>,
}

impl Model for KeptAnswers {
    ghost use Rattle.std.specs.Prelude.{List};
    ghost use Rattle.kept_answers.specs.declared.answers.Answered.{Answered};

    ghost Value = { List Answered };

    ghost view = { λ a. a.list.items };
}

/// Copies of both.
fn copied(alloc: Global, query: &Command, reply: &Reply) -> Result<Answered, Memory>
    ensures { IfOk result (λ a. a ≡ record { query = query.now; reply = reply.now }) }
{
    Ok(Answered {
        query: query.copy(alloc)?,
        reply: reply.copy(alloc)?,
    })
}

impl KeptAnswers {
    /// None.
    pub fn new(alloc: Global) -> KeptAnswers
        ensures { result ≡ [] }
    {
        KeptAnswers {
            list: Vec::new(alloc),
        }
    }

    /// The reply that is kept of the query.
    pub fn find(&self, query: &Command) -> Option<&Reply>
        ensures { MatchOption result (kept_reply self.now query.now ≡ None)
            (λ reply. kept_reply self.now query.now ≡ Some reply.now) }
    {
        for one in &self.list {
            if are_same_queries(&one.query, query) {
                return Some(&one.reply);
            }
        }
        None
    }

    /// Keeps an answer in place of the one of its kind, which is gone also where memory runs out.
    pub fn keep(&mut self, alloc: Global, query: &Command, reply: &Reply) -> Result<(), Memory>
        ensures kept { OnOk result (self.new ≡ with_answer query.now reply.now self.old) }
        ensures lost { OnErr result (self.new ≡ without_kind query.now self.old) }
    {
        self.lose(query);
        self.list.push(copied(alloc, query, reply)?)?;
        Ok(())
    }

    /// Gives up the answer to a query of this kind.
    pub fn lose(&mut self, query: &Command)
        ensures { self.new ≡ without_kind query.now self.old }
    {
        self.list.retain(|one| !are_of_one_kind(&one.query, query));
    }

    /// Gives all of them up.
    pub fn clear(&mut self)
        ensures { self.new ≡ [] }
    {
        self.list.clear();
    }
}
