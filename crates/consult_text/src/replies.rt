//! Replies.
ghost use Rattle.std.specs.Prelude.{◌≡◌, IfOk};

use crate::refusals::F;
use atom_numbers::FoundStructure;
use kb_logic::{ExtInt, ListOf, LiteralList, Memory};
use std::alloc::Global;

/// A reply to a command.
#[derive(Drop)]
pub enum Reply {
    /// The command was carried out.
    Fine,
    /// It was refused, and nothing changed.
    Refused(F),
    /// The choices, in the order in which they were made.
    Choices(LiteralList),
    /// A model.
    Model(FoundStructure),
    /// Different models, and whether there are no others.
    Models(ListOf<FoundStructure>, bool),
    /// The literals that are true in all models, but for those of known atoms and the choices.
    Forced(LiteralList),
    /// The least value of the term block, and a model in which it has that value.
    Minimum(ExtInt, FoundStructure),
    /// Choices that make the literal true in all models, none of which can be spared.
    Supported(LiteralList),
    /// The literal is false in some model.
    Free,
    /// Choices that admit no model, none of which can be spared.
    Conflict(LiteralList),
    /// There is a model.
    Consistent,
    /// There is no model.
    Inconsistent,
    /// The search met as many conflicts as its budget allows.
    Undecided(u64),
}

impl Reply {
    pub fn copy(&self, alloc: Global) -> Result<Reply, Memory>
        ensures { IfOk result (λ r. r ≡ self.now) }
    {
        match self {
            Reply::Fine => Ok(Reply::Fine),
            Reply::Refused(cause) => Ok(Reply::Refused(*cause)),
            Reply::Choices(choices) => Ok(Reply::Choices(choices.copy(alloc)?)),
            Reply::Model(m) => Ok(Reply::Model(m.copy(alloc)?)),
            Reply::Models(models, all) => Ok(Reply::Models(
                copy_models(alloc, models.as_slice())?,
                *all,
            )),
            Reply::Forced(literals) => Ok(Reply::Forced(literals.copy(alloc)?)),
            Reply::Minimum(value, m) => Ok(Reply::Minimum(*value, m.copy(alloc)?)),
            Reply::Supported(choices) => Ok(Reply::Supported(choices.copy(alloc)?)),
            Reply::Free => Ok(Reply::Free),
            Reply::Conflict(choices) => Ok(Reply::Conflict(choices.copy(alloc)?)),
            Reply::Consistent => Ok(Reply::Consistent),
            Reply::Inconsistent => Ok(Reply::Inconsistent),
            Reply::Undecided(budget) => Ok(Reply::Undecided(*budget)),
        }
    }
}

fn copy_models(alloc: Global, models: &[FoundStructure]) -> Result<ListOf<FoundStructure>, Memory>
    ensures { IfOk result (λ ms. ms ≡ models.now) }
{
    let mut copies = Vec::with_capacity(alloc, models.len())?;
    for model in models {
        copies.push(model.copy(alloc)?)?;
    }
    Ok(ListOf::from_vec(copies))
}
