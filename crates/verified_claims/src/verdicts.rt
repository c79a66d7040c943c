//! What is answered about a log.
ghost use Rattle.std.specs.Prelude.{IfOk, IfErr};
ghost use Rattle.consult_base.specs.Opened.{base_of};
ghost use Rattle.verified_claims.specs.Verdicts.{IsVerdict, IsLogError};

use crate::checking::claims_of;
use crate::saying::verdict_text;
use consult_base::KnowledgeBase;
use std::alloc::Global;

/// Why a log has no verdict.
#[derive(Clone, Copy)]
pub enum LogError {
    /// The entry of this number, from 1 on, is the first that is no step.
    Refused(u64),
    /// There was not enough memory.
    Memory,
}

/// Checks a log against the ground problem of the knowledge base: a line for each claim, in its order, and `accepted`.
/// Each claim is true of all structures that are models of the knowledge base under its choices.
pub fn verdict_of(alloc: Global, kb: &KnowledgeBase, log: &[u8]) -> Result<Vec<u8>, LogError>
    ensures verdict { IfOk result (λ text. IsVerdict (base_of kb.now) log.now text.items) }
    ensures error { IfErr result (IsLogError (base_of kb.now) log.now) }
{
    let claims = claims_of(alloc, kb, log)?;
    match verdict_text(alloc, kb, claims.list.as_slice()) {
        Ok(text) => Ok(text),
        Err(_) => Err(LogError::Memory),
    }
}
