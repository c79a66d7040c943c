//! The claims of a log over the ground problem of a knowledge base.
ghost use Rattle.std.specs.Prelude.{◌≡◌, IfOk, IfErr};
ghost use Rattle.consult_base.specs.Opened.{base_of};
ghost use Rattle.kb_logic.specs.Bases.{Base};
ghost use Rattle.def_ground.specs.Groundings.{IsGroundTheory, IsGroundingOf};
ghost use Rattle.narrowed_bases.specs.Narrowings.{IsProblemOf};
ghost use Rattle.verified_claims.specs.Verdicts.{IsFresh, IsLogError};
ghost use Rattle.verified_claims.specs.RightClaims.{AreClaimsOf};

use crate::verdicts::LogError;
use consult_base::KnowledgeBase;
use ground_core::Problem;
use grounder::ground;
use kb_logic::Memory;
use log_checker::{Checker, Claims, Refused, verify};
use std::alloc::Global;

/// The claims of a log over the ground problem of a knowledge base.
fn claims_over(alloc: Global, problem: &Problem, log: &[u8]) -> Result<Claims, LogError>
    ensures claims { IfOk result (λ claims. (base : Base) → IsProblemOf base problem.now → IsGroundTheory base
        → IsGroundingOf base problem.now → AreClaimsOf base log.now claims.list) }
    ensures error { IfErr result (λ error. (base : Base) → IsProblemOf base problem.now → IsLogError base log.now
        error) }
{
    match verify(alloc, problem, log) {
        Ok(claims) => Ok(claims),
        Err(Refused::Entry(number)) => Err(LogError::Refused(number)),
        Err(Refused::Memory) => Err(LogError::Memory),
    }
}

/// The ground problem of the knowledge base. It is not too large, since what the knowledge base weighs is within its
/// limit: only memory may be wanting for it.
fn problem_of(alloc: Global, kb: &KnowledgeBase) -> Result<Problem, Memory>
    ensures problem { IfOk result (IsProblemOf (base_of kb.now)) }
    ensures grounding { IfOk result (IsGroundingOf (base_of kb.now)) }
    ensures theory { IsGroundTheory (base_of kb.now) }
{
    match ground(alloc, kb.typed(), kb.theory(), kb.data(), kb.narrowing()) {
        Ok(problem) => Ok(problem),
        Err(_) => Err(Memory),
    }
}

// The problem has one way out: wherever it is given up, all its lists are.
/// The claims of a log.
pub(crate) fn claims_of(alloc: Global, kb: &KnowledgeBase, log: &[u8]) -> Result<Claims, LogError>
    ensures claims { IfOk result (λ claims. AreClaimsOf (base_of kb.now) log.now claims.list) }
    ensures error { IfErr result (IsLogError (base_of kb.now) log.now) }
{
    let Ok(problem) = problem_of(alloc, kb) else {
        return Err(LogError::Memory);
    };
    claims_over(alloc, &problem, log)
}

/// A checker of logs over the ground problem of the knowledge base, before their first entry.
pub fn checker_of(alloc: Global, kb: &KnowledgeBase) -> Result<Checker, Memory>
    ensures { IfOk result (IsFresh (base_of kb.now)) }
{
    Checker::begin(alloc, problem_of(alloc, kb)?)
}
