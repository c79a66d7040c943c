//! The clauses that say what a gate says.
//!
//! This is Tseitin's encoding: a gate's output stands for the conjunction or disjunction of its parts, in both
//! directions. So a formula takes a number of clauses linear in its operators, where multiplying out doubles with each.
ghost use Rattle.std.specs.Prelude.{◌≡◌, ◌∷◌, [], ◌++◌, not, map, IfOk};
ghost use Rattle.lit_core.specs.declared.literals.Lit.{Lit};
ghost use Rattle.ground_core.specs.GateClauses.{with_sign, gate_clauses};

use crate::parts::Gate;
use lit_core::{Clause, ClauseList, Lit};
use std::alloc::{AllocError as Memory, Global};

/// The literal, or its negation.
fn signed(lit: Lit, sign: bool) -> Lit
    ensures { result ≡ with_sign sign lit }
{
    if sign { lit } else { lit.negated() }
}

/// A clause with each part, and the output.
fn short_clauses(alloc: Global, gate: &Gate) -> Result<ClauseList, Memory>
    ensures { IfOk result (λ cs. cs ≡ map (λ (l : Lit). with_sign (not gate.now.all) gate.now.out ∷ with_sign
        gate.now.all l ∷ []) gate.now.parts) }
{
    let mut clauses = ClauseList::new(alloc);
    let out = signed(gate.out, !gate.all);
    for part in gate.parts.as_slice() {
        let lits = [out, signed(*part, gate.all)];
        clauses.push(&lits)?;
    }
    Ok(clauses)
}

/// The clause with all parts, and the output.
fn long_clause(alloc: Global, gate: &Gate) -> Result<Clause, Memory>
    ensures { IfOk result (λ c. c ≡ with_sign gate.now.all gate.now.out ∷ map (with_sign (not gate.now.all))
        gate.now.parts) }
{
    let mut clause = Clause::new(alloc);
    clause.push(signed(gate.out, gate.all))?;
    for part in gate.parts.as_slice() {
        clause.push(signed(*part, !gate.all))?;
    }
    Ok(clause)
}

/// The clauses that hold exactly where the gate does.
pub fn clauses_of_gate(alloc: Global, gate: &Gate) -> Result<ClauseList, Memory>
    ensures { IfOk result (λ cs. cs ≡ gate_clauses gate.now) }
{
    let mut clauses = short_clauses(alloc, gate)?;
    clauses.push(long_clause(alloc, gate)?.as_slice())?;
    Ok(clauses)
}
