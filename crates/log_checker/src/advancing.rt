//! What a step leaves.
ghost use Rattle.std.specs.Prelude.{◌≡◌, IfOk, OnOk, OnErr, [], ◌∷◌, ◌++◌, flat_map};
ghost use Rattle.ground_core.specs.GateClauses.{gate_clauses, clauses_of};
ghost use Rattle.lit_core.specs.Literals.{negated};
ghost use Rattle.derivation_log.specs.declared.entries.Entry.TheVariants.{Bound, Exclude};
ghost use Rattle.derivation_log.specs.Steps.{start, after, literal};
ghost use Rattle.log_checker.specs.States.{state_view, IsNext};

use crate::bound_tables::BoundTable;
use crate::checked::Checked;
use derivation_log::{Claim, Entry};
use ground_core::{Memory, Problem, TermBound, clauses_of_gate};
use kb_logic::ExtInt;
use lit_core::{Clause, ClauseList, Lit, Var};
use std::alloc::Global;

/// The clauses that log entries number: those of the gates, then those of the problem.
fn all_clauses(alloc: Global, p: &Problem) -> Result<ClauseList, Memory>
    ensures { IfOk result (λ cs. cs ≡ clauses_of p.now) }
{
    let mut clauses = ClauseList::new(alloc);
    for gate in p.gates() {
        let more = clauses_of_gate(alloc, gate)?;
        clauses.append(&more)?;
    }
    clauses.append(p.clauses())?;
    Ok(clauses)
}

/// Before the first entry.
pub fn started(alloc: Global, p: &Problem) -> Result<Checked, Memory>
    ensures { IfOk result (λ st. state_view st ≡ start p.now) }
{
    Ok(Checked {
        vars: p.vars(),
        clauses: all_clauses(alloc, p)?,
        bounds: BoundTable::new(alloc),
        line: 0,
        claims: Vec::new(alloc),
    })
}

/// The clause under a selector: its negation, then the clause.
fn selected(alloc: Global, s: Var, lits: &[Lit]) -> Result<Clause, Memory>
    ensures { IfOk result (λ c. c ≡ negated (literal s.0) ∷ lits.now) }
{
    let mut clause = Clause::new(alloc);
    clause.push(Lit {
        var: s,
        positive: false,
    })?;
    for lit in lits {
        clause.push(*lit)?;
    }
    Ok(clause)
}

/// After a bound, whose selector is the next variable.
fn push_bound(st: &mut Checked, s: Var, t: u32, below: ExtInt) -> Result<(), Memory>
    requires { IsNext (state_view st.old) (Bound s t below) }
    ensures ok { OnOk result (state_view st.new ≡ after (state_view st.old) (Bound s t below)) }
    ensures err { OnErr result (state_view st.new ≡ state_view st.old) }
{
    let out = Lit {
        var: s,
        positive: true,
    };
    st.bounds.push(TermBound {
        out,
        term: t - 1,
        below,
    })?;
    st.vars = s.0;
    Ok(())
}

/// After an exclusion, whose selector is the next variable.
fn push_exclusion(alloc: Global, st: &mut Checked, s: Var, lits: &[Lit]) -> Result<(), Memory>
    requires { IsNext (state_view st.old) (Exclude s lits.now) }
    ensures ok { OnOk result (state_view st.new ≡ after (state_view st.old) (Exclude s lits.now)) }
    ensures err { OnErr result (state_view st.new ≡ state_view st.old) }
{
    let clause = selected(alloc, s, lits)?;
    st.clauses.push(clause.as_slice())?;
    st.vars = s.0;
    Ok(())
}

/// With one claim more.
fn push_claim(claims: &mut Vec<Claim>, claim: Claim) -> Result<(), Memory>
    ensures ok { OnOk result (claims.new.items ≡ claims.old.items ++ claim ∷ []) }
    ensures err { OnErr result (claims.new.items ≡ claims.old.items) }
{
    claims.push(claim)?;
    Ok(())
}

/// After one entry more.
pub fn advance(alloc: Global, st: &mut Checked, e: Entry) -> Result<(), Memory>
    requires { IsNext (state_view st.old) e }
    ensures ok { OnOk result (state_view st.new ≡ after (state_view st.old) e) }
    ensures err { OnErr result (state_view st.new ≡ state_view st.old) }
{
    match e {
        Entry::Mark(n) => {
            st.line = n;
            Ok(())
        }
        Entry::Learnt(lits, _hints) => st.clauses.push(lits.as_slice()),
        Entry::Sum(_n, lits) => st.clauses.push(lits.as_slice()),
        Entry::Bound(s, t, k) => push_bound(st, s, t, k),
        Entry::Exclude(s, lits) => push_exclusion(alloc, st, s, lits.as_slice()),
        Entry::Inconsistent(lits, _c) => {
            push_claim(&mut st.claims, Claim::Inconsistent(st.line, lits))
        }
        Entry::Forced(l, lits, _c) => push_claim(&mut st.claims, Claim::Forced(st.line, l, lits)),
        Entry::Least(t, k, lits, _c) => push_claim(
            &mut st.claims,
            Claim::Least(st.line, t, k, lits),
        ),
    }
}
