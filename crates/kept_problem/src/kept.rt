//! The problem that a solver keeps.
ghost use Rattle.std.specs.Prelude.{◌≡◌, ◌≤◌, ◌<◌, ◌+◌, ◌++◌, ◌↔◌, [], length, slice_get, slice_index_or, Contains};
ghost use Rattle.std.specs.Prelude.{◌⊎◌, IsTrue, IfOk, OnOk, OnErr, vec_len, vec_capacity};
ghost use Rattle.ground_core.specs.Problems.{AreLitsOf, IsProblem};
ghost use Rattle.ground_core.specs.Moments.{moment_of};
ghost use Rattle.ground_core.specs.Growth.{empty_problem, next_lit, with_bound};
ghost use Rattle.ground_core.specs.Growing.{IsSelector, with_retired};
ghost use Rattle.kept_problem.specs.Joining.{CanJoin, joined_problem, with_selected};
ghost use Rattle.ground_core.specs.Selectors.{AreSelectors};

use ground_core::{AggCon, AtomTable, Gate, GroundTerm, Memory, Moment, Problem, TermBound};
use kb_logic::{ExtInt, ListOf, LiteralList};
use lit_core::{ClauseList, Lit, PackedLit, Var};
use std::alloc::Global;
use std::marker::Model;

/// A problem, to which others are joined, and the selectors that are false for good.
#[derive(Drop)]
pub struct KeptProblem {
    atoms: AtomTable,
    vars: u64,
    gates: Vec<Gate>,
    clauses: ClauseList,
    sums: Vec<AggCon>,
    terms: Vec<GroundTerm>,
    bounds: Vec<TermBound>,
    /// Selectors that are retired, with room for every variable, so that retiring takes no memory.
    retired: Vec<Lit>,
}

impl Model for KeptProblem {
    ghost use Rattle.ground_core.specs.Problems.{ProblemState};

    ghost Value = { ProblemState };

    ghost use Rattle.kept_problem.specs.KeptFields.{state_of, IsKept};

    ghost view = { state_of };

    ghost invariant = { IsKept };
}

/// Whether the literal is among the others.
fn is_among(lits: &[Lit], lit: Lit) -> bool
    ensures { IsTrue result ↔ Contains lits.now lit }
{
    lits.iter().any(|other| *other == lit)
}

/// The atoms of two problems of which one has none.
fn joined_atoms(alloc: Global, old: &AtomTable, more: &AtomTable) -> Result<AtomTable, Memory>
    requires { (old.now ≡ []) ⊎ (more.now ≡ []) }
    ensures { IfOk result (λ atoms. atoms ≡ old.now ++ more.now) }
{
    if more.len() == 0 {
        old.copy(alloc)
    } else {
        more.copy(alloc)
    }
}

fn copied_gate(alloc: Global, gate: &Gate) -> Result<Gate, Memory>
    ensures { IfOk result (λ copy. copy ≡ gate.now) }
{
    Ok(Gate {
        out: gate.out,
        all: gate.all,
        parts: ListOf::from_vec(Vec::from_slice(alloc, gate.parts.as_slice())?),
    })
}

fn copied_gates(alloc: Global, gates: &[Gate]) -> Result<Vec<Gate>, Memory>
    ensures { IfOk result (λ copies. copies.items ≡ gates.now) }
{
    let mut copies = Vec::new(alloc);
    for gate in gates {
        copies.push(copied_gate(alloc, gate)?)?;
    }
    Ok(copies)
}

fn copied_sum(alloc: Global, sum: &AggCon) -> Result<AggCon, Memory>
    ensures { IfOk result (λ copy. copy ≡ sum.now) }
{
    Ok(AggCon {
        out: sum.out,
        kind: sum.kind,
        parts: ListOf::from_vec(Vec::from_slice(alloc, sum.parts.as_slice())?),
        least: sum.least,
    })
}

fn copied_sums(alloc: Global, sums: &[AggCon]) -> Result<Vec<AggCon>, Memory>
    ensures { IfOk result (λ copies. copies.items ≡ sums.now) }
{
    let mut copies = Vec::new(alloc);
    for sum in sums {
        copies.push(copied_sum(alloc, sum)?)?;
    }
    Ok(copies)
}

fn copied_term(alloc: Global, term: &GroundTerm) -> Result<GroundTerm, Memory>
    ensures { IfOk result (λ copy. copy ≡ term.now) }
{
    Ok(GroundTerm {
        name: term.name.copy(alloc)?,
        kind: term.kind,
        base: term.base,
        parts: ListOf::from_vec(Vec::from_slice(alloc, term.parts.as_slice())?),
    })
}

fn copied_terms(alloc: Global, terms: &[GroundTerm]) -> Result<Vec<GroundTerm>, Memory>
    ensures { IfOk result (λ copies. copies.items ≡ terms.now) }
{
    let mut copies = Vec::new(alloc);
    for term in terms {
        copies.push(copied_term(alloc, term)?)?;
    }
    Ok(copies)
}

/// Moves the items to the end of a vector that has room for them.
fn append_reserved<T: Drop>(to: &mut Vec<T>, more: Vec<T>)
    requires { vec_len to.old + vec_len more ≤ vec_capacity to.old }
    ensures { to.new.items ≡ to.old.items ++ more.items }
{
    let mut more = more;
    match to.append(&mut more) {
        Ok(()) => {}
        Err(_) => unreachable!(),
    }
}

impl KeptProblem {
    /// No variables, and nothing said.
    pub fn new(alloc: Global) -> KeptProblem
        ensures { result ≡ empty_problem [] }
    {
        KeptProblem {
            atoms: AtomTable::from_list(LiteralList::new(alloc)),
            vars: 0,
            gates: Vec::new(alloc),
            clauses: ClauseList::new(alloc),
            sums: Vec::new(alloc),
            terms: Vec::new(alloc),
            bounds: Vec::new(alloc),
            retired: Vec::new(alloc),
        }
    }

    /// The greatest variable's number.
    pub fn vars(&self) -> u64
        ensures value { result ≡ self.now.vars }
        ensures laws { IsProblem self.now }
        ensures retired { AreSelectors self.now.retired }
    {
        self.vars
    }

    /// How long its lists are.
    pub fn moment(&self) -> Moment
        ensures { result ≡ moment_of self.now }
    {
        Moment {
            vars: self.vars,
            gates: self.gates.len() as u64,
            clauses: self.clauses.len() as u64,
            sums: self.sums.len() as u64,
            bounds: self.bounds.len() as u64,
            retired: self.retired.len() as u64,
        }
    }

    /// How many ground atoms there are.
    pub fn atom_count(&self) -> u64
        ensures { result ≡ length self.now.atoms }
    {
        self.atoms.len() as u64
    }

    /// How many clauses there are beside those of the gates.
    pub fn clause_count(&self) -> usize
        ensures { result ≡ length self.now.clauses }
    {
        self.clauses.len()
    }

    /// The clause at a place, and no literals past the end.
    pub fn clause(&self, place: usize) -> &[PackedLit]
        ensures { result.now ≡ slice_index_or self.now.clauses place [] }
    {
        match self.clauses.get(place) {
            Some(lits) => lits,
            None => &[],
        }
    }

    /// The constraints on sums in order.
    pub fn sums(&self) -> &[AggCon]
        ensures value { result.now ≡ self.now.sums }
        ensures laws { IsProblem self.now }
    {
        self.sums.as_slice()
    }

    /// The terms in order.
    pub fn terms(&self) -> &[GroundTerm]
        ensures value { result.now ≡ self.now.terms }
        ensures laws { IsProblem self.now }
    {
        self.terms.as_slice()
    }

    /// The bounds on terms in order.
    pub fn bounds(&self) -> &[TermBound]
        ensures value { result.now ≡ self.now.bounds }
        ensures laws { IsProblem self.now }
    {
        self.bounds.as_slice()
    }

    /// How many selectors are retired.
    pub fn retired_count(&self) -> usize
        ensures { result ≡ length self.now.retired }
    {
        self.retired.len()
    }

    /// The retired selector at a place.
    pub fn retired_at(&self, place: usize) -> Lit
        requires { place < length self.now.retired }
        ensures { slice_get self.now.retired place ≡ Some result }
    {
        self.retired[place]
    }

    /// Says one more clause, which may have one more variable, and makes the room to retire it.
    pub fn add_selected(&mut self, clause: &[Lit]) -> Result<(), Memory>
        requires { AreLitsOf (self.old.vars + 1) clause.now }
        ensures ok { OnOk result (self.new ≡ with_selected self.old clause.now) }
        ensures err { OnErr result (self.new ≡ self.old) }
    {
        let Some(vars) = self.vars.checked_add(1) else {
            return Err(Memory);
        };
        self.retired.reserve(vars as usize)?;
        self.clauses.push(clause)?;
        self.vars = vars;
        Ok(())
    }

    /// Says that under a new variable the term is below the number, and makes the room to retire it.
    pub fn add_bound(&mut self, term: u32, below: ExtInt) -> Result<Lit, Memory>
        requires { term < length self.old.terms }
        ensures ok { IfOk result (λ out. (out ≡ next_lit self.old) × (self.new ≡ with_bound self.old term below)) }
        ensures err { OnErr result (self.new ≡ self.old) }
    {
        let Some(var) = self.vars.checked_add(1) else {
            return Err(Memory);
        };
        let out = Lit {
            var: Var(var),
            positive: true,
        };
        self.retired.reserve(var as usize)?;
        self.bounds.push(TermBound { out, term, below })?;
        self.vars = var;
        Ok(out)
    }

    /// Makes the selector false for good.
    pub fn retire(&mut self, selector: Lit)
        requires { IsSelector self.old selector }
        ensures already { Contains self.old.retired selector → self.new ≡ self.old }
        ensures retired { (Contains self.old.retired selector → ⊥) → self.new ≡ with_retired self.old selector }
    {
        if is_among(self.retired.as_slice(), selector) {
            return;
        }
        self.retired.push_reserved(selector);
    }

    /// Says all that another problem says, too.
    pub fn join(&mut self, alloc: Global, more: &Problem) -> Result<(), Memory>
        requires can { CanJoin self.old more.now }
        requires bounds { more.now.bounds ≡ [] }
        ensures ok { OnOk result (self.new ≡ joined_problem self.old more.now) }
        ensures err { OnErr result (self.new ≡ self.old) }
    {
        let atoms = joined_atoms(alloc, &self.atoms, more.atoms())?;
        let gates = copied_gates(alloc, more.gates())?;
        let sums = copied_sums(alloc, more.sums())?;
        let terms = copied_terms(alloc, more.terms())?;
        self.gates.reserve(gates.len())?;
        self.sums.reserve(sums.len())?;
        self.terms.reserve(terms.len())?;
        self.retired.reserve(more.vars() as usize)?;
        self.clauses.append(more.clauses())?;
        self.atoms = atoms;
        append_reserved(&mut self.gates, gates);
        append_reserved(&mut self.sums, sums);
        append_reserved(&mut self.terms, terms);
        self.vars = more.vars();
        Ok(())
    }
}
