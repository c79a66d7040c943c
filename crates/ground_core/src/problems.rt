//! Ground problems, and how they grow.
ghost use Rattle.std.specs.Prelude.{◌≡◌, ◌≤◌, ◌<◌, ◌^◌, [], ◌∷◌, ◌++◌, length, take, IfOk, OnErr, OnOk};
ghost use Rattle.ground_core.specs.Problems.{IsProblem, IsLitOf, AreLitsOf, ArePartsOf, IsSumOf, IsTermOf};
ghost use Rattle.ground_core.specs.Growth.{empty_problem, next_lit, with_var, with_clause, with_gate, with_sum};
ghost use Rattle.ground_core.specs.Growth.{with_constraint, with_term, with_same, with_exclusion, clauses_of_same};
ghost use Rattle.ground_core.specs.Growth.{AddsGate, AddsSum, AddsSame};

use crate::atom_tables::AtomTable;
use crate::exclusions::exclusion;
use crate::parts::{AggCon, Gate, GroundTerm, LitList, PartList, TermBound};
use kb_logic::{AggKind, ExtInt, ListOf};
use lit_core::{Clause, ClauseList, Lit, Values, Var};
use std::alloc::{AllocError as Memory, Global};
use std::marker::Model;

/// What is said of numbered variables. All that is said names variables from 1 to `vars`.
#[derive(Drop)]
pub struct Problem {
    atoms: AtomTable,
    vars: u64,
    gates: ListOf<Gate>,
    clauses: ClauseList,
    sums: ListOf<AggCon>,
    terms: ListOf<GroundTerm>,
    bounds: ListOf<TermBound>,
}

impl Model for Problem {
    ghost use Rattle.ground_core.specs.Problems.{ProblemState};

    ghost Value = { ProblemState };

    ghost use Rattle.ground_core.specs.ProblemFields.{state_of, IsKept};

    ghost view = { state_of };

    ghost invariant = { IsKept };
}

impl Problem {
    /// A variable for each atom, and nothing said of them.
    pub fn new(alloc: Global, atoms: AtomTable) -> Problem
        ensures { result ≡ empty_problem atoms }
    {
        let vars = atoms.len() as u64;
        Problem {
            atoms,
            vars,
            gates: ListOf::new(alloc),
            clauses: ClauseList::new(alloc),
            sums: ListOf::new(alloc),
            terms: ListOf::new(alloc),
            bounds: ListOf::new(alloc),
        }
    }

    /// The ground atoms of the first variables.
    pub fn atoms(&self) -> &AtomTable
        ensures value { result.now ≡ self.now.atoms }
        ensures laws { IsProblem self.now }
    {
        &self.atoms
    }

    /// The greatest variable's number.
    pub fn vars(&self) -> u64
        ensures value { result ≡ self.now.vars }
        ensures laws { IsProblem self.now }
        ensures unretired { self.now.retired ≡ [] }
    {
        self.vars
    }

    /// The gates in order.
    pub fn gates(&self) -> &[Gate]
        ensures value { result.now ≡ self.now.gates }
        ensures laws { IsProblem self.now }
    {
        self.gates.as_slice()
    }

    /// The clauses, without those of the gates.
    pub fn clauses(&self) -> &ClauseList
        ensures value { result.now ≡ self.now.clauses }
        ensures laws { IsProblem self.now }
    {
        &self.clauses
    }

    /// The constraints on sums in order.
    pub fn sums(&self) -> &[AggCon]
        ensures value { result.now ≡ self.now.sums }
        ensures laws { IsProblem self.now }
    {
        self.sums.as_slice()
    }

    /// The terms in order.
    pub fn terms(&self) -> &[GroundTerm]
        ensures value { result.now ≡ self.now.terms }
        ensures laws { IsProblem self.now }
    {
        self.terms.as_slice()
    }

    /// The bounds on terms in order.
    pub fn bounds(&self) -> &[TermBound]
        ensures value { result.now ≡ self.now.bounds }
        ensures laws { IsProblem self.now }
    {
        self.bounds.as_slice()
    }

    /// Says one more clause.
    pub fn add_clause(&mut self, clause: Clause) -> Result<(), Memory>
        requires { AreLitsOf self.old.vars clause }
        ensures ok { OnOk result (self.new ≡ with_clause self.old clause) }
        ensures err { OnErr result (self.new ≡ self.old) }
    {
        self.clauses.push(clause.as_slice())?;
        Ok(())
    }

    /// Says one more clause, of these literals.
    pub fn add_clause_of(&mut self, lits: &[Lit]) -> Result<(), Memory>
        requires { AreLitsOf self.old.vars lits.now }
        ensures ok { OnOk result (self.new ≡ with_clause self.old lits.now) }
        ensures err { OnErr result (self.new ≡ self.old) }
    {
        self.clauses.push(lits)?;
        Ok(())
    }

    /// The positive literal of a new variable.
    fn next(&self) -> Result<Lit, Memory>
        ensures { IfOk result (λ l. l ≡ next_lit self.now) }
    {
        match self.vars.checked_add(1) {
            Some(var) => Ok(Lit {
                var: Var(var),
                positive: true,
            }),
            None => Err(Memory),
        }
    }

    /// A new variable, of which nothing is said yet. A variable past 64 bits counts as out of memory, here
    /// and in the calls below that add one.
    pub fn add_var(&mut self) -> Result<Lit, Memory>
        ensures made { IfOk result (λ out. (out ≡ next_lit self.old) × (self.new ≡ with_var self.old)) }
        ensures err { OnErr result (self.new ≡ self.old) }
    {
        let out = self.next()?;
        self.vars = out.var.0;
        Ok(out)
    }

    /// A new variable that is true exactly where all of the parts are, or where any is.
    pub fn add_gate(&mut self, all: bool, parts: LitList) -> Result<Lit, Memory>
        requires { AreLitsOf self.old.vars parts }
        ensures adds { IfOk result (λ out. AddsGate self.old self.new all parts out) }
        ensures made { IfOk result (λ out. (out ≡ next_lit self.old) × (self.new ≡ with_gate self.old all parts)) }
        ensures err { OnErr result (self.new ≡ self.old) }
    {
        let out = self.next()?;
        self.gates.push(Gate { out, all, parts })?;
        self.vars = out.var.0;
        Ok(out)
    }

    /// A new variable that is true exactly where the parts come to at least `least`.
    pub fn add_sum(&mut self, kind: AggKind, parts: PartList, least: ExtInt) -> Result<Lit, Memory>
        requires { ArePartsOf self.old.vars parts }
        ensures adds { IfOk result (λ out. AddsSum self.old self.new kind parts least out) }
        ensures made { IfOk result (λ out. (out ≡ next_lit self.old)
            × (self.new ≡ with_sum self.old kind parts least)) }
        ensures err { OnErr result (self.new ≡ self.old) }
    {
        let out = self.next()?;
        self.sums.push(AggCon {
            out,
            kind,
            parts,
            least,
        })?;
        self.vars = out.var.0;
        Ok(out)
    }

    /// Says one more constraint, of variables that are there.
    pub fn add_constraint(&mut self, constraint: AggCon) -> Result<(), Memory>
        requires { IsSumOf self.old.vars constraint }
        ensures ok { OnOk result (self.new ≡ with_constraint self.old constraint) }
        ensures err { OnErr result (self.new ≡ self.old) }
    {
        self.sums.push(constraint)?;
        Ok(())
    }

    /// Names one more term.
    pub fn add_term(&mut self, term: GroundTerm) -> Result<(), Memory>
        requires { IsTermOf self.old.vars term }
        ensures ok { OnOk result (self.new ≡ with_term self.old term) }
        ensures err { OnErr result (self.new ≡ self.old) }
    {
        self.terms.push(term)?;
        Ok(())
    }

    /// A new variable that is true exactly where the two literals have one value.
    pub fn add_same(&mut self, alloc: Global, a: Lit, b: Lit) -> Result<Lit, Memory>
        requires first { IsLitOf self.old.vars a }
        requires second { IsLitOf self.old.vars b }
        ensures adds { IfOk result (λ out. AddsSame self.old self.new a b out) }
        ensures made { IfOk result (λ out. (out ≡ next_lit self.old) × (self.new ≡ with_same self.old a b)) }
        ensures err { OnErr result (self.new ≡ self.old) }
    {
        let out = self.next()?;
        let before = self.clauses.len();
        match push_same(&mut self.clauses, out, a, b) {
            Ok(()) => {
                self.vars = out.var.0;
                Ok(out)
            }
            Err(error) => {
                self.clauses.truncate(before);
                Err(error)
            }
        }
    }

    /// Adds a variable under which the ground atoms differ from these values somewhere.
    pub fn add_exclusion(&mut self, alloc: Global, values: &Values) -> Result<Lit, Memory>
        requires { length self.old.atoms < length values.now }
        ensures made { IfOk result (λ out. (out ≡ next_lit self.old)
            × (self.new ≡ with_exclusion self.old values.now)) }
        ensures err { OnErr result (self.new ≡ self.old) }
    {
        let out = self.next()?;
        let clause = exclusion(alloc, out, values, self.atoms.len())?;
        self.clauses.push(clause.as_slice())?;
        self.vars = out.var.0;
        Ok(out)
    }
}

/// Adds the clause of three literals.
fn push_three(clauses: &mut ClauseList, a: Lit, b: Lit, c: Lit) -> Result<(), Memory>
    ensures ok { OnOk result (clauses.new ≡ clauses.old ++ (a ∷ b ∷ c ∷ []) ∷ []) }
    ensures err { OnErr result (clauses.new ≡ clauses.old) }
{
    clauses.push(&[a, b, c])?;
    Ok(())
}

/// Adds the clauses that say that a literal is true exactly where two others have one value.
fn push_same(clauses: &mut ClauseList, out: Lit, a: Lit, b: Lit) -> Result<(), Memory>
    ensures ok { OnOk result (clauses.new ≡ clauses.old ++ clauses_of_same out a b) }
    ensures front { take (length clauses.old) clauses.new ≡ clauses.old }
{
    push_three(clauses, out.negated(), a.negated(), b)?;
    push_three(clauses, out.negated(), a, b.negated())?;
    push_three(clauses, out, a, b)?;
    push_three(clauses, out, a.negated(), b.negated())
}
