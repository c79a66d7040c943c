//! Tasks.
ghost use Rattle.std.specs.Prelude.{◌≡◌, ◌≤◌, ◌^◌, [], List, length, IfOk, IfErr};
ghost use Rattle.kb_logic.specs.Bases.{Base};
ghost use Rattle.kb_logic.specs.Structures.{EachWith};
ghost use Rattle.kb_logic.specs.Models.{IsAtomOver, atom_of};
ghost use Rattle.lit_core.specs.declared.literals.Lit.{Lit};
ghost use Rattle.lit_core.specs.Literals.{valuation};
ghost use Rattle.ground_core.specs.Solving.{IsBudgetOf, HaltedAt, HasCoreWithin, IsSublist};
ghost use Rattle.ground_core.specs.Calls.{CallEnds, Stays};
ghost use Rattle.term_values.specs.GroundBases.{structure_of};
ghost use Rattle.term_values.specs.KnownBases.{AreDataOf};
ghost use Rattle.def_ground.specs.Groundings.{IsGroundingOf};
ghost use Rattle.atom_numbers.specs.Numbers.{HasNumber};
ghost use Rattle.ground_task.specs.Tasks.{IsTaskOf, IsTask, IsAnswer, IsShown, IsRefusedAtOnce};
ghost use Rattle.ground_task.specs.Choices.{AreOver, AreChosen};

use crate::answers::Answer;
use crate::choices::{chosen_among, lits_of};
use atom_numbers::{AtomNumbers, FoundStructure};
use ground_core::{Budget, Grow, Halt, Memory as NoMemory, Solve, Verdict};
use kb_logic::{ExtInt, Literal, LiteralList, Memory, Vocabulary};
use lit_core::{Lit, Values};
use model_expansion::expand;
use partial_structures::Partial;
use std::alloc::Global;

/// A solver of the ground problem of a knowledge base, with what is needed to translate between the
/// knowledge base's literals and structures and the solver's literals and values. Its answers are
/// about the models of each knowledge base of which it is a task.
#[derive(Drop)]
pub struct Task<S> {
    numbers: AtomNumbers,
    pub(crate) solver: S,
}

impl<S: Solve + Drop> Task<S> {
    /// The task over a solver of the ground problem of a knowledge base with this vocabulary and these data.
    pub fn open(
        alloc: Global,
        vocabulary: &Vocabulary,
        data: &Partial,
        solver: S,
    ) -> Result<Task<S>, Memory>
        requires data { AreDataOf vocabulary.now data.now }
        requires few { length vocabulary.now.symbols ≤ 2 ^ 32 }
        requires fresh { (S.state solver).problem.retired ≡ [] }
        ensures task { IfOk result (λ t. (base : Base) → base.vocabulary ≡ vocabulary.now → base.known ≡ data.now
            → IsGroundingOf base (S.state solver).problem → IsTaskOf base t.numbers (S.state t.solver).problem) }
        ensures solver { IfOk result (λ t. t.solver ≡ solver) }
    {
        let numbers = AtomNumbers::of(alloc, vocabulary, data.domains())?;
        Ok(Task { numbers, solver })
    }
}

impl<S: Solve> Task<S> {
    /// The variables of the ground atoms.
    pub fn numbers(&self) -> &AtomNumbers
        ensures { result.now ≡ self.now.numbers }
    {
        &self.numbers
    }

    /// The literal of the variable that the literal's atom has.
    pub fn lit_of(&self, literal: &Literal) -> Lit
        requires { IsAtomOver self.now.numbers.vocabulary.symbols self.now.numbers.domains (atom_of literal.now) }
        ensures { HasNumber self.now.numbers literal.now result }
    {
        self.numbers.lit_of(literal)
    }

    /// The structure in which the atoms with true variables hold.
    pub fn structure_of(&self, alloc: Global, values: &Values) -> Result<FoundStructure, Memory>
        ensures { IfOk result (λ m. m ≡ structure_of self.now.numbers (valuation values.now)) }
    {
        self.numbers.structure_of(alloc, values)
    }

    /// The literals of the choices' variables.
    pub fn lits_of(&self, alloc: Global, choices: &[Literal]) -> Result<Vec<Lit>, Memory>
        requires { AreOver self.now.numbers choices.now }
        ensures { IfOk result (λ lits. EachWith (HasNumber self.now.numbers) choices.now lits.items) }
    {
        lits_of(alloc, &self.numbers, choices)
    }

    /// The choices whose literals the core has, where these are the literals of all choices. It takes time linear in
    /// the choices.
    pub fn chosen_among(
        &self,
        alloc: Global,
        choices: &[Literal],
        lits: &[Lit],
        core: &[Lit],
    ) -> Result<LiteralList, Memory>
        requires each { EachWith (HasNumber self.now.numbers) choices.now lits.now }
        requires among { IsSublist core.now lits.now }
        ensures { IfOk result (AreChosen self.now.numbers choices.now core.now) }
    {
        chosen_among(alloc, choices, lits, core)
    }

    /// A model that makes the choices true, or some of them under which there is none, by one search.
    pub fn ask(
        &mut self,
        alloc: Global,
        choices: &[Literal],
        budget: &mut Budget,
    ) -> Result<Answer, Halt>
        requires task { IsTask self.old.numbers (S.state self.old.solver).problem }
        requires choices { AreOver self.old.numbers choices.now }
        requires budget { IsBudgetOf (S.state self.old.solver).learnt budget.old }
        ensures answer { IfOk result (λ a. (base : Base)
            → IsTaskOf base self.old.numbers (S.state self.old.solver).problem → IsAnswer base choices.now a) }
        ensures shown { IfOk result (IsShown self.old.numbers choices.now (S.state self.new.solver).cores) }
        ensures task { (base : Base) → IsTaskOf base self.old.numbers (S.state self.old.solver).problem
            → IsTaskOf base self.new.numbers (S.state self.new.solver).problem }
        ensures halt { IfErr result (HaltedAt budget.new) }
        ensures stays { Stays (S.state self.old.solver) (S.state self.new.solver) }
        ensures ends { CallEnds 1 (S.state self.old.solver) (S.state self.new.solver) budget.old budget.new }
        ensures decided { (lits : List Lit) → EachWith (HasNumber self.old.numbers) choices.now lits
            → HasCoreWithin (S.state self.old.solver).cores lits
            → IsRefusedAtOnce (S.state self.old.solver) (S.state self.new.solver) result }
        ensures later { S.goes_on self.old.solver self.new.solver }
    {
        self.solver.known();
        let Ok(lits) = self.lits_of(alloc, choices) else {
            return Err(Halt::Memory);
        };
        match expand(&mut self.solver, lits.as_slice(), budget) {
            Ok(Verdict::Sat(values)) => match self.numbers.structure_of(alloc, &values) {
                Ok(model) => Ok(Answer::Model(model)),
                Err(_) => Err(Halt::Memory),
            },
            Ok(Verdict::Unsat(core)) => {
                match self.chosen_among(alloc, choices, lits.as_slice(), core.as_slice()) {
                    Ok(some) => Ok(Answer::NoModel(some)),
                    Err(_) => Err(Halt::Memory),
                }
            }
            Err(halt) => Err(halt),
        }
    }
}

impl<S: Solve> Solve for Task<S> {
    ghost use Rattle.std.proofs.Common.{refl, ◌∙◌};

    ghost state = { λ t. S.state t.solver };

    ghost goes_on = { λ t u. S.goes_on t.solver u.solver × (t.numbers ≡ u.numbers) };

    fn known(&self) {
        self.solver.known();
    }

    fn solve(&mut self, assume: &[Lit], budget: &mut Budget) -> Result<Verdict, Halt> {
        self.solver.solve(assume, budget)
    }

    ghost goes_on_itself = { λ t. (S.goes_on_itself t.solver, refl) };

    ghost goes_on_twice = { λ r t u a b. (S.goes_on_twice r.solver t.solver u.solver a.0 b.0, a.1 ∙ b.1) };
}

impl<S: Grow> Grow for Task<S> {
    fn value(&self, term: u32, values: &Values) -> ExtInt {
        self.solver.value(term, values)
    }

    fn bound(&mut self, term: u32, below: ExtInt) -> Result<Lit, NoMemory> {
        self.solver.bound(term, below)
    }

    fn exclude(&mut self, values: &Values) -> Result<Lit, NoMemory> {
        self.solver.exclude(values)
    }

    fn retire(&mut self, selector: Lit) {
        self.solver.retire(selector);
    }
}
