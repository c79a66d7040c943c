//! The sign of a decision: the atom of a choice that was seen least often in answers.
ghost use Rattle.std.specs.Prelude.{◌≡◌, ℕ, ◌≤◌, ◌<◌, ◌+◌, ◌↔◌, ◌⊎◌, Some, None, true, false, [], length};
ghost use Rattle.std.specs.Prelude.{slice_index_or, slice_set, IsTrue, All, Any, IfSome, OnOk};
ghost use Rattle.ground_core.specs.Solving.{counted};
ghost use Rattle.search_decisions.specs.declared.phases.First.{First};
ghost use Rattle.search_decisions.specs.Phases.{CountsAnswer, HasChoice, IsChoiceAt, IsFirstRight, IsFoundFor};
ghost use Rattle.search_decisions.specs.Phases.{IsLeastSeen, IsOpen, KeepsAll, KeepsAnswers, Notes, choice_of};
ghost use Rattle.search_decisions.specs.Phases.{times_seen};

use ground_core::Memory;
use kept_problem::KeptProblem;
use lit_core::{Assignment, Lit, PackedLit, Values, Var};
use std::alloc::Global;

/// The open atom of a clause that comes first, while nothing is taken back.
#[derive(Clone, Copy, Debug, PartialEq, Eq)]
pub struct First {
    pub clause: usize,
    pub salt: u64,
    pub var: Var,
}

/// How often variables were true in answers, and the choice in which each stands.
///
/// The value that was seen least makes each answer differ from earlier ones, so that a few answers
/// tell which literals do not follow. One fixed sign, or the value of last time, makes answers much alike,
/// and without restarts it keeps to a bad part of the search.
///
/// A choice is a clause of the problem that has ground atoms alone, none of them negated. The
/// clauses here say what is counted and found. No verdict rests on them, and none says how ties
/// are broken.
#[derive(Drop)]
pub struct Phases {
    /// In how many answers each variable was true.
    pub seen: Vec<u64>,
    /// For each variable the place of the first choice that has it.
    pub choices: Vec<Option<usize>>,
    /// How many answers there were.
    pub answers: u64,
    /// What was found last.
    pub first: Option<First>,
}

/// A number that looks random, another one for each variable.
///
/// It is an output of SplitMix64 (Steele, Lea and Flood, 2014): its state is the variable's number after
/// `salt` steps of its increment, and the two rounds of shift and product are its own.
fn mixed(var: Var, salt: u64) -> u64 {
    let start = salt.wrapping_mul(0x9E37_79B9_7F4A_7C15).wrapping_add(var.0);
    let once = (start ^ (start >> 30)).wrapping_mul(0xBF58_476D_1CE4_E5B9);
    let twice = (once ^ (once >> 27)).wrapping_mul(0x94D0_49BB_1331_11EB);
    twice ^ (twice >> 31)
}

/// Whether the literal is an atom that is not negated.
fn is_atom(lit: Lit, atoms: u64) -> bool
    ensures { IsTrue result ↔ ((lit.positive ≡ true) × (lit.var.0 ≤ atoms)) }
{
    lit.positive && lit.var.0 <= atoms
}

/// Whether the clause has nothing but atoms that are not negated.
fn is_choice(clause: &[PackedLit], atoms: u64) -> bool
    ensures { IsTrue result ↔ All (λ l. (l.positive ≡ true) × (l.var.0 ≤ atoms)) clause.now }
{
    clause.iter().all(|lit| is_atom(lit.lit(), atoms))
}

/// Adds variables that were never seen, so that there are at least `len`.
pub fn grow_counts(counts: &mut Vec<u64>, len: usize) -> Result<(), Memory>
    ensures kept { (v : ℕ) → slice_index_or counts.new.items v 0 ≡ slice_index_or counts.old.items v 0 }
    ensures longer { length counts.old.items ≤ length counts.new.items }
    ensures room { OnOk result (len ≤ length counts.new.items) }
{
    if counts.len() < len {
        counts.resize(len, 0)?;
    }
    Ok(())
}

/// Adds variables that have no choice, so that there are at least `len`.
fn grow_choices(choices: &mut Vec<Option<usize>>, len: usize) -> Result<(), Memory>
    ensures kept { (v : ℕ) → slice_index_or choices.new.items v None ≡ slice_index_or choices.old.items v None }
    ensures longer { length choices.old.items ≤ length choices.new.items }
    ensures room { OnOk result (len ≤ length choices.new.items) }
{
    if choices.len() < len {
        choices.resize(len, None)?;
    }
    Ok(())
}

/// Whether the variable is one of these, and unassigned.
pub fn is_open(assignment: &Assignment, var: Var) -> bool
    ensures { IsTrue result ↔ IsOpen assignment.now var.0 }
{
    if var.0 >= assignment.len() as u64 {
        return false;
    }
    let lit = Lit {
        var,
        positive: true,
    };
    assignment.value(lit).is_none()
}

impl Phases {
    /// Nothing was seen.
    pub fn new(alloc: Global) -> Phases
        ensures seen { result.seen.items ≡ [] }
        ensures choices { result.choices.items ≡ [] }
        ensures answers { result.answers ≡ 0 }
        ensures found { result.first ≡ None }
    {
        Phases {
            seen: Vec::new(alloc),
            choices: Vec::new(alloc),
            answers: 0,
            first: None,
        }
    }

    /// Makes room for so many variables.
    pub fn reserve(&mut self, len: usize) -> Result<(), Memory>
        ensures room { OnOk result ((len ≤ length self.new.seen.items) × (len ≤ length self.new.choices.items)) }
        ensures longer { (length self.old.seen.items ≤ length self.new.seen.items)
            × (length self.old.choices.items ≤ length self.new.choices.items) }
        ensures seen { (v : ℕ) → times_seen self.new v ≡ times_seen self.old v }
        ensures choices { (v : ℕ) → choice_of self.new v ≡ choice_of self.old v }
        ensures answers { self.new.answers ≡ self.old.answers }
        ensures found { self.new.first ≡ self.old.first }
    {
        grow_counts(&mut self.seen, len)?;
        grow_choices(&mut self.choices, len)
    }

    /// Notes the place of a choice that has the variable, unless one is noted.
    fn note_place(&mut self, var: Var, place: usize)
        ensures same { KeepsAnswers self.old self.new }
        ensures notes { Notes (λ v k. (v ≡ var.0) × (k ≡ place)) self.old self.new }
    {
        match self.choice_of(var) {
            Some(_) => {}
            None => {
                let number = var.0 as usize;
                if number < self.choices.len() {
                    self.choices[number] = Some(place);
                }
            }
        }
    }

    /// Notes the place of a choice at its variables.
    fn note_choice(&mut self, place: usize, clause: &[PackedLit])
        ensures same { KeepsAnswers self.old self.new }
        ensures notes { Notes (λ v k. Any (λ l. l.var.0 ≡ v) clause.now × (k ≡ place)) self.old self.new }
    {
        for lit in clause {
            self.note_place(lit.lit().var, place);
        }
    }

    /// Notes the choices among the problem's own clauses from a place on.
    pub fn note_choices(&mut self, problem: &KeptProblem, from: usize)
        ensures same { KeepsAnswers self.old self.new }
        ensures notes { Notes (IsChoiceAt problem.now from) self.old self.new }
    {
        for place in from..problem.clause_count() {
            let clause = problem.clause(place);
            if is_choice(clause, problem.atom_count()) {
                self.note_choice(place, clause);
            }
        }
    }

    /// Counts an answer in which the variable is true.
    fn count(&mut self, number: usize)
        ensures seen { self.new.seen.items ≡ slice_set self.old.seen.items number
            (counted (times_seen self.old number + 1)) }
        ensures choices { self.new.choices.items ≡ self.old.choices.items }
        ensures answers { self.new.answers ≡ self.old.answers }
        ensures found { self.new.first ≡ self.old.first }
    {
        if number < self.seen.len() {
            self.seen[number] = self.seen[number].saturating_add(1);
        }
    }

    /// Counts an answer, and the variables that are true in it.
    pub fn note_answer(&mut self, values: &Values)
        ensures counted { CountsAnswer self.old values.now self.new }
        ensures choices { self.new.choices.items ≡ self.old.choices.items }
        ensures found { self.new.first ≡ self.old.first }
    {
        self.answers = self.answers.saturating_add(1);
        for number in 0..values.len() {
            let lit = Lit {
                var: Var(number as u64),
                positive: true,
            };
            if values.holds(lit) {
                self.count(number);
            }
        }
    }

    /// What was found last may be wrong from now on.
    pub fn takes_back(&mut self)
        ensures found { self.new.first ≡ None }
        ensures same { KeepsAll self.old self.new }
    {
        self.first = None;
    }

    /// In how many answers the variable was true.
    fn times_seen(&self, var: Var) -> u64
        ensures { result ≡ times_seen self.now var.0 }
    {
        match self.seen.get(var.0 as usize) {
            Some(times) => *times,
            None => 0,
        }
    }

    /// The place of the first choice that has the variable.
    pub fn choice_of(&self, var: Var) -> Option<usize>
        ensures { result ≡ choice_of self.now var.0 }
    {
        match self.choices.get(var.0 as usize) {
            Some(place) => *place,
            None => None,
        }
    }

    /// Whether the one comes before the other: it was seen less often, or as often and its number
    /// is mixed to a smaller one.
    fn is_before(&self, one: Var, other: Var, salt: u64) -> bool
        ensures before { result ≡ true → times_seen self.now one.0 ≤ times_seen self.now other.0 }
        ensures after { result ≡ false → times_seen self.now other.0 ≤ times_seen self.now one.0 }
    {
        let mine = self.times_seen(one);
        let theirs = self.times_seen(other);
        mine < theirs || mine == theirs && mixed(one, salt) < mixed(other, salt)
    }

    /// Whether the one is open and comes before the other.
    fn is_better(&self, assignment: &Assignment, one: Var, other: Var, salt: u64) -> bool
        ensures better { result ≡ true → IsOpen assignment.now one.0
            × (times_seen self.now one.0 ≤ times_seen self.now other.0) }
        ensures not { result ≡ false → IsOpen assignment.now one.0 → times_seen self.now other.0
            ≤ times_seen self.now one.0 }
    {
        is_open(assignment, one) && self.is_before(one, other, salt)
    }

    /// The open variable of the clause that comes first, which is at most this one.
    fn first_of(&self, assignment: &Assignment, clause: &[PackedLit], var: Var, salt: u64) -> Var
        ensures least { Any (λ l. l.var.0 ≡ var.0) clause.now → IsLeastSeen self.now assignment.now
            clause.now result.0 }
        ensures open_or { (result ≡ var) ⊎ IsOpen assignment.now result.0 }
    {
        let mut first = var;
        for lit in clause {
            let var = lit.lit().var;
            if self.is_better(assignment, var, first, salt) {
                first = var;
            }
        }
        first
    }

    /// What was found last, where it still is the first of this choice.
    fn still_first(&self, assignment: &Assignment, place: usize, salt: u64) -> Option<Var>
        ensures { IfSome result (λ v. IsOpen assignment.now v.0 ×
            (self.now.first ≡ Some (record { clause = place; salt = salt; var = v }))) }
    {
        match self.first {
            Some(first) => {
                if first.clause == place && first.salt == salt && is_open(assignment, first.var) {
                    Some(first.var)
                } else {
                    None
                }
            }
            None => None,
        }
    }

    /// What was found last, or else what comes first of this choice.
    fn first_at(
        &self,
        problem: &KeptProblem,
        assignment: &Assignment,
        place: usize,
        var: Var,
        salt: u64,
    ) -> Var
        ensures least { let clause = slice_index_or problem.now.clauses place [] in
            IsFirstRight problem.now.clauses assignment.now self.now → Any (λ l. l.var.0 ≡ var.0) clause
            → IsLeastSeen self.now assignment.now clause result.0 }
        ensures open_or { (result ≡ var) ⊎ IsOpen assignment.now result.0 }
    {
        match self.still_first(assignment, place, salt) {
            Some(first) => first,
            None => self.first_of(assignment, problem.clause(place), var, salt),
        }
    }

    /// Whether the variable was true in fewer than half of the answers. Where it was in half of them the salt decides,
    /// so that later answers are not all the same but for a few variables, which their exclusions would have to tell
    /// apart.
    fn is_due(&self, var: Var, salt: u64) -> bool
        ensures due { result ≡ true → times_seen self.now var.0 + times_seen self.now var.0 ≤ self.now.answers }
        ensures not { result ≡ false → self.now.answers ≤ times_seen self.now var.0 + times_seen self.now var.0 }
    {
        let seen = self.times_seen(var);
        let unseen = self.answers.saturating_sub(seen);
        seen < unseen || seen == unseen && 0 < seen && mixed(var, salt) % 2 == 0
    }

    /// Whether no open atom of the first choice that has the variable comes before it, or where
    /// there is no choice, whether it was true in fewer than half of the answers.
    ///
    /// What is found is kept until something is taken back, so that a wide choice is gone through
    /// once for all its atoms.
    pub fn sign(
        &mut self,
        problem: &KeptProblem,
        assignment: &Assignment,
        var: Var,
        salt: u64,
    ) -> bool
        ensures same { KeepsAll self.old self.new }
        ensures alone { choice_of self.old var.0 ≡ None → result ≡ true
            → times_seen self.old var.0 + times_seen self.old var.0 ≤ self.old.answers }
        ensures alone_not { choice_of self.old var.0 ≡ None → result ≡ false
            → self.old.answers ≤ times_seen self.old var.0 + times_seen self.old var.0 }
        ensures choice { IfSome (choice_of self.old var.0) (λ place. IsFoundFor assignment.now place var salt
            result self.new) }
        ensures least { HasChoice problem.now.clauses self.old var.0 → IsFirstRight problem.now.clauses assignment.now
            self.old → IsFirstRight problem.now.clauses assignment.now self.new }
    {
        let Some(place) = self.choice_of(var) else {
            return self.is_due(var, salt);
        };
        let first = self.first_at(problem, assignment, place, var, salt);
        self.first = Some(First {
            clause: place,
            salt,
            var: first,
        });
        first == var
    }
}
