//! Which of the forced literals are shown.
ghost use Rattle.std.specs.Prelude.{◌≡◌, ◌==◌, ◌||◌, ℕ, List, [], length, IfOk, OnOk, Any, MatchBool, MatchOption};
ghost use Rattle.std.specs.List.{list_any};
ghost use Rattle.kb_logic.specs.KnownAtoms.{atoms_over};
ghost use Rattle.lit_core.specs.declared.literals.Lit.{Lit as ALit};
ghost use Rattle.ground_core.specs.Problems.{IsLitOf, AreLitsOf};
ghost use Rattle.forced_literals.specs.Picking.{is_among, is_it, Settles, SettlesOnly, AreSettled, IsLeftOutOf};
ghost use Rattle.forced_literals.specs.Picking.{DeniesBeside, IsSpared, ArePicked};

use atom_numbers::AtomNumbers;
use indexmap::IndexSet;
use kb_logic::{LiteralList, Memory};
use lit_core::Lit;
use std::alloc::Global;

// The variables of the choices, and those of the first atoms of the applications that have a value, are hashed, so that
// each forced literal is looked up once.
/// What tells which of the forced literals are not shown.
#[derive(Drop)]
pub(crate) struct LeftOut {
    /// The variables of the choices.
    pub chosen: IndexSet<u64>,
    /// The variables of the first atoms of the applications of which a forced literal affirms a value.
    pub settled: IndexSet<u64>,
}

/// One more number, where there is one.
fn add(numbers: &mut IndexSet<u64>, number: Option<u64>) -> Result<(), Memory>
    ensures { OnOk result ((n : ℕ) → is_among numbers.new.keys n ≡ (is_among numbers.old.keys n || is_it number n)) }
{
    match number {
        None => Ok(()),
        Some(number) => {
            numbers.insert_full(number)?;
            Ok(())
        }
    }
}

/// The variables of the literals.
fn variables(alloc: Global, lits: &[Lit]) -> Result<IndexSet<u64>, Memory>
    ensures { IfOk result (λ vars. (n : ℕ) → is_among vars.keys n ≡ list_any (λ l. l.var.0 == n) lits.now) }
{
    let mut vars = IndexSet::new(alloc);
    for lit in lits {
        add(&mut vars, Some(lit.var.0))?;
    }
    Ok(vars)
}

/// The variable of the first atom of the function's application of which the literal affirms a value.
fn settled_by(numbers: &AtomNumbers, lit: Lit) -> Option<u64>
    requires { IsLitOf (length (atoms_over numbers.now.vocabulary.symbols numbers.now.domains)) lit }
    ensures { MatchOption result ((n : ℕ) → Settles numbers.now lit n → ⊥) (SettlesOnly numbers.now lit) }
{
    if !lit.positive {
        return None;
    }
    numbers.application_of(lit)
}

/// Those of all of the literals.
fn all_settled(alloc: Global, numbers: &AtomNumbers, lits: &[Lit]) -> Result<IndexSet<u64>, Memory>
    requires { AreLitsOf (length (atoms_over numbers.now.vocabulary.symbols numbers.now.domains)) lits.now }
    ensures { IfOk result (λ vars. AreSettled numbers.now lits.now vars.keys) }
{
    let mut vars = IndexSet::new(alloc);
    for lit in lits {
        add(&mut vars, settled_by(numbers, *lit))?;
    }
    Ok(vars)
}

impl LeftOut {
    /// Where the choices and the forced literals have these literals of variables.
    fn of(
        alloc: Global,
        numbers: &AtomNumbers,
        choices: &[Lit],
        forced: &[Lit],
    ) -> Result<LeftOut, Memory>
        requires { AreLitsOf (length (atoms_over numbers.now.vocabulary.symbols numbers.now.domains)) forced.now }
        ensures { IfOk result (IsLeftOutOf numbers.now choices.now forced.now) }
    {
        let chosen = variables(alloc, choices)?;
        let settled = all_settled(alloc, numbers, forced)?;
        Ok(LeftOut { chosen, settled })
    }

    /// Whether it denies a value of a function of which a forced literal affirms one at the same arguments.
    fn denies_beside(&self, numbers: &AtomNumbers, lit: Lit) -> bool
        requires { IsLitOf (length (atoms_over numbers.now.vocabulary.symbols numbers.now.domains)) lit }
        ensures { (forced : List ALit) → AreSettled numbers.now forced self.now.settled.keys
            → MatchBool result (Any (λ k. DeniesBeside numbers.now k lit) forced)
            (Any (λ k. DeniesBeside numbers.now k lit) forced → ⊥) }
    {
        if lit.positive {
            return false;
        }
        match numbers.application_of(lit) {
            None => false,
            Some(var) => self.settled.contains(&var),
        }
    }

    /// Whether the forced literal is not shown.
    fn has(&self, numbers: &AtomNumbers, lit: Lit) -> bool
        requires { IsLitOf (length (atoms_over numbers.now.vocabulary.symbols numbers.now.domains)) lit }
        ensures { (chosen forced : List ALit) → IsLeftOutOf numbers.now chosen forced self.now
            → MatchBool result (IsSpared numbers.now chosen forced lit)
            (IsSpared numbers.now chosen forced lit → ⊥) }
    {
        if self.chosen.contains(&lit.var.0) {
            return true;
        }
        self.denies_beside(numbers, lit)
    }
}

/// The literals of those that are not left out.
fn picked(
    alloc: Global,
    numbers: &AtomNumbers,
    left_out: &LeftOut,
    lits: &[Lit],
) -> Result<LiteralList, Memory>
    requires { AreLitsOf (length (atoms_over numbers.now.vocabulary.symbols numbers.now.domains)) lits.now }
    ensures { IfOk result (λ list. (chosen forced : List ALit) → IsLeftOutOf numbers.now chosen forced left_out.now
        → ArePicked numbers.now chosen forced lits.now list) }
{
    let mut list = LiteralList::new(alloc);
    for lit in lits {
        if left_out.has(numbers, *lit) {
            continue;
        }
        list.push(numbers.literal_of(alloc, *lit)?)?;
    }
    Ok(list)
}

/// Those of the forced literals that are shown, where the choices have these literals of variables.
pub(crate) fn shown(
    alloc: Global,
    numbers: &AtomNumbers,
    choices: &[Lit],
    forced: &[Lit],
) -> Result<LiteralList, Memory>
    requires { AreLitsOf (length (atoms_over numbers.now.vocabulary.symbols numbers.now.domains)) forced.now }
    ensures { IfOk result (ArePicked numbers.now choices.now forced.now forced.now) }
{
    let left_out = LeftOut::of(alloc, numbers, choices, forced)?;
    picked(alloc, numbers, &left_out, forced)
}
