//! Literals under values: no code is shared with the solvers.
ghost use Rattle.std.specs.Prelude.{◌≡◌, ◌↔◌, false, true, IsTrue};
ghost use Rattle.lit_core.specs.Literals.{literal_value, valuation};
ghost use Rattle.lit_core.specs.Truth.{IsSatisfied};
ghost use Rattle.ground_core.specs.Meaning.{MakesTrue, joined};

use lit_core::{Lit, Values, Var};

/// Whether the values make the literal true; a variable past their end is false.
pub fn is_true(values: &Values, lit: Lit) -> bool
    ensures { result ≡ literal_value (valuation values.now) lit }
{
    if lit.var.0 < values.len() as u64 {
        values.holds(lit)
    } else {
        !lit.positive
    }
}

/// Whether the values make the variable true.
pub fn is_set(values: &Values, var: u64) -> bool
    ensures { result ≡ valuation values.now var }
{
    is_true(
        values,
        Lit {
            var: Var(var),
            positive: true,
        },
    )
}

/// Whether the values make all of the literals true.
pub fn makes_true(values: &Values, lits: &[Lit]) -> bool
    ensures all { IsTrue result ↔ MakesTrue (valuation values.now) lits.now }
    ensures value { result ≡ joined true (valuation values.now) lits.now }
{
    lits.iter().all(|lit| is_true(values, *lit))
}

/// Whether the values make one of the literals true.
pub fn satisfies(values: &Values, lits: &[Lit]) -> bool
    ensures any { IsTrue result ↔ IsSatisfied (valuation values.now) lits.now }
    ensures value { result ≡ joined false (valuation values.now) lits.now }
{
    lits.iter().any(|lit| is_true(values, *lit))
}

/// Whether the values make all of the literals true, or any.
pub fn joined_value(values: &Values, all: bool, lits: &[Lit]) -> bool
    ensures { result ≡ joined all (valuation values.now) lits.now }
{
    if all {
        makes_true(values, lits)
    } else {
        satisfies(values, lits)
    }
}
