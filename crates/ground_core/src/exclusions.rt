//! The clause by which the ground atoms differ from given values.
ghost use Rattle.std.specs.Prelude.{◌≡◌, ◌<◌, ◌∷◌, not, length, IfOk};
ghost use Rattle.lit_core.specs.Literals.{negated, valuation};
ghost use Rattle.ground_core.specs.Growth.{falsified_by};

use lit_core::{Clause, Lit, Values, Var};
use std::alloc::{AllocError as Memory, Global};

/// The variable's literal that the values make false.
fn falsified(values: &Values, var: u64) -> Lit
    requires { var < length values.now }
    ensures { result ≡ record { var = record { 0 = var }; positive = not (valuation values.now var) } }
{
    let lit = Lit {
        var: Var(var),
        positive: true,
    };
    Lit {
        var: Var(var),
        positive: !values.holds(lit),
    }
}

/// Under the literal one of the first variables has another value.
pub fn exclusion(alloc: Global, out: Lit, values: &Values, atoms: usize) -> Result<Clause, Memory>
    requires { atoms < length values.now }
    ensures { IfOk result (λ c. c ≡ negated out ∷ falsified_by values.now atoms) }
{
    let mut clause = Clause::new(alloc);
    clause.push(out.negated())?;
    for i in 0..atoms {
        clause.push(falsified(values, i as u64 + 1))?;
    }
    Ok(clause)
}
