//! What is printed.
use consequences::Kept;
use ground_core::Memory;
use kb_logic::ExtInt;
use lit_core::{Lit, Values, Var};
use std::alloc::Global;

/// Adds a literal as DIMACS has it, after a blank.
fn add_lit(alloc: Global, text: &mut String, lit: Lit) -> Result<(), Memory> {
    let var = lit.var.0;
    let word = if lit.positive {
        format!(in alloc; " {var}")?
    } else {
        format!(in alloc; " -{var}")?
    };
    text.push_str(word.as_str())
}

/// The word, and literals.
pub fn lits_text(alloc: Global, word: &str, lits: &[Lit]) -> Result<String, Memory> {
    let mut text = String::from_str(alloc, word)?;
    for lit in lits {
        add_lit(alloc, &mut text, *lit)?;
    }
    Ok(text)
}

/// The literals that are forced.
pub fn kept_text(alloc: Global, kept: &[Kept]) -> Result<String, Memory> {
    let mut text = String::from_str(alloc, "forced")?;
    for one in kept {
        add_lit(alloc, &mut text, one.lit)?;
    }
    Ok(text)
}

/// The values of the ground atoms, which are the first variables.
pub fn values_text(alloc: Global, values: &Values, atoms: u64) -> Result<String, Memory> {
    let mut text = String::from_str(alloc, "satisfiable")?;
    for number in 0..atoms {
        let var = Var(number + 1);
        let mut lit = Lit {
            var,
            positive: true,
        };
        if var.0 < values.len() as u64 && !values.holds(lit) {
            lit = lit.negated();
        }
        add_lit(alloc, &mut text, lit)?;
    }
    Ok(text)
}

/// So many models, which are all or not.
pub fn several_text(alloc: Global, found: usize, complete: bool) -> Result<String, Memory> {
    if complete {
        format!(in alloc; "models {found} complete")
    } else {
        format!(in alloc; "models {found} more")
    }
}

/// A least value.
pub fn least_text(alloc: Global, value: ExtInt) -> Result<String, Memory> {
    match value {
        ExtInt::Num(number) => format!(in alloc; "least {number}"),
        ExtInt::NegInf => String::from_str(alloc, "least -inf"),
        ExtInt::PosInf => String::from_str(alloc, "least +inf"),
    }
}
