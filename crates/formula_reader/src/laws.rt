//! Laws of the grammar.
ghost use Rattle.std.specs.Prelude.{◌≡◌, [], ℕ, List, Result};
ghost use Rattle.kb_text.specs.declared.fault.KbFault.{KbFault};
ghost use Rattle.grammar.specs.Trees.{Formula, Term};
ghost use Rattle.grammar.specs.Fine.{FineFormula, FineTerm};
ghost use Rattle.grammar.specs.Spelling.{put_formula, put_term};
ghost use Rattle.grammar.specs.Whole.{Reads};

/// No text is written by two formulas.
pub fn one_formula()
    ensures { (f g : Formula) → FineFormula f → FineFormula g → put_formula f [] ≡ put_formula g [] → f ≡ g }
{}

/// No text is written by two terms.
pub fn one_term()
    ensures { (x y : Term) → FineTerm x → FineTerm y → put_term x [] ≡ put_term y [] → x ≡ y }
{}

/// No text is two formulas, nor has it two first refusals, nor both.
pub fn one_formula_reading()
    ensures { (src : List ℕ) (r s : Result Formula KbFault) → Reads put_formula FineFormula src r
        → Reads put_formula FineFormula src s → r ≡ s }
{}

/// No text is two terms, nor has it two first refusals, nor both.
pub fn one_term_reading()
    ensures { (src : List ℕ) (r s : Result Term KbFault) → Reads put_term FineTerm src r
        → Reads put_term FineTerm src s → r ≡ s }
{}
