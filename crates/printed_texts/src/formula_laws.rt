//! Printed formulas are read back.
ghost use Rattle.printed_texts.specs.ReadFormulas.{DepthAloneIsRefused, FormulasAreReadBack};

/// The text of a formula is that of one tree of the grammar, which is the formula again; depth alone refuses it.
pub fn formulas_are_read_back()
    ensures reads { FormulasAreReadBack }
    ensures deep { DepthAloneIsRefused }
{}
