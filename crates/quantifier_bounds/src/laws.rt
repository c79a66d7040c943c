//! Where the condition of `refine` is met.
ghost use Rattle.quantifier_bounds.specs.Laws.{SmallTheoriesFit};

/// A theory with plain heads whose terms have static bounds from -10^15 to 10^15 meets the condition of `refine`.
pub fn small_theories_fit()
    ensures { SmallTheoriesFit }
{}
