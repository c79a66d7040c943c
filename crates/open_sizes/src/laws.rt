//! Laws of what is open.
ghost use Rattle.open_sizes.specs.Laws.{OpenIsLess, SmallBasesFit};

/// What is open never weighs more than the whole.
pub fn open_is_less()
    ensures { OpenIsLess }
{}

/// A theory and terms with static bounds from -10^15 to 10^15 meet the condition of `open_weight`.
pub fn small_bases_fit()
    ensures { SmallBasesFit }
{}
