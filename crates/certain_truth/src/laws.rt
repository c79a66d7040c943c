//! What the definitions say, in the subject's own words. The functions are empty: their contracts are laws.
ghost use Rattle.certain_truth.specs.Examples.{WorkedExamples};
ghost use Rattle.certain_truth.specs.KnownArithmetic.{NoArithmeticFits};
ghost use Rattle.certain_truth.specs.Laws.{EveryIsConjunction, SomeIsDisjunction, CertaintyIsSound};
ghost use Rattle.certain_truth.specs.Laws.{CertaintyIsMonotone, CertaintyIsTruth, ExtendsIsKnowsMore, SmallBoundsFit};
ghost use Rattle.certain_truth.specs.Laws.{SmallTermsFit, StructuresKnowAll, TypedIsWellApplied};

/// A universal formula is certainly true where each instance is, and certainly false where some instance is.
pub fn every_is_conjunction()
    ensures { EveryIsConjunction }
{}

/// An existential formula is certainly true where some instance is, and certainly false where each instance is.
pub fn some_is_disjunction()
    ensures { SomeIsDisjunction }
{}

/// What is certain of a formula is so in every structure that extends the data, and a known value is the
/// value there.
pub fn certainty_is_sound()
    ensures { CertaintyIsSound }
{}

/// What is certain of a formula stays so where more is known, and so does a known value.
pub fn certainty_is_monotone()
    ensures { CertaintyIsMonotone }
{}

/// Where no atom is unknown, what is certain of a formula is its truth, and the value of each term is known.
pub fn certainty_is_truth()
    ensures { CertaintyIsTruth }
{}

/// A formula whose terms have static bounds from -10^15 to 10^15 meets the condition of `kleene`.
pub fn small_bounds_fit()
    ensures { SmallBoundsFit }
{}

/// A formula without sums, products and aggregates meets the condition of `kleene`, whatever is known.
pub fn no_arithmetic_fits()
    ensures { NoArithmeticFits }
{}

/// Certain truth and known values over a few known atoms, as worked out by hand.
pub fn worked_examples()
    ensures { WorkedExamples }
{}

/// A term with static bounds from -10^15 to 10^15 meets the condition of `known_term`.
pub fn small_terms_fit()
    ensures { SmallTermsFit }
{}

/// A structure can be seen as what makes every atom known, and it extends what is known exactly where it then
/// knows more.
pub fn structures_know_all()
    ensures all { StructuresKnowAll }
    ensures more { ExtendsIsKnowsMore }
{}

/// Over domains as the vocabulary asks for them, what is well typed applies each function within its types, and a
/// term of a type has an element of the type as its value.
pub fn typed_is_well_applied()
    ensures { TypedIsWellApplied }
{}
