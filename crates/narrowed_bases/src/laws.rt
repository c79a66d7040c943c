//! Laws of what is grounded over narrowed data. The functions are empty: their contracts are laws.
ghost use Rattle.narrowed_bases.specs.Laws.{LightOrHeavy, NarrowedIsInRange, NarrowedIsRight, NarrowedIsSmall};
ghost use Rattle.narrowed_bases.specs.Laws.{OneProblem};

/// The problem over narrowed data stands for the models of the knowledge base itself.
pub fn narrowed_is_right()
    ensures { NarrowedIsRight }
{}

/// It has no more variables than the knowledge base weighs.
pub fn narrowed_is_small()
    ensures { NarrowedIsSmall }
{}

/// Its terms have values in range, where the static bounds of those that may be asked for are small.
pub fn narrowed_is_in_range()
    ensures { NarrowedIsInRange }
{}

/// A knowledge base has one ground problem.
pub fn one_problem()
    ensures { OneProblem }
{}

/// What is open is never both within its limit and above it.
pub fn light_or_heavy()
    ensures { LightOrHeavy }
{}
