//! Laws of the definitions.
ghost use Rattle.def_ground.specs.Laws.{CasesAreRight, FormIsRight, AssertionIsRight, SentencesAreAsserted};
ghost use Rattle.def_ground.specs.Examples.{ProblemsAsWorkedOut};
ghost use Rattle.def_ground.specs.Laws.{OneEachByClauses, FewVariables};

/// What cases come to is what they say.
pub fn cases_are_right()
    ensures { CasesAreRight }
{}

/// The answer is the formula's truth in each valuation, and there is one valuation for each before.
pub fn form_is_right()
    ensures { FormIsRight }
{}

/// Exactly the valuations remain in which a literal is true or the formula is.
pub fn assertion_is_right()
    ensures { AssertionIsRight }
{}

/// Exactly the valuations remain in which all sentences are true.
pub fn sentences_are_asserted()
    ensures { SentencesAreAsserted }
{}

/// The clauses of a function at a tuple say that it has one value there.
pub fn one_each_by_clauses()
    ensures { OneEachByClauses }
{}

/// A well typed formula adds no more than four variables for each occurrence.
pub fn few_variables()
    ensures { FewVariables }
{}

/// Small problems, as they are worked out by hand.
pub fn problems_as_worked_out()
    ensures { ProblemsAsWorkedOut }
{}
