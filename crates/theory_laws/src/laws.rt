//! Laws of definitions and of the problem of a theory.
ghost use Rattle.theory_laws.specs.DefinitionLaws.{CompletedIsModel, CompletionIsRight, DefinitionIsAsserted};
ghost use Rattle.theory_laws.specs.DefinitionLaws.{FewForDefinitions};
ghost use Rattle.theory_laws.specs.TheoryLaws.{ProblemIsRight, ProblemIsSmall, ProblemHasNoBounds, TermsAreInRange};

/// A definition is completed exactly in its models.
pub fn completed_is_model()
    ensures { CompletedIsModel }
{}

/// Completion says exactly that atoms are true where they are derived.
pub fn completion_is_right()
    ensures { CompletionIsRight }
{}

/// What completion leaves are the models of the definition.
pub fn definition_is_asserted()
    ensures { DefinitionIsAsserted }
{}

/// A definition adds no more than four variables for each occurrence in it.
pub fn few_for_definitions()
    ensures { FewForDefinitions }
{}

/// Each model of a theory that extends its data is one valuation of its problem, and each valuation
/// of the problem is one such model.
pub fn problem_is_right()
    ensures { ProblemIsRight }
{}

/// The problem of a theory has no more variables than the knowledge base weighs.
pub fn problem_is_small()
    ensures { ProblemIsSmall }
{}

/// The problem of a theory says nothing of bounds.
pub fn problem_has_no_bounds()
    ensures { ProblemHasNoBounds }
{}

/// Where the static bounds of the terms that may be asked for are small, the problem's terms have values in range.
pub fn terms_are_in_range()
    ensures { TermsAreInRange }
{}
