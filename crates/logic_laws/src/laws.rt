//! What the definitions say, in the subject's own words. The functions are empty: their contracts are laws.
ghost use Rattle.kb_logic.specs.Arithmetic.{NoArithmeticFits};
ghost use Rattle.kb_logic.specs.Bounds.{ValuesLieWithinBounds, SmallBoundsFit, SmallTermsFit};
ghost use Rattle.logic_laws.specs.Derivations.{DerivedIsDecided, DefinitionExamples};
ghost use Rattle.logic_laws.specs.DomainExamples.{DomainExamples};
ghost use Rattle.logic_laws.specs.Examples.{WorkedExamples};
ghost use Rattle.logic_laws.specs.QueryLaws.{LessAllowsMore, MoreForcesMore, ShownAreExactlyThose, CompleteHasEach};
ghost use Rattle.logic_laws.specs.QueryLaws.{LeastIsOne};
ghost use Rattle.logic_laws.specs.TypingExamples.{TypingExamples};
ghost use Rattle.kb_logic.specs.Laws.{EveryIsForAll, SomeIsThereIs, NumberComparesCount, AssignmentsAreChoices};
ghost use Rattle.kb_logic.specs.Laws.{AssignmentsAreDistinct, AggregateIsOverAssignments, CountIsLength, SumAddsEach};
ghost use Rattle.kb_logic.specs.Laws.{LeastIsAttained, GreatestIsAttained, AtomIsMembership, AtomIsInItsTypes};

/// A formula without sums, products and aggregates meets the condition of `truth` in every structure.
pub fn no_arithmetic_fits()
    ensures { NoArithmeticFits }
{}

/// A universal formula is true exactly where its body is true for each choice of elements.
pub fn every_is_for_all()
    ensures { EveryIsForAll }
{}

/// An existential formula is true exactly where its body is true for some choice of elements.
pub fn some_is_there_is()
    ensures { SomeIsThereIs }
{}

/// A number quantifier compares the number of the assignments that make its body true.
pub fn number_compares_count()
    ensures { NumberComparesCount }
{}

/// The assignments of some variables are exactly the choices of an element for each.
pub fn assignments_are_choices()
    ensures { AssignmentsAreChoices }
{}

/// No assignment stands twice where no domain has an element twice.
pub fn assignments_are_distinct()
    ensures { AssignmentsAreDistinct }
{}

/// An aggregate is over the values of its weight under the assignments that make its condition true, one for each.
pub fn aggregate_is_over_assignments()
    ensures { AggregateIsOverAssignments }
{}

/// A count is the number of the assignments that make its condition true.
pub fn count_is_length()
    ensures { CountIsLength }
{}

/// A sum adds the value of each assignment, so that two equal ones count twice.
pub fn sum_adds_each()
    ensures { SumAddsEach }
{}

/// A minimum is attained and nothing is lower; over nothing it is plus infinity.
pub fn least_is_attained()
    ensures { LeastIsAttained }
{}

/// A maximum is attained and nothing is higher; over nothing it is minus infinity.
pub fn greatest_is_attained()
    ensures { GreatestIsAttained }
{}

/// An atom is true exactly where the tuple of its values is in the predicate's set.
pub fn atom_is_membership()
    ensures { AtomIsMembership }
{}

/// An atom with a value outside its type is false in every structure.
pub fn atom_is_in_its_types()
    ensures { AtomIsInItsTypes }
{}

/// A term's finite value lies within its static bounds in every structure over these domains.
pub fn values_lie_within_bounds()
    ensures { ValuesLieWithinBounds }
{}

/// A formula whose terms have static bounds from -10^15 to 10^15 meets the condition of `truth` in every
/// structure over these domains.
pub fn small_bounds_fit()
    ensures { SmallBoundsFit }
{}

/// Truth and value in a small structure, as worked out by hand.
pub fn worked_examples()
    ensures { WorkedExamples }
{}

/// Which domains are as a vocabulary asks, as worked out by hand.
pub fn domain_examples()
    ensures { DomainExamples }
{}

/// A term with static bounds from -10^15 to 10^15 has a value whose integers fit 64 bits.
pub fn small_terms_fit()
    ensures { SmallTermsFit }
{}

/// Whether an atom is derived can be tested, and which small structures are models of definitions.
pub fn definitions_derive()
    ensures decided { DerivedIsDecided }
    ensures examples { DefinitionExamples }
{}

/// Which formulas are well typed, as worked out by hand.
pub fn typing_examples()
    ensures { TypingExamples }
{}

/// With less in force there are the models that there were, and perhaps more; and what some of it forces, all of it
/// forces.
pub fn less_allows_more()
    ensures models { LessAllowsMore }
    ensures forced { MoreForcesMore }
{}

/// A literal is shown exactly where it is true in all models and not left out.
pub fn shown_are_exactly_those()
    ensures { ShownAreExactlyThose }
{}

/// A list of models that is complete has exactly the models.
pub fn complete_has_each()
    ensures { CompleteHasEach }
{}

/// A term has one least value.
pub fn least_is_one()
    ensures { LeastIsOne }
{}
