//! Laws of the definitions in `specs/`: each is the contract of a function that does nothing.
ghost use Rattle.ground_core.specs.Laws.{ClausesSayTheGate, OnlyVariablesMatter, MoreInTwoSteps, MoreThanItself};
ghost use Rattle.ground_core.specs.Laws.{ClauseIsAdded, ClausesSayTheProblem, ClausesAreOfTheProblem};
ghost use Rattle.ground_core.specs.Laws.{EachAtomStandsOnce, BoundsSelect, BoundsSayNoMore, BoundsAreKept};
ghost use Rattle.ground_core.specs.Laws.{ExclusionsSelect, ExclusionsAreKept, RetirementsAreKept, CallsAddUp};
ghost use Rattle.ground_core.specs.Laws.{CountsAreCosts, RefusalsAreKept, RetiredBoundsAreAdditions};
ghost use Rattle.ground_core.specs.Laws.{AdditionsChangeNoAnswer, FreshClausesAreNoTautologies, RetirementsRestrict};

/// A gate's clauses hold exactly where the gate does.
pub fn clauses_say_the_gate()
    ensures { ClausesSayTheGate }
{}

/// Valuations that agree on the problem's variables satisfy it together.
pub fn only_variables_matter()
    ensures { OnlyVariablesMatter }
{}

/// A problem that defines more than one that defines more than a third defines more than the third.
pub fn more_in_two_steps()
    ensures { MoreInTwoSteps }
{}

/// A problem defines more than itself.
pub fn more_than_itself()
    ensures { MoreThanItself }
{}

/// A problem with one clause more is satisfied where the problem and the clause are.
pub fn clause_is_added()
    ensures { ClauseIsAdded }
{}

/// A problem without sums and bounds is satisfied exactly where its clauses, with those of its gates, are
/// and its retired selectors are false.
pub fn clauses_say_the_problem()
    ensures { ClausesSayTheProblem }
{}

/// The clauses of a problem, with those of its gates, are over its variables.
pub fn clauses_are_of_the_problem()
    ensures { ClausesAreOfTheProblem }
{}

/// Each ground atom stands in their list, and nothing else does, each once where no domain has an
/// element twice.
pub fn each_atom_stands_once()
    ensures { EachAtomStandsOnce }
{}

/// Under a bound exactly the valuations remain in which its term is below its number.
pub fn bounds_select()
    ensures { BoundsSelect }
{}

/// A bound, and a bound whose selector is retired, leave what was said as it was.
pub fn bounds_say_no_more()
    ensures { BoundsSayNoMore }
{}

/// What holds of every solver holds of one with one more bound.
pub fn bounds_are_kept()
    ensures { BoundsAreKept }
{}

/// Under an exclusion exactly the valuations remain that differ from its values; it says nothing else, also when its
/// selector is retired.
pub fn exclusions_select()
    ensures { ExclusionsSelect }
{}

/// What holds of every solver holds of one with one more exclusion.
pub fn exclusions_are_kept()
    ensures { ExclusionsAreKept }
{}

/// What holds of every solver holds of one with one more retired selector.
pub fn retirements_are_kept()
    ensures { RetirementsAreKept }
{}

/// A retired selector leaves the valuations that satisfied the problem, with the selector made false.
pub fn retirements_restrict()
    ensures { RetirementsRestrict }
{}

/// Additions refute no literals that were not refuted, and leave all that were.
pub fn additions_change_no_answer()
    ensures { AdditionsChangeNoAnswer }
{}

/// A clause that is fresh against others has no literal together with its negation.
pub fn fresh_clauses_are_no_tautologies()
    ensures { FreshClausesAreNoTautologies }
{}

/// What two calls over a solver keep, and what they spend, put together.
pub fn calls_add_up()
    ensures { CallsAddUp }
{}

/// What so many searches can spend, where an addition may stand meanwhile.
pub fn counts_are_costs()
    ensures { CountsAreCosts }
{}

/// Literals that an answer refutes contain a kept core.
pub fn refusals_are_kept()
    ensures { RefusalsAreKept }
{}

/// A bound that is retired at once leaves a problem that grew by additions such a problem.
pub fn retired_bounds_are_additions()
    ensures { RetiredBoundsAreAdditions }
{}
