//! Laws of the definitions.
ghost use Rattle.aggregate_propagators.specs.Laws.{BoundContradictionIsSound, ContradictionIsSound, ReachesByTotals};
ghost use Rattle.aggregate_propagators.specs.Laws.{EndsAreAttained, ReasonsSuffice, DecidedIsUnit, QuietIsEnough};
ghost use Rattle.aggregate_propagators.specs.Spared.{FewReasonsSuffice};

/// Where the interval contradicts the result as soon as a clause is false, the clause holds.
pub fn contradiction_is_sound()
    ensures { ContradictionIsSound }
{}

/// The same where the result is false, of a constraint that says no more than a bound on a term does.
pub fn bound_contradiction_is_sound()
    ensures { BoundContradictionIsSound }
{}

/// Whether any choice of parts reaches a bound is a question on one sum.
pub fn reaches_by_totals()
    ensures { ReachesByTotals }
{}

/// Where no variable stands in two parts, both ends of the interval are values.
pub fn ends_are_attained()
    ensures { EndsAreAttained }
{}

/// The clause of a contradiction is false, and enough for it.
pub fn reasons_suffice()
    ensures { ReasonsSuffice }
{}

/// A decided literal is the only unassigned one of its clause.
pub fn decided_is_unit()
    ensures { DecidedIsUnit }
{}

/// Where every literal has a value, what is not contradicted holds.
pub fn quiet_is_enough()
    ensures { QuietIsEnough }
{}

/// The clause that leaves out what the margin has room for is false too, and enough.
pub fn few_reasons_suffice()
    ensures { FewReasonsSuffice }
{}
