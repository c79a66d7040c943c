//! Laws of the definitions in `specs/`: each is the contract of a function that does nothing.
ghost use Rattle.lit_core.specs.Laws.{RefutationIsSound, FreshnessIsClosure, QuietLeavesFresh, FreshAgainstFewer};

/// What follows from clauses in order holds wherever those clauses hold.
pub fn refutation_is_sound()
    ensures { RefutationIsSound }
{}

/// A clause is fresh exactly where unit propagation from its other literals made false
/// neither makes a clause false nor gives the literal a value.
pub fn freshness_is_closure()
    ensures { FreshnessIsClosure }
{}

/// Where unit propagation has nothing to do, a clause whose one literal that is not false
/// is unassigned is fresh.
pub fn quiet_leaves_fresh()
    ensures { QuietLeavesFresh }
{}

/// What is fresh against clauses is fresh against fewer of them.
pub fn fresh_against_fewer()
    ensures { FreshAgainstFewer }
{}
