//! Laws of the definitions in `specs/`: each is the contract of a function that does nothing.
ghost use Rattle.conflict_analysis.specs.Laws.{UnitAfterStepBack};

/// What `analyse` answers is unit once the trail is back at its level.
pub fn learnt_is_unit_after_step_back()
    ensures { UnitAfterStepBack }
{}
