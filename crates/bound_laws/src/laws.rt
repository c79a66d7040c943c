//! Laws of what is closed. The functions are empty: their contracts are laws.
ghost use Rattle.bound_laws.specs.Laws.{CertainAddsNothing, FactsStayWithin, LastInstanceObeys, ModelsAreClosed};
ghost use Rattle.bound_laws.specs.Laws.{NarrowedKeepsModels, ObeysIsNotLost, OneNarrowed};

/// What is certainly of a value adds nothing where it must be of it.
pub fn certain_adds_nothing()
    ensures { CertainAddsNothing }
{}

/// What must be of a value, and obeys, is not certainly of the other.
pub fn obeys_is_not_lost()
    ensures { ObeysIsNotLost }
{}

/// An existential formula that must be true obeys exactly where some instance is not certainly false, and an instance
/// obeys where all others are certainly false.
pub fn last_instance_obeys()
    ensures { LastInstanceObeys }
{}

/// A fact that is known of a structure keeps within it what is known of less.
pub fn facts_stay_within()
    ensures { FactsStayWithin }
{}

/// There is at most one narrowed structure.
pub fn one_narrowed()
    ensures { OneNarrowed }
{}

/// A model is closed, as what makes every atom known.
pub fn models_are_closed()
    ensures { ModelsAreClosed }
{}

/// Every model extends what the data are narrowed to; and where narrowing meets a contradiction, there is no model.
pub fn narrowed_keeps_models()
    ensures { NarrowedKeepsModels }
{}
