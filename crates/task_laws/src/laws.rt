//! Laws of the definitions of ground_task: each is the contract of a function that does nothing.
ghost use Rattle.task_laws.specs.Laws.{TaskOutlastsAdditions};

/// A task stays a task after additions to its solver: bounds and exclusions, and the retirement of their selectors.
pub fn task_outlasts_additions()
    ensures { TaskOutlastsAdditions }
{}
