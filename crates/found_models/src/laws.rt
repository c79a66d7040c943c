//! What found models are good for. Each law is the contract of a function that does nothing.
ghost use Rattle.found_models.specs.Laws.{FoundModelsAreModels, FoundModelsAreSeen, SatisfyingValuesAreFound};

/// A found model that makes the literals of choices true is a model under the choices.
pub fn found_models_are_models()
    ensures { FoundModelsAreModels }
{}

/// Its values are those of a valuation that satisfies the problem of each task and makes these literals true.
pub fn found_models_are_seen()
    ensures { FoundModelsAreSeen }
{}

/// Values that satisfy the problem of a task are a found model, also where they are cut to the atoms.
pub fn satisfying_values_are_found()
    ensures { SatisfyingValuesAreFound }
{}
