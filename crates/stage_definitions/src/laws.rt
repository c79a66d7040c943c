//! What the definitions of the stage of names say.
ghost use Rattle.std.specs.Prelude.{◌≡◌, List, None, Some, fold};
ghost use Rattle.stage_definitions.specs.Earliest.{IsEarliest};
ghost use Rattle.stage_definitions.specs.Names.{Names};
ghost use Rattle.stage_definitions.specs.NamesStage.{Refuses, name_noted};
ghost use Rattle.stage_definitions.specs.Uses.{Use};
ghost use Rattle.stage_definitions.specs.AggregateExamples.{AggregatesAreWorkedOut};
ghost use Rattle.stage_definitions.specs.Examples.{NamesAreWorkedOut};
ghost use Rattle.kb_text.specs.declared.fault.KbFault.{KbFault};

/// Words in each place and of each kind, cycles, counts, scopes and the grouping of chains.
pub fn worked_examples()
    ensures { NamesAreWorkedOut }
{}

/// Aggregates as sides, as operands of sums, with factors and signs, and where they may not stand.
pub fn aggregates_worked_out()
    ensures { AggregatesAreWorkedOut }
{}

/// What is noted use by use is the earliest refusal of all rows, and nothing where no row refuses.
pub fn noted_is_earliest()
    ensures found { (names : Names) → (us : List Use) → (r : KbFault) → fold (name_noted names) None us ≡ Some r
        → IsEarliest (Refuses names us) r }
    ensures nothing { (names : Names) → (us : List Use) → fold (name_noted names) None us ≡ None → (q : KbFault)
        → Refuses names us q → ⊥ }
{}
