//! What it means that no type comes back to itself by `isa`.
ghost use Rattle.std.specs.Prelude.{ℕ, IsTrue};
ghost use Rattle.stage_definitions.specs.Below.{ComesBack, HasNoCycle, IsForest, IsRank, Parents, type_parents};
ghost use Rattle.stage_definitions.specs.Files.{File};
ghost use Rattle.stage_definitions.specs.NamesStage.{begins_cycle};
ghost use Rattle.stage_definitions.specs.Numbering.{IsNamed, NamedFile};

/// What begins a cycle comes back to itself by `isa`, and where nothing begins one no type does.
pub fn cycles_come_back()
    ensures begun { (parents : Parents) → (t : ℕ) → IsTrue (begins_cycle parents t) → ComesBack parents t }
    ensures no_other { (parents : Parents) → HasNoCycle parents → (t : ℕ) → ComesBack parents t → ⊥ }
{}

/// Where no type begins a cycle, each type has a rank above its parent's.
pub fn isa_has_a_rank()
    ensures { (parents : Parents) → HasNoCycle parents → (rank : ℕ → ℕ) × IsRank parents rank }
{}

/// Where no type begins a cycle, "below" is an order that the walk up decides, and what is above a type is a chain.
pub fn isa_is_a_forest()
    ensures { (parents : Parents) → HasNoCycle parents → IsForest parents }
{}

/// Where the stage of names refuses nothing, no type of its vocabulary begins a cycle.
pub fn named_types_have_no_cycle()
    ensures { (f : File) → (answer : NamedFile) → IsNamed f answer → HasNoCycle (type_parents answer.vocabulary.types) }
{}
