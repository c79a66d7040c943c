//! What the definitions say, in the subject's own words. The functions are empty: their contracts are laws.
ghost use Rattle.partial_structures.specs.Laws.{KnownAtomsHold};

/// What is known of an atom is so in every structure that extends the data.
pub fn known_atoms_hold()
    ensures { KnownAtomsHold }
{}
