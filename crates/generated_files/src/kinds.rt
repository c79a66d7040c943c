//! The kinds of files that are made.
ghost use Rattle.std.specs.Prelude.{◌≡◌, MatchOption};
ghost use Rattle.generated_files.specs.Texts.{kind_name, most};

/// What a file is about.
#[derive(Clone, Copy)]
pub enum Kind {
    /// Courses that get slots and rooms.
    Timetable,
    /// Nurses that work on days.
    Roster,
}

impl Kind {
    /// The kind that is called so.
    pub fn from_name(name: &str) -> Option<Kind>
        ensures { MatchOption result ((k : Kind) → name.now ≡ kind_name k → ⊥) (λ k. name.now ≡ kind_name k) }
    {
        match name {
            "timetable" => Some(Kind::Timetable),
            "roster" => Some(Kind::Roster),
            _ => None,
        }
    }

    /// How it is called.
    pub fn name(self) -> &'static str
        ensures { result.now ≡ kind_name self }
    {
        match self {
            Kind::Timetable => "timetable",
            Kind::Roster => "roster",
        }
    }

    /// The greatest number of which a file of it is made.
    pub fn most(self) -> u32
        ensures { result ≡ most self }
    {
        match self {
            Kind::Timetable => 40,
            Kind::Roster => 100,
        }
    }
}
