//! What the definitions say, by example. The function does nothing else: its contract is the examples.
ghost use Rattle.std.specs.Prelude.{◌≡◌};
ghost use Rattle.generated_files.specs.Texts.{file_text};
ghost use Rattle.generated_files.specs.declared.kinds.Kind.TheVariants.{Roster, Timetable};
ghost use Rattle.generated_files.specs.Examples.{roster_of_three, timetable_of_six};

/// Whole files, written out by hand.
pub fn written_out()
    ensures timetable { file_text Timetable 6 ≡ timetable_of_six }
    ensures roster { file_text Roster 3 ≡ roster_of_three }
{}
