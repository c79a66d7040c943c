//! Laws of the names in a file.
ghost use Rattle.reading_laws.specs.Words.{DataAreWords, NamesAreWords};

/// The names that an accepted file declares are words that are read and not reserved.
pub fn names_are_words()
    ensures { NamesAreWords }
{}

/// So are the names of its structures, and of the elements of the domains that an accepted structure gives.
pub fn data_are_words()
    ensures { DataAreWords }
{}
