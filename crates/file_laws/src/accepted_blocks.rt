//! What the stages of reading accept can be printed, and the printed block is read back.
ghost use Rattle.file_laws.specs.Accepted.{AcceptedAreListed, AcceptedAreReadBack, AcceptedAreWritable};

/// What an accepted structure gives is consistent, and is listed as a partial structure lists what it knows.
pub fn accepted_are_listed()
    ensures { AcceptedAreListed }
{}

/// The names and the domains of an accepted structure can be written.
pub fn accepted_are_writable()
    ensures { AcceptedAreWritable }
{}

/// The printed block of an accepted structure is read back as what the structure gives, and no other file has its text.
pub fn accepted_are_read_back()
    ensures { AcceptedAreReadBack }
{}
