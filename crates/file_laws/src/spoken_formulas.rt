//! What the stages of reading accept is spoken, so that the printed text of a sentence is read back.
ghost use Rattle.file_laws.specs.Spoken.{AcceptedAreReadAgain, AcceptedAreSpoken};

/// Each sentence of an accepted file, and the term of each of its term blocks, can be written with the words of the
/// file's vocabulary, which mean its numbers again.
pub fn accepted_are_spoken()
    ensures { AcceptedAreSpoken }
{}

/// The printed text of each sentence of an accepted file is read back as the sentence, by the words of the file's
/// vocabulary; depth alone refuses it.
pub fn accepted_are_read_again()
    ensures { AcceptedAreReadAgain }
{}
