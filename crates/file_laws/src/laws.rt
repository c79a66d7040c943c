//! Laws of what a file means, as it is printed.
ghost use Rattle.file_laws.specs.FileLaws.{
  FilesAreSpoken,
  FilesHaveWordNames,
  SentencesAreReadBack,
  StructuresAreReadBack,
};

/// The names of what a file means are words, so that no two replies over it have one text.
pub fn files_have_word_names()
    ensures { FilesHaveWordNames }
{}

/// The block that is printed of a file's structure is read back as what the structure makes known, and no other file
/// has its text.
pub fn structures_are_read_back()
    ensures { StructuresAreReadBack }
{}

/// Each sentence of a file can be written with the words of the file's vocabulary, which mean it again, and so can the
/// term of each term block.
pub fn files_are_spoken()
    ensures { FilesAreSpoken }
{}

/// The text that is printed of each sentence of a file is read back as the sentence; depth alone refuses it.
pub fn sentences_are_read_back()
    ensures { SentencesAreReadBack }
{}
