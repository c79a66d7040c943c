//! Laws on lines.
ghost use Rattle.std.specs.Prelude.{List, ℕ};
ghost use Rattle.kb_io.specs.Lines.{command_lines, AreCutAtNewlines};

/// The lines of some bytes are those bytes, cut at the newlines.
pub fn lines_are_cut_at_newlines()
    ensures { (bytes : List ℕ) → AreCutAtNewlines bytes (command_lines bytes) }
{}
