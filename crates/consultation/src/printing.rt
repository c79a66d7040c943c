//! Texts that are written at once.
ghost use Rattle.std.specs.Prelude.{OnOk, OnErr};
ghost use Rattle.std.specs.Io.KnownBytes.{Appends};
ghost use Rattle.kb_io.specs.Outside.{HasCause};
ghost use Rattle.kb_io.specs.ReadWrite.{AppendsPrefix};

use kb_io::{Failed, Sink, write_all};

/// Writes a text and flushes.
pub fn say<W: Sink>(out: &mut W, text: &[u8]) -> Result<(), Failed>
    ensures ok { OnOk result (Appends (W.holds out.old) (W.holds out.new) text.now) }
    ensures err { OnErr result (AppendsPrefix (W.holds out.old) (W.holds out.new) text.now) }
    ensures cause { HasCause (W.faults out.old) (W.faults out.new) result }
{
    write_all(out, text)?;
    out.flush()
}
