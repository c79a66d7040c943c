//! How a run ends.
use kb_text::K;

#[derive(Clone, Copy)]
pub enum Status {
    /// All was read and answered.
    Done,
    /// The knowledge base is refused, at this line.
    KbRefused(K, u64),
    /// The words are no command line.
    Usage,
    ReadFault,
    WriteFault,
    Memory,
    /// More bytes of commands, or of a log, were offered than are read.
    ScriptTooLong,
    /// This entry of a log, counted from 1, is the first that is no step.
    LogRefused(u64),
}

impl Status {
    ghost use Rattle.std.specs.Prelude.{◌≡◌};
    ghost use Rattle.idp_cli.specs.Codes.{code_of};

    /// The exit status.
    pub fn code(self) -> u8
        ensures { result ≡ code_of self }
    {
        match self {
            Status::Done => 0,
            Status::KbRefused(_, _) => 1,
            Status::Usage => 2,
            Status::ReadFault => 3,
            Status::WriteFault => 4,
            Status::Memory => 5,
            Status::ScriptTooLong => 6,
            Status::LogRefused(_) => 7,
        }
    }
}
