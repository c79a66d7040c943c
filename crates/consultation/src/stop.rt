//! How answers end early.
use thiserror::Error;

/// Why the answers ended before the end of the commands.
#[derive(Clone, Copy, Debug, Error)]
pub enum Stop {
    /// The commands could not be read.
    #[error("reading failed")]
    ReadFault,
    /// An answer could not be printed.
    #[error("printing failed")]
    WriteFault,
    /// The statement of a line could not be written to the log.
    #[error("writing to the log failed")]
    LogFault,
    #[error("no memory")]
    Memory,
    /// More bytes of commands were offered than are read.
    #[error("more bytes than allowed")]
    ScriptTooLong,
}
