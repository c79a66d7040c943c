//! What a partial structure may answer but Ok.
use thiserror::Error;

/// Why an atom was not made true or false.
#[derive(Clone, Copy, Debug, Error)]
pub enum SetError {
    /// The opposite is certain.
    #[error("the data says the opposite")]
    DataClash,
    #[error("out of memory")]
    Memory,
}
