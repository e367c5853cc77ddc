use thiserror::Error;

/// Why no command was read.
#[derive(Debug, Drop, Error)]
pub enum WordsFault {
    /// The words stand for no command.
    #[error("the words are no command")]
    Usage,
    #[error("out of memory")]
    Memory,
}
