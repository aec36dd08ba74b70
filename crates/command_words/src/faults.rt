// Why words are not read.

use thiserror::Error;

/// Why words are not read.
#[derive(Clone, Copy, Debug, PartialEq, Eq, Error)]
pub enum WordsFault {
    /// The words are no command.
    #[error("the words are no command")]
    BadWords,
    /// Memory was refused. The words are a command.
    #[error("no memory")]
    NoMemory,
}
