//! The reasons why a session ends.

use thiserror::Error;

/// Why a session ended before its input did.
#[derive(Clone, Copy, Debug, PartialEq, Eq, Error)]
pub enum ServeFault {
    /// The reader failed.
    #[error("reader")]
    Reader,
    /// The writer failed.
    #[error("writer")]
    Writer,
    /// There were as many calls of the reader as there may be, and no end of the input.
    #[error("turns")]
    Turns,
    /// Memory for the session's own buffers was refused, before the first read.
    #[error("memory")]
    Memory,
}
