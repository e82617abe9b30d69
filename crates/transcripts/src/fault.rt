//! The reasons why a transcript could not be played to its end.

use doc_store::Refusal;
use std::alloc::{AllocError, AllocFailed};
use std::io;
use store_journal::FormatFault;

/// The reasons why a transcript could not be played to its end.
#[derive(Debug, Drop)]
pub enum Fault {
    /// The allocator refused memory.
    Memory,
    /// The arguments, a file or the output failed.
    System(io::Error),
    /// A new disk could not be formatted.
    Format(u16),
    /// A line of a transcript is none.
    Script,
}

impl From<AllocError> for Fault {
    fn from(_refused: AllocError) -> Fault {
        Fault::Memory
    }
}

impl<T: Drop> From<AllocFailed<T>> for Fault {
    fn from(_refused: AllocFailed<T>) -> Fault {
        Fault::Memory
    }
}

impl From<io::Error> for Fault {
    fn from(error: io::Error) -> Fault {
        Fault::System(error)
    }
}

impl From<FormatFault> for Fault {
    fn from(fault: FormatFault) -> Fault {
        Fault::Format(fault.number)
    }
}

/// A list of names is refused only if memory ran out.
impl From<Refusal> for Fault {
    fn from(_refused: Refusal) -> Fault {
        Fault::Memory
    }
}
