//! The reasons why a command, or a frame, isn't read or written.
use std::alloc::AllocError;

/// The reasons why a command, or a frame, isn't read or written.
#[derive(Clone, Copy, Debug, Drop, PartialEq, Eq)]
pub enum RecordFault {
    /// There are fewer bytes than a length takes, or than the length says.
    Short,
    /// The length is over `BODY_LIMIT`.
    Long,
    /// The body isn't the compact text of a document at most 127 high.
    Text,
    /// The document isn't the object of a command, with exactly its members.
    Shape,
    /// Memory was refused.
    Memory,
}

impl From<AllocError> for RecordFault {
    ghost use Rattle.std.specs.Prelude.{◌≡◌};
    ghost use Rattle.record_text.specs.declared.fault.RecordFault.TheVariants.{Memory};

    ghost from_gives = { λ _ e. e ≡ Memory };

    fn from(_refused: AllocError) -> RecordFault {
        RecordFault::Memory
    }
}
