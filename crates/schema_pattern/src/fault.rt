//! Refusals of texts as patterns.
use std::alloc::{AllocError, AllocFailed};

/// Why a text is refused as a pattern.
#[derive(Clone, Copy, Debug, Drop, PartialEq, Eq)]
pub enum PatternFault {
    /// It is no pattern, or it nests deeper than 250.
    Form,
    /// It is a pattern, and its tables would take more room than they may.
    Large,
    /// There was no memory for it: a growth was refused.
    Memory,
}

impl From<AllocError> for PatternFault {
    ghost use Rattle.std.specs.Prelude.{◌≡◌};
    ghost use Rattle.schema_pattern.specs.declared.fault.PatternFault.TheVariants.{Memory};

    ghost from_gives = { λ _ e. e ≡ Memory };

    fn from(_refused: AllocError) -> PatternFault {
        PatternFault::Memory
    }
}

impl<T: Drop> From<AllocFailed<T>> for PatternFault {
    ghost use Rattle.std.specs.Prelude.{◌≡◌};
    ghost use Rattle.schema_pattern.specs.declared.fault.PatternFault.TheVariants.{Memory};

    ghost from_gives = { λ _ e. e ≡ Memory };

    fn from(_refused: AllocFailed<T>) -> PatternFault {
        PatternFault::Memory
    }
}
