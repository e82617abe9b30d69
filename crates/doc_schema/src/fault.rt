//! The refusal of a document that is no schema.

use refusals::numbers::MEMORY;
use std::alloc::{AllocError, AllocFailed};

/// A refusal of `Schema::read`, by its number in `numbers`.
#[derive(Clone, Copy, Debug, Drop, PartialEq, Eq)]
pub struct SchemaFault {
    /// `refusals::numbers::SCHEMA_FORM`, `SCHEMA_KEYWORD`, `SCHEMA_REF`, `SCHEMA_LOOP`, `SCHEMA_SIZE` or `MEMORY`.
    pub number: u16,
}

impl From<AllocError> for SchemaFault {
    ghost use Rattle.std.specs.Prelude.{◌≡◌};
    ghost use Rattle.refusals.specs.declared.numbers.TheConstants.{MEMORY};

    ghost from_gives = { λ _ e. e ≡ record { number = MEMORY } };

    fn from(_refused: AllocError) -> SchemaFault {
        SchemaFault { number: MEMORY }
    }
}

impl<T: Drop> From<AllocFailed<T>> for SchemaFault {
    ghost use Rattle.std.specs.Prelude.{◌≡◌};
    ghost use Rattle.refusals.specs.declared.numbers.TheConstants.{MEMORY};

    ghost from_gives = { λ _ e. e ≡ record { number = MEMORY } };

    fn from(_refused: AllocFailed<T>) -> SchemaFault {
        SchemaFault { number: MEMORY }
    }
}
