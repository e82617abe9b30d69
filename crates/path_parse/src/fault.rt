//! The refusal of a text that is no query.

use refusals::numbers::MEMORY;
use std::alloc::{AllocError, AllocFailed};

/// A refusal of `Query::read`, by its number in `numbers`.
#[derive(Clone, Copy, Debug, Drop, PartialEq, Eq)]
pub struct QueryFault {
    /// `refusals::numbers::PATH`, `PATH_LEFT_OUT`, `PATH_LONG` or `MEMORY`.
    pub number: u16,
}

impl From<AllocError> for QueryFault {
    ghost use Rattle.std.specs.Prelude.{◌≡◌};
    ghost use Rattle.refusals.specs.declared.numbers.TheConstants.{MEMORY};

    ghost from_gives = { λ _ e. e ≡ record { number = MEMORY } };

    fn from(_refused: AllocError) -> QueryFault {
        QueryFault { number: MEMORY }
    }
}

impl<T: Drop> From<AllocFailed<T>> for QueryFault {
    ghost use Rattle.std.specs.Prelude.{◌≡◌};
    ghost use Rattle.refusals.specs.declared.numbers.TheConstants.{MEMORY};

    ghost from_gives = { λ _ e. e ≡ record { number = MEMORY } };

    fn from(_refused: AllocFailed<T>) -> QueryFault {
        QueryFault { number: MEMORY }
    }
}
