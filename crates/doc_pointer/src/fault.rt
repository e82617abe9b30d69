//! The refusal of a text that is no pointer.

use refusals::numbers::MEMORY;
use std::alloc::{AllocError, AllocFailed};

/// A refusal of `Pointer::read`, by its number in `numbers`.
#[derive(Clone, Copy, Debug, Drop, PartialEq, Eq)]
pub struct PointerFault {
    /// `refusals::numbers::POINTER` or `refusals::numbers::MEMORY`.
    pub number: u16,
}

impl From<AllocError> for PointerFault {
    ghost use Rattle.std.specs.Prelude.{◌≡◌};
    ghost use Rattle.refusals.specs.declared.numbers.TheConstants.{MEMORY};

    ghost from_gives = { λ _ e. e ≡ record { number = MEMORY } };

    fn from(_refused: AllocError) -> PointerFault {
        PointerFault { number: MEMORY }
    }
}

impl<T: Drop> From<AllocFailed<T>> for PointerFault {
    ghost use Rattle.std.specs.Prelude.{◌≡◌};
    ghost use Rattle.refusals.specs.declared.numbers.TheConstants.{MEMORY};

    ghost from_gives = { λ _ e. e ≡ record { number = MEMORY } };

    fn from(_refused: AllocFailed<T>) -> PointerFault {
        PointerFault { number: MEMORY }
    }
}
