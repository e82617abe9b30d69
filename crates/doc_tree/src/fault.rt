//! The reasons why bytes are no document.
use refusals::numbers::MEMORY;
use std::alloc::{AllocError, AllocFailed};

/// Why reading refuses: the number is one of the module `numbers`.
#[derive(Clone, Copy, Debug, Drop, PartialEq, Eq)]
pub struct TreeFault {
    pub number: u16,
}

impl From<AllocError> for TreeFault {
    ghost use Rattle.std.specs.Prelude.{◌≡◌};
    ghost use Rattle.refusals.specs.declared.numbers.TheConstants.{MEMORY};

    ghost from_gives = { λ _ e. e.number ≡ MEMORY };

    fn from(_refused: AllocError) -> TreeFault {
        TreeFault { number: MEMORY }
    }
}

impl<T: Drop> From<AllocFailed<T>> for TreeFault {
    ghost use Rattle.std.specs.Prelude.{◌≡◌};
    ghost use Rattle.refusals.specs.declared.numbers.TheConstants.{MEMORY};

    ghost from_gives = { λ _ e. e.number ≡ MEMORY };

    fn from(_refused: AllocFailed<T>) -> TreeFault {
        TreeFault { number: MEMORY }
    }
}
