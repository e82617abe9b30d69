//! The reasons why evaluating stops.
ghost use Rattle.std.specs.Prelude.{◌≡◌};
ghost use Rattle.path_select.specs.declared.stop.Stop.TheVariants.{Memory};

use std::alloc::{AllocError, AllocFailed};

/// Why evaluating stops before its answer.
#[derive(Clone, Copy, Debug, Drop)]
pub enum Stop {
    /// The allocator refused memory.
    Memory,
    /// A list has more nodes than `limits::NODES`.
    TooMany,
}

impl From<AllocError> for Stop {
    ghost from_gives = { λ _ e. e ≡ Memory };

    fn from(_refused: AllocError) -> Stop {
        Stop::Memory
    }
}

impl<T: Drop> From<AllocFailed<T>> for Stop {
    ghost from_gives = { λ _ e. e ≡ Memory };

    fn from(_refused: AllocFailed<T>) -> Stop {
        Stop::Memory
    }
}
