//! The reasons why reading stops inside a text.
ghost use Rattle.std.specs.Prelude.{◌≡◌};
ghost use Rattle.path_parse.specs.declared.stop.Stop.TheVariants.{Memory};

use std::alloc::{AllocError, AllocFailed};

/// The reasons why reading stops inside a text.
#[derive(Clone, Copy, Debug, Drop)]
pub enum Stop {
    /// The allocator refused memory.
    Memory,
    /// The text spells no query.
    Syntax,
}

impl From<AllocError> for Stop {
    ghost from_gives = { λ _ e. e ≡ Memory };

    fn from(_refused: AllocError) -> Stop {
        Stop::Memory
    }
}

impl<T: Drop> From<AllocFailed<T>> for Stop {
    ghost from_gives = { λ _ e. e ≡ Memory };

    fn from(_refused: AllocFailed<T>) -> Stop {
        Stop::Memory
    }
}
