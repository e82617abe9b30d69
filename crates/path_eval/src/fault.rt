//! The refusal of a query.
ghost use Rattle.std.specs.Prelude.{◌≡◌};
ghost use Rattle.path_eval.specs.Answer.{number_of};

use path_select::stop::Stop;
use refusals::numbers::{MEMORY, PATH_NODES};
use std::alloc::{AllocError, AllocFailed};

/// A refusal of `nodes`, by its number in `numbers`.
#[derive(Clone, Copy, Debug, Drop, PartialEq, Eq)]
pub struct EvalFault {
    /// `refusals::numbers::PATH_NODES` or `MEMORY`.
    pub number: u16,
}

impl From<Stop> for EvalFault {
    ghost from_gives = { λ stop e. e ≡ record { number = number_of stop } };

    fn from(stop: Stop) -> EvalFault {
        match stop {
            Stop::TooMany => EvalFault { number: PATH_NODES },
            Stop::Memory => EvalFault { number: MEMORY },
        }
    }
}

impl From<AllocError> for EvalFault {
    ghost use Rattle.refusals.specs.declared.numbers.TheConstants.{MEMORY};

    ghost from_gives = { λ _ e. e ≡ record { number = MEMORY } };

    fn from(_refused: AllocError) -> EvalFault {
        EvalFault { number: MEMORY }
    }
}

impl<T: Drop> From<AllocFailed<T>> for EvalFault {
    ghost use Rattle.refusals.specs.declared.numbers.TheConstants.{MEMORY};

    ghost from_gives = { λ _ e. e ≡ record { number = MEMORY } };

    fn from(_refused: AllocFailed<T>) -> EvalFault {
        EvalFault { number: MEMORY }
    }
}
