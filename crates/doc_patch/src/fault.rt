//! The refusal of a patch.

ghost use Rattle.std.specs.Prelude.{◌≡◌, ◌≢◌, ◌⊎◌};
ghost use Rattle.doc_patch.specs.Fault.{no_memory};
ghost use Rattle.doc_patch.specs.Patch.{fault_at};
ghost use Rattle.refusals.specs.declared.numbers.TheConstants.{MEMORY};

use doc_edits::OperationFault;
use refusals::numbers::MEMORY;
use std::alloc::{AllocError, AllocFailed};

/// A refusal of `Patch::read` or `Patch::apply`, by its number in `numbers`.
#[derive(Clone, Copy, Debug, Drop, PartialEq, Eq)]
pub struct PatchFault {
    /// One of `numbers`.
    pub number: u16,
    /// The operation that is refused, counted from 0. `None` if the patch as a whole is, and for
    /// `refusals::numbers::MEMORY`.
    pub op: Option<u64>,
}

impl PatchFault {
    /// The refusal of the patch of which this operation is refused.
    pub(crate) fn of(refused: OperationFault, operation: u64) -> PatchFault
        ensures { ((refused.number ≢ MEMORY) × (result ≡ fault_at refused.number operation))
            ⊎ ((refused.number ≡ MEMORY) × (result ≡ no_memory)) }
    {
        PatchFault {
            number: refused.number,
            op: if refused.number == MEMORY {
                None
            } else {
                Some(operation)
            },
        }
    }
}

impl From<AllocError> for PatchFault {
    ghost use Rattle.std.specs.Prelude.{◌≡◌};
    ghost use Rattle.doc_patch.specs.Fault.{no_memory};

    ghost from_gives = { λ _ e. e ≡ no_memory };

    fn from(_refused: AllocError) -> PatchFault {
        PatchFault {
            number: MEMORY,
            op: None,
        }
    }
}

impl<T: Drop> From<AllocFailed<T>> for PatchFault {
    ghost use Rattle.std.specs.Prelude.{◌≡◌};
    ghost use Rattle.doc_patch.specs.Fault.{no_memory};

    ghost from_gives = { λ _ e. e ≡ no_memory };

    fn from(_refused: AllocFailed<T>) -> PatchFault {
        PatchFault {
            number: MEMORY,
            op: None,
        }
    }
}
