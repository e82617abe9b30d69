//! The refusal of an edit.

ghost use Rattle.std.specs.Prelude.{◌≡◌, None, Some};
ghost use Rattle.doc_edits.specs.declared.fault.TheConstants.{MISSING};

use doc_tree::Tree;
use name_map::Name;
use refusals::numbers::{MEMORY, PATCH_MISSING};
use std::alloc::{AllocError, AllocFailed};

/// A refusal of one operation.
#[derive(Clone, Copy, Debug, Drop, PartialEq, Eq)]
pub struct OperationFault {
    /// One of `refusals::numbers`.
    pub number: u16,
}

/// A change that wasn't made, with the value that it would have put at the place.
#[derive(Drop)]
pub struct Unmade {
    /// Why.
    pub fault: OperationFault,
    /// The value, unless the change was a removal.
    pub value: Option<Tree>,
}

/// A place that the operation needs isn't there.
pub const MISSING: OperationFault = OperationFault {
    number: PATCH_MISSING,
};

/// There was no memory.
pub const NO_MEMORY: OperationFault = OperationFault { number: MEMORY };

impl Unmade {
    /// With the value that would have been put at the place.
    pub(crate) fn of(fault: OperationFault, value: Tree) -> Unmade
        ensures fault { result.fault ≡ fault }
        ensures value { result.value ≡ Some value }
    {
        Unmade {
            fault,
            value: Some(value),
        }
    }

    /// A removal of what isn't there.
    pub(crate) fn nothing() -> Unmade
        ensures fault { result.fault ≡ MISSING }
        ensures value { result.value ≡ None }
    {
        Unmade {
            fault: MISSING,
            value: None,
        }
    }
}

impl From<AllocError> for OperationFault {
    ghost use Rattle.std.specs.Prelude.{◌≡◌};
    ghost use Rattle.refusals.specs.declared.numbers.TheConstants.{MEMORY};

    ghost from_gives = { λ _ e. e ≡ record { number = MEMORY } };

    fn from(_refused: AllocError) -> OperationFault {
        OperationFault { number: MEMORY }
    }
}

impl<T: Drop> From<AllocFailed<T>> for OperationFault {
    ghost use Rattle.std.specs.Prelude.{◌≡◌};
    ghost use Rattle.refusals.specs.declared.numbers.TheConstants.{MEMORY};

    ghost from_gives = { λ _ e. e ≡ record { number = MEMORY } };

    fn from(_refused: AllocFailed<T>) -> OperationFault {
        OperationFault { number: MEMORY }
    }
}

impl From<AllocFailed<Tree>> for Unmade {
    ghost use Rattle.std.specs.Prelude.{◌≡◌, Some};
    ghost use Rattle.doc_edits.specs.declared.fault.TheConstants.{NO_MEMORY};

    ghost from_gives = { λ refused unmade. unmade ≡ record { fault = NO_MEMORY; value = Some refused.value } };

    fn from(refused: AllocFailed<Tree>) -> Unmade {
        Unmade {
            fault: NO_MEMORY,
            value: Some(refused.value),
        }
    }
}

impl From<AllocFailed<(Name, Tree)>> for Unmade {
    ghost use Rattle.std.specs.Prelude.{◌≡◌, Some};
    ghost use Rattle.doc_edits.specs.declared.fault.TheConstants.{NO_MEMORY};

    ghost from_gives = { λ refused unmade. unmade ≡ record { fault = NO_MEMORY; value = Some refused.value.1 } };

    fn from(refused: AllocFailed<(Name, Tree)>) -> Unmade {
        let (_name, value) = refused.value;
        Unmade {
            fault: NO_MEMORY,
            value: Some(value),
        }
    }
}

impl From<Unmade> for OperationFault {
    ghost use Rattle.std.specs.Prelude.{◌≡◌};

    ghost from_gives = { λ unmade e. e ≡ unmade.fault };

    fn from(unmade: Unmade) -> OperationFault {
        unmade.fault
    }
}
