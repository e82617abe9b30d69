//! The refusal of a call.
use doc_patch::PatchFault;
use doc_schema::SchemaFault;
use refusals::numbers::{MEMORY, REVISION};
use std::alloc::{AllocError, AllocFailed};

/// The refusal of a call.
#[derive(Clone, Copy, Debug, PartialEq, Eq)]
pub struct Refusal {
    /// One of `numbers`.
    pub number: u16,
    /// The operation of a patch at fault, counted from 0.
    pub op: Option<u64>,
    /// The document's revision, if a patch asks for another.
    pub rev: Option<u64>,
    /// The change of a transaction that was refused, counted from 0.
    pub change: Option<u64>,
}

impl Refusal {
    ghost use Rattle.std.specs.Prelude.{◌≡◌};
    ghost use Rattle.doc_changes.specs.Refusals.{at_change, other_revision, plain};
    ghost use Rattle.refusals.specs.Names.{name_of};

    /// The refusal of that number that names no operation, no revision and no change.
    pub fn plain(number: u16) -> Refusal
        ensures { result ≡ plain number }
    {
        Refusal {
            number,
            op: None,
            rev: None,
            change: None,
        }
    }

    /// The refusal of a patch that asks for another revision than the document's, which is this one.
    pub fn other_revision(revision: u64) -> Refusal
        ensures { result ≡ other_revision revision }
    {
        Refusal {
            rev: Some(revision),
            ..Refusal::plain(REVISION)
        }
    }

    /// This refusal of the change at that place of a transaction.
    pub fn at_change(self, place: u64) -> Refusal
        ensures { result ≡ at_change place self }
    {
        Refusal {
            change: Some(place),
            ..self
        }
    }

    /// The name of the number, or the empty text for a number that isn't in `numbers`.
    pub fn name(&self) -> &'static str
        ensures { result.now ≡ name_of self.now.number }
    {
        refusals::name_of(self.number)
    }
}

impl From<AllocError> for Refusal {
    ghost use Rattle.std.specs.Prelude.{◌≡◌};
    ghost use Rattle.doc_changes.specs.Refusals.{plain};
    ghost use Rattle.refusals.specs.declared.numbers.TheConstants.{MEMORY};

    ghost from_gives = { λ _ r. r ≡ plain MEMORY };

    fn from(_refused: AllocError) -> Refusal {
        Refusal::plain(MEMORY)
    }
}

impl<T: Drop> From<AllocFailed<T>> for Refusal {
    ghost use Rattle.std.specs.Prelude.{◌≡◌};
    ghost use Rattle.doc_changes.specs.Refusals.{plain};
    ghost use Rattle.refusals.specs.declared.numbers.TheConstants.{MEMORY};

    ghost from_gives = { λ _ r. r ≡ plain MEMORY };

    fn from(_refused: AllocFailed<T>) -> Refusal {
        Refusal::plain(MEMORY)
    }
}

impl From<PatchFault> for Refusal {
    ghost use Rattle.std.specs.Prelude.{◌≡◌};
    ghost use Rattle.doc_changes.specs.Refusals.{of_patch};

    ghost from_gives = { λ fault r. r ≡ of_patch fault };

    fn from(fault: PatchFault) -> Refusal {
        Refusal {
            op: fault.op,
            ..Refusal::plain(fault.number)
        }
    }
}

impl From<SchemaFault> for Refusal {
    ghost use Rattle.std.specs.Prelude.{◌≡◌};
    ghost use Rattle.doc_changes.specs.Refusals.{plain};

    ghost from_gives = { λ fault r. r ≡ plain fault.number };

    fn from(fault: SchemaFault) -> Refusal {
        Refusal::plain(fault.number)
    }
}
