//! The limits of a store. Those of documents and patches are those of `doc_patch`.
ghost use Rattle.std.specs.Prelude.{◌≡◌};
ghost use Rattle.doc_changes.specs.Marks.{holds_marks};
ghost use Rattle.doc_changes.specs.State.{most_documents};

pub use doc_patch::limits::{
    DOCUMENT_BYTES, DOCUMENT_HEIGHT, PATCH_BYTES, PATCH_HEIGHT, PATCH_OPERATIONS,
};
use doc_schema::Profile;

/// Documents that a store of profile 2 holds at most.
pub const DOCUMENTS: usize = 1_024;

/// Documents that a store of profile 3 holds at most.
pub const MORE_DOCUMENTS: usize = 65_536;

/// Changes of a transaction at most.
pub const TRANSACTION_CHANGES: usize = 1_024;

/// Marks that a store of profile 3 holds at most.
pub const MARKS: usize = 1_024;

/// Bytes of a mark's value at most.
pub const MARK_BYTES: usize = 128;

/// Bytes of a name at most.
pub const NAME_BYTES: usize = 64;

/// The number of accepted changes after which none is accepted.
pub const LAST_SEQ: u64 = u64::MAX;

/// The greatest revision that a patch may ask for: the greatest number that a document holds.
pub const LAST_ASKED: u64 = 0x7fff_ffff_ffff_ffff;

/// Whether a store with schemas of that profile holds marks.
pub fn holds_marks(profile: Profile) -> bool
    ensures { result ≡ holds_marks profile }
{
    match profile {
        Profile::Two => false,
        Profile::Three => true,
    }
}

/// Documents that a store with schemas of that profile holds at most.
pub fn most_documents(profile: Profile) -> usize
    ensures { result ≡ most_documents profile }
{
    match profile {
        Profile::Two => DOCUMENTS,
        Profile::Three => MORE_DOCUMENTS,
    }
}
