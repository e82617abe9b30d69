//! The numbers and the last bytes of an open journal.

use crate::Commit;

/// What an open journal knows of its committed bytes.
#[derive(Clone, Copy)]
pub struct HalfKnown {
    /// The commit that counts.
    pub commit: Commit,
    /// The bytes of the last sector, since an append writes it anew.
    pub tail: [u8; 512],
}
