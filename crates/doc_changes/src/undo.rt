//! The data that takes a change back that was made in memory.

ghost use Rattle.std.specs.Prelude.{◌≡◌};
ghost use Rattle.doc_changes.specs.Held.{held_of};

use crate::shared::SharedSchema;
use crate::stored::Stored;
use doc_patch::Reversal;

/// The data that takes a change back: what it replaced, and its place.
#[derive(Drop)]
pub enum Undo {
    /// The last document is new.
    Added,
    /// The document of that name was patched, and had that revision.
    Patched {
        name: String,
        reversal: Reversal,
        revision: u64,
    },
    /// The document of that name had this schema, as it was read, and that revision.
    Ruled {
        name: String,
        rules: SharedSchema,
        revision: u64,
    },
    /// This document was at that place.
    Removed {
        index: usize,
        name: String,
        stored: Stored,
    },
}

impl Undo {
    /// The bytes of text that memory holds for the change, beyond its document and what came with it: a patch's values
    /// that it copied, and its document, if that was copied.
    pub fn held(&self) -> u64
        ensures { result ≡ held_of self.now }
    {
        match self {
            Undo::Patched { reversal, .. } => reversal.held,
            Undo::Added => 0,
            Undo::Ruled { .. } => 0,
            Undo::Removed { .. } => 0,
        }
    }
}
