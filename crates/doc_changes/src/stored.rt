//! A document as a store keeps it.
use crate::shared::SharedSchema;
use doc_patch::Document;

/// What is kept under a name.
#[derive(Drop)]
pub struct Stored {
    /// The schema, as it was read; other documents may share it.
    pub schema: SharedSchema,
    /// The value, with what is known of its text.
    pub doc: Document,
    /// The seq of the last accepted creation, patch or schema of it.
    pub revision: u64,
}
