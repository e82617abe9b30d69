//! The limits of documents and patches: how long and how high they may be. Those of documents are the limits of
//! `doc_edits`.

/// Bytes of a document's compact text at most, after each operation.
pub const DOCUMENT_BYTES: u64 = doc_edits::limits::DOCUMENT_BYTES;

/// How deep arrays and objects of a document nest at most, after each operation.
pub const DOCUMENT_HEIGHT: u64 = doc_edits::limits::DOCUMENT_HEIGHT;

/// Operations of a patch at most.
pub const PATCH_OPERATIONS: usize = 4_096;

/// Bytes of a patch's compact text at most.
pub const PATCH_BYTES: u64 = 2_097_152;

/// How deep arrays and objects of a patch nest at most.
pub const PATCH_HEIGHT: u64 = 66;
