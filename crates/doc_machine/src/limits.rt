//! The limits of a store. All but that of the documents of a transaction are those of `doc_changes`.
pub use doc_changes::limits::{
    DOCUMENT_BYTES, DOCUMENT_HEIGHT, DOCUMENTS, LAST_ASKED, LAST_SEQ, MARK_BYTES, MARKS,
    MORE_DOCUMENTS, NAME_BYTES, PATCH_BYTES, PATCH_HEIGHT, PATCH_OPERATIONS, TRANSACTION_CHANGES,
    holds_marks, most_documents,
};

/// Bytes of compact text at most that several changes of a transaction keep: what the patches copy (`specs/Held.antt` of
/// `doc_patch`), and each document that is put under another schema.
pub const TRANSACTION_KEPT_BYTES: u64 = 33_554_432;
