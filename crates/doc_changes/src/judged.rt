//! The result of judging a change.
use crate::shared::SharedSchema;
use doc_tree::Tree;

/// What `Documents::prepare` made of a change that it doesn't refuse. `judge` makes the patched document too.
#[derive(Drop)]
pub struct Judged {
    /// Of a patch, the document that it makes.
    pub(crate) patched: Option<Tree>,
    /// Of a creation or a schema, the schema as it was read.
    pub(crate) rules: Option<SharedSchema>,
}
