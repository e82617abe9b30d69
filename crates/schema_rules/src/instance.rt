//! Instances: the values that are judged.
use doc_tree::Tree;

/// An instance (JSON Schema Core, section 4.2.1): a value of a document, or a member's name, which is judged as a text
/// without being copied.
#[derive(Clone, Copy)]
pub enum Instance<'t> {
    /// A value.
    Value(&'t Tree),
    /// A member's name.
    Name(&'t str),
}
