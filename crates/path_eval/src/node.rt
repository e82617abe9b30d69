//! Nodes: values with their locations (RFC 9535, section 1.1).
use doc_tree::{Step, Tree};
use path_grammar::LentStep;

/// A node that a query selects.
#[derive(Drop)]
pub struct Node<'t> {
    /// Its location: the steps that lead from the root to it.
    pub steps: Vec<Step>,
    /// The value there, lent by the document.
    pub value: &'t Tree,
}

/// The same, with its steps lent by the document as well.
#[derive(Drop)]
pub struct LentNode<'t> {
    pub steps: Vec<LentStep<'t>>,
    pub value: &'t Tree,
}
