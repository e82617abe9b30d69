//! The greatest number of nodes that a query may list.

/// How many nodes the list after a segment may have.
pub const NODES: usize = 100_000;
