//! The greatest size of a query.

/// How many bytes the text of a query may have.
pub const QUERY_BYTES: usize = 1024;
