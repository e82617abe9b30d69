//! The operators of comparisons (RFC 9535, section 2.3.5.1, `comparison-op`).

/// How a comparison compares its two sides.
#[derive(Clone, Copy, Debug, Drop, PartialEq, Eq)]
pub enum CompareOp {
    /// `==`
    Equal,
    /// `!=`
    NotEqual,
    /// `<`
    Less,
    /// `<=`
    LessEqual,
    /// `>`
    Greater,
    /// `>=`
    GreaterEqual,
}
