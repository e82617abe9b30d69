//! A part of a query that may belong to a singular one: what was read from the front of a text, and the rest.

/// A part: what was read from the front of a text, and the rest.
#[derive(Drop)]
pub struct PathPart<'t, T> {
    /// What was read; if something is left out, a placeholder represents it.
    pub value: T,
    /// Whether a singular query may have it (RFC 9535, section 2.3.5.1).
    pub singular: bool,
    /// Whether the profile leaves something in it out.
    pub left_out: bool,
    /// What follows it in the text.
    pub rest: &'t [char],
}
