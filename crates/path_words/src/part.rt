//! A part: what was read from the front of a text, and the rest.

/// A part: what was read from the front of a text, and the rest.
#[derive(Drop)]
pub struct Part<'t, T> {
    /// What was read; if something is left out, a placeholder represents it.
    pub value: T,
    /// Whether the profile leaves something in it out.
    pub left_out: bool,
    /// What follows it in the text.
    pub rest: &'t [char],
}
