//! The options of a session.

/// The options of a session.
#[derive(Clone, Copy, Debug, PartialEq, Eq)]
pub struct Options {
    /// Successive changes that are made as one batch, with as few commits as their room allows; 0 as 1. One that isn't full
    /// is made at the next line that isn't blank and is no change, and at the end of the input.
    pub batch: u64,
    /// Sectors that a step of a copy writes at most, after each batch of which a change is done while a copy runs or
    /// the used bytes are over half of the capacity. 0: no such step is made.
    pub pump: u64,
    /// Calls of the reader at most. Without a reader it has no effect.
    pub turns: u64,
}
