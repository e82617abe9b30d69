//! The writes that no sync has settled yet.

/// A write that no sync has settled yet.
#[derive(Clone, Copy)]
pub struct Unsettled {
    /// The number of its sector.
    pub at: u64,
    /// What it wrote.
    pub content: [u8; 512],
}
