//! A sector that a crash tore.

/// What a torn sector holds.
#[derive(Clone, Copy)]
pub struct Damage {
    /// The number of the sector.
    pub at: u64,
    /// What it holds.
    pub content: [u8; 512],
}
