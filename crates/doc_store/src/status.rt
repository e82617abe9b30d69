//! The status of a store.

/// The status of a store.
#[derive(Clone, Copy, Debug, PartialEq, Eq)]
pub struct Status {
    /// The number of its documents.
    pub documents: u64,
    /// The changes that were accepted since the device was formatted.
    pub seq: u64,
    /// How often the device was opened, this time included.
    pub opens: u64,
    /// The identity of the store in format 3, which no other store has. Format 2 has none.
    pub identity: Option<u128>,
    /// The bytes of the half that counts that hold frames.
    pub used: u64,
    /// The bytes of a half.
    pub capacity: u64,
    /// The sectors of the device.
    pub sectors: u64,
    /// The half that counts, 0 or 1.
    pub half: u32,
    /// The device failed, and wasn't opened again.
    pub broken: bool,
}
