//! The commit sector, by what it says.

/// Which half counts, how many bytes and in which format, and the numbers that go with them.
#[derive(Clone, Copy, Debug, PartialEq, Eq)]
pub struct Commit {
    /// The format, 1 or 2.
    pub format: u32,
    /// The half whose bytes count, 0 or 1.
    pub half: u32,
    /// How many bytes count.
    pub length: u64,
    /// The number of changes in the bytes.
    pub seq: u64,
    /// How often the device was opened.
    pub opens: u64,
    /// The sectors of the device.
    pub sectors: u64,
}
