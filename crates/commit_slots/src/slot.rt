//! A commit in a slot, by what it says.

/// The numbers of a commit. The last committed bytes, which fill no whole block that the half has, are its tail.
#[derive(Clone, Copy, Debug, PartialEq, Eq)]
pub struct Slot {
    /// The number of the commit, one higher than that of any slot sector before it.
    pub number: u64,
    /// How many bytes are committed.
    pub length: u64,
    /// The number of changes in them.
    pub seq: u64,
    /// How often the device was opened.
    pub opens: u64,
    /// The sectors of the device.
    pub sectors: u64,
    /// The half whose blocks count, 0 or 1.
    pub half: u32,
    /// How many blocks of 4,096 bytes of it count.
    pub blocks: u32,
    /// The checksum of these.
    pub check: u32,
    /// The identity of the store, which each of its commits has.
    pub identity: u128,
}
