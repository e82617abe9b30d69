//! The results of reading the slots.

use commit_slots::{Counted, Slot};

/// What was found in the slots of a device.
#[derive(Drop)]
pub struct Found {
    /// The copy that counts, or none is valid.
    pub counted: Option<Counted>,
    /// Both copies of that commit are valid.
    pub both: bool,
    /// A copy of a commit is valid in the other pair of slots.
    pub other: bool,
    /// The highest number of a sector of the slots, or 0.
    pub highest: u64,
    /// It looks like a store: sector 0 or another slot begins so.
    pub marked: bool,
}

/// What the slots of a device say beside the commit that counts.
#[derive(Clone, Copy, Debug, PartialEq, Eq)]
pub enum Notice {
    /// Both of its copies are valid, and a copy of another commit in the other pair of slots.
    Whole,
    /// One of its copies isn't valid. The opening writes both anew.
    Mended,
    /// No copy is valid in the other pair: a commit was under way there, or both copies of one are damaged.
    CutOff,
}

/// The commit that a device carries, and how an opening goes on from it.
#[derive(Drop)]
pub struct Recovered {
    /// What the slot says that counts.
    pub slot: Slot,
    /// The committed bytes: those of its blocks, and its tail.
    pub bytes: Vec<u8>,
    /// The number for the opening's commit.
    pub number: u64,
    /// Which copy of that is written first, 0 or 1: the slot that counts isn't its place.
    pub first: u64,
    pub notice: Notice,
}

/// Why nothing was loaded.
#[derive(Clone, Copy, Debug, PartialEq, Eq)]
pub enum LoadFault {
    /// No slot begins as one of a store.
    NotAStore,
    /// It looks like a store. No copy of a commit is valid, or the blocks aren't those that the slot names, or no number
    /// is left for an opening.
    Damaged,
    /// The device failed.
    Device,
    /// There was no memory for the bytes.
    Memory,
}
