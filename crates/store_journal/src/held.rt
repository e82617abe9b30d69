//! The memory of an open journal, in any format.
ghost use Rattle.std.specs.Prelude.{◌≡◌, ◌+◌, ◌<◌, ◌≤◌, ◌↔◌, IsTrue};
ghost use Rattle.slot_commits.specs.Loads.{number_end};
ghost use Rattle.store_journal.specs.Held.{numbers_of};

use half_journal::HalfKnown;
use slot_commits::NUMBER_END;
use slot_journal::Known;

/// An opening of format 3 that isn't counted yet.
#[derive(Clone, Copy)]
pub struct Awaiting {
    /// The number of its commit.
    pub number: u64,
    /// Which copy of that is written first, 0 or 1.
    pub first: u64,
}

/// What an open journal knows of its committed bytes.
#[derive(Drop)]
pub enum Held {
    /// In formats 1 and 2.
    InHalf(HalfKnown),
    /// In format 3.
    InSlots {
        known: Known,
        awaits: Option<Awaiting>,
    },
}

impl Held {
    /// The sectors of the device.
    pub fn sectors(&self) -> u64
        ensures { result ≡ (numbers_of self.now).sectors }
    {
        match self {
            Held::InHalf(known) => known.commit.sectors,
            Held::InSlots { known, .. } => known.slot.sectors,
        }
    }

    /// The format of the committed frames, 1 or 2.
    pub fn version(&self) -> u32
        ensures { result ≡ (numbers_of self.now).version }
    {
        match self {
            Held::InHalf(known) => known.commit.format,
            Held::InSlots { .. } => 2,
        }
    }

    /// Whether the last bytes ride in the slot that counts: format 3.
    pub fn rides(&self) -> bool
        ensures { result ≡ (numbers_of self.now).rides }
    {
        match self {
            Held::InHalf(_) => false,
            Held::InSlots { .. } => true,
        }
    }

    /// The half that counts, 0 or 1.
    pub fn half(&self) -> u32
        ensures { result ≡ (numbers_of self.now).half }
    {
        match self {
            Held::InHalf(known) => known.commit.half,
            Held::InSlots { known, .. } => known.slot.half,
        }
    }

    /// The number of committed bytes.
    pub fn used(&self) -> u64
        ensures { result ≡ (numbers_of self.now).used }
    {
        match self {
            Held::InHalf(known) => known.commit.length,
            Held::InSlots { known, .. } => known.slot.length,
        }
    }

    /// The number of changes in the committed bytes.
    pub fn seq(&self) -> u64
        ensures { result ≡ (numbers_of self.now).seq }
    {
        match self {
            Held::InHalf(known) => known.commit.seq,
            Held::InSlots { known, .. } => known.slot.seq,
        }
    }

    /// How often the device was opened.
    pub fn opens(&self) -> u64
        ensures { result ≡ (numbers_of self.now).opens }
    {
        match self {
            Held::InHalf(known) => known.commit.opens,
            Held::InSlots { known, .. } => known.slot.opens,
        }
    }

    /// The identity of the store in format 3; in formats 1 and 2 it has none, and this is 0.
    pub fn identity(&self) -> u128
        ensures { result ≡ (numbers_of self.now).identity }
    {
        match self {
            Held::InHalf(_) => 0,
            Held::InSlots { known, .. } => known.slot.identity,
        }
    }

    /// Whether a number is left for the next commit: in format 3 numbers end, and the last are for openings.
    pub fn has_number(&self) -> bool
        ensures { IsTrue result ↔ ((numbers_of self.now).next < number_end) }
    {
        match self {
            Held::InHalf(_) => true,
            Held::InSlots { known, awaits } => match *awaits {
                None => known.slot.number < NUMBER_END - 1,
                Some(awaiting) => awaiting.number < NUMBER_END,
            },
        }
    }

    /// Whether numbers are left for `count` commits.
    pub fn has_numbers(&self, count: u64) -> bool
        ensures { IsTrue result ↔ ((numbers_of self.now).next + count ≤ number_end) }
    {
        match self {
            Held::InHalf(_) => count <= NUMBER_END,
            Held::InSlots { known, awaits } => match *awaits {
                None => known.slot.number < NUMBER_END && count < NUMBER_END - known.slot.number,
                Some(awaiting) => {
                    awaiting.number <= NUMBER_END && count <= NUMBER_END - awaiting.number
                }
            },
        }
    }
}
