//! The calls of a device since it was opened or made: values without bytes, which only contracts read.
use std::alloc::Global;
use std::snapshot::Snapshot;

/// What a device holds when it is opened. Of a file no code knows it: a contract speaks of each that it may be.
#[derive(Drop)]
pub struct Held {
    /// What reads give.
    pub seen: Vec<[u8; 512]>,
    /// What else a crash may leave, if writes of an earlier process are not synced yet.
    pub others: Vec<Vec<[u8; 512]>>,
}

impl Held {
    /// For a program to name: a value without bytes, in whose place a contract takes any other.
    pub fn any(alloc: Global) -> Snapshot<Held> {
        Snapshot::of(&Held {
            seen: Vec::new(alloc),
            others: Vec::new(alloc),
        })
    }
}

/// The calls of a device, the newest outermost. Reads and syncs that failed are left out: they make nothing of it.
#[derive(Drop)]
pub enum History {
    /// The device was opened, and held this.
    Opened {
        held: Snapshot<Held>,
    },
    /// The device was made, with `sectors` sectors of zeros.
    Created {
        sectors: u64,
    },
    /// A read that succeeded, and what it gave.
    Read {
        earlier: Snapshot<History>,
        at: u64,
        content: Snapshot<[u8; 512]>,
    },
    /// A write that succeeded.
    Written {
        earlier: Snapshot<History>,
        at: u64,
        content: Snapshot<[u8; 512]>,
    },
    /// A write that failed.
    WriteFailed {
        earlier: Snapshot<History>,
        at: u64,
        content: Snapshot<[u8; 512]>,
    },
    /// A sync that succeeded.
    Synced {
        earlier: Snapshot<History>,
    },
}
