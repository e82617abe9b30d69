//! A life of a disk, and its part: what the store answered in it, and what the crash kept.
use doc_machine::Transaction;
use sector_device::Damage;
use store_commits::{Event, Reply};

/// A life of a disk: the calls that the device passes before its power fails, what the crash then keeps of each
/// sector, and what the store is asked meanwhile.
#[derive(Drop)]
pub struct Life {
    /// How many calls of the device pass.
    pub stop: u64,
    /// What the crash keeps of each sector, as `MemDisk::crash` takes it.
    pub picks: Vec<u64>,
    /// The sectors that it tears, as `MemDisk::crash_torn` takes them.
    pub damage: Vec<Damage>,
    /// What the store is asked, in order.
    pub events: Vec<Event>,
}

/// The answers of a life, and what the crash kept of it.
#[derive(Drop)]
pub struct Part {
    /// The opening answered. If not, nothing else is given but `disk_faults`.
    pub opened: bool,
    /// One for each event.
    pub replies: Vec<Reply>,
    /// The transactions that were answered as done, and the one that a fault of the device hit.
    pub accepted: Vec<Transaction>,
    /// How many were answered as done.
    pub acknowledged: u64,
    /// How many changes the crash kept: those of the first accepted transactions, each whole.
    pub kept: u64,
    /// The failures of the disk itself, the fuse's left out.
    pub disk_faults: u64,
}
