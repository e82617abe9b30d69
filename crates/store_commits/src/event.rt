//! The events of a store, and its replies.
use crate::pump::Pump;
use doc_machine::{Refusal, Transaction};

/// What a store is asked.
#[derive(Drop)]
pub enum Event {
    /// A transaction, which may be of one change.
    Run(Transaction),
    /// A snapshot.
    Snapshot,
    /// A step of a copy, of at most this number of sectors.
    Pump(u64),
    /// A seal.
    Seal,
}

/// What it answers.
#[derive(Clone, Copy, Debug, PartialEq, Eq)]
pub enum Reply {
    /// The transaction was made, and this is the new number of accepted changes.
    Done(u64),
    /// The snapshot was made, and this is the new number of used bytes.
    Snapped(u64),
    /// The step was made, and this is what it did.
    Pumped(Pump),
    /// The seal was made.
    Sealed,
    /// Nothing was answered but this.
    Refused(Refusal),
}
