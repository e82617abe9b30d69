//! The replies to lines.

use doc_machine::Refusal;
use store_commits::Pump;

/// The reply to a line. That of a change, a snapshot, a step of a copy, a seal, a revision or a refusal takes
/// no memory.
#[derive(Drop)]
pub enum Reply {
    /// A change was accepted, and its number is this.
    Changed(u64),
    /// A snapshot was made, and this number of bytes is used since.
    Snapshot(u64),
    /// A step of a copy was made, and this is what it did.
    Pumped(Pump),
    /// A seal was made.
    Sealed,
    /// The revision that was asked for.
    Revision(u64),
    /// It was refused, or asks for nothing.
    Refused(Refusal),
    /// What was asked for: the whole line, with its line feed.
    Line(Vec<u8>),
}
