//! The limits of lines, replies and sessions.

pub use protocol::limits::{LINE_BYTES, REPLY_BYTES};

/// Turns of a session that is to end by its input alone: no client reaches them.
pub const TURNS: u64 = 1 << 40;
