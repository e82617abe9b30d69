//! The limits of lines and of replies.

/// Bytes of a line at most, without its line feed.
pub const LINE_BYTES: usize = 1_048_576;

/// Sectors that a line may ask a step of a copy to write at most.
pub const PUMP_SECTORS: u64 = 1_000_000;

/// Bytes of frames that a line may ask for at once at most. The reply to it is then within `REPLY_BYTES`, unless one
/// transaction alone has more.
pub const CHANGES_BYTES: u64 = 4_194_304;

/// Bytes of the reply to a query at most, without its line feed.
pub const REPLY_BYTES: u64 = 16_777_216;
