//! The numbers that options take.

/// The fewest sectors of a device: one for the commit, and one for each half.
pub const MIN_SECTORS: u64 = 3;

/// The most sectors of a device.
pub const MAX_SECTORS: u64 = 4_294_967_296;

/// The most sectors of a device in memory.
pub const MAX_MEMORY_SECTORS: u64 = 1_048_576;

/// The sectors of a new file whose size isn't said: 16 MiB.
pub const NEW_SECTORS: u64 = 32_768;

/// The oldest format in which a file is made.
pub const MIN_FORMAT: u64 = 2;

/// The newest format.
pub const MAX_FORMAT: u64 = 3;

/// The most changes that one commit may be asked to take together.
pub const MAX_BATCH: u64 = 1_024;

/// The most sectors that a step of a copy after a change may be asked to write.
pub const MAX_PUMP: u64 = 1_000_000;

/// The bytes of the newest transactions that are kept, if they aren't said.
pub const HISTORY: u64 = 16_777_216;

/// The most of them that may be asked for.
pub const MAX_HISTORY: u64 = 4_294_967_296;

/// The mode of a new file that its owner alone may read and write (0600 in octal).
pub const OWNER_ALONE: u32 = 0o600;

/// The mode of all permission bits (0777 in octal).
pub const MAX_MODE: u32 = 0o777;
