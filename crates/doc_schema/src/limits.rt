//! The limits of a schema.

/// Bytes of a schema's compact text at most.
pub const MOST_BYTES: u64 = 262_144;

/// How deep lists and objects of a schema nest at most.
pub const MOST_HEIGHT: u64 = 64;

/// Patterns of a schema at most: each text of `pattern` and each name of `patternProperties`, also one that is there twice.
pub const MOST_PATTERNS: usize = 64;

/// Bytes of a pattern at most.
pub const MOST_PATTERN_BYTES: usize = 4_096;

/// About how many bytes the tables of a schema's patterns take at most, all together.
pub const PATTERN_ROOM: usize = 1_048_576;
