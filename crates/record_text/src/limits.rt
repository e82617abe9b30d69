//! The greatest length of a frame.

/// The most bytes of a frame after its length.
pub const BODY_LIMIT: usize = 4_194_304;
