//! CRC-32C, the checksum of a sector and of committed bytes: the remainder of a polynomial division (`specs/Crc.antt`), by
//! a table and eight bytes at a time. It finds each burst of at most 32 bits (`laws`), so each flipped bit and each wrong
//! byte.
#![tactic(auto)]

mod crc;
pub mod laws;
mod rows;

pub use crc::{append, crc32c};
