//! The numbers and the last bytes of an open journal.
ghost use Rattle.std.specs.Prelude.{◌≡◌, ◌≤◌, ◌+◌, ◌-◌, ◌++◌, length, take, drop};

use commit_slots::Slot;

/// What an open journal knows of its committed bytes.
#[derive(Drop)]
pub struct Known {
    /// The slot that counts.
    pub slot: Slot,
    /// The checksum of the whole blocks of the bytes.
    pub check: u32,
    /// The bytes after these, in a buffer of as many bytes as a slot holds.
    pub tail: Vec<u8>,
}

/// Writes bytes at a place of the buffer.
pub(crate) fn put(buffer: &mut [u8], at: usize, bytes: &[u8])
    requires { at + length bytes.now ≤ length buffer.old }
    ensures size { length buffer.new ≡ length buffer.old }
    ensures front { take (at + length bytes.now) buffer.new ≡ take at buffer.old ++ bytes.now }
{
    buffer[at..at + bytes.len()].copy_from_slice(bytes);
}

/// Moves the bytes `from..to` of the buffer to its front. Most commits fill no block, and then nothing is moved.
pub(crate) fn shift(buffer: &mut [u8], from: usize, to: usize)
    requires order { from ≤ to }
    requires within { to ≤ length buffer.old }
    ensures size { length buffer.new ≡ length buffer.old }
    ensures front { take (to - from) buffer.new ≡ drop from (take to buffer.old) }
{
    if from > 0 {
        buffer.copy_within(from..to, 0);
    }
}
