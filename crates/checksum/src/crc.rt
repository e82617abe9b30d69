//! The checksum of bytes.
ghost use Rattle.std.specs.Prelude.{◌≡◌, ◌<◌, ◌+◌, ◌++◌, ◌%◌, ◌^◌, List, ℕ};
ghost use Rattle.checksum.specs.Crc.{bits_of, crc_of, divided};
ghost use Rattle.checksum.specs.Rows.{past_bytes};

use crate::rows::ROWS;

/// The checksum of the bytes.
pub fn crc32c(bytes: &[u8]) -> u32
    ensures { result ≡ crc_of bytes.now }
{
    append(0, bytes)
}

/// The checksum of bytes of which `crc` is the checksum, with these after them.
pub fn append(crc: u32, bytes: &[u8]) -> u32
    ensures { (front : List ℕ) → crc ≡ crc_of front → result ≡ crc_of (front ++ bytes.now) }
{
    divide(crc ^ u32::MAX, bytes) ^ u32::MAX
}

// What remains of the bytes after others of which `start` remained.
fn divide(start: u32, bytes: &[u8]) -> u32
    ensures { result ≡ divided start (bits_of bytes.now) }
{
    let mut left = start;
    let mut rest = bytes;
    'eights: while let Some((eight, more)) = rest.split_first_chunk::<8>() {
        left = divide_eight(left, eight);
        rest = more;
    }
    divide_few(left, rest)
}

// The same, a byte at a time.
fn divide_few(start: u32, bytes: &[u8]) -> u32
    ensures { result ≡ divided start (bits_of bytes.now) }
{
    let mut left = start;
    for byte in bytes {
        let lowest = left ^ u32::from(*byte);
        left = row(0, u64::from(lowest)) ^ (left >> 8);
    }
    left
}

// The same, of eight bytes, which are read at once. A byte's part doesn't depend on the others.
fn divide_eight(left: u32, bytes: &[u8; 8]) -> u32
    ensures { result ≡ divided left (bits_of bytes.now) }
{
    let sum = u64::from(left) ^ u64::from_le_bytes(*bytes);
    row(7, sum)
        ^ (row(6, sum >> 8)
            ^ (row(5, sum >> 16)
                ^ (row(4, sum >> 24)
                    ^ (row(3, sum >> 32)
                        ^ (row(2, sum >> 40) ^ (row(1, sum >> 48) ^ row(0, sum >> 56)))))))
}

// What remains of the lowest byte of a number and `more` bytes of zeros.
fn row(more: usize, number: u64) -> u32
    requires { more < 8 }
    ensures { result ≡ past_bytes (more + 1) (number % 2 ^ 8) }
{
    ROWS[more][(number & 255) as usize]
}

#[cfg(test)]
mod tests {
    use super::*;

    #[test]
    fn the_published_value(rt: HostRuntime) {
        assert_eq!(rt; crc32c(b"123456789"), 0xE306_9283);
    }
}
