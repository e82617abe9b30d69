//! A slot over its sectors.
ghost use Rattle.std.specs.Prelude.{◌≡◌, ◌≤◌, ◌<◌, ◌+◌, ◌++◌, length, take, drop};
ghost use Rattle.commit_slots.specs.Slots.{count_of, numbers_in, piece_of, slot_sector};

use crate::sealed::{PIECE_BYTES, seal};
use crate::slot::Slot;

/// The most bytes of a tail.
pub const SLOT_BYTES: usize = 15_428;

/// The bytes of the numbers in front of it.
pub const NUMBERS: usize = 60;

/// The sectors of a slot with a tail of `tail` bytes.
pub fn sectors_of_tail(tail: usize) -> usize
    requires { tail ≤ SLOT_BYTES }
    ensures { result ≡ count_of tail }
{
    (NUMBERS + tail + 483) / PIECE_BYTES
}

/// The sector `k` of a slot with this tail.
pub fn slot_sector(slot: &Slot, tail: &[u8], k: u32) -> [u8; 512]
    requires fits { length tail.now ≤ SLOT_BYTES }
    requires place { k < 32 }
    ensures { result ≡ slot_sector slot.now tail.now k }
{
    let numbers = numbers_of(slot);
    seal(slot.number, k, &piece_at(&numbers, tail, k as usize))
}

// The piece `k` of these bytes, with zeros after their end.
fn piece_at(front: &[u8; 60], bytes: &[u8], k: usize) -> [u8; 484]
    requires fits { length bytes.now ≤ SLOT_BYTES }
    requires place { k < 32 }
    ensures { result ≡ piece_of k (front.now ++ bytes.now) }
{
    let start = k * PIECE_BYTES;
    // From here on, first what is left of the front, then bytes.
    let passed = start.min(NUMBERS);
    let left = NUMBERS - passed;
    let from = (start - passed).min(bytes.len());
    let count = (PIECE_BYTES - left).min(bytes.len() - from);
    let mut piece = [0; 484];
    put(&mut piece, 0, &front[passed..]);
    put(&mut piece, left, &bytes[from..from + count]);
    piece
}

// The numbers of a slot: the first 60 bytes of its content.
fn numbers_of(slot: &Slot) -> [u8; 60]
    ensures { result ≡ numbers_in slot.now }
{
    let mut numbers = [0; 60];
    put_number(&mut numbers, 0, &slot.length.to_be_bytes());
    put_number(&mut numbers, 8, &slot.seq.to_be_bytes());
    put_number(&mut numbers, 16, &slot.opens.to_be_bytes());
    put_number(&mut numbers, 24, &slot.sectors.to_be_bytes());
    put_number(&mut numbers, 32, &slot.half.to_be_bytes());
    put_number(&mut numbers, 36, &slot.blocks.to_be_bytes());
    put_number(&mut numbers, 40, &slot.check.to_be_bytes());
    put_number(&mut numbers, 44, &slot.identity.to_be_bytes());
    numbers
}

fn put_number(numbers: &mut [u8; 60], at: usize, bytes: &[u8])
    requires { at + length bytes.now ≤ 60 }
    ensures { numbers.new ≡ take at numbers.old ++ bytes.now ++ drop (at + length bytes.now) numbers.old }
{
    numbers[at..at + bytes.len()].copy_from_slice(bytes);
}

fn put(piece: &mut [u8; 484], at: usize, bytes: &[u8])
    requires { at + length bytes.now ≤ 484 }
    ensures front { take (at + length bytes.now) piece.new ≡ take at piece.old ++ bytes.now }
    ensures rest { drop (at + length bytes.now) piece.new ≡ drop (at + length bytes.now) piece.old }
{
    piece[at..at + bytes.len()].copy_from_slice(bytes);
}

#[cfg(test)]
mod tests {
    use super::*;
    use crate::sealed::{begins, is_sealed, number_of};

    // The first slot of a store of one document, as another program writes it.
    #[test]
    fn a_slot_by_hand(rt: HostRuntime) {
        let tail =
            b"\0\0\0\x37\0\0\0\0\0\0\0\x01{\"cmd\":\"create\",\"doc\":{\"a\":1},\"name\":\"d\",\"schema\":true}";
        let slot = Slot {
            number: 2,
            length: 67,
            seq: 1,
            opens: 1,
            sectors: 256,
            half: 0,
            blocks: 0,
            check: 0,
            identity: 0x0123_4567_89ab_cdef_fedc_ba98_7654_3210,
        };
        let sector = slot_sector(&slot, tail, 0);
        let head = b"JPSTORE1\0\0\0\x03\x90\x49\x56\x4e\0\0\0\0\0\0\0\x02\0\0\0\0";
        assert!(rt; begins(&sector, 0, head) && begins(&sector, 88, tail));
        assert!(rt; is_sealed(&sector) && number_of(&sector) == 2);
    }
}
