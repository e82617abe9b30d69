//! The places of a part's bytes on the device.
ghost use Rattle.std.specs.Prelude.{◌≡◌};
ghost use Rattle.damaged_files.specs.Places.{place_in_slot, place_of};

use commit_slots::{NUMBERS, PIECE_BYTES};
use sector_device::SECTOR_BYTES;
use store_parts::Part;

/// The byte of a slot's sector at which its piece of the content begins.
const PIECE_START: u64 = 28;

/// How many bytes of a tail the first sector of a slot has, after the numbers.
const FIRST_PIECE: u64 = (PIECE_BYTES - NUMBERS) as u64;

/// The place of a byte on a device.
#[derive(Clone, Copy, Debug, PartialEq, Eq)]
pub struct Place {
    pub sector: u64,
    /// The byte of the sector.
    pub byte: u64,
}

/// The place of the byte `at` of a part: in the half, or in the slot that has the part's tail.
pub fn place_of(part: &Part, at: u64) -> Place
    ensures { result ≡ place_of part.now at }
{
    if at < part.len {
        return Place {
            sector: part.first.saturating_add(at / SECTOR_BYTES),
            byte: at % SECTOR_BYTES,
        };
    }
    place_in_slot(part.slot, at - part.len)
}

// The place of the byte `at` of the tail that is in the slot whose first sector is that.
fn place_in_slot(slot: u64, at: u64) -> Place
    ensures { result ≡ place_in_slot slot at }
{
    if at < FIRST_PIECE {
        return Place {
            sector: slot,
            byte: PIECE_START + NUMBERS as u64 + at,
        };
    }
    let later = at - FIRST_PIECE;
    let piece = PIECE_BYTES as u64;
    Place {
        sector: slot.saturating_add(1 + later / piece),
        byte: PIECE_START + later % piece,
    }
}
