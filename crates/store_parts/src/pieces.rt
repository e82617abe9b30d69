//! The pieces of slots: what sectors of one commit, one after another, hold, each under its own checksum.
ghost use Rattle.std.specs.Prelude.{◌≡◌, ◌≤◌, ◌<◌, ◌+◌, ◌*◌, ◌^◌, ◌⊎◌, ℕ, IfOk, length, slice_index};
ghost use Rattle.store_parts.specs.Parts.{AreParts, HasPart, HasTail, HaveTails, slot_byte};

use crate::part::{Part, within};
use commit_slots::{NUMBERS, PIECE_BYTES, is_sealed, number_of, place_of};
use std::alloc::{AllocError, Global};

// The byte of a slot's sector at which its piece begins.
const PIECE_START: usize = 28;

/// A commit that counts, by its number and by the first sector of the slot that it is in.
#[derive(Clone, Copy)]
pub(crate) struct CountedSlot {
    pub number: u64,
    pub slot: u64,
}

/// The parts of a device of `sectors` sectors, and after them the pieces of its slots, but for that of the commit that
/// counts.
pub(crate) fn with_pieces(
    alloc: Global,
    parts: Vec<Part>,
    sectors: u64,
    slots: &[[u8; 512]],
    counted: Option<CountedSlot>,
) -> Result<Vec<Part>, AllocError>
    requires whole { length slots.now ≡ 128 }
    requires most { sectors ≤ 2 ^ 32 }
    requires parts { AreParts sectors parts.items }
    requires tails { HaveTails slots.now parts.items }
    ensures parts { IfOk result (λ all. AreParts sectors all.items) }
    ensures tails { IfOk result (λ all. HaveTails slots.now all.items) }
{
    let mut parts = parts;
    for at in 0..128 {
        if is_good(slots, at) && !goes_on(slots, at) && !is_counted(slots, at, counted) {
            parts.push(piece_at(alloc, sectors, slots, at)?)?;
        }
    }
    Ok(parts)
}

// Whether a sector has its checksum and its place in the slot.
fn is_good(slots: &[[u8; 512]], at: usize) -> bool
    requires { at < length slots.now }
{
    is_sealed(&slots[at]) && place_of(&slots[at]) as usize == at % 32
}

// Whether a sector goes on with what the one before it in the slot holds.
fn goes_on(slots: &[[u8; 512]], at: usize) -> bool
    requires { at < length slots.now }
{
    at % 32 != 0
        && is_good(slots, at)
        && is_good(slots, at - 1)
        && number_of(&slots[at]) == number_of(&slots[at - 1])
}

// Whether the sector is the first one of the commit that counts.
fn is_counted(slots: &[[u8; 512]], at: usize, counted: Option<CountedSlot>) -> bool
    requires { at < length slots.now }
{
    match counted {
        None => false,
        Some(counted) => counted.slot == at as u64 && counted.number == number_of(&slots[at]),
    }
}

// The sector after the last that goes on with what this one holds.
fn end_of(slots: &[[u8; 512]], at: usize) -> usize
    requires whole { length slots.now ≡ 128 }
    requires place { at < 128 }
    ensures after { at < result }
    ensures inside { result ≤ 128 }
{
    let mut end = at + 1;
    while end < 128 && goes_on(slots, end) {
        end += 1;
    }
    end
}

// The piece that begins with that sector.
fn piece_at(alloc: Global, sectors: u64, slots: &[[u8; 512]], at: usize) -> Result<Part, AllocError>
    requires whole { length slots.now ≡ 128 }
    requires most { sectors ≤ 2 ^ 32 }
    requires place { at < 128 }
    ensures has { IfOk result (λ part. HasPart sectors part) }
    ensures tail { IfOk result (λ part. HasTail slots.now part) }
{
    let slot = at - at % 32;
    let len = PIECE_BYTES * (end_of(slots, at) - slot) - NUMBERS;
    let tail = content(alloc, slots, slot, at, len)?;
    Ok(Part {
        half: half_in(&slots[at], at),
        first: sectors,
        len: 0,
        counted: false,
        check: Some(0),
        tail,
        slot: slot as u64,
        number: Some(number_of(&slots[at])),
    })
}

// The half that the numbers of a slot name, if the sector has them.
fn half_in(sector: &[u8; 512], at: usize) -> u32 {
    if at % 32 == 0 && sector[63] == 1 {
        1
    } else {
        0
    }
}

/// The first `len` bytes of what the slot that begins with that sector holds after its numbers: zeros are in the place of
/// those in the sectors before `from`.
pub(crate) fn content(
    alloc: Global,
    slots: &[[u8; 512]],
    slot: usize,
    from: usize,
    len: usize,
) -> Result<Vec<u8>, AllocError>
    requires whole { length slots.now ≡ 128 }
    requires inside { 484 * slot + len + 60 ≤ 484 * 128 }
    ensures { IfOk result (λ tail. (i : ℕ) → i < length tail.items → (slice_index tail.items i ≡ slot_byte slots.now slot i) ⊎ (slice_index tail.items i ≡ 0)) }
{
    let mut tail = Vec::new(alloc);
    for i in 0..len {
        let at = slot + (NUMBERS + i) / PIECE_BYTES;
        if at < from {
            tail.push(0)?;
        } else {
            tail.push(slots[at][PIECE_START + (NUMBERS + i) % PIECE_BYTES])?;
        }
    }
    Ok(tail)
}
