//! The commit that counts, of those in the four slots.
ghost use Rattle.std.specs.Prelude.{◌≡◌, ◌⊎◌, ◌↔◌, ◌≤◌, ◌<◌, ◌+◌, ◌*◌, ◌^◌, [], ℕ, IfOk, IsTrue, length, slice_index_or};
ghost use Rattle.commit_slots.specs.Sealed.{Verifies, number_of};
ghost use Rattle.commit_slots.specs.Slots.{Image, IsHeld, slot_start};
ghost use Rattle.commit_slots.specs.Finding.{BeginsAs, HasPair, IsBestOf, IsFoundAt, IsFoundIn};

use crate::found::{SLOT_SECTORS, is_held, slot_in};
use crate::sealed::{is_sealed, number_of};
use crate::slot::Slot;
use crate::spread::SLOT_BYTES;
use std::alloc::{AllocError, Global};

/// A commit that was found.
#[derive(Drop)]
pub struct Counted {
    pub slot: Slot,
    /// The last committed bytes, which the slot holds itself.
    pub tail: Vec<u8>,
    /// Which of its two copies, 0 or 1.
    pub copy: u64,
}

/// The commit that counts on a device of `sectors` sectors that begins with these 128: a valid copy of the highest
/// number, the first of two. `None`: no copy is valid. `Err`: there is no memory for a tail.
pub fn counted_in(
    alloc: Global,
    slots: &[[u8; 512]],
    sectors: u64,
) -> Result<Option<Counted>, AllocError>
    requires whole { length slots.now ≡ 128 }
    requires most { sectors ≤ 2 ^ 32 }
    ensures { IfOk result (λ found. (image : Image) → length image ≡ sectors → BeginsAs slots.now image → IsFoundIn image found) }
{
    let first = copy_in(alloc, slots, 0, sectors)?;
    let second = copy_in(alloc, slots, 1, sectors)?;
    let even = higher(first, second);
    let third = copy_in(alloc, slots, 2, sectors)?;
    let three = higher(even, third);
    let fourth = copy_in(alloc, slots, 3, sectors)?;
    Ok(higher(three, fourth))
}

// The copy in that slot.
fn copy_in(
    alloc: Global,
    slots: &[[u8; 512]],
    place: u64,
    sectors: u64,
) -> Result<Option<Counted>, AllocError>
    requires whole { length slots.now ≡ 128 }
    requires most { sectors ≤ 2 ^ 32 }
    requires place { place < 4 }
    ensures { IfOk result (λ found. (image : Image) → length image ≡ sectors → BeginsAs slots.now image → IsFoundAt place image found) }
{
    let first = SLOT_SECTORS * place as usize;
    match slot_in(alloc, &slots[first..first + SLOT_SECTORS], sectors)? {
        None => Ok(None),
        Some((slot, tail)) => {
            if slot.number % 2 == place / 2 {
                Ok(Some(Counted {
                    slot,
                    tail,
                    copy: place % 2,
                }))
            } else {
                Ok(None)
            }
        }
    }
}

// The one of the higher number, or the first: the second is from the slot after those of the first.
fn higher(one: Option<Counted>, other: Option<Counted>) -> Option<Counted>
    ensures { (image : Image) (places : ℕ) → IsBestOf places image one → IsFoundAt places image other → IsBestOf (places + 1) image result }
{
    match (one, other) {
        (one, None) => one,
        (None, Some(other)) => Some(other),
        (Some(one), Some(other)) => {
            if one.slot.number < other.slot.number {
                Some(other)
            } else {
                Some(one)
            }
        }
    }
}

/// Whether a copy of a commit is valid whose number is even, or odd: `pair` 0 or 1. `Err`: there is no memory for a tail.
pub fn has_pair(
    alloc: Global,
    slots: &[[u8; 512]],
    sectors: u64,
    pair: u64,
) -> Result<bool, AllocError>
    requires whole { length slots.now ≡ 128 }
    requires most { sectors ≤ 2 ^ 32 }
    requires pair { pair ≤ 1 }
    ensures { IfOk result (λ has. (image : Image) → length image ≡ sectors → BeginsAs slots.now image → (IsTrue has ↔ HasPair pair image)) }
{
    let first = copy_in(alloc, slots, 2 * pair, sectors)?;
    let mate = copy_in(alloc, slots, 2 * pair + 1, sectors)?;
    Ok(is_either(first, mate))
}

// Whether there is one in either of the slots of a pair.
fn is_either(first: Option<Counted>, mate: Option<Counted>) -> bool
    ensures { (image : Image) (pair : ℕ) → pair ≤ 1 → IsFoundAt (2 * pair) image first → IsFoundAt (2 * pair + 1) image mate → (IsTrue result ↔ HasPair pair image) }
{
    match (first, mate) {
        (Some(_), _) => true,
        (None, Some(_)) => true,
        (None, None) => false,
    }
}

/// Whether these sectors hold that copy, 0 or 1, of the commit.
pub fn holds_copy(slots: &[[u8; 512]], slot: &Slot, tail: &[u8], copy: u64) -> bool
    requires whole { length slots.now ≡ 128 }
    requires fits { length tail.now ≤ SLOT_BYTES }
    requires copy { copy ≤ 1 }
    ensures { IsTrue result ↔ IsHeld slot.now tail.now (slot_start slot.now.number copy) slots.now }
{
    let first = SLOT_SECTORS * (2 * (slot.number % 2) + copy) as usize;
    is_held(slot, tail, &slots[first..first + SLOT_SECTORS])
}

/// The highest number of the sectors that verify, or 0.
pub fn highest_in(slots: &[[u8; 512]]) -> u64
    ensures above { (k : ℕ) → k < length slots.now → Verifies (slice_index_or slots.now k []) → number_of (slice_index_or slots.now k []) ≤ result }
    ensures reached { (result ≡ 0) ⊎ ((k : ℕ) × (k < length slots.now) × Verifies (slice_index_or slots.now k []) × (number_of (slice_index_or slots.now k []) ≡ result)) }
{
    let mut highest = 0;
    for sector in slots {
        if is_sealed(sector) && number_of(sector) > highest {
            highest = number_of(sector);
        }
    }
    highest
}
