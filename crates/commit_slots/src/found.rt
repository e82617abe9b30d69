//! The commit that a slot holds, read from its sectors.
ghost use Rattle.std.specs.Prelude.{◌≡◌, ◌≤◌, ◌*◌, ◌+◌, ◌-◌, ◌^◌, ◌↔◌, List, ℕ, take, drop, IfOk, IfSome, IfNone, MatchOption, IsTrue, length};
ghost use Rattle.std.specs.Int.{w32, w64, w128, from_be_bytes};
ghost use Rattle.commit_slots.specs.Slots.{IsHeld, IsSlotOf, count_of, slot_sector, slots_capacity};
ghost use Rattle.commit_slots.specs.declared.slot.Slot.{Slot};

use crate::sealed::number_of;
use crate::slot::Slot;
use crate::spread::{NUMBERS, SLOT_BYTES, sectors_of_tail, slot_sector};
use std::alloc::{AllocError, Global};

/// The sectors of a slot.
pub const SLOT_SECTORS: usize = 32;

/// The bytes of a block.
pub const BLOCK_BYTES: u64 = 4096;

/// The commit of a device of `sectors` sectors that these 32 hold, and its tail. `None`: they hold none. `Err`: there
/// is no memory for the tail.
pub fn slot_in(
    alloc: Global,
    slot: &[[u8; 512]],
    sectors: u64,
) -> Result<Option<(Slot, Vec<u8>)>, AllocError>
    requires whole { length slot.now ≡ 32 }
    requires most { sectors ≤ 2 ^ 32 }
    ensures { IfOk result (λ found. MatchOption found
        ((one : Slot) (tail : List ℕ) → IsSlotOf sectors one tail → IsHeld one tail 0 slot.now → ⊥)
        (λ held. IsSlotOf sectors held.0 held.1.items × IsHeld held.0 held.1.items 0 slot.now)) }
{
    let one = said_in(&slot[0]);
    match tail_of(&one, sectors) {
        None => Ok(None),
        Some(bytes) => {
            let tail = tail_in(alloc, slot, bytes)?;
            if is_held(&one, &tail, slot) {
                Ok(Some((one, tail)))
            } else {
                Ok(None)
            }
        }
    }
}

// What the numbers say of a slot that begins with this sector.
fn said_in(first: &[u8; 512]) -> Slot
    ensures { (sectors : ℕ) (slot : Slot) (tail : List ℕ) → IsSlotOf sectors slot tail → first.now ≡ slot_sector slot tail 0 → result ≡ slot }
{
    Slot {
        number: number_of(first),
        length: u64_at(first, 28),
        seq: u64_at(first, 36),
        opens: u64_at(first, 44),
        sectors: u64_at(first, 52),
        half: u32_at(first, 60),
        blocks: u32_at(first, 64),
        check: u32_at(first, 68),
        identity: u128_at(first, 72),
    }
}

// How long the tail is, if these are numbers of a commit of such a device.
fn tail_of(slot: &Slot, sectors: u64) -> Option<usize>
    requires { sectors ≤ 2 ^ 32 }
    ensures some { IfSome result (λ bytes. (tail : List ℕ) → length tail ≡ bytes → IsSlotOf sectors slot.now tail) }
    ensures short { IfSome result (λ bytes. bytes ≤ SLOT_BYTES) }
    ensures long { IfSome result (λ bytes. slot.now.length ≡ 4096 * slot.now.blocks + bytes) }
    ensures none { IfNone result ((tail : List ℕ) → IsSlotOf sectors slot.now tail → ⊥) }
{
    let whole = u64::from(slot.blocks) * BLOCK_BYTES;
    if slot.sectors != sectors || slot.half > 1 || slot.length < whole {
        return None;
    }
    let tail = slot.length - whole;
    if tail > SLOT_BYTES as u64 || slot.length > slots_capacity(sectors) {
        return None;
    }
    Some(tail as usize)
}

/// The bytes that a half of a device of `sectors` sectors holds: its whole blocks, but for those of checks.
pub fn slots_capacity(sectors: u64) -> u64
    requires { sectors ≤ 2 ^ 32 }
    ensures { result ≡ slots_capacity sectors }
{
    let blocks = sectors.saturating_sub(128) / 16;
    (blocks - (blocks + 1024) / 1025) * BLOCK_BYTES
}

// The bytes of the tail in the pieces.
fn tail_in(alloc: Global, slot: &[[u8; 512]], bytes: usize) -> Result<Vec<u8>, AllocError>
    requires whole { length slot.now ≡ 32 }
    requires short { bytes ≤ SLOT_BYTES }
    ensures size { IfOk result (λ tail. length tail.items ≡ bytes) }
    ensures read { IfOk result (λ tail. (one : Slot) (was : List ℕ) → length was ≡ bytes → IsHeld one was 0 slot.now → tail.items ≡ was) }
{
    let mut tail = Vec::new(alloc);
    for k in 0..sectors_of_tail(bytes) {
        let from = piece_start(k);
        let count = (512 - from).min(bytes - tail.len());
        tail.extend_from_slice(&slot[k][from..from + count])?;
    }
    Ok(tail)
}

// The byte of sector k at which the tail begins or goes on: after the numbers, which are in sector 0 alone.
fn piece_start(k: usize) -> usize
    ensures { result ≡ 28 + (60 - 484 * k) }
{
    if k == 0 { 28 + NUMBERS } else { 28 }
}

// Whether the sectors are those of the slot with this tail.
pub(crate) fn is_held(one: &Slot, tail: &[u8], slot: &[[u8; 512]]) -> bool
    requires whole { length slot.now ≡ 32 }
    requires fits { length tail.now ≤ SLOT_BYTES }
    ensures { IsTrue result ↔ IsHeld one.now tail.now 0 slot.now }
{
    for k in 0..sectors_of_tail(tail.len()) {
        if slot_sector(one, tail, k as u32) != slot[k] {
            return false;
        }
    }
    true
}

fn u64_at(sector: &[u8; 512], at: usize) -> u64
    requires { at + 8 ≤ 512 }
    ensures { result ≡ from_be_bytes w64 (take 8 (drop at sector.now)) }
{
    u64::from_be_bytes([
        sector[at],
        sector[at + 1],
        sector[at + 2],
        sector[at + 3],
        sector[at + 4],
        sector[at + 5],
        sector[at + 6],
        sector[at + 7],
    ])
}

fn u128_at(sector: &[u8; 512], at: usize) -> u128
    requires { at + 16 ≤ 512 }
    ensures { result ≡ from_be_bytes w128 (take 16 (drop at sector.now)) }
{
    let mut bytes = [0; 16];
    bytes.copy_from_slice(&sector[at..at + 16]);
    u128::from_be_bytes(bytes)
}

fn u32_at(sector: &[u8; 512], at: usize) -> u32
    requires { at + 4 ≤ 512 }
    ensures { result ≡ from_be_bytes w32 (take 4 (drop at sector.now)) }
{
    u32::from_be_bytes([sector[at], sector[at + 1], sector[at + 2], sector[at + 3]])
}

#[cfg(test)]
mod tests {
    use super::*;
    use crate::sealed::begins;

    const ONE: Slot = Slot {
        number: 7,
        length: 2 * 4096 + 1000,
        seq: 5,
        opens: 3,
        sectors: 2048,
        half: 1,
        blocks: 2,
        check: 77,
        identity: 0x0123_4567_89ab_cdef_fedc_ba98_7654_3210,
    };

    // A slot of three sectors, with the checksums that another program gives them: it counts whole or not at all.
    #[test]
    fn a_slot_is_read_back(rt: HostRuntime) {
        let alloc = rt.alloc();
        let tail = [9; 1000];
        let mut all = [[0; 512]; 32];
        for k in 0..3 {
            all[k as usize] = slot_sector(&ONE, &tail, k);
        }
        assert!(rt; begins(&all[0], 12, b"\x61\x9e\x49\xe4"));
        assert!(rt; begins(&all[1], 12, b"\x30\x89\x2f\xb8"));
        assert!(rt; begins(&all[2], 12, b"\x6d\x25\xdd\x81"));
        let found = slot_in(alloc, &all, 2048).expect(&rt, "room");
        let (one, tail) = found.expect(&rt, "a commit");
        assert!(rt; one == ONE && tail.len() == 1000 && tail[999] == 9);
        all[2][100] = 8;
        assert!(rt; slot_in(alloc, &all, 2048).expect(&rt, "room").is_none());
    }
}
