//! The slots of a device, read.
ghost use Rattle.std.specs.Prelude.{◌≡◌, ◌⊎◌, ◌↔◌, ◌≤◌, ◌<◌, ◌^◌, List, ℕ, [], Bool, Option, IfOk, IsTrue, length, slice_index_or, take};
ghost use Rattle.sector_device.specs.Charges.{Charges, IsSameRead};
ghost use Rattle.sector_device.specs.Reads.{ReadCharges};
ghost use Rattle.sector_device.specs.Sectors.{KeepsImages};
ghost use Rattle.commit_slots.specs.Finding.{BeginsAs, IsMarked};
ghost use Rattle.commit_slots.specs.Sealed.{beginning, magic};
ghost use Rattle.commit_slots.specs.Slots.{Image};
ghost use Rattle.slot_commits.specs.Finds.{HasBoth, IsFound};
ghost use Rattle.slot_commits.specs.Tears.{tearing_by};

use crate::found::Found;
use commit_slots::{
    SLOT_BYTES, Slot, begins_slot, counted_in, has_magic, has_pair, highest_in, holds_copy,
};
use sector_device::{DeviceFault, ReadFault, SectorDevice};
use std::alloc::{AllocError, Global};

/// The sectors of the four slots.
const SLOTS: u64 = 128;

/// What counts in the slots of a device, what is beside it, and which numbers are used: a read of each of the 128 sectors.
pub fn find<D: SectorDevice>(alloc: Global, device: &mut D) -> Result<Found, ReadFault>
    requires room { 128 ≤ (D.disk device.old).sectors }
    requires most { (D.disk device.old).sectors ≤ 2 ^ 32 }
    ensures same { IsSameRead (D.disk device.old) (D.disk device.new) }
    ensures charges { ReadCharges (D.disk device.old) (D.disk device.new) 128 result }
    ensures keeps { (torn : Option (List ℕ → Bool)) → (D.disk device.new).honest → KeepsImages (tearing_by torn (D.disk device.old)) (tearing_by torn (D.disk device.new)) }
    ensures found { (D.disk device.new).honest → IfOk result (IsFound (D.disk device.old).seen) }
    ensures fits { IfOk result (λ found. (image : Image) × (length image ≡ (D.disk device.old).sectors) × IsFound image found) }
{
    let sectors = device.sectors();
    match read_slots(alloc, device) {
        Err(fault) => Err(fault),
        Ok(slots) => match found_in(alloc, &slots, sectors) {
            Err(_) => Err(ReadFault::Memory),
            Ok(found) => Ok(found),
        },
    }
}

// The sectors of the slots, by one read of each.
fn read_slots<D: SectorDevice>(alloc: Global, device: &mut D) -> Result<Vec<[u8; 512]>, ReadFault>
    requires { 128 ≤ (D.disk device.old).sectors }
    ensures same { IsSameRead (D.disk device.old) (D.disk device.new) }
    ensures charges { ReadCharges (D.disk device.old) (D.disk device.new) 128 result }
    ensures keeps { (torn : Option (List ℕ → Bool)) → (D.disk device.new).honest → KeepsImages (tearing_by torn (D.disk device.old)) (tearing_by torn (D.disk device.new)) }
    ensures size { IfOk result (λ slots. length slots.items ≡ 128) }
    ensures begins { (D.disk device.new).honest → IfOk result (λ slots. BeginsAs slots.items (D.disk device.old).seen) }
{
    let mut slots = Vec::new(alloc);
    let mut sector = [0; 512];
    for k in 0..SLOTS {
        match device.read(k, &mut sector) {
            Ok(()) => {}
            Err(_) => return Err(ReadFault::Device),
        }
        match slots.push(sector) {
            Ok(()) => {}
            Err(_) => return Err(ReadFault::Memory),
        }
    }
    Ok(slots)
}

// What these sectors say of a device of `sectors` sectors that begins with them.
fn found_in(alloc: Global, slots: &[[u8; 512]], sectors: u64) -> Result<Found, AllocError>
    requires whole { length slots.now ≡ 128 }
    requires room { 128 ≤ sectors }
    requires most { sectors ≤ 2 ^ 32 }
    ensures { IfOk result (λ found. (image : Image) → length image ≡ sectors → BeginsAs slots.now image → IsFound image found) }
{
    let highest = highest_in(slots);
    let marked = marks(&slots[0], &slots[32], &slots[64], &slots[96]);
    match counted_in(alloc, slots, sectors)? {
        None => Ok(Found {
            counted: None,
            both: false,
            other: false,
            highest,
            marked,
        }),
        Some(counted) => {
            let both = holds_both(slots, &counted.slot, &counted.tail);
            let other = has_pair(alloc, slots, sectors, 1 - counted.slot.number % 2)?;
            Ok(Found {
                counted: Some(counted),
                both,
                other,
                highest,
                marked,
            })
        }
    }
}

// Whether these sectors hold both copies of the commit.
fn holds_both(slots: &[[u8; 512]], slot: &Slot, tail: &[u8]) -> bool
    requires whole { length slots.now ≡ 128 }
    requires fits { length tail.now ≤ SLOT_BYTES }
    ensures { IsTrue result ↔ HasBoth slot.now tail.now slots.now }
{
    holds_copy(slots, slot, tail, 0) && holds_copy(slots, slot, tail, 1)
}

/// Whether the device looks like a store: a read of the first sector of each slot.
pub fn looks_made<D: SectorDevice>(device: &mut D) -> Result<bool, DeviceFault>
    requires { 128 ≤ (D.disk device.old).sectors }
    ensures same { IsSameRead (D.disk device.old) (D.disk device.new) }
    ensures charges { Charges (D.disk device.old) (D.disk device.new) 4 result }
    ensures keeps { (torn : Option (List ℕ → Bool)) → (D.disk device.new).honest → KeepsImages (tearing_by torn (D.disk device.old)) (tearing_by torn (D.disk device.new)) }
    ensures marked { (D.disk device.new).honest → IfOk result (λ marked. IsTrue marked ↔ IsMarked (D.disk device.old).seen) }
{
    let zeroth = read_sector(device, 0)?;
    let first = read_sector(device, 32)?;
    let second = read_sector(device, 64)?;
    let third = read_sector(device, 96)?;
    Ok(marks(&zeroth, &first, &second, &third))
}

fn read_sector<D: SectorDevice>(device: &mut D, at: u64) -> Result<[u8; 512], DeviceFault>
    requires { at < (D.disk device.old).sectors }
    ensures same { IsSameRead (D.disk device.old) (D.disk device.new) }
    ensures charges { Charges (D.disk device.old) (D.disk device.new) 1 result }
    ensures keeps { (torn : Option (List ℕ → Bool)) → (D.disk device.new).honest → KeepsImages (tearing_by torn (D.disk device.old)) (tearing_by torn (D.disk device.new)) }
    ensures sector { (D.disk device.new).honest → IfOk result (λ sector. sector ≡ slice_index_or (D.disk device.old).seen at []) }
{
    let mut sector = [0; 512];
    device.read(at, &mut sector)?;
    Ok(sector)
}

// Whether these sectors, the first of each slot, look like those of a store.
fn marks(zeroth: &[u8; 512], first: &[u8; 512], second: &[u8; 512], third: &[u8; 512]) -> bool
    ensures { IsTrue result ↔ ((take 8 zeroth.now ≡ magic) ⊎ (take 12 first.now ≡ beginning) ⊎ (take 12 second.now ≡ beginning) ⊎ (take 12 third.now ≡ beginning)) }
{
    has_magic(zeroth) || begins_slot(first) || begins_slot(second) || begins_slot(third)
}
