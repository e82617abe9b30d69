//! A device that is made a store.
ghost use Rattle.std.specs.Prelude.{◌≡◌, ◌≤◌, ◌<◌, ◌*◌, ◌/◌, ◌^◌, List, [], ℕ, Bool, Option, None, OnOk, slice_index_or, length};
ghost use Rattle.sector_device.specs.Disk.{Image, LeavesOnly};
ghost use Rattle.sector_device.specs.Charges.{Charges, IsSame};
ghost use Rattle.commit_slots.specs.Slots.{IsSlotOf, slot_sector, slots_capacity};
ghost use Rattle.commit_slots.specs.Finding.{IsMarked};
ghost use Rattle.slot_commits.specs.Formats.{Formatted, IsFirst, IsRest, PlanOver, PlanSome, format_calls, formatted, numbered};
ghost use Rattle.slot_commits.specs.States.{State, slot_of, tail_of};
ghost use Rattle.slot_commits.specs.Tears.{IsToldBy, tearing_by};

use checksum::crc32c;
use commit_slots::{BLOCK_BYTES, SLOT_BYTES, Slot, sectors_of_tail, slot_sector};
use sector_device::{DeviceFault, SectorDevice, write_run};

/// Makes a device that doesn't look like a store one with these bytes, which hold `seq` changes and were opened `opens`
/// times, and with this identity: all sectors of the slots, but that the first of each is wiped; the whole blocks of the bytes, into half 0;
/// sync; the first sector of each slot; sync. `Err`: one of these failed, and none was made after it.
pub fn format_slots<D: SectorDevice>(
    device: &mut D,
    bytes: &[u8],
    seq: u64,
    opens: u64,
    identity: u128,
) -> Result<(), DeviceFault>
    requires room { 128 ≤ (D.disk device.old).sectors }
    requires most { (D.disk device.old).sectors ≤ 2 ^ 32 }
    requires fits { length bytes.now ≤ slots_capacity (D.disk device.old).sectors }
    ensures same { IsSame (D.disk device.old) (D.disk device.new) }
    ensures charges { Charges (D.disk device.old) (D.disk device.new) (format_calls (length bytes.now)) result }
    ensures formatted { (torn : Option (List ℕ → Bool)) → IsToldBy torn → (D.disk device.old).honest → ((image : Image) → (tearing_by torn (D.disk device.old)).left image → IsMarked image → ⊥)
        → Formatted torn (D.disk device.old) (D.disk device.new) (formatted bytes.now seq opens identity) result }
{
    let blocks = bytes.len() as u64 / BLOCK_BYTES;
    let whole = (blocks * BLOCK_BYTES) as usize;
    let slot = Slot {
        number: 0,
        length: bytes.len() as u64,
        seq,
        opens,
        sectors: device.sectors(),
        half: 0,
        blocks: blocks as u32,
        check: crc32c(&bytes[..whole]),
        identity,
    };
    fill(device, &slot, &bytes[whole..], bytes)
}

// Writes the slots with this commit, and the whole blocks of the bytes into half 0.
fn fill<D: SectorDevice>(
    device: &mut D,
    slot: &Slot,
    tail: &[u8],
    bytes: &[u8],
) -> Result<(), DeviceFault>
    requires room { 128 ≤ (D.disk device.old).sectors }
    requires of { IsSlotOf (D.disk device.old).sectors slot.now tail.now }
    requires half { slot.now.half ≡ 0 }
    requires blocks { slot.now.blocks ≡ length bytes.now / 4096 }
    ensures same { IsSame (D.disk device.old) (D.disk device.new) }
    ensures charges { Charges (D.disk device.old) (D.disk device.new) (format_calls (length bytes.now)) result }
    ensures formatted { (torn : Option (List ℕ → Bool)) (c : State) → IsToldBy torn → (D.disk device.old).honest → ((image : Image) → (tearing_by torn (D.disk device.old)).left image → IsMarked image → ⊥)
        → slot.now ≡ slot_of c (D.disk device.old).sectors 0 → tail.now ≡ tail_of c → bytes.now ≡ c.bytes → Formatted torn (D.disk device.old) (D.disk device.new) c result }
{
    write_rests(device, slot, tail)?;
    write_run(device, 128, 8 * u64::from(slot.blocks), &[], bytes)?;
    device.sync()?;
    write_firsts(device, slot, tail)?;
    device.sync()
}

// Writes the sectors of the slots: two copies under number 0 and two under 1, but that the first of each is wiped.
fn write_rests<D: SectorDevice>(device: &mut D, slot: &Slot, tail: &[u8]) -> Result<(), DeviceFault>
    requires room { 128 ≤ (D.disk device.old).sectors }
    requires fits { length tail.now ≤ SLOT_BYTES }
    ensures same { IsSame (D.disk device.old) (D.disk device.new) }
    ensures charges { Charges (D.disk device.old) (D.disk device.new) 128 result }
    ensures any_moment { (torn : Option (List ℕ → Bool)) → (D.disk device.old).honest → LeavesOnly (tearing_by torn (D.disk device.old)) (tearing_by torn (D.disk device.new))
        (PlanSome torn (IsRest slot.now tail.now) (tearing_by torn (D.disk device.old)).left) }
    ensures written { (D.disk device.old).honest → OnOk result ((k : ℕ) → k < 128 → IsRest slot.now tail.now k (slice_index_or (D.disk device.new).seen k [])) }
{
    for k in 0..128 {
        device.write(k, &rest_sector(slot, tail, k))?;
    }
    Ok(())
}

fn rest_sector(slot: &Slot, tail: &[u8], k: u64) -> [u8; 512]
    requires fits { length tail.now ≤ SLOT_BYTES }
    requires place { k < 128 }
    ensures { IsRest slot.now tail.now k result }
{
    let place = k % 32;
    if place == 0 || sectors_of_tail(tail.len()) as u64 <= place {
        [0; 512]
    } else {
        let copy = Slot {
            number: k / 64,
            ..*slot
        };
        slot_sector(&copy, tail, place as u32)
    }
}

// Writes the first sector of each slot.
fn write_firsts<D: SectorDevice>(
    device: &mut D,
    slot: &Slot,
    tail: &[u8],
) -> Result<(), DeviceFault>
    requires room { 128 ≤ (D.disk device.old).sectors }
    requires fits { length tail.now ≤ SLOT_BYTES }
    ensures same { IsSame (D.disk device.old) (D.disk device.new) }
    ensures charges { Charges (D.disk device.old) (D.disk device.new) 4 result }
    ensures any_moment { (torn : Option (List ℕ → Bool)) → (D.disk device.old).honest → LeavesOnly (tearing_by torn (D.disk device.old)) (tearing_by torn (D.disk device.new))
        (PlanSome torn (IsFirst slot.now tail.now) (tearing_by torn (D.disk device.old)).left) }
    ensures seen { (D.disk device.old).honest → PlanOver None (IsFirst slot.now tail.now) (D.disk device.old).seen (D.disk device.new).seen }
    ensures written { (D.disk device.old).honest → OnOk result ((place : ℕ) → place < 4 → slice_index_or (D.disk device.new).seen (32 * place) [] ≡ slot_sector (numbered slot.now (place / 2)) tail.now 0) }
{
    for place in 0..4 {
        let copy = Slot {
            number: place / 2,
            ..*slot
        };
        device.write(32 * place, &slot_sector(&copy, tail, 0))?;
    }
    Ok(())
}
