//! The copies of a commit, written to their slots.
ghost use Rattle.std.specs.Prelude.{◌≡◌, ◌≤◌, ◌<◌, ◌+◌, ◌*◌, ◌%◌, List, ℕ, Bool, Option, None, OnOk, [], length, slice_index_or};
ghost use Rattle.sector_device.specs.Disk.{Image, LeavesOnly};
ghost use Rattle.sector_device.specs.Charges.{Charges, IsSame};
ghost use Rattle.commit_slots.specs.Slots.{IsHeld, count_of, slot_start};
ghost use Rattle.slot_commits.specs.Firsts.{LeavesFirst};
ghost use Rattle.slot_commits.specs.Tears.{tearing_by};
ghost use Rattle.slot_commits.specs.Pairs.{AreSectors, CanLay, OutsideSome, SlotOver, SlotSome};
ghost use Rattle.slot_commits.specs.Puts.{CanPut, Put};
ghost use Rattle.slot_commits.specs.States.{Stands, State};

use commit_slots::{SLOT_BYTES, Slot, sectors_of_tail, slot_sector};
use sector_device::{DeviceFault, SectorDevice};

/// Writes a copy of the commit, 0 or 1, in ascending order of its sectors. `Err`: a write failed, and none was made
/// after it.
pub fn write_slot<D: SectorDevice>(
    device: &mut D,
    slot: &Slot,
    tail: &[u8],
    copy: u64,
) -> Result<(), DeviceFault>
    requires room { 128 ≤ (D.disk device.old).sectors }
    requires fits { length tail.now ≤ SLOT_BYTES }
    requires copy { copy ≤ 1 }
    ensures same { IsSame (D.disk device.old) (D.disk device.new) }
    ensures charges { Charges (D.disk device.old) (D.disk device.new) (count_of (length tail.now)) result }
    ensures any_moment { (torn : Option (List ℕ → Bool)) → (D.disk device.old).honest → LeavesOnly (tearing_by torn (D.disk device.old)) (tearing_by torn (D.disk device.new))
        (SlotSome torn slot.now tail.now copy (tearing_by torn (D.disk device.old)).left) }
    ensures seen { (D.disk device.old).honest → SlotOver None slot.now tail.now copy (D.disk device.old).seen (D.disk device.new).seen }
    ensures held { (D.disk device.old).honest → OnOk result (IsHeld slot.now tail.now (slot_start slot.now.number copy) (D.disk device.new).seen) }
{
    let mut sectors = [[0; 512]; 32];
    make_sectors(slot, tail, &mut sectors);
    write_copy(device, slot, tail, &sectors, copy)
}

// The same, of the sectors that were made of the slot.
fn write_copy<D: SectorDevice>(
    device: &mut D,
    slot: &Slot,
    tail: &[u8],
    sectors: &[[u8; 512]; 32],
    copy: u64,
) -> Result<(), DeviceFault>
    requires room { 128 ≤ (D.disk device.old).sectors }
    requires fits { length tail.now ≤ SLOT_BYTES }
    requires made { AreSectors slot.now tail.now sectors.now (count_of (length tail.now)) }
    requires copy { copy ≤ 1 }
    ensures same { IsSame (D.disk device.old) (D.disk device.new) }
    ensures charges { Charges (D.disk device.old) (D.disk device.new) (count_of (length tail.now)) result }
    ensures any_moment { (torn : Option (List ℕ → Bool)) → (D.disk device.old).honest → LeavesOnly (tearing_by torn (D.disk device.old)) (tearing_by torn (D.disk device.new))
        (SlotSome torn slot.now tail.now copy (tearing_by torn (D.disk device.old)).left) }
    ensures seen { (D.disk device.old).honest → SlotOver None slot.now tail.now copy (D.disk device.old).seen (D.disk device.new).seen }
    ensures held { (D.disk device.old).honest → OnOk result (IsHeld slot.now tail.now (slot_start slot.now.number copy) (D.disk device.new).seen) }
{
    let first = slot_start(slot.number, copy);
    for k in 0..sectors_of_tail(tail.len()) {
        device.write(first + k as u64, &sectors[k])?;
    }
    Ok(())
}

// Makes the sectors of a slot with this tail, once for both of its copies.
fn make_sectors(slot: &Slot, tail: &[u8], sectors: &mut [[u8; 512]; 32])
    requires fits { length tail.now ≤ SLOT_BYTES }
    ensures { AreSectors slot.now tail.now sectors.new (count_of (length tail.now)) }
{
    for k in 0..sectors_of_tail(tail.len()) {
        sectors[k] = slot_sector(slot, tail, k as u32);
    }
}

// The first sector of that copy of a commit.
fn slot_start(number: u64, copy: u64) -> u64
    requires { copy ≤ 1 }
    ensures { result ≡ slot_start number copy }
{
    64 * (number % 2) + 32 * copy
}

/// Writes both copies of the commit, and settles them: the sectors of the first, those of its mate, sync. The sync makes
/// durable all that was written before. `Err`: one of these failed, and none was made after it.
pub fn write_pair<D: SectorDevice>(
    device: &mut D,
    slot: &Slot,
    tail: &[u8],
) -> Result<(), DeviceFault>
    requires room { 128 ≤ (D.disk device.old).sectors }
    requires fits { length tail.now ≤ SLOT_BYTES }
    ensures same { IsSame (D.disk device.old) (D.disk device.new) }
    ensures charges { Charges (D.disk device.old) (D.disk device.new) (2 * count_of (length tail.now) + 1) result }
    ensures put { (torn : Option (List ℕ → Bool)) (number : ℕ) (c new : State) → CanPut torn (D.disk device.old) slot.now tail.now number c new
        → Put torn (D.disk device.old) (D.disk device.new) number c new result }
    ensures others { (D.disk device.old).honest → (k : ℕ) → 128 ≤ k → slice_index_or (D.disk device.new).seen k [] ≡ slice_index_or (D.disk device.old).seen k [] }
    ensures sector_0 { (torn : Option (List ℕ → Bool)) → (D.disk device.old).honest → LeavesFirst torn (D.disk device.old) (D.disk device.new) }
    ensures outside { (torn : Option (List ℕ → Bool)) → (D.disk device.old).honest → LeavesOnly (tearing_by torn (D.disk device.old)) (tearing_by torn (D.disk device.new))
        (OutsideSome (tearing_by torn (D.disk device.old)).left (64 * (slot.now.number % 2)) 64) }
    ensures laid { (torn : Option (List ℕ → Bool)) (new : State) → CanLay (D.disk device.old) slot.now tail.now new
        → OnOk result ((image : Image) → (tearing_by torn (D.disk device.new)).left image → Stands slot.now.number new image) }
{
    let mut sectors = [[0; 512]; 32];
    make_sectors(slot, tail, &mut sectors);
    write_copy(device, slot, tail, &sectors, 0)?;
    write_copy(device, slot, tail, &sectors, 1)?;
    device.sync()
}
