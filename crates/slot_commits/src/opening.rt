//! The commit of an opening.
ghost use Rattle.std.specs.Prelude.{◌≡◌, ◌≤◌, ◌+◌, List, ℕ, Bool, Option, None, OnOk, length};
ghost use Rattle.sector_device.specs.Disk.{Image, LeavesOnly};
ghost use Rattle.sector_device.specs.Charges.{Charges, IsSame};
ghost use Rattle.commit_slots.specs.Slots.{IsHeld, IsSlotOf, count_of, slot_start};
ghost use Rattle.slot_commits.specs.Firsts.{LeavesFirst};
ghost use Rattle.slot_commits.specs.Pairs.{SlotOver, SlotSome};
ghost use Rattle.slot_commits.specs.Renewals.{CanRenew, Renewed, renew_calls};
ghost use Rattle.slot_commits.specs.States.{State};
ghost use Rattle.slot_commits.specs.Tears.{tearing_by};

use crate::loading::block_start;
use crate::write_slot;
use commit_slots::{BLOCK_BYTES, SLOT_BYTES, Slot};
use sector_device::{DeviceFault, SectorDevice, write_run};

/// Makes the commit of an opening: the whole blocks of the tail, after those that the slot names; then the copy `first`,
/// 0 or 1, and a sync, and its mate, and a sync. `Err`: one of these failed, and none was made after it.
pub fn renew<D: SectorDevice>(
    device: &mut D,
    slot: &Slot,
    tail: &[u8],
    first: u64,
) -> Result<(), DeviceFault>
    requires room { 128 ≤ (D.disk device.old).sectors }
    requires of { IsSlotOf (D.disk device.old).sectors slot.now tail.now }
    requires first { first ≤ 1 }
    ensures same { IsSame (D.disk device.old) (D.disk device.new) }
    ensures charges { Charges (D.disk device.old) (D.disk device.new) (renew_calls (length tail.now)) result }
    ensures renewed { (torn : Option (List ℕ → Bool)) (found new : State) → CanRenew torn (D.disk device.old) slot.now tail.now first found new
        → Renewed torn (D.disk device.old) (D.disk device.new) slot.now.number found new result }
    ensures sector_0 { (torn : Option (List ℕ → Bool)) → (D.disk device.old).honest → LeavesFirst torn (D.disk device.old) (D.disk device.new) }
{
    let start = block_start(slot.sectors, slot.half) + 8 * u64::from(slot.blocks);
    let whole = tail.len() as u64 / BLOCK_BYTES;
    write_run(device, start, 8 * whole, &[], tail)?;
    settle_slot(device, slot, tail, first)?;
    settle_slot(device, slot, tail, 1 - first)
}

// Writes a copy of the commit, 0 or 1, and settles it with all that was written before: its sectors, sync.
fn settle_slot<D: SectorDevice>(
    device: &mut D,
    slot: &Slot,
    tail: &[u8],
    copy: u64,
) -> Result<(), DeviceFault>
    requires room { 128 ≤ (D.disk device.old).sectors }
    requires fits { length tail.now ≤ SLOT_BYTES }
    requires copy { copy ≤ 1 }
    ensures same { IsSame (D.disk device.old) (D.disk device.new) }
    ensures charges { Charges (D.disk device.old) (D.disk device.new) (count_of (length tail.now) + 1) result }
    ensures any_moment { (torn : Option (List ℕ → Bool)) → (D.disk device.old).honest → LeavesOnly (tearing_by torn (D.disk device.old)) (tearing_by torn (D.disk device.new))
        (SlotSome torn slot.now tail.now copy (tearing_by torn (D.disk device.old)).left) }
    ensures seen { (D.disk device.old).honest → SlotOver None slot.now tail.now copy (D.disk device.old).seen (D.disk device.new).seen }
    ensures held { (D.disk device.old).honest → OnOk result (IsHeld slot.now tail.now (slot_start slot.now.number copy) (D.disk device.new).seen) }
    ensures settled { (torn : Option (List ℕ → Bool)) → (D.disk device.old).honest → OnOk result ((image : Image) → (tearing_by torn (D.disk device.new)).left image → image ≡ (D.disk device.new).seen) }
{
    write_slot(device, slot, tail, copy)?;
    device.sync()
}
