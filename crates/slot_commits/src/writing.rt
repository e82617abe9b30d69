//! A commit: its blocks, and then both copies of its slot.
ghost use Rattle.std.specs.Prelude.{◌≡◌, ◌⊎◌, ◌≤◌, ◌<◌, ◌+◌, ◌*◌, ◌/◌, ◌%◌, ◌^◌, List, ℕ, Bool, Option, OnOk, [], length, slice_index_or, true, if◌then◌else◌};
ghost use Rattle.sector_device.specs.Disk.{Image};
ghost use Rattle.sector_device.specs.Charges.{Charges, IsSame};
ghost use Rattle.sector_device.specs.Sectors.{KeepsImages};
ghost use Rattle.commit_slots.specs.Slots.{count_of};
ghost use Rattle.slot_commits.specs.Commits.{CanCommit};
ghost use Rattle.slot_commits.specs.Firsts.{LeavesFirst};
ghost use Rattle.slot_commits.specs.Puts.{Put};
ghost use Rattle.slot_commits.specs.States.{State};
ghost use Rattle.slot_commits.specs.Tears.{tearing_by};

use crate::write_pair;
use commit_slots::{SLOT_BYTES, Slot};
use sector_device::{DeviceFault, SECTOR_BYTES, SectorDevice, write_run};

/// Makes one commit: the whole blocks from sector `first` on, and a sync if `settles`; then both copies of the slot, and
/// a sync. `Err`: one of these failed, and none was made after it.
pub fn commit<D: SectorDevice>(
    device: &mut D,
    first: u64,
    blocks: &[u8],
    settles: bool,
    slot: &Slot,
    tail: &[u8],
) -> Result<(), DeviceFault>
    requires room { 128 ≤ (D.disk device.old).sectors }
    requires place { first + length blocks.now / 512 ≤ (D.disk device.old).sectors }
    requires small { first + length blocks.now < 2 ^ 60 }
    requires fits { length tail.now ≤ SLOT_BYTES }
    ensures same { IsSame (D.disk device.old) (D.disk device.new) }
    ensures charges { Charges (D.disk device.old) (D.disk device.new) (length blocks.now / 512 + ((if settles then 1 else 0) + (2 * count_of (length tail.now) + 1))) result }
    ensures put { (torn : Option (List ℕ → Bool)) (number : ℕ) (c new : State) (from : ℕ) → CanCommit torn (D.disk device.old) first blocks.now settles slot.now tail.now number c new from
        → Put torn (D.disk device.old) (D.disk device.new) number c new result }
    ensures others { (D.disk device.old).honest → (k : ℕ) → 128 ≤ k → (k < first) ⊎ (first + length blocks.now / 512 ≤ k)
        → slice_index_or (D.disk device.new).seen k [] ≡ slice_index_or (D.disk device.old).seen k [] }
    ensures sector_0 { (torn : Option (List ℕ → Bool)) → (D.disk device.old).honest → 128 ≤ first → LeavesFirst torn (D.disk device.old) (D.disk device.new) }
{
    write_run(
        device,
        first,
        blocks.len() as u64 / SECTOR_BYTES,
        &[],
        blocks,
    )?;
    settle(device, settles)?;
    write_pair(device, slot, tail)
}

// Makes what was written durable, if it is to be.
fn settle<D: SectorDevice>(device: &mut D, settles: bool) -> Result<(), DeviceFault>
    ensures same { IsSame (D.disk device.old) (D.disk device.new) }
    ensures charges { Charges (D.disk device.old) (D.disk device.new) (if settles then 1 else 0) result }
    ensures keeps { (torn : Option (List ℕ → Bool)) → (D.disk device.old).honest → KeepsImages (tearing_by torn (D.disk device.old)) (tearing_by torn (D.disk device.new)) }
    ensures seen { (D.disk device.old).honest → (D.disk device.new).seen ≡ (D.disk device.old).seen }
    ensures settled { (torn : Option (List ℕ → Bool)) → (D.disk device.old).honest → settles ≡ true → OnOk result ((image : Image) → (tearing_by torn (D.disk device.new)).left image → image ≡ (D.disk device.old).seen) }
{
    if settles { device.sync() } else { Ok(()) }
}
