//! A copy in the half that doesn't count, and the switch to it.
ghost use Rattle.std.specs.Prelude.{◌≡◌, ◌≤◌, ◌<◌, ◌+◌, ◌-◌, ◌*◌, ◌/◌, ◌^◌, ℕ, List, Bool, Option, OnOk, OnErr, [], length, slice_index_or};
ghost use Rattle.sector_device.specs.Disk.{Image, LeavesOnly};
ghost use Rattle.sector_device.specs.Charges.{Charges, IsSame};
ghost use Rattle.sector_device.specs.Sectors.{Over, SectorsHold};
ghost use Rattle.commit_slots.specs.Slots.{block_start, half_blocks, slots_capacity};
ghost use Rattle.slot_commits.specs.Firsts.{LeavesFirst};
ghost use Rattle.slot_commits.specs.Puts.{Put};
ghost use Rattle.slot_commits.specs.States.{HoldsBlocks, Stands, State};
ghost use Rattle.slot_commits.specs.Tears.{IsToldBy, tearing_by};
ghost use Rattle.slot_journal.specs.Journaled.{slot_switched, switch_calls, switched};
ghost use Rattle.slot_journal.specs.Known.{IsFormed, Knows};

use crate::geometry::block_start;
use crate::known::{Known, put};
use checksum::crc32c;
use commit_slots::{BLOCK_BYTES, Slot};
use sector_device::{DeviceFault, SectorDevice};
use slot_commits::{commit, write_aside};

/// Writes `count` sectors of the half that doesn't count, from its sector `place` on, with the bytes, and zeros after
/// them. `Err`: a write failed, and none was made after it.
pub fn write_copy<D: SectorDevice>(
    device: &mut D,
    known: &Known,
    place: u64,
    count: u64,
    bytes: &[u8],
) -> Result<(), DeviceFault>
    requires formed { IsFormed (D.disk device.old).sectors known.now }
    requires room { place + count ≤ 8 * half_blocks known.now.slot.sectors }
    ensures same { IsSame (D.disk device.old) (D.disk device.new) }
    ensures charges { Charges (D.disk device.old) (D.disk device.new) count result }
    ensures stands { (torn : Option (List ℕ → Bool)) (c : State) → (D.disk device.old).honest → Knows known.now c
        → ((image : Image) → (tearing_by torn (D.disk device.old)).left image → Stands known.now.slot.number c image)
        → LeavesOnly (tearing_by torn (D.disk device.old)) (tearing_by torn (D.disk device.new)) (Stands known.now.slot.number c) }
    ensures sector_0 { (torn : Option (List ℕ → Bool)) → (D.disk device.old).honest → LeavesFirst torn (D.disk device.old) (D.disk device.new) }
    ensures seen { (D.disk device.old).honest → Over (block_start known.now.slot.sectors (1 - known.now.slot.half) + place) count bytes.now (D.disk device.old).seen (D.disk device.new).seen }
    ensures written { (D.disk device.old).honest → OnOk result (SectorsHold (D.disk device.new).seen (block_start known.now.slot.sectors (1 - known.now.slot.half) + place) count bytes.now) }
{
    let start = block_start(known.slot.sectors, 1 - known.slot.half);
    write_aside(device, start + place, count, bytes)
}

/// Makes the other half count, which has the whole blocks of `target`; the rest of it rides in the slot. seq rises by
/// `adds`. `Err`: a call of the device failed, and none was made after it.
pub fn switch<D: SectorDevice>(
    device: &mut D,
    known: &mut Known,
    target: &[u8],
    adds: u64,
) -> Result<(), DeviceFault>
    requires formed { IsFormed (D.disk device.old).sectors known.old }
    requires fits { length target.now ≤ slots_capacity known.old.slot.sectors }
    requires seq { known.old.slot.seq + adds < 2 ^ 64 }
    requires number { known.old.slot.number + 1 < 2 ^ 64 }
    ensures same { IsSame (D.disk device.old) (D.disk device.new) }
    ensures charges { Charges (D.disk device.old) (D.disk device.new) (switch_calls (length target.now)) result }
    ensures formed { IsFormed (D.disk device.new).sectors known.new }
    ensures slot { OnOk result (known.new.slot ≡ slot_switched known.old.slot (length target.now) adds known.new.slot.check) }
    ensures slot_stays { OnErr result (known.new ≡ known.old) }
    ensures knows { (c : State) → Knows known.old c → OnOk result (Knows known.new (switched c target.now adds)) }
    ensures put { (torn : Option (List ℕ → Bool)) (c : State) → IsToldBy torn → (D.disk device.old).honest → Knows known.old c
        → ((image : Image) → (tearing_by torn (D.disk device.old)).left image → Stands known.old.slot.number c image)
        → HoldsBlocks (length target.now / 4096) (switched c target.now adds) (D.disk device.old).seen
        → Put torn (D.disk device.old) (D.disk device.new) known.old.slot.number c (switched c target.now adds) result }
    ensures sector_0 { (torn : Option (List ℕ → Bool)) → (D.disk device.old).honest → LeavesFirst torn (D.disk device.old) (D.disk device.new) }
    ensures others { (D.disk device.old).honest → (k : ℕ) → 128 ≤ k → slice_index_or (D.disk device.new).seen k [] ≡ slice_index_or (D.disk device.old).seen k [] }
{
    let used = target.len() as u64;
    let (front, back) = target.split_at(target.len() / 4096 * 4096);
    let half = 1 - known.slot.half;
    let slot = Slot {
        number: known.slot.number + 1,
        length: used,
        seq: known.slot.seq + adds,
        half,
        blocks: (used / BLOCK_BYTES) as u32,
        check: crc32c(front),
        ..known.slot
    };
    let first = block_start(slot.sectors, half) + 8 * (used / BLOCK_BYTES);
    commit(device, first, &[], true, &slot, back)?;
    known.slot = slot;
    known.check = slot.check;
    put(&mut known.tail, 0, back);
    Ok(())
}
