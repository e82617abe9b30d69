//! Bytes put after the committed ones, by one commit.
ghost use Rattle.std.specs.Prelude.{◌≡◌, ◌≤◌, ◌<◌, ◌+◌, ◌++◌, ◌%◌, ◌^◌, ℕ, List, Bool, Option, OnOk, OnErr, [], length, slice_index_or};
ghost use Rattle.sector_device.specs.Disk.{Image};
ghost use Rattle.sector_device.specs.Charges.{Charges, IsSame};
ghost use Rattle.commit_slots.specs.Slots.{block_start, slots_capacity};
ghost use Rattle.slot_commits.specs.Firsts.{LeavesFirst};
ghost use Rattle.slot_commits.specs.Puts.{Put};
ghost use Rattle.slot_commits.specs.States.{Stands, State};
ghost use Rattle.slot_commits.specs.Tears.{IsToldBy, tearing_by};
ghost use Rattle.slot_journal.specs.Journaled.{append_calls, appended, slot_appended};
ghost use Rattle.slot_journal.specs.Known.{IsFormed, IsOtherHalf, Knows};

use crate::geometry::block_start;
use crate::known::{Known, put, shift};
use checksum::append as append_checksum;
use commit_slots::{BLOCK_BYTES, SLOT_BYTES, Slot};
use sector_device::{DeviceFault, SectorDevice};
use slot_commits::{commit, write_aside};

/// Puts `bytes` after the committed ones, and raises seq by `adds`; the device was opened `opens` times. What fills blocks
/// is written into the half, and the rest rides in the slot. If all that is new fits the slot, one sync makes it durable.
/// `Err`: a call of the device failed, and none was made after it.
pub fn append<D: SectorDevice>(
    device: &mut D,
    known: &mut Known,
    bytes: &[u8],
    adds: u64,
    opens: u64,
) -> Result<(), DeviceFault>
    requires formed { IsFormed (D.disk device.old).sectors known.old }
    requires fits { known.old.slot.length + length bytes.now ≤ slots_capacity known.old.slot.sectors }
    requires seq { known.old.slot.seq + adds < 2 ^ 64 }
    requires number { known.old.slot.number + 1 < 2 ^ 64 }
    ensures same { IsSame (D.disk device.old) (D.disk device.new) }
    ensures charges { Charges (D.disk device.old) (D.disk device.new) (append_calls known.old.slot.length (length bytes.now)) result }
    ensures formed { IsFormed (D.disk device.new).sectors known.new }
    ensures slot { OnOk result (known.new.slot ≡ slot_appended known.old.slot (length bytes.now) adds opens known.new.slot.check) }
    ensures slot_stays { OnErr result (known.new.slot ≡ known.old.slot) }
    ensures knows { (c : State) → Knows known.old c → OnOk result (Knows known.new (appended c bytes.now adds opens)) }
    ensures knows_still { (c : State) → Knows known.old c → OnErr result (Knows known.new c) }
    ensures put { (torn : Option (List ℕ → Bool)) (c : State) → IsToldBy torn → (D.disk device.old).honest → Knows known.old c
        → ((image : Image) → (tearing_by torn (D.disk device.old)).left image → Stands known.old.slot.number c image)
        → Put torn (D.disk device.old) (D.disk device.new) known.old.slot.number c (appended c bytes.now adds opens) result }
    ensures sector_0 { (torn : Option (List ℕ → Bool)) → (D.disk device.old).honest → LeavesFirst torn (D.disk device.old) (D.disk device.new) }
    ensures others { (D.disk device.old).honest → (k : ℕ) → IsOtherHalf known.old k
        → slice_index_or (D.disk device.new).seen k [] ≡ slice_index_or (D.disk device.old).seen k [] }
{
    let rest = (known.slot.length % BLOCK_BYTES) as usize;
    if bytes.len() <= SLOT_BYTES - rest {
        append_small(device, known, bytes, adds, opens)
    } else {
        let (front, back) = bytes.split_at(4096 - rest);
        append_large(device, known, front, back, adds, opens)
    }
}

// The same, if the bytes fit the slot with those before them that fill no block.
fn append_small<D: SectorDevice>(
    device: &mut D,
    known: &mut Known,
    bytes: &[u8],
    adds: u64,
    opens: u64,
) -> Result<(), DeviceFault>
    requires small { known.old.slot.length % 4096 + length bytes.now ≤ 15428 }
    requires formed { IsFormed (D.disk device.old).sectors known.old }
    requires fits { known.old.slot.length + length bytes.now ≤ slots_capacity known.old.slot.sectors }
    requires seq { known.old.slot.seq + adds < 2 ^ 64 }
    requires number { known.old.slot.number + 1 < 2 ^ 64 }
    ensures same { IsSame (D.disk device.old) (D.disk device.new) }
    ensures charges { Charges (D.disk device.old) (D.disk device.new) (append_calls known.old.slot.length (length bytes.now)) result }
    ensures formed { IsFormed (D.disk device.new).sectors known.new }
    ensures slot { OnOk result (known.new.slot ≡ slot_appended known.old.slot (length bytes.now) adds opens known.new.slot.check) }
    ensures slot_stays { OnErr result (known.new.slot ≡ known.old.slot) }
    ensures knows { (c : State) → Knows known.old c → OnOk result (Knows known.new (appended c bytes.now adds opens)) }
    ensures knows_still { (c : State) → Knows known.old c → OnErr result (Knows known.new c) }
    ensures put { (torn : Option (List ℕ → Bool)) (c : State) → IsToldBy torn → (D.disk device.old).honest → Knows known.old c
        → ((image : Image) → (tearing_by torn (D.disk device.old)).left image → Stands known.old.slot.number c image)
        → Put torn (D.disk device.old) (D.disk device.new) known.old.slot.number c (appended c bytes.now adds opens) result }
    ensures sector_0 { (torn : Option (List ℕ → Bool)) → (D.disk device.old).honest → LeavesFirst torn (D.disk device.old) (D.disk device.new) }
    ensures others { (D.disk device.old).honest → (k : ℕ) → IsOtherHalf known.old k
        → slice_index_or (D.disk device.new).seen k [] ≡ slice_index_or (D.disk device.old).seen k [] }
{
    let Slot {
        length,
        sectors,
        half,
        ..
    } = known.slot;
    let rest = (length % BLOCK_BYTES) as usize;
    let filled = rest + bytes.len();
    let whole = filled / 4096 * 4096;
    put(&mut known.tail, rest, bytes);
    let first = block_start(sectors, half) + 8 * (length / BLOCK_BYTES);
    let slot = Slot {
        number: known.slot.number + 1,
        length: length + bytes.len() as u64,
        seq: known.slot.seq + adds,
        opens,
        blocks: (length / BLOCK_BYTES) as u32,
        check: known.check,
        ..known.slot
    };
    commit(
        device,
        first,
        &known.tail[..whole],
        false,
        &slot,
        &known.tail[..filled],
    )?;
    known.slot = slot;
    known.check = append_checksum(known.check, &known.tail[..whole]);
    shift(&mut known.tail, whole, filled);
    Ok(())
}

// The same, if they don't. The first of them, `front`, fill a block with those before them.
fn append_large<D: SectorDevice>(
    device: &mut D,
    known: &mut Known,
    front: &[u8],
    back: &[u8],
    adds: u64,
    opens: u64,
) -> Result<(), DeviceFault>
    requires fills { known.old.slot.length % 4096 + length front.now ≡ 4096 }
    requires large { 15428 < 4096 + length back.now }
    requires formed { IsFormed (D.disk device.old).sectors known.old }
    requires fits { known.old.slot.length + length (front.now ++ back.now) ≤ slots_capacity known.old.slot.sectors }
    requires seq { known.old.slot.seq + adds < 2 ^ 64 }
    requires number { known.old.slot.number + 1 < 2 ^ 64 }
    ensures same { IsSame (D.disk device.old) (D.disk device.new) }
    ensures charges { Charges (D.disk device.old) (D.disk device.new) (append_calls known.old.slot.length (length (front.now ++ back.now))) result }
    ensures formed { IsFormed (D.disk device.new).sectors known.new }
    ensures slot { OnOk result (known.new.slot ≡ slot_appended known.old.slot (length (front.now ++ back.now)) adds opens known.new.slot.check) }
    ensures slot_stays { OnErr result (known.new.slot ≡ known.old.slot) }
    ensures knows { (c : State) → Knows known.old c → OnOk result (Knows known.new (appended c (front.now ++ back.now) adds opens)) }
    ensures knows_still { (c : State) → Knows known.old c → OnErr result (Knows known.new c) }
    ensures put { (torn : Option (List ℕ → Bool)) (c : State) → IsToldBy torn → (D.disk device.old).honest → Knows known.old c
        → ((image : Image) → (tearing_by torn (D.disk device.old)).left image → Stands known.old.slot.number c image)
        → Put torn (D.disk device.old) (D.disk device.new) known.old.slot.number c (appended c (front.now ++ back.now) adds opens) result }
    ensures sector_0 { (torn : Option (List ℕ → Bool)) → (D.disk device.old).honest → LeavesFirst torn (D.disk device.old) (D.disk device.new) }
    ensures others { (D.disk device.old).honest → (k : ℕ) → IsOtherHalf known.old k
        → slice_index_or (D.disk device.new).seen k [] ≡ slice_index_or (D.disk device.old).seen k [] }
{
    let Slot {
        length,
        sectors,
        half,
        ..
    } = known.slot;
    let rest = (length % BLOCK_BYTES) as usize;
    let filled = rest + front.len();
    let whole = back.len() / 4096 * 4096;
    put(&mut known.tail, rest, front);
    let first = block_start(sectors, half) + 8 * (length / BLOCK_BYTES);
    write_aside(device, first, 8, &known.tail[..filled])?;
    let check = append_checksum(
        append_checksum(known.check, &known.tail[..filled]),
        &back[..whole],
    );
    let length = length + (front.len() + back.len()) as u64;
    let slot = Slot {
        number: known.slot.number + 1,
        length,
        seq: known.slot.seq + adds,
        opens,
        blocks: (length / BLOCK_BYTES) as u32,
        check,
        ..known.slot
    };
    commit(
        device,
        first + 8,
        &back[..whole],
        true,
        &slot,
        &back[whole..],
    )?;
    known.slot = slot;
    known.check = check;
    put(&mut known.tail, 0, &back[whole..]);
    Ok(())
}
