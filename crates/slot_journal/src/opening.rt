//! The opening of a device in blocks and slots: what is known of what was read, and its commit.
ghost use Rattle.std.specs.Prelude.{◌≡◌, ◌≤◌, ◌+◌, ◌-◌, ◌*◌, ℕ, List, Bool, Option, OnOk, OnErr, IfOk, length, take, drop};
ghost use Rattle.sector_device.specs.Disk.{Image};
ghost use Rattle.sector_device.specs.Charges.{Charges, IsSame};
ghost use Rattle.commit_slots.specs.Slots.{IsSlotOf};
ghost use Rattle.slot_commits.specs.Firsts.{LeavesFirst};
ghost use Rattle.slot_commits.specs.Loads.{Awaits};
ghost use Rattle.slot_commits.specs.Renewals.{Renewed, renew_calls};
ghost use Rattle.slot_commits.specs.States.{State};
ghost use Rattle.slot_commits.specs.Tears.{IsToldBy, tearing_by};
ghost use Rattle.slot_journal.specs.Journaled.{opened, slot_opened};
ghost use Rattle.slot_journal.specs.Known.{IsFormed, Knows, KnowsFound};

use crate::known::{Known, put, shift};
use checksum::append as append_checksum;
use commit_slots::{BLOCK_BYTES, SLOT_BYTES, Slot};
use sector_device::{DeviceFault, SectorDevice};
use std::alloc::{AllocError, Global};

/// What is known of a commit that was read, until its opening is counted: its slot, and the bytes after the blocks that
/// it names. `Err`: there is no memory for the buffer.
pub fn recovered(alloc: Global, slot: Slot, bytes: &[u8]) -> Result<Known, AllocError>
    requires blocks { 4096 * slot.blocks ≤ length bytes.now }
    requires short { length bytes.now ≤ 4096 * slot.blocks + 15428 }
    ensures numbers { IfOk result (λ known. (known.slot ≡ slot) × (known.check ≡ slot.check) × (length known.tail.items ≡ 15428)) }
    ensures tail { IfOk result (λ known. take (length bytes.now - 4096 * slot.blocks) known.tail.items ≡ drop (4096 * slot.blocks) bytes.now) }
{
    let mut tail = vec![in alloc; 0; SLOT_BYTES]?;
    let first = (BLOCK_BYTES * u64::from(slot.blocks)) as usize;
    put(&mut tail, 0, &bytes[first..]);
    Ok(Known {
        slot,
        check: slot.check,
        tail,
    })
}

/// Counts an opening of what was read: the commit of that, under this number, opened `opens` times. Its copy `first`, 0 or
/// 1, is written first. `Err`: a call of the device failed, and none was made after it.
pub fn renew<D: SectorDevice>(
    device: &mut D,
    known: &mut Known,
    number: u64,
    first: u64,
    opens: u64,
) -> Result<(), DeviceFault>
    requires formed { IsFormed (D.disk device.old).sectors known.old }
    requires first { first ≤ 1 }
    requires of { IsSlotOf (D.disk device.old).sectors (slot_opened known.old.slot number opens) (take (known.old.slot.length - 4096 * known.old.slot.blocks) known.old.tail.items) }
    ensures same { IsSame (D.disk device.old) (D.disk device.new) }
    ensures charges { Charges (D.disk device.old) (D.disk device.new) (renew_calls (known.old.slot.length - 4096 * known.old.slot.blocks)) result }
    ensures formed { IsFormed (D.disk device.new).sectors known.new }
    ensures slot { OnOk result (known.new.slot ≡ slot_opened known.old.slot number opens) }
    ensures slot_stays { OnErr result (known.new ≡ known.old) }
    ensures knows { (c : State) → KnowsFound known.old c → OnOk result (Knows known.new (opened c opens)) }
    ensures renewed { (torn : Option (List ℕ → Bool)) (c : State) → IsToldBy torn → (D.disk device.old).honest → KnowsFound known.old c
        → ((image : Image) → (tearing_by torn (D.disk device.old)).left image → image ≡ (D.disk device.old).seen) → Awaits number first c (D.disk device.old).seen
        → Renewed torn (D.disk device.old) (D.disk device.new) number c (opened c opens) result }
    ensures sector_0 { (torn : Option (List ℕ → Bool)) → (D.disk device.old).honest → LeavesFirst torn (D.disk device.old) (D.disk device.new) }
{
    let slot = Slot {
        number,
        opens,
        ..known.slot
    };
    let rest = (slot.length - BLOCK_BYTES * u64::from(slot.blocks)) as usize;
    slot_commits::renew(device, &slot, &known.tail[..rest], first)?;
    let whole = rest / 4096 * 4096;
    known.slot = slot;
    known.check = append_checksum(known.check, &known.tail[..whole]);
    shift(&mut known.tail, whole, rest);
    Ok(())
}
