//! A journal in format 2 that is brought to format 3, in place.
ghost use Rattle.std.specs.Prelude.{◌≡◌, ◌≤◌, ◌<◌, ◌+◌, ◌*◌, ◌/◌, ◌%◌, ◌^◌, ℕ, List, Bool, Option, IfErr, IfOk, OnOk, OnErr, None, false, true, length};
ghost use Rattle.sector_device.specs.Disk.{LeavesOnly};
ghost use Rattle.sector_device.specs.Charges.{IsSameRead, Made};
ghost use Rattle.sector_device.specs.Sectors.{KeepsImages};
ghost use Rattle.commit_slots.specs.Slots.{slots_capacity};
ghost use Rattle.half_journal.specs.Known.{IsFormed as IsHalfFormed};
ghost use Rattle.half_journal.specs.declared.known.HalfKnown.{HalfKnown};
ghost use Rattle.slot_commits.specs.Converts.{CanConvert};
ghost use Rattle.slot_commits.specs.Formats.{formatted};
ghost use Rattle.slot_commits.specs.Loads.{number_end};
ghost use Rattle.slot_commits.specs.States.{slot_of};
ghost use Rattle.slot_commits.specs.Tears.{IsToldBy};
ghost use Rattle.store_journal.specs.Carries.{Carried, EitherCarried, turned};
ghost use Rattle.store_journal.specs.Held.{IsFormed, IsInHalf, IsInSlots, IsOf, IsRidingFormed, Tried, bytes_in, numbers_of};
ghost use Rattle.store_journal.specs.Layout.{FitsBetween};
ghost use Rattle.store_journal.specs.Turning.{LeavesNumbers, TurnRefusal, numbers_turned};
ghost use Rattle.store_journal.specs.Writes.{upgrade_calls};
ghost use Rattle.store_journal.specs.declared.held.Held.TheVariants.{InHalf};

use crate::fault::JournalFault;
use crate::held::Held;
use checksum::crc32c;
use commit_slots::{BLOCK_BYTES, Slot};
use half_journal::{Commit, HalfKnown};
use refusals::numbers::{DEVICE, MEMORY, SEQ_END};
use sector_device::{ReadFault, SectorDevice};
use slot_commits::{NUMBER_END, convert, find};
use slot_journal::{Known, recovered};
use std::alloc::Global;

/// Brings a journal in format 2 whose half 1 counts to format 3 with this identity, with `target` as its bytes, in half 0. `MEMORY` or
/// `SEQ_END`: nothing was written. `DEVICE`: a call of the device failed, and none was made after it.
pub fn upgrade<D: SectorDevice>(
    alloc: Global,
    device: &mut D,
    held: &mut Held,
    identity: u128,
    target: &[u8],
) -> Result<(), JournalFault>
    requires formed { IsFormed (D.disk device.old).sectors held.old }
    requires plain { (numbers_of held.old).rides ≡ false }
    requires half { (numbers_of held.old).half ≡ 1 }
    requires between { FitsBetween (numbers_of held.old).sectors (length target.now) }
    ensures same { IsSameRead (D.disk device.old) (D.disk device.new) }
    ensures made { OnOk result (Made (D.disk device.old) (D.disk device.new) (upgrade_calls (length target.now))) }
    ensures refused { IfErr result (λ fault. TurnRefusal (D.disk device.old) (D.disk device.new) (upgrade_calls (length target.now)) fault.number) }
    ensures leaves { (D.disk device.new).honest → OnOk result (LeavesNumbers (D.disk device.old).seen) }
    ensures formed { IsFormed (D.disk device.new).sectors held.new }
    ensures numbers { OnOk result (numbers_of held.new ≡ numbers_turned (numbers_of held.old) true identity (length target.now) (numbers_of held.new).next (numbers_of held.new).blocks) }
    ensures next { OnOk result ((numbers_of held.new).next < number_end) }
    ensures stays { OnErr result (held.new ≡ held.old) }
    ensures tried { (c : Carried) → (D.disk device.new).honest → IsOf (D.disk device.old) held.old c → Tried (D.disk device.old) (D.disk device.new) held.new c (turned true identity c target.now) result }
{
    match held {
        Held::InHalf(known) => {
            let known = to_slots(alloc, device, *known, identity, target)?;
            *held = Held::InSlots {
                known,
                awaits: None,
            };
            Ok(())
        }
        Held::InSlots { .. } => unreachable!(),
    }
}

// The same, of what is known in format 2: what is then known in format 3.
fn to_slots<D: SectorDevice>(
    alloc: Global,
    device: &mut D,
    known: HalfKnown,
    identity: u128,
    target: &[u8],
) -> Result<Known, JournalFault>
    requires formed { IsHalfFormed (D.disk device.old).sectors known }
    requires half { known.commit.half ≡ 1 }
    requires between { FitsBetween known.commit.sectors (length target.now) }
    ensures same { IsSameRead (D.disk device.old) (D.disk device.new) }
    ensures made { OnOk result (Made (D.disk device.old) (D.disk device.new) (upgrade_calls (length target.now))) }
    ensures refused { IfErr result (λ fault. TurnRefusal (D.disk device.old) (D.disk device.new) (upgrade_calls (length target.now)) fault.number) }
    ensures leaves { (D.disk device.new).honest → OnOk result (LeavesNumbers (D.disk device.old).seen) }
    ensures formed { IfOk result (λ slots. IsRidingFormed (D.disk device.new).sectors slots None) }
    ensures slot { IfOk result (λ slots. slots.slot ≡ slot_of (formatted target.now known.commit.seq known.commit.opens identity) known.commit.sectors slots.slot.number) }
    ensures next { IfOk result (λ slots. slots.slot.number + 1 < number_end) }
    ensures any_moment { (c : Carried) → (D.disk device.new).honest → IsInHalf (D.disk device.old) known c → LeavesOnly (D.disk device.old) (D.disk device.new) (EitherCarried c (turned true identity c target.now)) }
    ensures done { (c : Carried) → (D.disk device.new).honest → IsInHalf (D.disk device.old) known c → IfOk result (λ slots. IsInSlots (D.disk device.new) slots (turned true identity c target.now)) }
    ensures stays { (c : Carried) → (D.disk device.new).honest → IsInHalf (D.disk device.old) known c → bytes_in (D.disk device.new).seen (InHalf known) ≡ c.bytes }
{
    let Commit { seq, opens, .. } = known.commit;
    let number = settle_numbers(alloc, device)?;
    let slot = slot_for(target, known.commit, identity, number + 1);
    let slots = match recovered(alloc, slot, target) {
        Ok(slots) => slots,
        Err(_) => return Err(JournalFault { number: MEMORY }),
    };
    match convert(device, target, seq, opens, identity, number) {
        Ok(()) => Ok(slots),
        Err(_) => Err(JournalFault { number: DEVICE }),
    }
}

// Settles the device, and finds the number of the first commit: the least odd one above those of older slots.
fn settle_numbers<D: SectorDevice>(alloc: Global, device: &mut D) -> Result<u64, JournalFault>
    requires room { 128 ≤ (D.disk device.old).sectors }
    requires most { (D.disk device.old).sectors ≤ 2 ^ 32 }
    ensures same { IsSameRead (D.disk device.old) (D.disk device.new) }
    ensures keeps { (D.disk device.new).honest → KeepsImages (D.disk device.old) (D.disk device.new) }
    ensures made { OnOk result (Made (D.disk device.old) (D.disk device.new) 129) }
    ensures refused { IfErr result (λ fault. TurnRefusal (D.disk device.old) (D.disk device.new) 129 fault.number) }
    ensures leaves { (D.disk device.new).honest → OnOk result (LeavesNumbers (D.disk device.old).seen) }
    ensures odd { IfOk result (λ number. (number % 2 ≡ 1) × (number + 2 < number_end)) }
    ensures can { (torn : Option (List ℕ → Bool)) → IsToldBy torn → (D.disk device.new).honest → IfOk result (CanConvert torn (D.disk device.new)) }
{
    match device.sync() {
        Ok(()) => {}
        Err(_) => return Err(JournalFault { number: DEVICE }),
    }
    let highest = match find(alloc, device) {
        Ok(found) => found.highest,
        Err(ReadFault::Memory) => return Err(JournalFault { number: MEMORY }),
        Err(ReadFault::Device) => return Err(JournalFault { number: DEVICE }),
    };
    if highest >= NUMBER_END - 3 {
        return Err(JournalFault { number: SEQ_END });
    }
    Ok(highest + 1 + highest % 2)
}

// The slot of a commit of the target with that one's numbers: half 0 has all its whole blocks.
fn slot_for(target: &[u8], commit: Commit, identity: u128, number: u64) -> Slot
    requires fits { length target.now ≤ slots_capacity commit.sectors }
    requires most { commit.sectors ≤ 2 ^ 32 }
    ensures { result ≡ slot_of (formatted target.now commit.seq commit.opens identity) commit.sectors number }
{
    let blocks = target.len() as u64 / BLOCK_BYTES;
    let whole = (blocks * BLOCK_BYTES) as usize;
    Slot {
        number,
        length: target.len() as u64,
        seq: commit.seq,
        opens: commit.opens,
        sectors: commit.sectors,
        half: 0,
        blocks: blocks as u32,
        check: crc32c(&target[..whole]),
        identity,
    }
}
