//! An opening that is counted in format 3.
ghost use Rattle.std.specs.Prelude.{◌≡◌, ◌<◌, OnOk, OnErr, true};
ghost use Rattle.sector_device.specs.Charges.{Charges, IsSame};
ghost use Rattle.half_journal.specs.States.{one_more};
ghost use Rattle.slot_commits.specs.Loads.{number_end};
ghost use Rattle.store_journal.specs.Carries.{Carried, counted};
ghost use Rattle.store_journal.specs.Held.{IsOf, IsRidingFormed, SparesOther, Tried, is_settled, next_of, numbers_after, numbers_of};
ghost use Rattle.store_journal.specs.Writes.{count_calls};
ghost use Rattle.store_journal.specs.declared.held.Held.TheVariants.{InSlots};

use crate::held::Awaiting;
use commit_slots::Slot;
use sector_device::{DeviceFault, SectorDevice};
use slot_journal::{Known, append, renew};

/// Counts an opening: as a commit of no bytes, or, if the device was just read, as its first commit.
pub fn count_in_slots<D: SectorDevice>(
    device: &mut D,
    known: &mut Known,
    awaits: &mut Option<Awaiting>,
) -> Result<(), DeviceFault>
    requires formed { IsRidingFormed (D.disk device.old).sectors known.old awaits.old }
    requires number { next_of awaits.old known.old.slot < number_end }
    ensures same { IsSame (D.disk device.old) (D.disk device.new) }
    ensures charges { Charges (D.disk device.old) (D.disk device.new) (count_calls true (is_settled awaits.old) known.old.slot.length known.old.slot.blocks) result }
    ensures formed { IsRidingFormed (D.disk device.new).sectors known.new awaits.new }
    ensures numbers { OnOk result (numbers_of (InSlots known.new awaits.new) ≡ numbers_after (numbers_of (InSlots known.old awaits.old)) 2 known.old.slot.half
        known.old.slot.length known.old.slot.seq (one_more known.old.slot.opens) known.new.slot.blocks) }
    ensures stays { OnErr result (numbers_of (InSlots known.new awaits.new) ≡ numbers_of (InSlots known.old awaits.old)) }
    ensures tried { (c : Carried) → (D.disk device.old).honest → IsOf (D.disk device.old) (InSlots known.old awaits.old) c
        → Tried (D.disk device.old) (D.disk device.new) (InSlots known.new awaits.new) c (counted c) result }
    ensures others { (D.disk device.old).honest → is_settled awaits.old ≡ true → SparesOther (InSlots known.old awaits.old) (D.disk device.old).seen (D.disk device.new).seen }
{
    // The prover learns the ranges of the numbers.
    let Slot {
        seq: _seq,
        blocks: _blocks,
        check: _check,
        identity: _identity,
        opens,
        ..
    } = known.slot;
    let opens = opens.saturating_add(1);
    match *awaits {
        None => append(device, known, &[], 0, opens),
        Some(awaiting) => {
            renew(device, known, awaiting.number, awaiting.first, opens)?;
            *awaits = None;
            Ok(())
        }
    }
}
