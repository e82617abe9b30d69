//! The one function that puts other bytes in the place of a journal's. It takes no memory.
ghost use Rattle.std.specs.Prelude.{◌≡◌, ◌↔◌, ◌+◌, ◌<◌, ◌≤◌, IfOk, IfErr, length, false, true};
ghost use Rattle.sector_device.specs.Disk.{LeavesOnly};
ghost use Rattle.store_journal.specs.Layout.{capacity_of};
ghost use Rattle.sector_device.specs.Sectors.{sectors_of};
ghost use Rattle.slot_commits.specs.Loads.{number_end};
ghost use Rattle.store_journal.specs.Calls.{Broke, Switched};
ghost use Rattle.store_journal.specs.Carries.{EitherCarried, switched};
ghost use Rattle.store_journal.specs.JournalView.{IsKept, carried_of};
ghost use Rattle.store_journal.specs.Models.{model};
ghost use Rattle.store_journal.specs.Writes.{switch_calls};
ghost use Rattle.doc_changes.specs.Refusals.{plain};
ghost use Rattle.refusals.specs.declared.numbers.TheConstants.{DEVICE};

use doc_machine::Refusal;
use refusals::numbers::DEVICE;
use sector_device::SectorDevice;
use store_journal::Journal;

/// Fills the other half with the bytes, then makes it the one that counts, and answers their number.
pub fn commit_snapshot<D: SectorDevice>(
    journal: &mut Journal<D>,
    target: &[u8],
) -> Result<u64, Refusal>
    requires version { journal.old.version ≡ 2 }
    requires settled { journal.old.settled ≡ true }
    requires number { journal.old.next < number_end }
    requires works { journal.old.broken ≡ false }
    requires fits { length target.now ≤ capacity_of journal.old.rides journal.old.sectors }
    ensures ok { IfOk result (λ used. Switched (D.disk journal.old.device) (D.disk journal.new.device) journal.old journal.new target.now (sectors_of (length target.now) + switch_calls journal.old.rides (length target.now))
        × (used ≡ length target.now)) }
    ensures err { IfErr result (λ refusal. (refusal ≡ plain DEVICE)
        × Broke (D.disk journal.old.device) (D.disk journal.new.device) (sectors_of (length target.now) + switch_calls journal.old.rides (length target.now)) journal.old journal.new) }
    ensures any_moment { (D.disk journal.old.device).honest → LeavesOnly (model journal.old.rides (D.disk journal.old.device)) (model journal.old.rides (D.disk journal.new.device))
        (EitherCarried (carried_of journal.old) (switched (carried_of journal.old) target.now)) }
    ensures kept { IsKept (D.disk journal.new.device) journal.new }
    ensures honest { (D.disk journal.old.device).honest ↔ (D.disk journal.new.device).honest }
{
    let Ok(_) = journal.copy_step(target, 0, u64::MAX) else {
        return Err(Refusal::plain(DEVICE));
    };
    let Ok(()) = journal.switch(target) else {
        return Err(Refusal::plain(DEVICE));
    };
    Ok(target.len() as u64)
}
