//! The commit of other bytes in the place of a journal's, with changes more. It takes no memory.
ghost use Rattle.std.specs.Prelude.{◌≡◌, ◌↔◌, ◌+◌, ◌^◌, ◌<◌, ◌≤◌, OnOk, IfErr, length, false, true};
ghost use Rattle.sector_device.specs.Disk.{LeavesOnly};
ghost use Rattle.store_journal.specs.Layout.{capacity_of};
ghost use Rattle.sector_device.specs.Sectors.{sectors_of};
ghost use Rattle.slot_commits.specs.Loads.{number_end};
ghost use Rattle.store_journal.specs.Calls.{Broke, Replaced};
ghost use Rattle.store_journal.specs.Carries.{EitherCarried, replaced};
ghost use Rattle.store_journal.specs.JournalView.{IsKept, carried_of};
ghost use Rattle.store_journal.specs.Models.{model};
ghost use Rattle.store_journal.specs.Writes.{switch_calls};
ghost use Rattle.doc_changes.specs.Refusals.{plain};
ghost use Rattle.refusals.specs.declared.numbers.TheConstants.{DEVICE};

use doc_machine::Refusal;
use refusals::numbers::DEVICE;
use sector_device::SectorDevice;
use store_journal::Journal;

/// Fills the other half with the bytes, then makes it the one that counts and raises seq by `adds`, by one commit.
pub(crate) fn commit_replacement<D: SectorDevice>(
    journal: &mut Journal<D>,
    target: &[u8],
    adds: u64,
) -> Result<(), Refusal>
    requires version { journal.old.version ≡ 2 }
    requires settled { journal.old.settled ≡ true }
    requires number { journal.old.next < number_end }
    requires works { journal.old.broken ≡ false }
    requires fits { length target.now ≤ capacity_of journal.old.rides journal.old.sectors }
    requires seq_fits { journal.old.seq + adds < 2 ^ 64 }
    ensures ok { OnOk result (Replaced (D.disk journal.old.device) (D.disk journal.new.device) journal.old journal.new target.now adds (sectors_of (length target.now) + switch_calls journal.old.rides (length target.now))) }
    ensures err { IfErr result (λ refusal. (refusal ≡ plain DEVICE)
        × Broke (D.disk journal.old.device) (D.disk journal.new.device) (sectors_of (length target.now) + switch_calls journal.old.rides (length target.now)) journal.old journal.new) }
    ensures any_moment { (D.disk journal.old.device).honest → LeavesOnly (model journal.old.rides (D.disk journal.old.device)) (model journal.old.rides (D.disk journal.new.device))
        (EitherCarried (carried_of journal.old) (replaced (carried_of journal.old) target.now adds)) }
    ensures kept { IsKept (D.disk journal.new.device) journal.new }
    ensures honest { (D.disk journal.old.device).honest ↔ (D.disk journal.new.device).honest }
{
    let Ok(_) = journal.copy_step(target, 0, u64::MAX) else {
        return Err(Refusal::plain(DEVICE));
    };
    let Ok(()) = journal.replace(target, adds) else {
        return Err(Refusal::plain(DEVICE));
    };
    Ok(())
}
