//! The count of an opening, by which bytes of format 1 give way to a snapshot.
ghost use Rattle.std.specs.Prelude.{◌≡◌, ◌↔◌, ◌≤◌, ◌+◌, ◌*◌, IfErr, OnOk, length, false, true};
ghost use Rattle.sector_device.specs.Disk.{LeavesOnly};
ghost use Rattle.store_journal.specs.Carries.{EitherCarried};
ghost use Rattle.store_journal.specs.JournalView.{IsKept, carried_of};
ghost use Rattle.store_journal.specs.Models.{model};
ghost use Rattle.doc_store.specs.Found.{carried_in, IsNotSettled, IsSettled};
ghost use Rattle.doc_store.specs.Opening.{carried_after};

use doc_machine::{Machine, Refusal};
use refusals::numbers::{DEVICE, MEMORY, NO_ROOM};
use sector_device::SectorDevice;
use std::alloc::Global;
use store_commits::creations;
use store_journal::Journal;

/// Counts the opening of a journal whose bytes, these, hold the machine's documents. In format 1 these bytes give way to the
/// snapshot of the documents, for which all memory is taken before the device is called.
///
/// `MEMORY`, also if no number of a commit is left; `NO_ROOM` if a half has no room for that snapshot; `DEVICE`.
pub(crate) fn settle<D: SectorDevice>(
    alloc: Global,
    journal: &mut Journal<D>,
    bytes: &[u8],
    machine: &Machine,
) -> Result<(), Refusal>
    requires works { journal.old.broken ≡ false }
    requires fresh { journal.old.rides ≡ true → journal.old.settled ≡ false }
    requires size { length bytes.now ≡ length journal.old.bytes }
    requires bytes { (D.disk journal.old.device).honest → bytes.now ≡ journal.old.bytes }
    ensures settled { OnOk result
        (IsSettled (D.disk journal.old.device) (D.disk journal.new.device) (carried_in journal.old bytes.now) journal.old journal.new machine.now) }
    ensures refused { IfErr result
        (IsNotSettled (D.disk journal.old.device) (D.disk journal.new.device) (carried_in journal.old bytes.now) journal.old journal.new machine.now) }
    ensures any_moment { (D.disk journal.old.device).honest → LeavesOnly (model journal.old.rides (D.disk journal.old.device)) (model journal.old.rides (D.disk journal.new.device))
        (EitherCarried (carried_in journal.old bytes.now) (carried_after (carried_in journal.old bytes.now) machine.now)) }
    ensures honest { (D.disk journal.old.device).honest ↔ (D.disk journal.new.device).honest }
    ensures kept { IsKept (D.disk journal.new.device) journal.new }
{
    journal.know();
    if journal.version() != 1 {
        if !journal.has_number() {
            return Err(Refusal::plain(MEMORY));
        }
        return match journal.count_open() {
            Ok(()) => Ok(()),
            Err(_) => Err(Refusal::plain(DEVICE)),
        };
    }
    let snapshot = creations(alloc, &machine.look(), false)?;
    if journal.capacity() < snapshot.len() as u64 {
        return Err(Refusal::plain(NO_ROOM));
    }
    match journal.migrate(&snapshot) {
        Ok(()) => Ok(()),
        Err(_) => Err(Refusal::plain(DEVICE)),
    }
}
