//! A seal: what is committed, in all slots.
ghost use Rattle.std.specs.Prelude.{◌≡◌, ◌↔◌, OnOk, IfErr, length, true, false};
ghost use Rattle.sector_device.specs.Disk.{LeavesOnly};
ghost use Rattle.store_journal.specs.Calls.{CommitFault, Refused};
ghost use Rattle.store_journal.specs.Carries.{Carries};
ghost use Rattle.store_journal.specs.JournalView.{IsKept, carried_of};
ghost use Rattle.store_journal.specs.Models.{model};
ghost use Rattle.store_journal.specs.Sealing.{Sealed, seal_calls};

use crate::fault::JournalFault;
use crate::journal::Journal;
use refusals::numbers::{BROKEN, SEQ_END};
use sector_device::SectorDevice;

impl<D: SectorDevice> Journal<D> {
    /// Makes all slots hold what is committed, by a commit of no bytes into those that don't count: both copies, sync.
    /// After a commit two of the four slots hold it, after a seal each does. In formats 1 and 2 it does nothing, and makes
    /// no call of the device. Refused as `BROKEN`, `SEQ_END` or `DEVICE`.
    pub fn seal(&mut self) -> Result<(), JournalFault>
        requires settled { self.old.settled ≡ true }
        ensures ok { OnOk result (Sealed (D.disk self.old.device) (D.disk self.new.device) self.old self.new) }
        ensures refused { IfErr result (λ e. CommitFault self.old e.number) }
        ensures err { IfErr result (λ e. Refused (D.disk self.old.device) (D.disk self.new.device) (seal_calls self.old.rides (length self.old.bytes)) self.old self.new e.number) }
        ensures copied { (D.disk self.old.device).honest → self.new.copied ≡ self.old.copied }
        ensures any_moment { (D.disk self.old.device).honest → self.old.broken ≡ false → LeavesOnly (model self.old.rides (D.disk self.old.device)) (model self.old.rides (D.disk self.new.device))
            (Carries (carried_of self.old)) }
        ensures honest { (D.disk self.old.device).honest ↔ (D.disk self.new.device).honest }
        ensures kept { IsKept (D.disk self.new.device) self.new }
    {
        if self.is_broken() {
            return Err(JournalFault { number: BROKEN });
        }
        if !self.has_number() {
            return Err(JournalFault { number: SEQ_END });
        }
        if !self.rides() {
            return Ok(());
        }
        // The prover learns the range of seq.
        let _seq = self.seq();
        self.append(&[], 0)
    }
}
