//! The steps of a snapshot that is copied between changes.
ghost use Rattle.std.specs.Prelude.{◌≡◌, ◌≢◌, ◌↔◌, [], ◌∷◌, IfErr, OnOk, None, false};
ghost use Rattle.sector_device.specs.Charges.{Made};
ghost use Rattle.sector_device.specs.Disk.{LeavesOnly};
ghost use Rattle.store_journal.specs.Models.{model};
ghost use Rattle.doc_changes.specs.State.{Good};
ghost use Rattle.refusals.specs.declared.numbers.TheConstants.{DEVICE, MEMORY};
ghost use Rattle.store_commits.specs.Account.{IsStanding};
ghost use Rattle.store_commits.specs.Batch.{AreMade, FailedCommit};
ghost use Rattle.store_commits.specs.Copying.{PumpAnswers, calls_of_pump};
ghost use Rattle.store_commits.specs.Run.{Ran, commits_of, pump, reply_of, to_step};
ghost use Rattle.store_commits.specs.declared.event.Reply.TheVariants.{Pumped};
ghost use Rattle.store_commits.specs.Folds.{StandsAfter};

use crate::store::Store;
use doc_machine::Refusal;
use refusals::numbers::{BROKEN, MEMORY};
use sector_device::SectorDevice;
use store_commits::copying::{step, take_or_begin};
use store_commits::{CopyState, Pump};

impl<D: SectorDevice> Store<D> {
    /// Writes at most `max` sectors more of a snapshot into the half that doesn't count, 0 as 1, and makes that half
    /// the one that counts if they were the last. If no copy runs, it begins one, with a snapshot of the present
    /// documents; each change that is accepted meanwhile puts its frame after it. If a half has no room for all of it,
    /// nothing is written and the copy is dropped. The documents and the number of accepted changes stay.
    ///
    /// `BROKEN` if the device failed before; `DEVICE` if it failed in this call. `MEMORY` may come if no copy runs,
    /// before the device is called, and comes then if no number of a commit is left. All but `DEVICE` leave everything as it was.
    pub fn pump(&mut self, max: u64) -> Result<Pump, Refusal>
        ensures answer { PumpAnswers self.old.account max result self.new.account }
        ensures ran { Ran D.disk self.old self.new (pump max ∷ []) (reply_of Pumped result ∷ []) }
        ensures made { AreMade D.disk self.old.device (commits_of result (to_step self.old.account max) self.new.account) self.new.device }
        ensures standing { IsStanding (D.disk self.new.device) self.new.account }
        ensures memory { IfErr result (λ refusal. refusal.number ≡ MEMORY → self.old.account.copy ≡ None) }
        ensures unchanged { IfErr result (λ refusal. refusal.number ≢ DEVICE → self.new ≡ self.old) }
        ensures good { Good self.new.account.state }
    {
        self.know();
        let answer = self.copy_more(max);
        self.know();
        answer
    }

    // The same, before it is known as a run.
    fn copy_more(&mut self, max: u64) -> Result<Pump, Refusal>
        ensures answer { PumpAnswers self.old.account max result self.new.account }
        ensures standing { IsStanding (D.disk self.new.device) self.new.account }
        ensures memory { IfErr result (λ refusal. refusal.number ≡ MEMORY → self.old.account.copy ≡ None) }
        ensures made { OnOk result (Made (D.disk self.old.device) (D.disk self.new.device) (calls_of_pump self.old.account max)) }
        ensures failed { IfErr result (λ refusal. refusal.number ≡ DEVICE
            → FailedCommit D.disk self.old.device self.new.device (to_step self.old.account max) self.new.account) }
        ensures moments { OnOk result ((D.disk self.old.device).honest → self.old.account.broken ≡ false
            → LeavesOnly (model self.old.account.rides (D.disk self.old.device)) (model self.old.account.rides (D.disk self.new.device)) (StandsAfter self.old.account.state [])) }
        ensures moments_err { IfErr result (λ refusal. refusal.number ≡ DEVICE → (D.disk self.old.device).honest → self.old.account.broken ≡ false
            → LeavesOnly (model self.old.account.rides (D.disk self.old.device)) (model self.old.account.rides (D.disk self.new.device)) (StandsAfter self.old.account.state [])) }
        ensures honest { (D.disk self.old.device).honest ↔ (D.disk self.new.device).honest }
        ensures unchanged { IfErr result (λ refusal. refusal.number ≢ DEVICE → self.new ≡ self.old) }
        ensures good { Good self.new.account.state }
    {
        if self.journal.is_broken() {
            return Err(Refusal::plain(BROKEN));
        }
        // A copy that runs has a number left for its switch.
        if !self.journal.has_number() {
            return Err(Refusal::plain(MEMORY));
        }
        let rides = self.journal.rides();
        let copying = take_or_begin(self.alloc, &self.machine, rides, &mut self.copy)?;
        if self.journal.capacity() < copying.target.len() as u64 {
            return Ok(Pump {
                written: 0,
                copy: CopyState::Dropped,
            });
        }
        let (pump, left) = step(&mut self.journal, copying, max)?;
        self.copy = left;
        Ok(pump)
    }
}
