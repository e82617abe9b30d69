//! A seal: what a store holds, in all slots.
ghost use Rattle.std.specs.Prelude.{◌≡◌, ◌≢◌, ◌↔◌, [], ◌∷◌, IfErr, OnOk, false};
ghost use Rattle.sector_device.specs.Charges.{Made};
ghost use Rattle.sector_device.specs.Disk.{LeavesOnly};
ghost use Rattle.store_journal.specs.Models.{model};
ghost use Rattle.store_journal.specs.Sealing.{seal_calls};
ghost use Rattle.doc_changes.specs.State.{Good};
ghost use Rattle.refusals.specs.declared.numbers.TheConstants.{DEVICE};
ghost use Rattle.store_commits.specs.Account.{IsStanding};
ghost use Rattle.store_commits.specs.Batch.{AreMade, FailedCommit};
ghost use Rattle.store_commits.specs.Run.{Ran, commits_of, reply_of, seal};
ghost use Rattle.store_commits.specs.Sealing.{SealAnswers, to_seal};
ghost use Rattle.store_commits.specs.declared.event.Reply.TheVariants.{Sealed};
ghost use Rattle.store_commits.specs.Folds.{StandsAfter};

use crate::store::Store;
use doc_machine::Refusal;
use refusals::numbers::{BROKEN, DEVICE, MEMORY};
use sector_device::SectorDevice;

impl<D: SectorDevice> Store<D> {
    /// Makes all slots of a store in format 3 hold what was committed last, by one sync: then no damage of two blocks of
    /// them at rest loses it. In formats 1 and 2 it does nothing. Documents, the number of accepted changes and a copy
    /// that runs stay.
    ///
    /// `BROKEN` if the device failed before; `DEVICE` if it failed in this call. `MEMORY` comes if no number of a commit is
    /// left, before the device is called. All but `DEVICE` leave everything as it was.
    pub fn seal(&mut self) -> Result<(), Refusal>
        ensures answer { SealAnswers self.old.account result self.new.account }
        ensures ran { Ran D.disk self.old self.new (seal ∷ []) (reply_of (λ done. Sealed) result ∷ []) }
        ensures made { AreMade D.disk self.old.device (commits_of result (to_seal self.old.account) self.new.account) self.new.device }
        ensures standing { IsStanding (D.disk self.new.device) self.new.account }
        ensures unchanged { IfErr result (λ refusal. refusal.number ≢ DEVICE → self.new ≡ self.old) }
        ensures good { Good self.new.account.state }
    {
        self.know();
        let answer = self.commit_nothing();
        self.know();
        answer
    }

    // The same, before it is known as a run.
    fn commit_nothing(&mut self) -> Result<(), Refusal>
        ensures answer { SealAnswers self.old.account result self.new.account }
        ensures made { OnOk result (Made (D.disk self.old.device) (D.disk self.new.device) (seal_calls self.old.account.rides self.old.account.used)) }
        ensures failed { IfErr result (λ refusal. refusal.number ≡ DEVICE
            → FailedCommit D.disk self.old.device self.new.device (to_seal self.old.account) self.new.account) }
        ensures moments { OnOk result ((D.disk self.old.device).honest → self.old.account.broken ≡ false
            → LeavesOnly (model self.old.account.rides (D.disk self.old.device)) (model self.old.account.rides (D.disk self.new.device)) (StandsAfter self.old.account.state [])) }
        ensures moments_err { IfErr result (λ refusal. refusal.number ≡ DEVICE → (D.disk self.old.device).honest → self.old.account.broken ≡ false
            → LeavesOnly (model self.old.account.rides (D.disk self.old.device)) (model self.old.account.rides (D.disk self.new.device)) (StandsAfter self.old.account.state [])) }
        ensures honest { (D.disk self.old.device).honest ↔ (D.disk self.new.device).honest }
        ensures unchanged { IfErr result (λ refusal. refusal.number ≢ DEVICE → self.new ≡ self.old) }
        ensures good { Good self.new.account.state }
    {
        if self.journal.is_broken() {
            return Err(Refusal::plain(BROKEN));
        }
        // One more stays for the switch of a copy that runs.
        if !self.journal.has_numbers(2) {
            return Err(Refusal::plain(MEMORY));
        }
        match self.journal.seal() {
            Ok(()) => Ok(()),
            Err(_) => {
                self.copy = None;
                Err(Refusal::plain(DEVICE))
            }
        }
    }
}
