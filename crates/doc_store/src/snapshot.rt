//! A store's documents written anew, without the changes that led to them.
ghost use Rattle.std.specs.Prelude.{◌≡◌, ◌≢◌, ◌<◌, ◌↔◌, [], ◌∷◌, IfOk, IfErr, OnOk, false};
ghost use Rattle.sector_device.specs.Disk.{LeavesOnly};
ghost use Rattle.store_journal.specs.Models.{model};
ghost use Rattle.doc_changes.specs.Refusals.{plain};
ghost use Rattle.doc_changes.specs.State.{Good};
ghost use Rattle.refusals.specs.declared.numbers.TheConstants.{DEVICE, FULL, MEMORY};
ghost use Rattle.store_commits.specs.Account.{IsStanding};
ghost use Rattle.store_commits.specs.Batch.{AreMade, FailedCommit, PassedCommit, to_snapshot};
ghost use Rattle.store_commits.specs.Snapshot.{SnapshotAnswers, StopsBefore, snapshot_bytes};
ghost use Rattle.store_commits.specs.Run.{Ran, commits_of, snapshot, reply_of};
ghost use Rattle.store_commits.specs.declared.event.Reply.TheVariants.{Snapped};
ghost use Rattle.store_commits.specs.Folds.{StandsAfter};

use crate::store::Store;
use doc_machine::Refusal;
use refusals::numbers::{BROKEN, FULL, MEMORY};
use sector_device::SectorDevice;
use store_commits::{commit_snapshot, creations};

impl<D: SectorDevice> Store<D> {
    /// Writes the creation of each document, in their order, with its present schema and its revision, into the half
    /// that doesn't count, makes it the one that counts, and answers the new number of used bytes. The
    /// documents and the number of accepted changes stay. A copy that runs is dropped.
    ///
    /// `BROKEN` if the device failed before; else `FULL` if the frames of these creations are longer than a half;
    /// `DEVICE` if the device failed in this call. `MEMORY` comes if no number of a commit is left, and may come in place of any other, before the device is
    /// called. All but `DEVICE` leave the device as it was, and all but `DEVICE` and `FULL`, which drop a copy that
    /// runs, everything else.
    pub fn snapshot(&mut self) -> Result<u64, Refusal>
        ensures answer { SnapshotAnswers self.old.account result self.new.account }
        ensures ran { Ran D.disk self.old self.new (snapshot ∷ []) (reply_of Snapped result ∷ []) }
        ensures made { AreMade D.disk self.old.device (commits_of result (to_snapshot self.old.account) self.new.account) self.new.device }
        ensures standing { IsStanding (D.disk self.new.device) self.new.account }
        ensures uncalled { IfErr result (λ refusal. refusal.number ≢ DEVICE → self.new.device ≡ self.old.device) }
        ensures unchanged { IfErr result (λ refusal. refusal.number ≢ DEVICE → refusal.number ≢ FULL → self.new ≡ self.old) }
        ensures good { Good self.new.account.state }
    {
        self.know();
        self.write_anew()
    }

    // The same, before it is known as a run.
    fn write_anew(&mut self) -> Result<u64, Refusal>
        ensures answer { SnapshotAnswers self.old.account result self.new.account }
        ensures standing { IsStanding (D.disk self.new.device) self.new.account }
        ensures passed { OnOk result (PassedCommit D.disk self.old.device self.new.device (to_snapshot self.old.account)) }
        ensures failed { IfErr result (λ refusal. refusal.number ≡ DEVICE
            → FailedCommit D.disk self.old.device self.new.device (to_snapshot self.old.account) self.new.account) }
        ensures moments { OnOk result ((D.disk self.old.device).honest → self.old.account.broken ≡ false
            → LeavesOnly (model self.old.account.rides (D.disk self.old.device)) (model self.old.account.rides (D.disk self.new.device)) (StandsAfter self.old.account.state [])) }
        ensures moments_err { IfErr result (λ refusal. refusal.number ≡ DEVICE → (D.disk self.old.device).honest → self.old.account.broken ≡ false
            → LeavesOnly (model self.old.account.rides (D.disk self.old.device)) (model self.old.account.rides (D.disk self.new.device)) (StandsAfter self.old.account.state [])) }
        ensures honest { (D.disk self.old.device).honest ↔ (D.disk self.new.device).honest }
        ensures uncalled { IfErr result (λ refusal. refusal.number ≢ DEVICE → self.new.device ≡ self.old.device) }
        ensures unchanged { IfErr result (λ refusal. refusal.number ≢ DEVICE → refusal.number ≢ FULL → self.new ≡ self.old) }
        ensures good { Good self.new.account.state }
    {
        let frames = self.frames()?;
        if !self.journal.has_number() {
            return Err(Refusal::plain(MEMORY));
        }
        self.copy = None;
        if self.journal.capacity() < frames.len() as u64 {
            return Err(Refusal::plain(FULL));
        }
        commit_snapshot(&mut self.journal, &frames)
    }

    /// The bytes of the snapshot, in the store's format, or why there is none. It only reads.
    pub(crate) fn frames(&self) -> Result<Vec<u8>, Refusal>
        ensures frames { IfOk result (λ frames. frames.items ≡ snapshot_bytes self.now.account.rides self.now.account.state.documents self.now.account.state.marks) }
        ensures works { IfOk result (λ _. self.now.account.broken ≡ false) }
        ensures refuses { IfErr result (StopsBefore self.now.account) }
        ensures own { IfErr result (λ refusal. refusal.number ≢ DEVICE) }
        ensures standing { IsStanding (D.disk self.now.device) self.now.account }
        ensures good { Good self.now.account.state }
    {
        if self.journal.is_broken() {
            return Err(Refusal::plain(BROKEN));
        }
        Ok(creations(self.alloc, &self.machine.look(), self.journal.rides())?)
    }
}
