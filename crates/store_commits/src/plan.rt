//! The plan of a batch: how its transactions are put together to commits. All memory of a batch is taken here, before
//! the device is called.
ghost use Rattle.std.specs.Prelude.{◌≡◌, ◌+◌, ◌-◌, ◌*◌, ◌^◌, ◌≤◌, ◌<◌, List, [], ◌∷◌, length, map, min, OnOk, IfOk};
ghost use Rattle.store_journal.specs.Layout.{capacity_of};
ghost use Rattle.doc_machine.specs.Transaction.{RefusesTransaction, transaction_of};
ghost use Rattle.doc_machine.specs.Transaction.{Transaction as Asked};
ghost use Rattle.doc_machine.specs.Trial.{TrialView, state_at};
ghost use Rattle.store_commits.specs.Account.{Account, with_copy};
ghost use Rattle.store_commits.specs.Batch.{Slot, asked};
ghost use Rattle.store_commits.specs.Copying.{HasSpare, copy_of, target_of};
ghost use Rattle.store_commits.specs.Folds.{frames_of};
ghost use Rattle.store_commits.specs.Given.{bytes_each};
ghost use Rattle.store_commits.specs.Inside.{account_of, ArePrepared, IsAlone, IsFull, IsInstead, LeavesNumbers, PlansOneMore, IsPlanning, bytes_in};

use crate::copying::{Copying, reserve};
use crate::creations;
use crate::event::Reply;
use crate::frames::frames;
use crate::segment::{Base, Segment};
use doc_machine::{Refusal, Transaction, Trial};
use refusals::numbers::FULL;
use sector_device::SectorDevice;
use std::alloc::{AllocError, Global};
use std::mem;
use store_journal::Journal;

/// A batch as far as it is planned.
#[derive(Drop)]
pub(crate) struct Planning {
    /// The bytes of a half.
    pub capacity: u64,
    /// The store is in format 3: a snapshot may be committed in place of frames, and frames say what they hold.
    pub rides: bool,
    /// The bytes that are left in the half that counts, once all that is planned is committed.
    pub left: u64,
    /// The bytes of all frames.
    pub bytes: usize,
    /// The commits of the plan.
    pub segments: Vec<Segment>,
    /// The transactions since.
    pub last: Segment,
}

/// Judges the transactions one after another, each with those accepted before it made on the trial, and answers the
/// commits, in order. An `Err` means that memory ran out, or that the numbers of commits do.
pub(crate) fn prepare<D: SectorDevice>(
    alloc: Global,
    journal: &Journal<D>,
    copy: &mut Option<Copying>,
    trial: &mut Trial,
    transactions: Vec<Transaction>,
) -> Result<Vec<Segment>, AllocError>
    requires begins { trial.old.past ≡ [] }
    requires within { length journal.now.bytes ≤ capacity_of journal.now.rides journal.now.sectors }
    ensures prepared { IfOk result (λ segments.
        ArePrepared (with_copy (account_of journal.now trial.old.state) (copy_of (target_of copy.new))) (map transaction_of transactions.items) segments.items trial.new) }
    ensures grows { IfOk result (λ segments. HasSpare copy.new (bytes_in segments.items)) }
    ensures numbers { IfOk result (λ segments. LeavesNumbers journal.now (2 * length segments.items + 1)) }
    ensures same { target_of copy.new ≡ target_of copy.old }
    ensures origin { state_at 0 trial.new ≡ trial.old.state }
{
    trial.know();
    let mut planning = Planning {
        capacity: journal.capacity(),
        rides: journal.rides(),
        left: journal.capacity() - journal.used(),
        bytes: 0,
        segments: Vec::new(alloc),
        last: Segment::new(alloc),
    };
    planning.add_all(alloc, trial, transactions)?;
    let Planning {
        bytes,
        mut segments,
        last,
        ..
    } = planning;
    reserve(copy, bytes)?;
    segments.push(last)?;
    if !journal.has_numbers(most_commits(segments.len())) {
        return Err(AllocError);
    }
    Ok(segments)
}

// How many commits these segments make at most, and one more, so that a number is left for a copy that runs.
fn most_commits(segments: usize) -> u64
    ensures { result ≡ min (2 * segments + 1) (2 ^ 64 - 1) }
{
    (segments as u64).saturating_mul(2).saturating_add(1)
}

// A copy of these bytes, alone.
fn only(alloc: Global, bytes: &[u8]) -> Result<Vec<Vec<u8>>, AllocError>
    ensures { IfOk result (λ each. bytes_each each.items ≡ bytes.now ∷ []) }
{
    let mut copy = Vec::new(alloc);
    copy.extend_from_slice(bytes)?;
    let mut each = Vec::new(alloc);
    each.push(copy)?;
    Ok(each)
}

impl Segment {
    ghost use Rattle.store_commits.specs.Inside.{IsEmpty};

    // Nothing waits, and nothing is answered.
    fn new(alloc: Global) -> Segment
        ensures { IsEmpty result }
    {
        Segment {
            base: Base::Used,
            frames: Vec::new(alloc),
            each: Vec::new(alloc),
            adds: 0,
            replies: Vec::new(alloc),
        }
    }
}

impl Planning {
    // Plans transactions one after another.
    fn add_all(
        &mut self,
        alloc: Global,
        trial: &mut Trial,
        transactions: Vec<Transaction>,
    ) -> Result<(), AllocError>
        ensures ok { OnOk result ((a : Account) → IsPlanning a [] self.old trial.old
            → (slots : List Slot) × (asked slots ≡ map transaction_of transactions.items) × IsPlanning a slots self.new trial.new) }
        ensures origin { state_at 0 trial.new ≡ state_at 0 trial.old }
    {
        for transaction in transactions {
            self.add(alloc, trial, transaction)?;
        }
        Ok(())
    }

    // Plans one transaction more.
    fn add(
        &mut self,
        alloc: Global,
        trial: &mut Trial,
        transaction: Transaction,
    ) -> Result<(), AllocError>
        ensures ok { OnOk result ((a : Account) (slots : List Slot) → IsPlanning a slots self.old trial.old → PlansOneMore a slots (transaction_of transaction) self.new trial.new) }
        ensures origin { state_at 0 trial.new ≡ state_at 0 trial.old }
    {
        let Some(frames) = frames(alloc, &transaction, trial.seq(), self.rides) else {
            return self.judge(trial, transaction);
        };
        if frames.len() as u64 <= self.left {
            self.wait(trial, transaction, frames)
        } else {
            self.force(alloc, trial, transaction, frames)
        }
    }

    // Says why a transaction is refused that has no frames. One that the documents accept has them, so then memory was
    // refused.
    #[tactic(auto, using(crate::proofs::Plans::first_stays))]
    fn judge(&mut self, trial: &mut Trial, transaction: Transaction) -> Result<(), AllocError>
        ensures ok { OnOk result ((a : Account) (slots : List Slot) → IsPlanning a slots self.old trial.old → PlansOneMore a slots (transaction_of transaction) self.new trial.new) }
        ensures origin { state_at 0 trial.new ≡ state_at 0 trial.old }
    {
        match trial.transact(transaction) {
            Ok(_) => Err(AllocError),
            Err(refusal) => self.refuse(refusal),
        }
    }

    // Says why a transaction is refused, also if memory was refused to its judgement: that ends no batch.
    fn refuse(&mut self, refusal: Refusal) -> Result<(), AllocError>
        ensures { OnOk result ((a : Account) (slots : List Slot) (t : Asked) (trial : TrialView) → RefusesTransaction trial.state t refusal
            → IsPlanning a slots self.old trial → PlansOneMore a slots t self.new trial) }
    {
        self.last.replies.push(Reply::Refused(refusal))?;
        Ok(())
    }

    // Lets a transaction wait whose frames fit beside the others.
    #[tactic(auto, using(crate::proofs::Plans::first_stays))]
    fn wait(
        &mut self,
        trial: &mut Trial,
        transaction: Transaction,
        frames: Vec<u8>,
    ) -> Result<(), AllocError>
        requires frames { frames.items ≡ frames_of self.old.rides trial.old.state.seq (transaction_of transaction) }
        requires fits { length frames.items ≤ self.old.left }
        ensures ok { OnOk result ((a : Account) (slots : List Slot) → IsPlanning a slots self.old trial.old → PlansOneMore a slots (transaction_of transaction) self.new trial.new) }
        ensures origin { state_at 0 trial.new ≡ state_at 0 trial.old }
    {
        let adds = transaction.len() as u64;
        let seq = match trial.transact(transaction) {
            Err(refusal) => return self.refuse(refusal),
            Ok(seq) => seq,
        };
        // All bytes of a batch are in memory, so their number is one of these, and so is that of the changes.
        let size = frames.len();
        let Some(bytes) = self.bytes.checked_add(size) else {
            return Err(AllocError);
        };
        let Some(adds) = self.last.adds.checked_add(adds) else {
            return Err(AllocError);
        };
        self.last.frames.extend_from_slice(&frames)?;
        self.last.each.push(frames)?;
        self.last.replies.push(Reply::Done(seq))?;
        self.last.adds = adds;
        self.bytes = bytes;
        self.left -= size as u64;
        Ok(())
    }

    // Ends the commit of those that wait, and lets a transaction whose frames don't fit beside them go on by itself:
    // after a snapshot, or as one, if that leaves room for it.
    #[tactic(auto, using(crate::proofs::Plans::first_stays))]
    fn force(
        &mut self,
        alloc: Global,
        trial: &mut Trial,
        transaction: Transaction,
        frames: Vec<u8>,
    ) -> Result<(), AllocError>
        requires frames { frames.items ≡ frames_of self.old.rides trial.old.state.seq (transaction_of transaction) }
        requires over { self.old.left < length frames.items }
        ensures ok { OnOk result ((a : Account) (slots : List Slot) → IsPlanning a slots self.old trial.old → PlansOneMore a slots (transaction_of transaction) self.new trial.new) }
        ensures origin { state_at 0 trial.new ≡ state_at 0 trial.old }
    {
        // This snapshot has the documents before the transaction, so it is made before that is tried.
        let snapshot = creations(alloc, &trial.look(), self.rides)?;
        let before = trial.len() as u64;
        let adds = transaction.len() as u64;
        let seq = match trial.transact(transaction) {
            Err(refusal) => return self.refuse(refusal),
            Ok(seq) => seq,
        };
        let used = (snapshot.len() + frames.len()) as u64;
        if used <= self.capacity {
            return self.alone(alloc, Base::Before(snapshot), used, frames, adds, seq);
        }
        if let Some(after) = self.instead(alloc, trial)? {
            let size = after.len() as u64;
            return self.alone(alloc, Base::After(after), size, frames, adds, seq);
        }
        trial.keep(before);
        self.full(alloc)
    }

    // The snapshot of the documents on the trial, if one may be committed in place of frames, and it fits.
    fn instead(&self, alloc: Global, trial: &Trial) -> Result<Option<Vec<u8>>, AllocError>
        ensures { IfOk result (λ found. IsInstead self.now trial.now.state found) }
    {
        if !self.rides {
            return Ok(None);
        }
        let after = creations(alloc, &trial.look(), self.rides)?;
        if after.len() as u64 <= self.capacity {
            Ok(Some(after))
        } else {
            Ok(None)
        }
    }

    // Ends the commit of those that wait, and plans one of a transaction that was tried: after it `used` bytes are used.
    fn alone(
        &mut self,
        alloc: Global,
        base: Base,
        used: u64,
        frames: Vec<u8>,
        adds: u64,
        seq: u64,
    ) -> Result<(), AllocError>
        requires fits { used ≤ self.old.capacity }
        ensures { OnOk result (IsAlone self.old base used frames adds seq self.new) }
    {
        let Some(bytes) = self.bytes.checked_add(frames.len()) else {
            return Err(AllocError);
        };
        let last = mem::replace(&mut self.last, Segment::new(alloc));
        self.segments.push(last)?;
        let mut replies = Vec::new(alloc);
        replies.push(Reply::Done(seq))?;
        let each = only(alloc, &frames)?;
        self.segments.push(Segment {
            base,
            frames,
            each,
            adds,
            replies,
        })?;
        self.bytes = bytes;
        self.left = self.capacity - used;
        Ok(())
    }

    // Ends the commit of those that wait, and says of a transaction that it has no room.
    fn full(&mut self, alloc: Global) -> Result<(), AllocError>
        ensures { OnOk result (IsFull self.old self.new) }
    {
        let last = mem::replace(&mut self.last, Segment::new(alloc));
        self.segments.push(last)?;
        let mut full = Segment::new(alloc);
        full.replies.push(Reply::Refused(Refusal::plain(FULL)))?;
        self.segments.push(full)?;
        Ok(())
    }
}
