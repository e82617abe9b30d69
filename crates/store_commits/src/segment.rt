//! Transactions that are committed together, and the commit. It takes no memory.
ghost use Rattle.std.specs.Prelude.{◌≡◌, ◌+◌, ◌*◌, ◌++◌, ◌≤◌, ◌<◌, ◌^◌, ℕ, List, [], None, length, map, true, false};
ghost use Rattle.std.specs.Vec.{vec_capacity, vec_len};
ghost use Rattle.store_journal.specs.Calls.{Takes};
ghost use Rattle.store_journal.specs.Layout.{capacity_of};
ghost use Rattle.doc_machine.specs.Transaction.{Transaction};
ghost use Rattle.doc_changes.specs.State.{State};
ghost use Rattle.store_commits.specs.Account.{Account, with_copy};
ghost use Rattle.store_commits.specs.Batch.{Slot, asked, changes};
ghost use Rattle.store_commits.specs.Copying.{HasSpare, copy_of, target_with, target_of};
ghost use Rattle.store_commits.specs.Events.{dones_of};
ghost use Rattle.store_commits.specs.Folds.{AreFramedEach, frames_each};
ghost use Rattle.store_commits.specs.Given.{GivesBack, bytes_each};
ghost use Rattle.store_commits.specs.Inside.{IsStored, LeavesNumbers, account_of, store_view, ArePrepared, HasCommitted, IsAppended, IsAppendedBehind, IsReplaced, IsPart, IsReady, AnswersPart, answered, bytes_in, each_in, fate_of, given, replies_in};
ghost use Rattle.store_commits.specs.declared.event.Reply.{Reply as Said};

use crate::batch::Committed;
use crate::copying::{Copying, grow};
use crate::event::Reply;
use crate::replacement::commit_replacement;
use crate::snapshot_commit::commit_snapshot;
use doc_machine::{Machine, Refusal, Trial};
use refusals::numbers::{BROKEN, DEVICE};
use sector_device::SectorDevice;
use store_journal::Journal;

/// Transactions of a batch that were judged one after another. Those that are accepted wait for one commit.
#[derive(Drop)]
pub(crate) struct Segment {
    /// What the frames come after.
    pub base: Base,
    /// The frames of those that wait, back to back.
    pub frames: Vec<u8>,
    /// The same, those of each by themselves: they are given back once they are committed.
    pub each: Vec<Vec<u8>>,
    /// How many changes these have.
    pub adds: u64,
    /// The replies to all of them once it is committed.
    pub replies: Vec<Reply>,
}

/// What the frames of a segment come after, if they are written.
#[derive(Drop)]
pub(crate) enum Base {
    /// The used bytes.
    Used,
    /// This snapshot of the documents before it, which makes room for them.
    Before(Vec<u8>),
    /// They aren't written: this snapshot of the documents after it is committed in their place.
    After(Vec<u8>),
}

/// What became of a segment.
#[derive(Clone, Copy, Debug, PartialEq, Eq)]
pub enum Fate {
    /// Those that waited are committed.
    Committed,
    /// The device failed in their commit.
    InDoubt,
    /// It had failed before.
    NotBegun,
}

/// Commits the segments one after another, says all replies, and gives back the frames of what was done. Once the device
/// failed it isn't called. What was tried and is not committed is taken back.
pub(crate) fn commit_all<D: SectorDevice>(
    journal: &mut Journal<D>,
    copy: &mut Option<Copying>,
    trial: Trial,
    segments: Vec<Segment>,
    committed: &mut Committed,
) -> Machine
    requires prepared { (s : State) × (cs : List Transaction) × IsStored (D.disk journal.old.device) journal.old s (target_of copy.old)
        × ArePrepared (with_copy (account_of journal.old s) (copy_of (target_of copy.old))) cs segments.items trial }
    requires none { (committed.old.replies.items ≡ []) × (committed.old.frames.items ≡ []) }
    requires numbers { LeavesNumbers journal.old (2 * length segments.items + 1) }
    requires grows { HasSpare copy.old (bytes_in segments.items) }
    requires room { vec_len committed.old.replies + replies_in segments.items ≤ vec_capacity committed.old.replies }
    requires places { vec_len committed.old.frames + each_in segments.items ≤ vec_capacity committed.old.frames }
    ensures committed { (s : State) (cs : List Transaction) → IsStored (D.disk journal.old.device) journal.old s (target_of copy.old)
        → ArePrepared (with_copy (account_of journal.old s) (copy_of (target_of copy.old))) cs segments.items trial
        → HasCommitted D.disk (store_view journal.old s (target_of copy.old)) cs committed.new.replies.items journal.new result (target_of copy.new) }
    ensures frames { (s : State) (cs : List Transaction) → IsStored (D.disk journal.old.device) journal.old s (target_of copy.old)
        → ArePrepared (with_copy (account_of journal.old s) (copy_of (target_of copy.old))) cs segments.items trial
        → GivesBack (account_of journal.old s) cs committed.new }
{
    let before = journal.seq();
    for segment in segments {
        commit_segment(journal, copy, segment, committed);
    }
    let mut trial = trial;
    trial.keep(journal.seq() - before);
    trial.end()
}

// Commits a segment, says its replies, and gives back its frames if it was committed.
fn commit_segment<D: SectorDevice>(
    journal: &mut Journal<D>,
    copy: &mut Option<Copying>,
    segment: Segment,
    committed: &mut Committed,
)
    requires ready { journal.old.broken ≡ false → IsReady D.disk journal.old (target_of copy.old) segment }
    requires numbers { LeavesNumbers journal.old 3 }
    requires grows { HasSpare copy.old (length segment.frames.items) }
    requires room { vec_len committed.old.replies + length segment.replies.items ≤ vec_capacity committed.old.replies }
    requires places { vec_len committed.old.frames + length segment.each.items ≤ vec_capacity committed.old.frames }
    ensures answered { (s : State) (a : Account) (left : List Transaction) (slots : List Slot) (b : Account) → IsStored (D.disk journal.old.device) journal.old s (target_of copy.old)
        → (journal.old.broken ≡ false → with_copy (account_of journal.old s) (copy_of (target_of copy.old)) ≡ a) → IsPart a left segment slots b
        → (more : List Said) × (committed.new.replies.items ≡ committed.old.replies.items ++ more)
        × (bytes_each committed.new.frames.items ≡ bytes_each committed.old.frames.items ++ frames_each journal.old.rides s.seq (dones_of (changes (asked slots)) more))
        × AreFramedEach s.seq (dones_of (changes (asked slots)) more)
        × AnswersPart D.disk journal.old s (target_of copy.old) slots left b journal.new (target_of copy.new) more }
    ensures numbers { journal.new.next ≤ journal.old.next + 2 }
    ensures grows { (n : ℕ) → HasSpare copy.old (length segment.frames.items + n) → HasSpare copy.new n }
    ensures len { vec_len committed.new.replies ≡ vec_len committed.old.replies + length segment.replies.items }
    ensures capacity { vec_capacity committed.old.replies ≤ vec_capacity committed.new.replies }
    ensures len_frames { vec_len committed.new.frames ≤ vec_len committed.old.frames + length segment.each.items }
    ensures capacity_frames { vec_capacity committed.old.frames ≤ vec_capacity committed.new.frames }
{
    let fate = commit(journal, copy, &segment);
    say(&mut committed.replies, segment.replies, fate);
    give(&mut committed.frames, segment.each, fate);
}

// Commits a segment. If nothing waits it makes no call of the device.
fn commit<D: SectorDevice>(
    journal: &mut Journal<D>,
    copy: &mut Option<Copying>,
    segment: &Segment,
) -> Fate
    requires ready { journal.old.broken ≡ false → IsReady D.disk journal.old (target_of copy.old) segment.now }
    requires numbers { LeavesNumbers journal.old 3 }
    requires grows { HasSpare copy.old (length segment.now.frames.items) }
    ensures answered { (s : State) (a : Account) (left : List Transaction) (slots : List Slot) (b : Account) → IsStored (D.disk journal.old.device) journal.old s (target_of copy.old)
        → (journal.old.broken ≡ false → with_copy (account_of journal.old s) (copy_of (target_of copy.old)) ≡ a) → IsPart a left segment.now slots b
        → AnswersPart D.disk journal.old s (target_of copy.old) slots left b journal.new (target_of copy.new) (map (answered result) segment.now.replies.items) }
    ensures numbers { journal.new.next ≤ journal.old.next + 2 }
    ensures grows { (n : ℕ) → HasSpare copy.old (length segment.now.frames.items + n) → HasSpare copy.new n }
{
    if journal.is_broken() {
        return Fate::NotBegun;
    }
    match &segment.base {
        Base::Before(snapshot) => {
            ended(append_behind(journal, copy, snapshot, &segment.frames, segment.adds))
        }
        Base::After(snapshot) => ended(replace(journal, copy, snapshot, segment.adds)),
        Base::Used => {
            if segment.adds == 0 {
                return Fate::Committed;
            }
            ended(append(journal, copy, &segment.frames, segment.adds))
        }
    }
}

// Puts the snapshot of the documents after the changes in the place of the committed bytes. A copy that runs is dropped.
fn replace<D: SectorDevice>(
    journal: &mut Journal<D>,
    copy: &mut Option<Copying>,
    snapshot: &[u8],
    adds: u64,
) -> bool
    requires version { journal.old.version ≡ 2 }
    requires settled { journal.old.settled ≡ true }
    requires numbers { LeavesNumbers journal.old 3 }
    requires works { journal.old.broken ≡ false }
    requires fits { length snapshot.now ≤ capacity_of journal.old.rides journal.old.sectors }
    requires seq_fits { journal.old.seq + adds < 2 ^ 64 }
    ensures numbers { journal.new.next ≤ journal.old.next + 1 }
    ensures replaced { IsReplaced D.disk journal.old journal.new snapshot.now adds result }
    ensures dropped { target_of copy.new ≡ None }
{
    *copy = None;
    match commit_replacement(journal, snapshot, adds) {
        Ok(()) => true,
        Err(_) => false,
    }
}

// Puts the snapshot in the place of the committed bytes, and the frames after it. A copy that runs is dropped.
fn append_behind<D: SectorDevice>(
    journal: &mut Journal<D>,
    copy: &mut Option<Copying>,
    snapshot: &[u8],
    frames: &[u8],
    adds: u64,
) -> bool
    requires version { journal.old.version ≡ 2 }
    requires settled { journal.old.settled ≡ true }
    requires numbers { LeavesNumbers journal.old 3 }
    requires works { journal.old.broken ≡ false }
    requires fits { length snapshot.now + length frames.now ≤ capacity_of journal.old.rides journal.old.sectors }
    requires seq_fits { journal.old.seq + adds < 2 ^ 64 }
    ensures numbers { journal.new.next ≤ journal.old.next + 2 }
    ensures behind { IsAppendedBehind D.disk journal.old journal.new snapshot.now frames.now adds result }
    ensures dropped { target_of copy.new ≡ None }
{
    *copy = None;
    if let Err(_) = commit_snapshot(journal, snapshot) {
        return false;
    }
    append(journal, copy, frames, adds)
}

// Appends the frames, and puts them after the target of a copy that runs, or drops that if the device failed.
fn append<D: SectorDevice>(
    journal: &mut Journal<D>,
    copy: &mut Option<Copying>,
    frames: &[u8],
    adds: u64,
) -> bool
    requires version { journal.old.version ≡ 2 }
    requires settled { journal.old.settled ≡ true }
    requires takes { Takes journal.old (length frames.now) adds }
    requires grows { HasSpare copy.old (length frames.now) }
    ensures numbers { journal.new.next ≤ journal.old.next + 1 }
    ensures appended { IsAppended D.disk journal.old journal.new frames.now adds result }
    ensures copy { result ≡ true → target_of copy.new ≡ target_with frames.now (target_of copy.old) }
    ensures dropped { result ≡ false → target_of copy.new ≡ None }
    ensures grows { (n : ℕ) → HasSpare copy.old (length frames.now + n) → HasSpare copy.new n }
{
    match journal.append(frames, adds) {
        Err(_) => {
            *copy = None;
            false
        }
        Ok(()) => {
            grow(copy, frames);
            true
        }
    }
}

// What became of a segment whose commit was begun.
fn ended(done: bool) -> Fate
    ensures { result ≡ fate_of done }
{
    if done { Fate::Committed } else { Fate::InDoubt }
}

// Says the replies to a segment.
fn say(said: &mut Vec<Reply>, replies: Vec<Reply>, fate: Fate)
    requires room { vec_len said.old + length replies.items ≤ vec_capacity said.old }
    ensures said { said.new.items ≡ said.old.items ++ map (answered fate) replies.items }
    ensures len { vec_len said.new ≡ vec_len said.old + length replies.items }
    ensures capacity { vec_capacity said.old ≤ vec_capacity said.new }
{
    for reply in replies {
        said.push(answer(reply, fate)).unwrap();
    }
}

// Gives back the frames of each that waited, if they are committed.
#[tactic(auto, using(crate::proofs::Given::none_more))]
fn give(frames: &mut Vec<Vec<u8>>, each: Vec<Vec<u8>>, fate: Fate)
    requires room { vec_len frames.old + length each.items ≤ vec_capacity frames.old }
    ensures given { frames.new.items ≡ frames.old.items ++ given fate each.items }
    ensures len { vec_len frames.new ≤ vec_len frames.old + length each.items }
    ensures capacity { vec_capacity frames.old ≤ vec_capacity frames.new }
{
    let mut each = each;
    match fate {
        Fate::Committed => frames.append(&mut each).unwrap(),
        Fate::InDoubt | Fate::NotBegun => {}
    }
}

// A reply that was to be given once the commit was made, as it is given.
fn answer(reply: Reply, fate: Fate) -> Reply
    ensures { result ≡ answered fate reply }
{
    match fate {
        Fate::Committed => reply,
        Fate::InDoubt => match reply {
            Reply::Done(_) => Reply::Refused(Refusal::plain(DEVICE)),
            _ => reply,
        },
        Fate::NotBegun => Reply::Refused(Refusal::plain(BROKEN)),
    }
}
