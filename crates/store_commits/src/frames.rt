//! The frames of a transaction.
ghost use Rattle.std.specs.Prelude.{◌≡◌, ◌+◌, IfSome, map, true};
ghost use Rattle.record_text.specs.Change.{change_of};
ghost use Rattle.log_frames.specs.Kinds.{frame_as, logged, note};
ghost use Rattle.log_frames.specs.declared.kind.Kind.TheVariants.{Noted};
ghost use Rattle.record_text.specs.Frame.{entry, frame_of};
ghost use Rattle.doc_machine.specs.Marking.{marking_of};
ghost use Rattle.doc_machine.specs.Spelled.{change_in};
ghost use Rattle.doc_machine.specs.Transaction.{all_of, changes_of, pure_changes, transaction_of};
ghost use Rattle.store_commits.specs.Folds.{frames_of};
ghost use Rattle.store_commits.specs.Inside.{frames_before, kind_of};

use crate::laws::marks_are_framed;
use doc_machine::limits::MARK_BYTES;
use doc_machine::{Changes, Command, Marking, SpelledPatch, Transaction, is_valid_name};
use log_frames::laws::last_frames_are_those_of_format_2;
use log_frames::{Kind, frame_as, noted_frame};
use std::alloc::Global;

/// The frames of a transaction, back to back, whose first change gets the seq after this one; in format 3, if `rides`,
/// they say which is the last. That of a mark comes after those of the changes. `None` if one of its changes or its mark
/// has no frame, which no documents accept, or seq ends, or memory was refused.
pub(crate) fn frames(
    alloc: Global,
    transaction: &Transaction,
    seq: u64,
    rides: bool,
) -> Option<Vec<u8>>
    ensures { IfSome result (λ bytes. bytes.items ≡ frames_of rides seq (transaction_of transaction.now)) }
{
    // In format 2 each frame is as the last of a transaction is in format 3.
    last_frames_are_those_of_format_2();
    match transaction {
        Transaction::Single(command) => frame_of(alloc, Kind::Last, command, seq),
        Transaction::Several(commands) => frames_before(alloc, commands, seq, rides, 0),
        Transaction::Spelled(patch) => spelled_frame(alloc, patch, seq),
        Transaction::Marked(marking, changes) => {
            let last = seq.checked_add(transaction.len() as u64)?;
            let mut frames = changes_before_mark(alloc, changes, seq)?;
            let mark = mark_frame(alloc, marking, last)?;
            match frames.extend_from_slice(&mark) {
                Ok(()) => Some(frames),
                Err(_) => None,
            }
        }
    }
}

// The frame of that kind of a change that gets the seq after this one.
fn frame_of(alloc: Global, kind: Kind, command: &Command, seq: u64) -> Option<Vec<u8>>
    ensures { IfSome result (λ bytes. bytes.items ≡ frame_as (logged kind (entry (seq + 1) (change_of command.now)))) }
{
    match frame_as(alloc, kind, command, seq.checked_add(1)?) {
        Ok(bytes) => Some(bytes),
        Err(_) => None,
    }
}

// The frame of a patch in its text, which gets the seq after this one. Its body is that text.
fn spelled_frame(alloc: Global, patch: &SpelledPatch, seq: u64) -> Option<Vec<u8>>
    ensures { IfSome result (λ bytes. bytes.items ≡ frame_of (entry (seq + 1) (change_in patch.now))) }
{
    let text = patch.text();
    let seq = seq.checked_add(1)?;
    let length = u32::try_from(text.len()).ok()?;
    let mut frame = Vec::with_capacity(alloc, text.len().checked_add(12)?).ok()?;
    frame.extend_from_slice(&length.to_be_bytes()).ok()?;
    frame.extend_from_slice(&seq.to_be_bytes()).ok()?;
    frame.extend_from_slice(text).ok()?;
    Some(frame)
}

// The frames of the changes of a transaction that its mark follows.
fn changes_before_mark(alloc: Global, changes: &Changes, seq: u64) -> Option<Vec<u8>>
    ensures { IfSome result (λ bytes. bytes.items ≡ frames_before true 1 seq (all_of (pure_changes changes.now))) }
{
    match changes {
        Changes::Alone(command) => frame_of(alloc, Kind::More, command, seq),
        Changes::Together(commands) => frames_before(alloc, commands, seq, true, 1),
    }
}

// The frames of changes of a transaction that `more` frames of it follow.
fn frames_before(
    alloc: Global,
    commands: &[Command],
    seq: u64,
    rides: bool,
    more: usize,
) -> Option<Vec<u8>>
    ensures { IfSome result (λ bytes. bytes.items ≡ frames_before rides more seq (map change_of commands.now)) }
{
    let mut frames = Vec::new(alloc);
    let mut last = seq;
    let mut left = commands.len().checked_add(more)?;
    for command in commands {
        left -= 1;
        let bytes = frame_of(alloc, kind_of(rides, left), command, last)?;
        last = last.checked_add(1)?;
        let Ok(()) = frames.extend_from_slice(&bytes) else {
            return None;
        };
    }
    Some(frames)
}

// What the frame of a change holds that `left` frames of its transaction follow.
fn kind_of(rides: bool, left: usize) -> Kind
    ensures { result ≡ kind_of rides left }
{
    if rides && left > 0 {
        Kind::More
    } else {
        Kind::Last
    }
}

// The frame of the mark that a transaction sets, with the seq of its last change.
fn mark_frame(alloc: Global, marking: &Marking, seq: u64) -> Option<Vec<u8>>
    ensures { IfSome result (λ bytes. bytes.items ≡ frame_as (logged Noted (entry seq (note (marking_of marking.now).key (marking_of marking.now).value)))) }
{
    // A frame has room for each mark that is accepted.
    marks_are_framed();
    if !is_valid_name(marking.key.as_str()) || marking.value.len() > MARK_BYTES {
        return None;
    }
    match noted_frame(alloc, &marking.key, &marking.value, seq) {
        Ok(bytes) => Some(bytes),
        Err(_) => None,
    }
}
