//! The machine made again from a log: frames of version 3.
ghost use Rattle.std.specs.Prelude.{◌≡◌, ◌<◌, ◌≤◌, length, IfOk, IfErr, IfSome, MatchOption, MatchResult};
ghost use Rattle.record_text.specs.Change.{change_of};
ghost use Rattle.record_text.specs.Frame.{entry};
ghost use Rattle.doc_changes.specs.Marks.{Mark as Pure};
ghost use Rattle.doc_changes.specs.MarkView.{mark_in};
ghost use Rattle.doc_changes.specs.State.{Good};
ghost use Rattle.store_commits.specs.Images.{Holds};
ghost use Rattle.store_commits.specs.Notes.{noted_entry};
ghost use Rattle.store_commits.specs.Replay.{HoldsNothing, IsPatchAs, RefusesAs, TakesAs, TakesLogged, TakesNoneLogged};
ghost use Rattle.log_frames.specs.declared.kind.Kind.TheVariants.{Noted};
ghost use Rattle.store_commits.specs.declared.replaying.ReplayFault.TheVariants.{Damaged};

use crate::frame_replay::take_patch;
use crate::replaying::ReplayFault;
use doc_machine::{Command, Machine, Mark, Profile};
use doc_patch::Patch;
use doc_tree::Tree;
use log_frames::{Kind, Place, patch_frame_as, read_frame_as};
use record_text::PatchFrame;
use std::alloc::Global;

/// The machine that a log makes, as `replay` says.
pub(crate) fn replay_log(
    alloc: Global,
    bytes: &[u8],
    seq: u64,
    profile: Profile,
) -> Result<Machine, ReplayFault>
    ensures holds { IfOk result (λ machine. Holds profile 3 seq bytes.now machine.documents machine.marks) }
    ensures seq { IfOk result (λ machine. machine.seq ≡ seq) }
    ensures profile { IfOk result (λ machine. machine.profile ≡ profile) }
    ensures good { IfOk result (λ machine. Good machine) }
    ensures damaged { IfErr result (λ fault. fault ≡ Damaged → HoldsNothing profile 3 seq bytes.now) }
{
    let mut machine = Machine::at(alloc, seq, profile);
    let mut place = Place::Snapshot;
    let mut rest = bytes;
    while !rest.is_empty() {
        let (after, next, len) = take_logged(alloc, machine, rest, place, seq)?;
        machine = after;
        place = next;
        rest = &rest[len..];
    }
    if !place.can_end() {
        return Err(ReplayFault::Damaged);
    }
    Ok(machine)
}

// The machine with what the frame holds that the bytes begin with, the place after it, and the frame's length.
fn take_logged(
    alloc: Global,
    machine: Machine,
    bytes: &[u8],
    place: Place,
    seq: u64,
) -> Result<(Machine, Place, usize), ReplayFault>
    requires same { machine.seq ≡ seq }
    ensures taken { IfOk result (λ r. TakesLogged bytes.now place machine r.1 r.0 r.2) }
    ensures good { IfOk result (λ r. Good r.0) }
    ensures damaged { IfErr result (λ fault. fault ≡ Damaged → TakesNoneLogged bytes.now place machine) }
{
    // Most frames are such patches, and are read with no tree of their operations.
    if let Some((kind, frame, changes)) = plain_patch(alloc, bytes) {
        let Some(next) = place.after(kind) else {
            return Err(ReplayFault::Damaged);
        };
        let (after, len) = take_patch(machine, &frame, &changes, seq)?;
        return Ok((after, next, len));
    }
    take_command(alloc, machine, bytes, place, seq)
}

// The patch that asks for no revision whose frame the bytes begin with, and what that holds. `None` says nothing.
fn plain_patch(alloc: Global, bytes: &[u8]) -> Option<(Kind, PatchFrame<'_>, Patch)>
    ensures { IfSome result (λ r. IsPatchAs bytes.now r.0 r.1 r.2) }
{
    let (kind, frame) = patch_frame_as(bytes)?;
    // A mark isn't spelled as a patch.
    if kind == Kind::Noted {
        return None;
    }
    let changes = Patch::read_unescaped(alloc, frame.ops)?;
    Some((kind, frame, changes))
}

// The same of any entry, whose command is read as a whole.
fn take_command(
    alloc: Global,
    machine: Machine,
    bytes: &[u8],
    place: Place,
    seq: u64,
) -> Result<(Machine, Place, usize), ReplayFault>
    requires same { machine.seq ≡ seq }
    ensures taken { IfOk result (λ r. TakesLogged bytes.now place machine r.1 r.0 r.2) }
    ensures good { IfOk result (λ r. Good r.0) }
    ensures damaged { IfErr result (λ fault. fault ≡ Damaged → TakesNoneLogged bytes.now place machine) }
{
    let (kind, command, dated, len) = read_frame_as(alloc, bytes)?;
    let Some(next) = place.after(kind) else {
        return Err(ReplayFault::Damaged);
    };
    if dated > seq {
        return Err(ReplayFault::Damaged);
    }
    let after = take(machine, kind, command, dated)?;
    Ok((after, next, len))
}

// The machine with what a frame of that kind holds: a change, or the mark that it spells.
fn take(machine: Machine, kind: Kind, command: Command, seq: u64) -> Result<Machine, ReplayFault>
    requires { seq ≤ machine.seq }
    ensures taken { IfOk result (TakesAs kind (entry seq (change_of command)) machine) }
    ensures good { IfOk result (λ after. Good after) }
    ensures damaged { IfErr result (λ fault. fault ≡ Damaged → RefusesAs kind (entry seq (change_of command)) machine) }
{
    if kind == Kind::Noted {
        return take_mark(machine, command, seq);
    }
    let after = machine.take_for_good(command, seq)?;
    Ok(after)
}

// The machine with the mark that the change spells.
fn take_mark(machine: Machine, command: Command, seq: u64) -> Result<Machine, ReplayFault>
    requires { seq ≤ machine.seq }
    ensures taken { IfOk result (TakesAs Noted (entry seq (change_of command)) machine) }
    ensures good { IfOk result (λ after. Good after) }
    ensures damaged { IfErr result (λ fault. fault ≡ Damaged → RefusesAs Noted (entry seq (change_of command)) machine) }
{
    let Some(mark) = mark_of(command, seq) else {
        return Err(ReplayFault::Damaged);
    };
    let mut after = machine;
    after.note(mark)?;
    Ok(after)
}

// The mark with that seq that the change spells. `None` if it spells none.
fn mark_of(command: Command, seq: u64) -> Option<Mark>
    ensures { MatchOption result ((m : Pure) → noted_entry m ≡ entry seq (change_of command) → ⊥) (λ mark. noted_entry (mark_in mark) ≡ entry seq (change_of command)) }
{
    let Command::Create { name, schema, doc } = command else {
        return None;
    };
    let Tree::Bool(true) = schema else {
        return None;
    };
    let Tree::Text(value) = doc else {
        return None;
    };
    Some(Mark {
        key: name,
        value,
        seq,
    })
}
