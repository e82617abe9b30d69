//! The machine made again from frames of versions 1 and 2.
ghost use Rattle.std.specs.Prelude.{◌≡◌, ◌<◌, ◌≤◌, ℕ, Ok, length, IfOk, IfErr, IfSome, MatchResult};
ghost use Rattle.half_journal.specs.Layout.{IsFormat};
ghost use Rattle.doc_changes.specs.State.{Good};
ghost use Rattle.doc_machine.specs.Entries.{Takes, with_entry};
ghost use Rattle.doc_patch.specs.Meaning.{operations};
ghost use Rattle.doc_patch.specs.Reading.{operations_of};
ghost use Rattle.doc_tree.specs.Doc.{Doc};
ghost use Rattle.doc_tree.specs.Sound.{IsSound};
ghost use Rattle.record_text.specs.Change.{change_of, patch};
ghost use Rattle.record_text.specs.Frame.{Entry, entry};
ghost use Rattle.record_text.specs.declared.fault.RecordFault.TheVariants.{Memory as NoMemory};
ghost use Rattle.store_commits.specs.Replay.{BeginsIn, HoldsNothing, IsPatchFrame, TakesFirst, TakesNone};
ghost use Rattle.store_commits.specs.Images.{Holds};
ghost use Rattle.store_commits.specs.declared.replaying.ReplayFault.TheVariants.{Damaged};

use crate::replaying::ReplayFault;
use doc_machine::{Command, Machine, Profile, RecordFault};
use doc_patch::Patch;
use record_text::laws::frames_differ;
use record_text::{PatchFrame, patch_frame, read_frame, read_frame_1};
use std::alloc::Global;

/// The machine that frames of version 1 or 2 make, as `replay` says.
pub(crate) fn replay_frames(
    alloc: Global,
    bytes: &[u8],
    version: u32,
    seq: u64,
    profile: Profile,
) -> Result<Machine, ReplayFault>
    requires { IsFormat version }
    ensures holds { IfOk result (λ machine. Holds profile version seq bytes.now machine.documents machine.marks) }
    ensures seq { IfOk result (λ machine. machine.seq ≡ seq) }
    ensures profile { IfOk result (λ machine. machine.profile ≡ profile) }
    ensures good { IfOk result (λ machine. Good machine) }
    ensures damaged { IfErr result (λ fault. fault ≡ Damaged → HoldsNothing profile version seq bytes.now) }
{
    let mut machine = Machine::at(alloc, seq, profile);
    let mut rest = bytes;
    while !rest.is_empty() {
        let (after, len) = take_first(alloc, machine, rest, version, seq)?;
        machine = after;
        rest = &rest[len..];
    }
    Ok(machine)
}

// The machine with the entry whose frame of that format the bytes begin with, and the frame's length.
fn take_first(
    alloc: Global,
    machine: Machine,
    bytes: &[u8],
    version: u32,
    seq: u64,
) -> Result<(Machine, usize), ReplayFault>
    requires format { IsFormat version }
    requires same { machine.seq ≡ seq }
    ensures taken { IfOk result (λ r. TakesFirst version seq bytes.now machine r.0 r.1) }
    ensures good { IfOk result (λ r. Good r.0) }
    ensures damaged { IfErr result (λ fault. fault ≡ Damaged → TakesNone version seq bytes.now machine) }
{
    // Most frames are such patches, and are read with no tree of their operations.
    if version != 1 {
        if let Some((frame, changes)) = plain_patch(alloc, bytes) {
            frames_differ();
            return take_patch(machine, &frame, &changes, seq);
        }
    }
    take_command(alloc, machine, bytes, version, seq)
}

// The patch that asks for no revision whose frame of format 2 the bytes begin with. `None` says nothing.
fn plain_patch(alloc: Global, bytes: &[u8]) -> Option<(PatchFrame<'_>, Patch)>
    ensures { IfSome result (λ r. IsPatchFrame bytes.now r.0 r.1) }
{
    let frame = patch_frame(bytes)?;
    let changes = Patch::read_unescaped(alloc, frame.ops)?;
    Some((frame, changes))
}

/// The machine with that patch, and its frame's length.
pub(crate) fn take_patch(
    machine: Machine,
    frame: &PatchFrame<'_>,
    changes: &Patch,
    seq: u64,
) -> Result<(Machine, usize), ReplayFault>
    requires same { machine.seq ≡ seq }
    ensures { (ops : Doc) → operations_of ops ≡ Ok (operations changes.now) → IsSound ops →
        let e = entry frame.now.seq (patch frame.now.name.now ops None) in MatchResult result
        (λ r. Takes machine e × (r.0 ≡ with_entry machine e) × (r.1 ≡ frame.now.len) × Good r.0)
        (λ fault. fault ≡ Damaged → Takes machine e → ⊥) }
{
    if frame.seq > seq {
        return Err(ReplayFault::Damaged);
    }
    let after = machine.take_patch_for_good(frame.name, changes, frame.seq)?;
    Ok((after, frame.len))
}

// The same of any entry, whose command is read as a whole.
fn take_command(
    alloc: Global,
    machine: Machine,
    bytes: &[u8],
    version: u32,
    seq: u64,
) -> Result<(Machine, usize), ReplayFault>
    requires format { IsFormat version }
    requires same { machine.seq ≡ seq }
    ensures taken { IfOk result (λ r. TakesFirst version seq bytes.now machine r.0 r.1) }
    ensures good { IfOk result (λ r. Good r.0) }
    ensures damaged { IfErr result (λ fault. fault ≡ Damaged → TakesNone version seq bytes.now machine) }
{
    let (command, dated, len) = entry_at(alloc, bytes, version, seq)?;
    if dated > seq {
        return Err(ReplayFault::Damaged);
    }
    let after = machine.take_for_good(command, dated)?;
    Ok((after, len))
}

// The entry whose frame of that format the bytes begin with, and the frame's length.
fn entry_at(
    alloc: Global,
    bytes: &[u8],
    version: u32,
    seq: u64,
) -> Result<(Command, u64, usize), RecordFault>
    requires { IsFormat version }
    ensures ok { IfOk result (λ r. BeginsIn version seq bytes.now (entry r.1 (change_of r.0)) r.2) }
    ensures read { (e : Entry) (n : ℕ) → BeginsIn version seq bytes.now e n
        → MatchResult result (λ r. (entry r.1 (change_of r.0) ≡ e) × (r.2 ≡ n)) (λ f. f ≡ NoMemory) }
{
    if version == 1 {
        let (command, len) = read_frame_1(alloc, bytes)?;
        return Ok((command, seq, len));
    }
    read_frame(alloc, bytes)
}
