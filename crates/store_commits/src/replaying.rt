//! The machine made again from the committed bytes.
ghost use Rattle.std.specs.Prelude.{◌≡◌, IfOk, IfErr};
ghost use Rattle.half_journal.specs.Layout.{IsFormat};
ghost use Rattle.doc_changes.specs.State.{Good};
ghost use Rattle.store_commits.specs.Images.{Holds, version_of_frames};
ghost use Rattle.store_commits.specs.Replay.{HoldsNothing, IsVersion};
ghost use Rattle.store_commits.specs.declared.replaying.ReplayFault.TheVariants.{Damaged};

use crate::frame_replay::replay_frames;
use crate::log_replay::replay_log;
use doc_machine::{Machine, Profile, RecordFault, Refusal};
use refusals::numbers::{DAMAGED, MEMORY};
use std::alloc::Global;

/// Why bytes aren't replayed.
#[derive(Clone, Copy, Drop)]
pub enum ReplayFault {
    /// Memory was refused.
    Memory,
    /// They aren't the frames of accepted commands from end to end.
    Damaged,
}

impl ReplayFault {
    ghost use Rattle.std.specs.Prelude.{◌≡◌};
    ghost use Rattle.store_commits.specs.Replay.{fault_number};

    /// The number of this fault.
    pub fn number(self) -> u16
        ensures { result ≡ fault_number self }
    {
        match self {
            ReplayFault::Memory => MEMORY,
            ReplayFault::Damaged => DAMAGED,
        }
    }
}

impl From<RecordFault> for ReplayFault {
    ghost use Rattle.std.specs.Prelude.{◌≡◌};
    ghost use Rattle.store_commits.specs.Replay.{frame_fault};

    ghost from_gives = { λ fault gives. gives ≡ frame_fault fault };

    fn from(fault: RecordFault) -> ReplayFault {
        match fault {
            RecordFault::Memory => ReplayFault::Memory,
            _ => ReplayFault::Damaged,
        }
    }
}

impl From<Refusal> for ReplayFault {
    ghost use Rattle.std.specs.Prelude.{◌≡◌};
    ghost use Rattle.store_commits.specs.Replay.{take_fault};

    ghost from_gives = { λ refusal gives. gives ≡ take_fault refusal };

    fn from(refusal: Refusal) -> ReplayFault {
        if refusal.number == MEMORY {
            ReplayFault::Memory
        } else {
            ReplayFault::Damaged
        }
    }
}

/// The machine that the bytes of frames of that version make under a journal's `seq`, with schemas of the profile: each
/// frame is read and its command taken as it was the first time, with the frame's seq as the revision, in version 1 with
/// the journal's; in version 3 the mark that a frame spells is set. `Damaged` if the bytes aren't frames from end to end,
/// in version 3 those of a log; if a frame's seq is over the journal's; or if the machine refuses one of them.
pub fn replay(
    alloc: Global,
    bytes: &[u8],
    version: u32,
    seq: u64,
    profile: Profile,
) -> Result<Machine, ReplayFault>
    requires { IsVersion version }
    ensures holds { IfOk result (λ machine. Holds profile version seq bytes.now machine.documents machine.marks) }
    ensures seq { IfOk result (λ machine. machine.seq ≡ seq) }
    ensures profile { IfOk result (λ machine. machine.profile ≡ profile) }
    ensures good { IfOk result (λ machine. Good machine) }
    ensures damaged { IfErr result (λ fault. fault ≡ Damaged → HoldsNothing profile version seq bytes.now) }
{
    if version == 3 {
        replay_log(alloc, bytes, seq, profile)
    } else {
        replay_frames(alloc, bytes, version, seq, profile)
    }
}

/// The version of a store's frames: 3 if its last bytes ride in slots, else that of its journal, 1 or 2.
pub fn version_of_frames(rides: bool, version: u32) -> u32
    ensures version { result ≡ version_of_frames rides version }
    ensures fits { IsFormat version → IsVersion result }
{
    if rides { 3 } else { version }
}
