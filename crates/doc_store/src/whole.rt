//! Lives one after another.
ghost use Rattle.std.specs.Prelude.{◌≡◌, ◌⊎◌, Bool, true, false, None, IfOk, IfErr};
ghost use Rattle.sector_device.specs.Disk.{Image};
ghost use Rattle.sector_device.specs.Memory.{mem_disk};
ghost use Rattle.doc_changes.specs.Refusals.{plain};
ghost use Rattle.doc_changes.specs.State.{State};
ghost use Rattle.refusals.specs.declared.numbers.TheConstants.{MEMORY, NO_ROOM};
ghost use Rattle.doc_store.specs.Ending.{TimedIf, all_with_kept};
ghost use Rattle.doc_store.specs.Opening.{MayLackRoom};
ghost use Rattle.store_commits.specs.Images.{rides_for};
ghost use Rattle.doc_store.specs.Lives.{AllStand, CrashesKeep, DiskStands, IsLives, AreRefused, failures_after};
ghost use Rattle.doc_store.specs.Opening.{IsOpenedFrom};
ghost use Rattle.doc_store.specs.Promise.{LivesKeep};
ghost use Rattle.doc_store.specs.Timed.{HasOneImage, Timed, left};

use crate::kept::tell_kept;
use crate::life::{Life, Part};
use crate::living::{Ended, live};
use crate::store::Store;
use doc_machine::Refusal;
use sector_device::MemDisk;
use std::alloc::Global;
use store_journal::OpenFault;

/// Why lives were not done to their end.
#[derive(Drop)]
pub enum LivesFault {
    /// An opening, or the part of a life, was refused memory (`MEMORY`); or an opening was refused as `NO_ROOM`, which only
    /// a disk in format 1 is.
    InALife(Refusal),
    /// The last opening was refused. The disk comes back as it is then.
    AtLast(OpenFault<MemDisk>),
}

impl From<Refusal> for LivesFault {
    ghost use Rattle.std.specs.Prelude.{◌≡◌};
    ghost use Rattle.doc_store.specs.declared.whole.LivesFault.TheVariants.{InALife};

    ghost from_gives = { λ refusal fault. fault ≡ InALife refusal };

    fn from(refusal: Refusal) -> LivesFault {
        LivesFault::InALife(refusal)
    }
}

impl Store<MemDisk> {
    /// Lives of a disk, one after another: the part of each, and the store that opens at last. In each life the disk is
    /// opened through a fuse that passes a given number of calls and then fails each, the store is asked its events,
    /// and the power goes: of each sector the crash keeps what the picks name, and it tears those that the damage names,
    /// which a store in format 3 withstands if none verifies. The last opening has no fuse.
    ///
    /// `InALife` if an opening, or the part of a life, was refused memory, or an opening was refused as `NO_ROOM`, which
    /// only a disk in format 1 is. `AtLast` if the last opening is refused: the disk comes back, and says whether it failed,
    /// also if its memory ran out.
    pub fn lives(
        alloc: Global,
        disk: MemDisk,
        lives: Vec<Life>,
    ) -> Result<(Vec<Part>, Store<MemDisk>), LivesFault>
        ensures lives { (s : State) → AllStand (mem_disk disk) s → CrashesKeep s lives.items → IfOk result (λ told. IsLives s lives.items told.0.items told.1.account.state) }
        ensures promise { (s : State) → DiskStands disk s → CrashesKeep s lives.items → IfOk result (λ told. LivesKeep s lives.items told.0.items told.1.account.state) }
        ensures timed { (s : State) (settled : Bool) → AllStand (mem_disk disk) s → (settled ≡ true → HasOneImage (rides_for s.profile) (mem_disk disk)) → CrashesKeep s lives.items → ((mem_disk disk).failures_saturated → ⊥)
            → IfOk result (λ told. (image : Image) × (now : Bool) × IsOpenedFrom image told.1.account
            × Timed (left s (mem_disk disk).seen settled) lives.items told.0.items (left told.1.account.state image now)) }
        ensures works { IfOk result (λ told. (told.1.account.broken ≡ false) × (told.1.account.copy ≡ None)) }
        ensures stands { (s : State) → AllStand (mem_disk disk) s → CrashesKeep s lives.items → IfOk result (λ told. AllStand (mem_disk told.1.device) told.1.account.state) }
        ensures err { (s : State) → AllStand (mem_disk disk) s → CrashesKeep s lives.items → IfErr result (AreRefused s lives.items disk) }
    {
        let (mut parts, disk) = live_all(alloc, disk, lives)?;
        let store = match Store::open(alloc, disk) {
            Err(fault) => return Err(LivesFault::AtLast(fault)),
            Ok(store) => store,
        };
        tell_kept(&mut parts, store.status().seq);
        Ok((parts, store))
    }
}

// All lives, one after another: their parts, which don't have yet what was kept, and the disk after the last crash.
fn live_all(alloc: Global, disk: MemDisk, lives: Vec<Life>) -> Result<(Vec<Part>, MemDisk), Refusal>
    ensures lived { (s : State) (settled : Bool) → AllStand (mem_disk disk) s → (settled ≡ true → HasOneImage (rides_for s.profile) (mem_disk disk)) → CrashesKeep s lives.items → IfOk result (λ lived. (t : State) × (now : Bool)
        × TimedIf ((mem_disk disk).failures_saturated → ⊥) (left s (mem_disk disk).seen settled) lives.items (all_with_kept lived.0.items t.seq) (left t (mem_disk lived.1).seen now)
        × AllStand (mem_disk lived.1) t) }
    ensures rooms { (s : State) → AllStand (mem_disk disk) s → CrashesKeep s lives.items → IfOk result (λ lived. MayLackRoom (mem_disk lived.1) → MayLackRoom (mem_disk disk)) }
    ensures counts { IfOk result (λ lived. (mem_disk lived.1).failures ≡ failures_after lives.items (mem_disk disk).failures) }
    ensures err { (s : State) → AllStand (mem_disk disk) s → CrashesKeep s lives.items → IfErr result (λ refusal. (refusal ≡ plain MEMORY) ⊎ ((refusal ≡ plain NO_ROOM) × MayLackRoom (mem_disk disk))) }
{
    let mut disk = disk;
    let mut parts = Vec::with_capacity(alloc, lives.len())?;
    for life in lives {
        let Ended { part, device } = live(alloc, disk, life)?;
        parts.push(part)?;
        disk = device;
    }
    Ok((parts, disk))
}
