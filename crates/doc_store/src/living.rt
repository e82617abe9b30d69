//! One life, from its opening to the end of its device.
ghost use Rattle.std.specs.Prelude.{◌≡◌, ◌⊎◌, ◌-◌, [], ◌∷◌, Bool, true, IfOk, IfErr};
ghost use Rattle.sector_device.specs.Disk.{Image};
ghost use Rattle.sector_device.specs.Memory.{mem_disk};
ghost use Rattle.store_journal.specs.Models.{model};
ghost use Rattle.doc_changes.specs.Refusals.{plain};
ghost use Rattle.doc_changes.specs.State.{State};
ghost use Rattle.refusals.specs.declared.numbers.TheConstants.{MEMORY, NO_ROOM};
ghost use Rattle.doc_store.specs.Ending.{Leaves, TimedIf, began_or, with_kept};
ghost use Rattle.doc_store.specs.Opening.{MayLackRoom};
ghost use Rattle.store_commits.specs.Images.{rides_for};
ghost use Rattle.doc_store.specs.Lives.{AllStand, CrashKeeps};
ghost use Rattle.doc_store.specs.Opening.{LacksRoom};
ghost use Rattle.doc_store.specs.Timed.{HasOneImage, left};

use crate::life::{Life, Part};
use crate::store::Store;
use doc_machine::Refusal;
use refusals::numbers::{MEMORY, NO_ROOM};
use sector_device::{Fuse, MemDisk, SectorDevice};
use std::alloc::Global;
use store_commits::Event;
use store_journal::OpenFault;

/// A life that ended: its part, which has the number of accepted changes that it began with in place of those that were
/// kept, and the device as it is then.
#[derive(Drop)]
pub struct Ended<D: SectorDevice> {
    pub part: Part,
    pub device: D,
}

/// A life of a disk: opened through a fuse, asked, and crashed.
pub(crate) fn live(alloc: Global, disk: MemDisk, life: Life) -> Result<Ended<MemDisk>, Refusal>
    ensures lived { (s : State) (settled : Bool) → AllStand (mem_disk disk) s → (settled ≡ true → HasOneImage (rides_for s.profile) (mem_disk disk)) → CrashKeeps (rides_for s.profile) life → IfOk result (λ ended. (t : State)
        × TimedIf ((mem_disk disk).failures_saturated → ⊥) (left s (mem_disk disk).seen settled) (life ∷ []) (with_kept ended.part t.seq ∷ []) (left t (mem_disk ended.device).seen true)
        × (began_or ended.part t.seq ≡ s.seq) × AllStand (mem_disk ended.device) t) }
    ensures alone { IfOk result (λ ended. (rides : Bool) → HasOneImage rides (mem_disk ended.device)) }
    ensures fresh { IfOk result (λ ended. (mem_disk ended.device).failures_saturated → ⊥) }
    ensures uncounted { IfOk result (λ ended. (mem_disk ended.device).failures ≡ 0) }
    ensures rooms { (s : State) → AllStand (mem_disk disk) s → CrashKeeps (rides_for s.profile) life
        → IfOk result (λ ended. MayLackRoom (mem_disk ended.device) → MayLackRoom (mem_disk disk)) }
    ensures err { IfErr result (λ refusal. (refusal ≡ plain MEMORY) ⊎ ((refusal ≡ plain NO_ROOM) × LacksRoom (mem_disk disk).seen)) }
{
    let Life {
        stop,
        picks,
        damage,
        events,
    } = life;
    let before = disk.failures();
    let Ended { part, device } = spend(alloc, Fuse::new(disk, stop), events)?;
    let disk = device.into_inner();
    let disk_faults = disk.failures().saturating_sub(before);
    Ok(Ended {
        part: Part {
            disk_faults,
            ..part
        },
        device: disk.crash_torn(&picks, &damage),
    })
}

// Opens a device, asks all events, and gives it back.
fn spend<D: SectorDevice + Drop>(
    alloc: Global,
    device: D,
    events: Vec<Event>,
) -> Result<Ended<D>, Refusal>
    ensures leaves { (s : State) (life : Life) (settled : Bool) → life.events ≡ events → AllStand (D.disk device) s → (settled ≡ true → HasOneImage (rides_for s.profile) (D.disk device))
        → IfOk result (λ ended. (D.disk ended.device).honest → (image : Image) → (model (rides_for s.profile) (D.disk ended.device)).left image
        → Leaves (D.disk device) (left s (D.disk device).seen settled) life (record ended.part { disk_faults = (D.disk ended.device).own_failures - (D.disk device).own_failures }) image) }
    ensures rooms { (s : State) → AllStand (D.disk device) s → IfOk result (λ ended. (D.disk ended.device).honest → MayLackRoom (D.disk ended.device) → MayLackRoom (D.disk device)) }
    ensures err { IfErr result (λ refusal. (refusal ≡ plain MEMORY)
        ⊎ ((refusal ≡ plain NO_ROOM) × (((d : D) → (D.disk d).honest) → LacksRoom (D.disk device).seen))) }
{
    let mut part = Part::new(alloc, events.len())?;
    let mut store = match Store::open(alloc, device) {
        Err(fault) => {
            let OpenFault { number, device } = fault;
            if number == MEMORY || number == NO_ROOM {
                return Err(Refusal::plain(number));
            }
            return Ok(Ended { part, device });
        }
        Ok(store) => store,
    };
    let began = store.status().seq;
    part.ask_all(alloc, &mut store, events);
    store.know();
    part.opened = true;
    part.kept = began;
    Ok(Ended {
        part,
        device: store.into_device(),
    })
}
