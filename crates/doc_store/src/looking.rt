//! The documents of a device that is only read.
ghost use Rattle.std.specs.Prelude.{Bool, IfOk, IfErr};
ghost use Rattle.sector_device.specs.Sectors.{KeepsImages};
ghost use Rattle.store_journal.specs.Models.{model};
ghost use Rattle.doc_changes.specs.State.{Good};
ghost use Rattle.store_commits.specs.Images.{Stands};
ghost use Rattle.doc_store.specs.Opening.{NotOpened};
ghost use Rattle.doc_store.specs.Strict.{IsSaidOf};

use crate::finding::find;
use doc_machine::Machine;
use sector_device::SectorDevice;
use std::alloc::Global;
use store_journal::{Notice, OpenFault};

/// The documents that a device holds, the device, and what its slots say in format 3.
#[derive(Drop)]
pub struct Looked<D: SectorDevice> {
    pub device: D,
    pub machine: Machine,
    pub notice: Notice,
}

/// Makes the documents that a device holds from what `Store::open` reads of it. Nothing is written, so the opening isn't
/// counted; a store of format 1 stays so.
///
/// Refused as `Store::open` is, but never as `NO_ROOM`, with the device.
pub fn look<D: SectorDevice>(alloc: Global, device: D) -> Result<Looked<D>, OpenFault<D>>
    ensures stands { IfOk result (λ looked. (D.disk looked.device).honest → Stands looked.machine (D.disk device).seen) }
    ensures notice { IfOk result (λ looked. (D.disk looked.device).honest → IsSaidOf (D.disk device).seen looked.notice) }
    ensures good { IfOk result (λ looked. Good looked.machine) }
    ensures unwritten { IfOk result (λ looked. (D.disk looked.device).honest → (rides : Bool) → KeepsImages (model rides (D.disk device)) (model rides (D.disk looked.device))) }
    ensures honest { IfOk result (λ looked. (D.disk looked.device).honest → (D.disk device).honest) }
    ensures refused { IfErr result (λ fault. NotOpened (D.disk device) (D.disk fault.device) fault.number) }
    ensures honest_err { IfErr result (λ fault. (D.disk fault.device).honest → (D.disk device).honest) }
    ensures unwritten_err { IfErr result (λ fault. (D.disk fault.device).honest → (rides : Bool) → KeepsImages (model rides (D.disk device)) (model rides (D.disk fault.device))) }
{
    let (journal, _, machine, notice) = match find(alloc, device) {
        Err(fault) => return Err(fault),
        Ok(found) => found,
    };
    Ok(Looked {
        device: journal.into_device(),
        machine,
        notice,
    })
}
