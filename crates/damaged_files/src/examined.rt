//! All that is read of a device, and what was found.
ghost use Rattle.std.specs.Prelude.{◌≡◌, ◌≤◌, ◌<◌, ◌⊎◌, ◌++◌, ◌∷◌, [], IfOk, IfSome};
ghost use Rattle.std.specs.List.{AllByRecursion};
ghost use Rattle.sector_device.specs.Charges.{IsSameRead};
ghost use Rattle.doc_changes.specs.State.{Good};
ghost use Rattle.store_parts.specs.Copies.{AreToldOn};
ghost use Rattle.store_parts.specs.Parts.{AreParts};
ghost use Rattle.damaged_files.specs.Damages.{IsExaminedOn};

use sector_device::SectorDevice;
use std::alloc::{AllocError, Global};
use store_parts::{Findings, examine};
use store_salvage::{Made, salvage};

/// What was found on a device of which all was read.
#[derive(Drop)]
pub struct Examined {
    /// The commits and the parts, if it has as many sectors as a store may have.
    pub found: Option<Findings>,
    /// The documents of the part that counts.
    pub made: Option<Made>,
    /// The sectors that the device doesn't read.
    pub unread: Vec<u64>,
}

/// Reads all of a device.
pub(crate) fn examine_all<D: SectorDevice>(
    alloc: Global,
    device: &mut D,
) -> Result<Examined, AllocError>
    ensures same { IsSameRead (D.disk device.old) (D.disk device.new) }
    ensures later { (D.disk device.old).failures ≤ (D.disk device.new).failures }
    ensures found { IfOk result (IsExaminedOn (D.disk device.old).sectors) }
    ensures copies { (D.disk device.new).honest → IfOk result (λ examined. IfSome examined.found (AreToldOn (D.disk device.old).seen)) }
{
    let found = examine(alloc, device)?;
    let made = made_of(alloc, device, &found)?;
    let unread = unread_sectors(alloc, device)?;
    Ok(Examined {
        found,
        made,
        unread,
    })
}

// The documents of the part that counts.
fn made_of<D: SectorDevice>(
    alloc: Global,
    device: &mut D,
    found: &Option<Findings>,
) -> Result<Option<Made>, AllocError>
    requires { IfSome found.now (λ f. AreParts (D.disk device.old).sectors f.parts.items) }
    ensures same { IsSameRead (D.disk device.old) (D.disk device.new) }
    ensures later { (D.disk device.old).failures ≤ (D.disk device.new).failures }
    ensures good { IfOk result (λ made. IfSome made (λ m. Good m.machine)) }
{
    match found {
        Some(found) => salvage(alloc, device, found),
        None => Ok(None),
    }
}

// The sectors that the device doesn't read: if there is none, no read failed.
fn unread_sectors<D: SectorDevice>(alloc: Global, device: &mut D) -> Result<Vec<u64>, AllocError>
    ensures same { IsSameRead (D.disk device.old) (D.disk device.new) }
    ensures later { (D.disk device.old).failures ≤ (D.disk device.new).failures }
    ensures within { IfOk result (λ unread. AllByRecursion (λ at. at < (D.disk device.old).sectors) unread.items) }
    ensures heard { IfOk result (λ unread. unread.items ≡ [] → (D.disk device.new).failures ≡ (D.disk device.old).failures) }
{
    let mut unread = Vec::new(alloc);
    for at in 0..device.sectors() {
        unread = with_sector(device, at, unread)?;
    }
    Ok(unread)
}

// The sectors, and after them that one, if the device doesn't read it.
fn with_sector<D: SectorDevice>(
    device: &mut D,
    at: u64,
    unread: Vec<u64>,
) -> Result<Vec<u64>, AllocError>
    requires { at < (D.disk device.old).sectors }
    ensures same { IsSameRead (D.disk device.old) (D.disk device.new) }
    ensures later { (D.disk device.old).failures ≤ (D.disk device.new).failures }
    ensures told { IfOk result (λ more. ((more.items ≡ unread.items) × ((D.disk device.new).failures ≡ (D.disk device.old).failures)) ⊎ ((more.items ≡ unread.items ++ at ∷ []) × (((D.disk device.old).failures < (D.disk device.new).failures) ⊎ (D.disk device.old).failures_saturated))) }
{
    let mut more = unread;
    let mut sector = [0; 512];
    match device.read(at, &mut sector) {
        Ok(()) => Ok(more),
        Err(_) => {
            more.push(at)?;
            Ok(more)
        }
    }
}
