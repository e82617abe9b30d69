//! The reading of a device, by which its documents are made again.
ghost use Rattle.std.specs.Prelude.{◌≡◌, Bool, IfOk, IfErr};
ghost use Rattle.sector_device.specs.Sectors.{KeepsImages};
ghost use Rattle.store_journal.specs.Models.{model};
ghost use Rattle.store_commits.specs.Images.{profile_in};
ghost use Rattle.doc_store.specs.Found.{WasFound};
ghost use Rattle.doc_store.specs.Opening.{NotOpened};
ghost use Rattle.doc_store.specs.Strict.{IsSaidOf};

use doc_machine::{Machine, Profile};
use sector_device::SectorDevice;
use std::alloc::Global;
use store_commits::{replay, version_of_frames};
use store_journal::{Journal, Notice, OpenFault};

/// The journal of what a device holds, the committed bytes, the machine that they make, and what the slots say in format 3.
/// Nothing is written.
///
/// `NOT_A_STORE`, `DAMAGED`, `DEVICE` or `MEMORY`, with the device.
pub(crate) fn find<D: SectorDevice>(
    alloc: Global,
    device: D,
) -> Result<(Journal<D>, Vec<u8>, Machine, Notice), OpenFault<D>>
    ensures found { IfOk result (λ found. WasFound D.disk device found.0 found.1.items found.2) }
    ensures notice { IfOk result (λ found. (D.disk found.0.device).honest → IsSaidOf (D.disk device).seen found.3) }
    ensures refused { IfErr result (λ fault. NotOpened (D.disk device) (D.disk fault.device) fault.number) }
    ensures untouched { IfErr result (λ fault. (D.disk fault.device).honest → (rides : Bool) → KeepsImages (model rides (D.disk device)) (model rides (D.disk fault.device))) }
    ensures honest_err { IfErr result (λ fault. (D.disk fault.device).honest → (D.disk device).honest) }
{
    let (journal, bytes, notice) = match Journal::open(alloc, device) {
        Err(fault) => return Err(fault),
        Ok(opened) => opened,
    };
    let profile = profile_of(journal.rides());
    let version = version_of_frames(journal.rides(), journal.version());
    match replay(alloc, &bytes, version, journal.seq(), profile) {
        Err(fault) => Err(OpenFault {
            number: fault.number(),
            device: journal.into_device(),
        }),
        Ok(machine) => Ok((journal, bytes, machine, notice)),
    }
}

// The profile of schemas in a store, by whether the last bytes ride in slots.
fn profile_of(rides: bool) -> Profile
    ensures { result ≡ profile_in rides }
{
    if rides { Profile::Three } else { Profile::Two }
}
