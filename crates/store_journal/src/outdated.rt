//! A device that was brought to format 3, but begins with a sector from before.
ghost use Rattle.std.specs.Prelude.{◌≡◌, ◌⊎◌, ◌↔◌, ◌≤◌, ◌<◌, ℕ, List, [], Bool, Option, IfErr, IfOk, IsTrue, slice_index_or, true};
ghost use Rattle.refusals.specs.declared.numbers.TheConstants.{DEVICE, MEMORY};
ghost use Rattle.sector_device.specs.Charges.{Charges, Failed, IsSameRead, Made};
ghost use Rattle.sector_device.specs.Sectors.{KeepsImages};
ghost use Rattle.slot_commits.specs.Tears.{tearing_by};
ghost use Rattle.half_journal.specs.Layout.{Fits, IsOf, sector_of};
ghost use Rattle.store_journal.specs.Layout.{IsSized};
ghost use Rattle.store_journal.specs.Outdated.{IsNewest, IsNotNewest, IsOutdated, IsPast, OnlyLooked};

use crate::fault::{JournalFault, OpenFault};
use crate::geometry::is_sized;
use commit_slots::Slot;
use half_journal::Commit;
use half_journal::layout::commit_in;
use refusals::numbers::{DAMAGED, DEVICE, MEMORY};
use sector_device::{DeviceFault, ReadFault, SectorDevice};
use slot_commits::find;
use std::alloc::Global;

/// The device, unless it is outdated: sector 0 is a commit sector of format 1 or 2, and the slots hold a commit of format 3
/// with more changes or openings than that. So its first block is one from before an upgrade, and what sector 0 names isn't
/// what was stored last. After an upgrade or a return that a crash stopped the slots have the same numbers.
///
/// `DAMAGED`, `DEVICE` or `MEMORY`, with the device. It reads sector 0, and, if that is a commit sector, the slots.
pub fn newest<D: SectorDevice>(alloc: Global, device: D) -> Result<D, OpenFault<D>>
    ensures ok { IfOk result (λ looked. IsNewest (D.disk device) (D.disk looked)) }
    ensures err { IfErr result (λ fault. IsNotNewest (D.disk device) (D.disk fault.device) fault.number) }
{
    let mut device = device;
    match is_outdated(alloc, &mut device) {
        Err(fault) => Err(OpenFault {
            number: fault.number,
            device,
        }),
        Ok(true) => Err(OpenFault {
            number: DAMAGED,
            device,
        }),
        Ok(false) => Ok(device),
    }
}

// Whether it is: a read of sector 0, and, if that is a commit sector, of each sector of the slots.
fn is_outdated<D: SectorDevice>(alloc: Global, device: &mut D) -> Result<bool, JournalFault>
    ensures same { IsSameRead (D.disk device.old) (D.disk device.new) }
    ensures keeps { (torn : Option (List ℕ → Bool)) → (D.disk device.new).honest → KeepsImages (tearing_by torn (D.disk device.old)) (tearing_by torn (D.disk device.new)) }
    ensures looked { IfOk result (λ _. OnlyLooked (D.disk device.old) (D.disk device.new)) }
    ensures outdated { (D.disk device.new).honest → IfOk result (λ outdated. IsTrue outdated ↔ IsOutdated (D.disk device.old).seen) }
    ensures err { IfErr result (λ fault. ((fault.number ≡ DEVICE) × Failed (D.disk device.old) (D.disk device.new) 129) ⊎ ((fault.number ≡ MEMORY) × OnlyLooked (D.disk device.old) (D.disk device.new))) }
{
    let sectors = device.sectors();
    if !is_sized(true, sectors) {
        return Ok(false);
    }
    match zeroth(device) {
        Err(_) => Err(JournalFault { number: DEVICE }),
        Ok(first) => match commit_in(&first, sectors) {
            None => Ok(false),
            Some(commit) => are_past(alloc, device, commit),
        },
    }
}

// Sector 0.
fn zeroth<D: SectorDevice>(device: &mut D) -> Result<[u8; 512], DeviceFault>
    requires { 0 < (D.disk device.old).sectors }
    ensures same { IsSameRead (D.disk device.old) (D.disk device.new) }
    ensures charges { Charges (D.disk device.old) (D.disk device.new) 1 result }
    ensures keeps { (torn : Option (List ℕ → Bool)) → (D.disk device.new).honest → KeepsImages (tearing_by torn (D.disk device.old)) (tearing_by torn (D.disk device.new)) }
    ensures sector { (D.disk device.new).honest → IfOk result (λ sector. sector ≡ slice_index_or (D.disk device.old).seen 0 []) }
{
    let mut sector = [0; 512];
    device.read(0, &mut sector)?;
    Ok(sector)
}

// Whether the slots hold a commit past that one, which sector 0 is: a read of each of their sectors.
fn are_past<D: SectorDevice>(
    alloc: Global,
    device: &mut D,
    commit: Commit,
) -> Result<bool, JournalFault>
    requires sized { IsSized true (D.disk device.old).sectors }
    ensures same { IsSameRead (D.disk device.old) (D.disk device.new) }
    ensures keeps { (torn : Option (List ℕ → Bool)) → (D.disk device.new).honest → KeepsImages (tearing_by torn (D.disk device.old)) (tearing_by torn (D.disk device.new)) }
    ensures looked { IfOk result (λ _. (n : ℕ) × (n ≤ 128) × Made (D.disk device.old) (D.disk device.new) n) }
    ensures past { (D.disk device.new).honest → IsOf (D.disk device.old).sectors commit → Fits commit → slice_index_or (D.disk device.old).seen 0 [] ≡ sector_of commit
        → IfOk result (λ past. IsTrue past ↔ IsOutdated (D.disk device.old).seen) }
    ensures err { IfErr result (λ fault. ((fault.number ≡ DEVICE) × Failed (D.disk device.old) (D.disk device.new) 128) ⊎ ((fault.number ≡ MEMORY) × ((n : ℕ) × (n ≤ 128) × Made (D.disk device.old) (D.disk device.new) n))) }
{
    match find(alloc, device) {
        Err(ReadFault::Memory) => Err(JournalFault { number: MEMORY }),
        Err(ReadFault::Device) => Err(JournalFault { number: DEVICE }),
        Ok(found) => match found.counted {
            None => Ok(false),
            Some(counted) => Ok(is_past(commit, &counted.slot)),
        },
    }
}

// Whether the slot has more changes, or more openings, than the commit sector.
fn is_past(commit: Commit, slot: &Slot) -> bool
    ensures { IsTrue result ↔ IsPast commit slot.now }
{
    commit.seq < slot.seq || commit.opens < slot.opens
}
