//! The committed bytes of a device, read once when it is opened, and what is known of them.
ghost use Rattle.std.specs.Prelude.{◌≡◌, ◌<◌, ◌^◌, IfOk, List, ℕ, Bool, length, slice_index_or, []};
ghost use Rattle.sector_device.specs.Charges.{IsSameRead};
ghost use Rattle.sector_device.specs.Disk.{tearing};
ghost use Rattle.sector_device.specs.Reads.{ReadCharges};
ghost use Rattle.sector_device.specs.Sectors.{KeepsImages, sectors_of};
ghost use Rattle.half_journal.specs.Known.{Knows};
ghost use Rattle.half_journal.specs.Layout.{Fits, IsHalfSized, IsOf, sector_of};
ghost use Rattle.half_journal.specs.States.{CarriesInHalf, state_in};

use crate::Commit;
use crate::geometry::half_start;
use crate::known::HalfKnown;
use sector_device::{ReadFault, SECTOR_BYTES, SectorDevice, read_bytes, sector_at};
use std::alloc::Global;

/// The bytes that the commit names: a read of each of their sectors.
pub fn load<D: SectorDevice>(
    alloc: Global,
    device: &mut D,
    commit: Commit,
) -> Result<Vec<u8>, ReadFault>
    requires sized { IsHalfSized (D.disk device.old).sectors }
    requires of { IsOf (D.disk device.old).sectors commit }
    ensures same { IsSameRead (D.disk device.old) (D.disk device.new) }
    ensures charges { ReadCharges (D.disk device.old) (D.disk device.new) (sectors_of commit.length) result }
    ensures images { (D.disk device.new).honest → KeepsImages (D.disk device.old) (D.disk device.new) }
    ensures torn { (torn : List ℕ → Bool) → (D.disk device.new).honest → KeepsImages (tearing torn (D.disk device.old)) (tearing torn (D.disk device.new)) }
    ensures size { IfOk result (λ bytes. length bytes.items ≡ commit.length) }
    ensures carries { (D.disk device.new).honest → Fits commit → slice_index_or (D.disk device.old).seen 0 [] ≡ sector_of commit
        → IfOk result (λ bytes. CarriesInHalf (state_in commit bytes.items) (D.disk device.old).seen) }
{
    let start = half_start(commit.sectors, commit.half);
    read_bytes(alloc, device, start, commit.length)
}

/// What is known of a commit that was read, with its bytes.
pub fn recovered(commit: Commit, bytes: &[u8]) -> HalfKnown
    requires size { length bytes.now ≡ commit.length }
    requires short { commit.length < 2 ^ 60 }
    ensures commit { result.commit ≡ commit }
    ensures knows { Knows result (state_in commit bytes.now) }
{
    HalfKnown {
        commit,
        tail: sector_at(&[], bytes, commit.length / SECTOR_BYTES),
    }
}
