//! A copy in the half that doesn't count.
ghost use Rattle.std.specs.Prelude.{◌≡◌, ◌≤◌, ◌+◌, ◌-◌, OnOk};
ghost use Rattle.sector_device.specs.Disk.{Image, LeavesOnly};
ghost use Rattle.sector_device.specs.Charges.{Charges, IsSame};
ghost use Rattle.sector_device.specs.Sectors.{Over, SectorsHold};
ghost use Rattle.half_journal.specs.Known.{IsFormed, Knows};
ghost use Rattle.half_journal.specs.Layout.{half_size, half_start};
ghost use Rattle.half_journal.specs.States.{CarriesInHalf, HalfState};

use crate::geometry::half_start;
use crate::known::HalfKnown;
use sector_device::{DeviceFault, SectorDevice, write_run};

/// Writes `count` sectors of the half that doesn't count, from its sector `place` on, with the bytes, and zeros after
/// them. `Err`: a write failed, and none was made after it.
pub fn write_copy<D: SectorDevice>(
    device: &mut D,
    known: &HalfKnown,
    place: u64,
    count: u64,
    bytes: &[u8],
) -> Result<(), DeviceFault>
    requires formed { IsFormed (D.disk device.old).sectors known.now }
    requires room { place + count ≤ half_size known.now.commit.sectors }
    ensures same { IsSame (D.disk device.old) (D.disk device.new) }
    ensures charges { Charges (D.disk device.old) (D.disk device.new) count result }
    ensures carries { (c : HalfState) → (D.disk device.old).honest → Knows known.now c → ((image : Image) → (D.disk device.old).left image → CarriesInHalf c image)
        → LeavesOnly (D.disk device.old) (D.disk device.new) (CarriesInHalf c) }
    ensures seen { (D.disk device.old).honest → Over (half_start known.now.commit.sectors (1 - known.now.commit.half) + place) count bytes.now (D.disk device.old).seen (D.disk device.new).seen }
    ensures written { (D.disk device.old).honest → OnOk result (SectorsHold (D.disk device.new).seen (half_start known.now.commit.sectors (1 - known.now.commit.half) + place) count bytes.now) }
{
    let start = half_start(known.commit.sectors, 1 - known.commit.half);
    write_run(device, start + place, count, &[], bytes)
}
