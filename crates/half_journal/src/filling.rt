//! A device that is made a store of given bytes, or of none.
ghost use Rattle.std.specs.Prelude.{◌≡◌, ◌≤◌, ◌+◌, [], OnOk, length};
ghost use Rattle.sector_device.specs.Disk.{Image, LeavesOnly};
ghost use Rattle.sector_device.specs.Charges.{Charges, IsSame};
ghost use Rattle.sector_device.specs.Sectors.{sectors_of};
ghost use Rattle.half_journal.specs.Fills.{NoneOrFilled, filled};
ghost use Rattle.half_journal.specs.Layout.{HasMagic, IsHalfSized, half_capacity};
ghost use Rattle.half_journal.specs.States.{CarriesInHalf};

use crate::geometry::half_start;
use crate::layout::FORMAT;
use crate::write::settle;
use crate::{Commit, replace_commit};
use sector_device::{DeviceFault, SECTOR_BYTES, SectorDevice, write_run};

/// Makes a device of `sectors` sectors a store of these bytes, in format 2: the sectors that hold them in ascending order,
/// sync, write 0, sync. If it held none, a crash at any moment leaves no store, or all of it. `Err`: a call of the device
/// failed, and none was made after it.
pub fn fill<D: SectorDevice>(
    device: &mut D,
    bytes: &[u8],
    seq: u64,
    opens: u64,
    sectors: u64,
) -> Result<(), DeviceFault>
    requires size { sectors ≡ (D.disk device.old).sectors }
    requires sized { IsHalfSized sectors }
    requires fits { length bytes.now ≤ half_capacity sectors }
    ensures same { IsSame (D.disk device.old) (D.disk device.new) }
    ensures charges { Charges (D.disk device.old) (D.disk device.new) (sectors_of (length bytes.now) + 3) result }
    ensures any_moment { (D.disk device.old).honest → ((image : Image) → (D.disk device.old).left image → HasMagic image → ⊥) → LeavesOnly (D.disk device.old) (D.disk device.new)
        (NoneOrFilled (filled bytes.now seq opens)) }
    ensures done { (D.disk device.old).honest → OnOk result ((image : Image) → (D.disk device.new).left image → CarriesInHalf (filled bytes.now seq opens) image) }
{
    let commit = Commit {
        format: FORMAT,
        half: 0,
        length: bytes.len() as u64,
        seq,
        opens,
        sectors,
    };
    let count = (bytes.len() as u64 + 511) / SECTOR_BYTES;
    write_run(device, half_start(sectors, 0), count, &[], bytes)?;
    settle(device, false)?;
    replace_commit(device, commit)
}

/// The same, of no bytes, seq 0, never opened: write 0, sync.
pub fn format_empty<D: SectorDevice>(device: &mut D, sectors: u64) -> Result<(), DeviceFault>
    requires size { sectors ≡ (D.disk device.old).sectors }
    requires sized { IsHalfSized sectors }
    ensures same { IsSame (D.disk device.old) (D.disk device.new) }
    ensures charges { Charges (D.disk device.old) (D.disk device.new) 2 result }
    ensures any_moment { (D.disk device.old).honest → ((image : Image) → (D.disk device.old).left image → HasMagic image → ⊥) → LeavesOnly (D.disk device.old) (D.disk device.new)
        (NoneOrFilled (filled [] 0 0)) }
    ensures done { (D.disk device.old).honest → OnOk result ((image : Image) → (D.disk device.new).left image → CarriesInHalf (filled [] 0 0) image) }
{
    let commit = Commit {
        format: FORMAT,
        half: 0,
        length: 0,
        seq: 0,
        opens: 0,
        sectors,
    };
    replace_commit(device, commit)
}
