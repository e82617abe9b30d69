//! The writes of a commit: its bytes, and then the commit sector that names them.
ghost use Rattle.std.specs.Prelude.{◌≡◌, ℕ, ◌<◌, ◌≤◌, ◌+◌, ◌/◌, ◌^◌, [], ◌++◌, OnOk, length, if◌then◌else◌, false};
ghost use Rattle.sector_device.specs.Disk.{Image, LeavesOnly};
ghost use Rattle.sector_device.specs.Charges.{Charges, IsSame};
ghost use Rattle.sector_device.specs.Sectors.{KeepsOthers, sectors_of};
ghost use Rattle.half_journal.specs.Layout.{half_capacity, half_start};
ghost use Rattle.half_journal.specs.States.{HalfState};
ghost use Rattle.half_journal.specs.Writes.{CanWrite, IsPlaced, Tried, WritesRun, commit_calls, touched, written_first};

use crate::geometry::half_start;
use crate::update::{Start, Update};
use crate::{Commit, replace_commit};
use sector_device::{DeviceFault, SECTOR_BYTES, SectorDevice, write_run};

/// Writes the target and the frames in ascending order, then the commit sector: the writes, sync, write 0, sync. If an
/// opening is counted alone, the first of these syncs is left out.
pub fn write_commit<D: SectorDevice>(
    device: &mut D,
    update: Update<'_>,
    start: Start<'_>,
    commit: Commit,
) -> Result<(), DeviceFault>
    requires size { commit.sectors ≡ (D.disk device.old).sectors }
    requires placed { IsPlaced commit.sectors start }
    requires fits { start.used + length update.frames.now ≤ half_capacity commit.sectors }
    requires target { start.target.now ≡ written_first update.base }
    ensures same { IsSame (D.disk device.old) (D.disk device.new) }
    ensures charges { Charges (D.disk device.old) (D.disk device.new) (commit_calls update.entry start.entry.used) result }
    ensures tried { (old : HalfState) → CanWrite (D.disk device.old) update.entry start.entry commit old → Tried (D.disk device.old) (D.disk device.new) update.entry old result }
    ensures others { (D.disk device.old).honest → start.entry.target.now ≡ [] → KeepsOthers (half_start commit.sectors start.entry.half + start.entry.used / 512)
        (touched start.entry.used (length update.entry.frames.now)) (D.disk device.old).seen (D.disk device.new).seen }
{
    write_target(device, start, commit.sectors)?;
    write_frames(device, update.frames, start, commit.sectors)?;
    settle(device, update.takes_one_sync())?;
    replace_commit(device, commit)
}

// Writes the target from the first sector of the half on.
fn write_target<D: SectorDevice>(
    device: &mut D,
    start: Start<'_>,
    sectors: u64,
) -> Result<(), DeviceFault>
    requires size { sectors ≡ (D.disk device.old).sectors }
    requires placed { IsPlaced sectors start }
    ensures same { IsSame (D.disk device.old) (D.disk device.new) }
    ensures charges { Charges (D.disk device.old) (D.disk device.new) (sectors_of (length start.entry.target.now)) result }
    ensures run { (D.disk device.old).honest → WritesRun (D.disk device.old) (D.disk device.new) (half_start sectors start.entry.half)
        (sectors_of (length start.entry.target.now)) start.entry.target.now result }
{
    let first = half_start(sectors, start.half);
    let count = (start.target.len() as u64 + 511) / SECTOR_BYTES;
    write_run(device, first, count, &[], start.target)
}

// Writes the frames after the used bytes, with those in front of them in their sector.
fn write_frames<D: SectorDevice>(
    device: &mut D,
    frames: &[u8],
    start: Start<'_>,
    sectors: u64,
) -> Result<(), DeviceFault>
    requires size { sectors ≡ (D.disk device.old).sectors }
    requires placed { IsPlaced sectors start }
    requires fits { start.used + length frames.now ≤ half_capacity sectors }
    ensures same { IsSame (D.disk device.old) (D.disk device.new) }
    ensures charges { Charges (D.disk device.old) (D.disk device.new) (touched start.entry.used (length frames.now)) result }
    ensures run { (D.disk device.old).honest → WritesRun (D.disk device.old) (D.disk device.new) (half_start sectors start.entry.half + start.entry.used / 512)
        (touched start.entry.used (length frames.now)) (start.entry.front.now ++ frames.now) result }
{
    let place = half_start(sectors, start.half) + start.used / SECTOR_BYTES;
    let more = sectors_touched(start.used, frames.len() as u64);
    write_run(device, place, more, start.front, frames)
}

/// Makes what was written durable. `skips`: nothing was written.
pub fn settle<D: SectorDevice>(device: &mut D, skips: bool) -> Result<(), DeviceFault>
    ensures same { IsSame (D.disk device.old) (D.disk device.new) }
    ensures charges { Charges (D.disk device.old) (D.disk device.new) (if skips then 0 else 1) result }
    ensures any_moment { (D.disk device.old).honest → LeavesOnly (D.disk device.old) (D.disk device.new) (D.disk device.old).left }
    ensures seen { (D.disk device.old).honest → (D.disk device.new).seen ≡ (D.disk device.old).seen }
    ensures settled { (D.disk device.old).honest → skips ≡ false → OnOk result ((image : Image) → (D.disk device.new).left image → image ≡ (D.disk device.old).seen) }
{
    if skips { Ok(()) } else { device.sync() }
}

/// How many sectors hold `more` bytes after `used` ones.
pub fn sectors_touched(used: u64, more: u64) -> u64
    requires { used + more < 2 ^ 62 }
    ensures { result ≡ touched used more }
{
    if more == 0 {
        0
    } else {
        (used + more - 1) / SECTOR_BYTES + 1 - used / SECTOR_BYTES
    }
}
