//! A commit: its bytes, and then the commit sector that names them.
ghost use Rattle.std.specs.Prelude.{◌≡◌, ◌<◌, ◌≤◌, ◌+◌, ◌-◌, ◌^◌, OnOk, OnErr, length};
ghost use Rattle.sector_device.specs.Disk.{Image};
ghost use Rattle.sector_device.specs.Charges.{Charges, IsSame};
ghost use Rattle.sector_device.specs.Sectors.{KeepsOthers};
ghost use Rattle.half_journal.specs.Known.{IsFormed, Knows, commit_after, used_begun, version_begun};
ghost use Rattle.half_journal.specs.Layout.{IsFormat, half_capacity, half_size, half_start};
ghost use Rattle.half_journal.specs.States.{CarriesInHalf, HalfState, committed};
ghost use Rattle.half_journal.specs.Writes.{HasCopied, SparesOther, Tried, commit_calls};

use crate::Commit;
use crate::known::HalfKnown;
use crate::update::Update;
use crate::write::write_commit;
use sector_device::{DeviceFault, SECTOR_BYTES, SectorDevice, sector_at};

/// Makes one commit: the target, unless a copy has written it, and the frames, in ascending order; sync, write 0, sync.
/// The first sync is left out if an opening is counted alone. `Err`: a call of the device failed, and none was made after it.
pub fn commit<D: SectorDevice>(
    device: &mut D,
    known: &mut HalfKnown,
    update: Update<'_>,
) -> Result<(), DeviceFault>
    requires formed { IsFormed (D.disk device.old).sectors known.old }
    requires version { IsFormat (version_begun known.old.commit.format update.base) }
    requires fits { used_begun known.old.commit.length update.base + length update.frames.now ≤ half_capacity known.old.commit.sectors }
    requires seq { known.old.commit.seq + update.adds < 2 ^ 64 }
    ensures same { IsSame (D.disk device.old) (D.disk device.new) }
    ensures charges { Charges (D.disk device.old) (D.disk device.new) (commit_calls update.entry (used_begun known.old.commit.length update.entry.base)) result }
    ensures formed { IsFormed (D.disk device.new).sectors known.new }
    ensures commit { OnOk result (known.new.commit ≡ commit_after known.old.commit update.entry) }
    ensures stays { OnErr result (known.new ≡ known.old) }
    ensures knows { (c : HalfState) → Knows known.old c → OnOk result (Knows known.new (committed c update.entry)) }
    ensures tried { (c : HalfState) → (D.disk device.old).honest → Knows known.old c → ((image : Image) → (D.disk device.old).left image → CarriesInHalf c image)
        → HasCopied update.entry.base (D.disk device.old).seen (half_start known.old.commit.sectors (1 - c.half))
        → Tried (D.disk device.old) (D.disk device.new) update.entry c result }
    ensures others { (D.disk device.old).honest → SparesOther update.entry.base update.entry.frames.now
        → KeepsOthers (half_start known.old.commit.sectors known.old.commit.half) (half_size known.old.commit.sectors) (D.disk device.old).seen (D.disk device.new).seen }
{
    let tail = known.tail;
    let Commit {
        format,
        half,
        length,
        seq,
        opens,
        sectors,
    } = known.commit;
    let start = update.base.start(format, half, length, &tail);
    let length = start.used + update.frames.len() as u64;
    let commit = Commit {
        format: start.version,
        half: start.half,
        length,
        seq: seq + update.adds,
        opens: update.opens_after(opens),
        sectors,
    };
    write_commit(device, update, start, commit)?;
    let place = length / SECTOR_BYTES - start.used / SECTOR_BYTES;
    known.tail = sector_at(start.front, update.frames, place);
    known.commit = commit;
    Ok(())
}
