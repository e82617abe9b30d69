//! A commit is published: the commit sector is replaced.
ghost use Rattle.std.specs.Prelude.{◌<◌};
ghost use Rattle.sector_device.specs.Charges.{Charges, IsSame};
ghost use Rattle.half_journal.specs.Publishing.{Replaces};
ghost use Rattle.half_journal.specs.Layout.{sector_of};

use crate::Commit;
use crate::layout::encode;
use sector_device::{DeviceFault, SectorDevice};

/// Writes the commit sector, and settles it: write 0, sync. The sync makes durable all that
/// was written before. `Err`: one of these failed, and none was made after it.
pub fn replace_commit<D: SectorDevice>(device: &mut D, commit: Commit) -> Result<(), DeviceFault>
    requires sized { 0 < (D.disk device.old).sectors }
    ensures same { IsSame (D.disk device.old) (D.disk device.new) }
    ensures charges { Charges (D.disk device.old) (D.disk device.new) 2 result }
    ensures replaces { (D.disk device.old).honest → Replaces (D.disk device.old) (D.disk device.new) (sector_of commit) result }
{
    device.write(0, &encode(commit))?;
    device.sync()
}
