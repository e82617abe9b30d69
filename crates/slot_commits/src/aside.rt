//! Sectors that are written aside: a commit needs none of them.
ghost use Rattle.std.specs.Prelude.{◌≡◌, ◌≤◌, ◌<◌, ◌+◌, ◌*◌, ◌^◌, List, ℕ, Bool, Option, OnOk};
ghost use Rattle.sector_device.specs.Disk.{Image, LeavesOnly};
ghost use Rattle.sector_device.specs.Charges.{Charges, IsSame};
ghost use Rattle.sector_device.specs.Sectors.{Over, SectorsHold};
ghost use Rattle.slot_commits.specs.Asides.{IsAside};
ghost use Rattle.slot_commits.specs.Firsts.{LeavesFirst};
ghost use Rattle.slot_commits.specs.States.{Stands, State};
ghost use Rattle.slot_commits.specs.Tears.{tearing_by};

use sector_device::{DeviceFault, SectorDevice, write_run};

/// Writes `count` sectors from `first` on with the bytes, and zeros after them. Each image has `Stands` as before, if no
/// block that is touched has a sector that this needs. `Err`: a write failed, and none was made after it.
pub fn write_aside<D: SectorDevice>(
    device: &mut D,
    first: u64,
    count: u64,
    bytes: &[u8],
) -> Result<(), DeviceFault>
    requires room { first + count ≤ (D.disk device.old).sectors }
    requires small { first + 512 * count < 2 ^ 60 }
    ensures same { IsSame (D.disk device.old) (D.disk device.new) }
    ensures charges { Charges (D.disk device.old) (D.disk device.new) count result }
    ensures stands { (torn : Option (List ℕ → Bool)) (number : ℕ) (c : State) → (D.disk device.old).honest → IsAside (D.disk device.old).sectors c first count
        → ((image : Image) → (tearing_by torn (D.disk device.old)).left image → Stands number c image)
        → LeavesOnly (tearing_by torn (D.disk device.old)) (tearing_by torn (D.disk device.new)) (Stands number c) }
    ensures sector_0 { (torn : Option (List ℕ → Bool)) → (D.disk device.old).honest → 128 ≤ first → LeavesFirst torn (D.disk device.old) (D.disk device.new) }
    ensures seen { (D.disk device.old).honest → Over first count bytes.now (D.disk device.old).seen (D.disk device.new).seen }
    ensures written { (D.disk device.old).honest → OnOk result (SectorsHold (D.disk device.new).seen first count bytes.now) }
{
    write_run(device, first, count, &[], bytes)
}
