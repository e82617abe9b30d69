//! A device that is made a store of given bytes.
ghost use Rattle.std.specs.Prelude.{IfErr, OnOk, false, true};
ghost use Rattle.sector_device.specs.Disk.{LeavesOnly};
ghost use Rattle.sector_device.specs.Charges.{IsSameRead};
ghost use Rattle.store_journal.specs.Carries.{Carries};
ghost use Rattle.store_journal.specs.Filling.{Filled, FillRefusal, NoneOrAll, filled};
ghost use Rattle.store_journal.specs.Models.{model};

use crate::fault::FormatFault;
use crate::geometry::{capacity, is_sized};
use crate::start::looks_made_riding;
use half_journal::fill;
use half_journal::layout::has_magic;
use refusals::numbers::{ALREADY_A_STORE, DEVICE, NO_ROOM, SMALL};
use sector_device::{SectorDevice, read_first};
use slot_commits::format_slots;

/// Makes `device` a store with these bytes, in format 3 with this identity if `rides` and else in format 2, which hold `seq` changes and were
/// opened `opens` times. It takes no memory. In format 2: sync, read 0, the sectors that hold the bytes in ascending order,
/// sync, write 0, sync. In format 3: sync, a read of the first sector of each slot, and `format_slots`. A crash at any
/// moment leaves no store, or all of it; in format 3 also if it tears blocks of sectors.
///
/// Refused as `SMALL` under 3 sectors, in format 3 under 160, or over 2^32, and as `NO_ROOM` if a half doesn't hold the
/// bytes, before any call of the device; as `ALREADY_A_STORE` if sector 0 begins with the 8 bytes `JPSTORE1`, whatever
/// follows, and in format 3 also if another slot begins as they do; as `DEVICE` if the device failed. The first three
/// leave the images as they were.
pub fn format_with<D: SectorDevice>(
    device: &mut D,
    bytes: &[u8],
    seq: u64,
    opens: u64,
    rides: bool,
    identity: u128,
) -> Result<(), FormatFault>
    ensures ok { OnOk result (Filled (D.disk device.old) (D.disk device.new) (filled rides bytes.now seq opens identity)) }
    ensures err { IfErr result (λ fault. FillRefusal (D.disk device.old) (D.disk device.new) (filled rides bytes.now seq opens identity) fault.number) }
    ensures any_moment { (D.disk device.new).honest → LeavesOnly (model rides (D.disk device.old)) (model rides (D.disk device.new))
        (NoneOrAll rides (D.disk device.old) (Carries (filled rides bytes.now seq opens identity))) }
    ensures same { IsSameRead (D.disk device.old) (D.disk device.new) }
{
    if rides {
        fill_riding(device, bytes, seq, opens, identity)
    } else {
        fill_plain(device, bytes, seq, opens)
    }
}

// In format 2.
fn fill_plain<D: SectorDevice>(
    device: &mut D,
    bytes: &[u8],
    seq: u64,
    opens: u64,
) -> Result<(), FormatFault>
    ensures ok { OnOk result (Filled (D.disk device.old) (D.disk device.new) (filled false bytes.now seq opens 0)) }
    ensures err { IfErr result (λ fault. FillRefusal (D.disk device.old) (D.disk device.new) (filled false bytes.now seq opens 0) fault.number) }
    ensures any_moment { (D.disk device.new).honest → LeavesOnly (D.disk device.old) (D.disk device.new)
        (NoneOrAll false (D.disk device.old) (Carries (filled false bytes.now seq opens 0))) }
    ensures same { IsSameRead (D.disk device.old) (D.disk device.new) }
{
    let sectors = device.sectors();
    if !is_sized(false, sectors) {
        return Err(FormatFault { number: SMALL });
    }
    if capacity(false, sectors) < bytes.len() as u64 {
        return Err(FormatFault { number: NO_ROOM });
    }
    let mut first = [0; 512];
    match read_first(device, &mut first) {
        Err(_) => return Err(FormatFault { number: DEVICE }),
        Ok(()) => {}
    }
    if has_magic(&first) {
        return Err(FormatFault {
            number: ALREADY_A_STORE,
        });
    }
    match fill(device, bytes, seq, opens, sectors) {
        Err(_) => Err(FormatFault { number: DEVICE }),
        Ok(()) => Ok(()),
    }
}

// In format 3.
fn fill_riding<D: SectorDevice>(
    device: &mut D,
    bytes: &[u8],
    seq: u64,
    opens: u64,
    identity: u128,
) -> Result<(), FormatFault>
    ensures ok { OnOk result (Filled (D.disk device.old) (D.disk device.new) (filled true bytes.now seq opens identity)) }
    ensures err { IfErr result (λ fault. FillRefusal (D.disk device.old) (D.disk device.new) (filled true bytes.now seq opens identity) fault.number) }
    ensures any_moment { (D.disk device.new).honest → LeavesOnly (model true (D.disk device.old)) (model true (D.disk device.new))
        (NoneOrAll true (D.disk device.old) (Carries (filled true bytes.now seq opens identity))) }
    ensures same { IsSameRead (D.disk device.old) (D.disk device.new) }
{
    let sectors = device.sectors();
    if !is_sized(true, sectors) {
        return Err(FormatFault { number: SMALL });
    }
    if capacity(true, sectors) < bytes.len() as u64 {
        return Err(FormatFault { number: NO_ROOM });
    }
    match looks_made_riding(device) {
        Err(_) => return Err(FormatFault { number: DEVICE }),
        Ok(made) => {
            if made {
                return Err(FormatFault {
                    number: ALREADY_A_STORE,
                });
            }
        }
    }
    match format_slots(device, bytes, seq, opens, identity) {
        Err(_) => Err(FormatFault { number: DEVICE }),
        Ok(()) => Ok(()),
    }
}
