//! A store of another format that becomes one in slots, in place.
ghost use Rattle.std.specs.Prelude.{◌≡◌, ◌≤◌, ◌<◌, ◌+◌, ◌*◌, ◌/◌, ◌%◌, ◌^◌, List, ℕ, Bool, Option, OnOk, length};
ghost use Rattle.sector_device.specs.Charges.{Charges, IsSame};
ghost use Rattle.commit_slots.specs.Slots.{IsSlotOf, count_of, slots_capacity};
ghost use Rattle.slot_commits.specs.Converts.{CanConvert, Converted, convert_calls};
ghost use Rattle.slot_commits.specs.Firsts.{LeavesFirst};
ghost use Rattle.slot_commits.specs.Formats.{formatted};
ghost use Rattle.slot_commits.specs.States.{State, slot_of, tail_of};

use crate::write_pair;
use checksum::crc32c;
use commit_slots::{BLOCK_BYTES, Slot};
use sector_device::{DeviceFault, SectorDevice, write_run};

/// Makes a device that carries these bytes in another format, by sector 0 and by sectors after the blocks written here,
/// one that carries them in slots, with this identity: the whole blocks of the bytes, into half 0, both copies of a commit under this odd
/// number, and a sync; then both copies under the next number, of which the first is over sector 0, and a sync. So before
/// sector 0 is written the slots carry all. `Err`: one of these failed, and none was made after it.
pub fn convert<D: SectorDevice>(
    device: &mut D,
    bytes: &[u8],
    seq: u64,
    opens: u64,
    identity: u128,
    number: u64,
) -> Result<(), DeviceFault>
    requires room { 128 ≤ (D.disk device.old).sectors }
    requires most { (D.disk device.old).sectors ≤ 2 ^ 32 }
    requires fits { length bytes.now ≤ slots_capacity (D.disk device.old).sectors }
    requires odd { number % 2 ≡ 1 }
    requires next { number + 1 < 2 ^ 64 }
    ensures same { IsSame (D.disk device.old) (D.disk device.new) }
    ensures charges { Charges (D.disk device.old) (D.disk device.new) (convert_calls (length bytes.now)) result }
    ensures converted { (torn : Option (List ℕ → Bool)) → CanConvert torn (D.disk device.old) number
        → Converted torn (D.disk device.old) (D.disk device.new) number (formatted bytes.now seq opens identity) result }
    ensures sector_0 { (torn : Option (List ℕ → Bool)) → (D.disk device.old).honest → LeavesFirst torn (D.disk device.old) (D.disk device.new) }
{
    let blocks = bytes.len() as u64 / BLOCK_BYTES;
    let whole = (blocks * BLOCK_BYTES) as usize;
    let slot = Slot {
        number,
        length: bytes.len() as u64,
        seq,
        opens,
        sectors: device.sectors(),
        half: 0,
        blocks: blocks as u32,
        check: crc32c(&bytes[..whole]),
        identity,
    };
    write_pairs(device, &slot, &bytes[whole..], bytes)
}

// Writes the whole blocks of the bytes into half 0, and this commit; then the same under the next number.
fn write_pairs<D: SectorDevice>(
    device: &mut D,
    slot: &Slot,
    tail: &[u8],
    bytes: &[u8],
) -> Result<(), DeviceFault>
    requires room { 128 ≤ (D.disk device.old).sectors }
    requires of { IsSlotOf (D.disk device.old).sectors slot.now tail.now }
    requires odd { slot.now.number % 2 ≡ 1 }
    requires next { slot.now.number + 1 < 2 ^ 64 }
    requires half { slot.now.half ≡ 0 }
    requires blocks { slot.now.blocks ≡ length bytes.now / 4096 }
    ensures same { IsSame (D.disk device.old) (D.disk device.new) }
    ensures charges { Charges (D.disk device.old) (D.disk device.new) (8 * slot.now.blocks + 2 * (2 * count_of (length tail.now) + 1)) result }
    ensures converted { (torn : Option (List ℕ → Bool)) (c : State) → CanConvert torn (D.disk device.old) slot.now.number
        → slot.now ≡ slot_of c (D.disk device.old).sectors slot.now.number → tail.now ≡ tail_of c → bytes.now ≡ c.bytes → Converted torn (D.disk device.old) (D.disk device.new) slot.now.number c result }
    ensures sector_0 { (torn : Option (List ℕ → Bool)) → (D.disk device.old).honest → LeavesFirst torn (D.disk device.old) (D.disk device.new) }
{
    write_run(device, 128, 8 * u64::from(slot.blocks), &[], bytes)?;
    write_pair(device, slot, tail)?;
    let next = Slot {
        number: slot.number + 1,
        ..*slot
    };
    write_pair(device, &next, tail)
}
