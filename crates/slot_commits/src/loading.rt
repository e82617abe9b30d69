//! The commit that a device carries.
ghost use Rattle.std.specs.Prelude.{◌≡◌, ◌↔◌, ◌≤◌, ◌<◌, ◌+◌, ◌-◌, ◌%◌, ◌^◌, List, ℕ, Bool, Option, IfOk, IfErr, IsTrue, true, false};
ghost use Rattle.sector_device.specs.Disk.{Image};
ghost use Rattle.sector_device.specs.Charges.{IsSameRead};
ghost use Rattle.sector_device.specs.Sectors.{KeepsImages};
ghost use Rattle.commit_slots.specs.Slots.{IsSlotOf, block_start};
ghost use Rattle.commit_slots.specs.declared.slot.Slot.{Slot};
ghost use Rattle.slot_commits.specs.Finds.{HasBoth, HasOther, IsNotice};
ghost use Rattle.slot_commits.specs.Loads.{BlocksRefusal, HasRead, IsRecovered, LoadRefusal, number_end};
ghost use Rattle.slot_commits.specs.declared.found.LoadFault.TheVariants.{Damaged, NotAStore};
ghost use Rattle.slot_commits.specs.Tears.{tearing_by};

use crate::find;
use crate::found::{Found, LoadFault, Notice, Recovered};
use checksum::crc32c;
use commit_slots::{BLOCK_BYTES, Counted, Slot};
use sector_device::{ReadFault, SectorDevice, read_bytes};
use std::alloc::Global;

/// The first number that no commit has: those left are for an opening.
pub const NUMBER_END: u64 = u64::MAX - 1;

/// What a settled device carries: a read of each of the 128 sectors of the slots, and of each sector of the blocks that the
/// slot names whose commit counts. It never falls back: if these blocks are damaged no other commit is looked for.
pub fn load<D: SectorDevice>(alloc: Global, device: &mut D) -> Result<Recovered, LoadFault>
    requires room { 128 ≤ (D.disk device.old).sectors }
    requires most { (D.disk device.old).sectors ≤ 2 ^ 32 }
    ensures same { IsSameRead (D.disk device.old) (D.disk device.new) }
    ensures keeps { (torn : Option (List ℕ → Bool)) → (D.disk device.new).honest → KeepsImages (tearing_by torn (D.disk device.old)) (tearing_by torn (D.disk device.new)) }
    ensures ok { IfOk result (IsRecovered (D.disk device.old) (D.disk device.new)) }
    ensures err { IfErr result (LoadRefusal (D.disk device.old) (D.disk device.new)) }
{
    let Found {
        counted,
        both,
        other,
        highest,
        marked,
    } = match find(alloc, device) {
        Ok(found) => found,
        Err(ReadFault::Memory) => return Err(LoadFault::Memory),
        Err(ReadFault::Device) => return Err(LoadFault::Device),
    };
    let Counted { slot, tail, copy } = match counted {
        Some(counted) => counted,
        None => return Err(unmade(marked)),
    };
    if is_spent(highest) {
        return Err(LoadFault::Damaged);
    }
    let bytes = match read_all(alloc, device, &slot, &tail) {
        Ok(bytes) => bytes,
        Err(fault) => return Err(fault),
    };
    Ok(Recovered {
        slot,
        bytes,
        number: next_number(slot.number, both, highest),
        first: first_copy(both, copy),
        notice: notice_of(both, other),
    })
}

// Why a device is refused on which no copy is valid.
fn unmade(marked: bool) -> LoadFault
    ensures marked { marked ≡ true → result ≡ Damaged }
    ensures none { marked ≡ false → result ≡ NotAStore }
{
    if marked {
        LoadFault::Damaged
    } else {
        LoadFault::NotAStore
    }
}

// Whether no number is left for an opening.
fn is_spent(highest: u64) -> bool
    ensures { IsTrue result ↔ (number_end ≤ highest) }
{
    highest >= NUMBER_END
}

// The committed bytes of a slot: its blocks, which have its check, and its tail.
fn read_all<D: SectorDevice>(
    alloc: Global,
    device: &mut D,
    slot: &Slot,
    tail: &[u8],
) -> Result<Vec<u8>, LoadFault>
    requires room { 128 ≤ (D.disk device.old).sectors }
    requires of { IsSlotOf (D.disk device.old).sectors slot.now tail.now }
    ensures same { IsSameRead (D.disk device.old) (D.disk device.new) }
    ensures keeps { (torn : Option (List ℕ → Bool)) → (D.disk device.new).honest → KeepsImages (tearing_by torn (D.disk device.old)) (tearing_by torn (D.disk device.new)) }
    ensures ok { IfOk result (λ bytes. HasRead (D.disk device.old) (D.disk device.new) slot.now tail.now bytes.items) }
    ensures err { IfErr result (BlocksRefusal (D.disk device.old) (D.disk device.new) slot.now) }
{
    let start = block_start(slot.sectors, slot.half);
    let size = BLOCK_BYTES * u64::from(slot.blocks);
    let mut bytes = match read_bytes(alloc, device, start, size) {
        Ok(bytes) => bytes,
        Err(ReadFault::Memory) => return Err(LoadFault::Memory),
        Err(ReadFault::Device) => return Err(LoadFault::Device),
    };
    if crc32c(&bytes) != slot.check {
        return Err(LoadFault::Damaged);
    }
    match bytes.extend_from_slice(tail) {
        Ok(()) => Ok(bytes),
        Err(_) => Err(LoadFault::Memory),
    }
}

/// The first sector of a half of a device of `sectors` sectors.
pub fn block_start(sectors: u64, half: u32) -> u64
    requires most { sectors ≤ 2 ^ 32 }
    requires half { half ≤ 1 }
    ensures { result ≡ block_start sectors half }
{
    128 + u64::from(half) * (8 * (sectors.saturating_sub(128) / 16))
}

// Which copy an opening writes first: the first of the other pair; if the copy found is alone, its mate.
fn first_copy(both: bool, copy: u64) -> u64
    requires { copy ≤ 1 }
    ensures low { result ≤ 1 }
    ensures first { both ≡ true → result ≡ 0 }
    ensures mate { both ≡ false → result ≡ 1 - copy }
{
    if both { 0 } else { 1 - copy }
}

// The next number of the other pair; if the copy found is alone, of its own.
fn next_number(number: u64, both: bool, highest: u64) -> u64
    requires { highest < number_end }
    ensures above { highest < result }
    ensures most { result ≤ highest + 2 }
    ensures other { both ≡ true → result % 2 ≡ 1 - number % 2 }
    ensures same { both ≡ false → result % 2 ≡ number % 2 }
{
    let pair = if both { 1 - number % 2 } else { number % 2 };
    if (highest + 1) % 2 == pair {
        highest + 1
    } else {
        highest + 2
    }
}

fn notice_of(both: bool, other: bool) -> Notice
    ensures { (image : Image) (slot : Slot) (tail : List ℕ) → (IsTrue both ↔ HasBoth slot tail image) → (IsTrue other ↔ HasOther slot image) → IsNotice image slot tail result }
{
    match (both, other) {
        (true, true) => Notice::Whole,
        (false, true) => Notice::Mended,
        (_, false) => Notice::CutOff,
    }
}
