//! The commits that a device names, and the parts of it that may hold frames.
ghost use Rattle.std.specs.Prelude.{◌≡◌, ◌↔◌, [], IsTrue, ◌≤◌, ◌<◌, ◌+◌, ◌*◌, ◌-◌, ◌/◌, ◌^◌, ℕ, ◌⊎◌, IfOk, IfNone, IfSome, length, slice_index_or};
ghost use Rattle.sector_device.specs.Disk.{Image};
ghost use Rattle.sector_device.specs.Charges.{IsSameRead};
ghost use Rattle.sector_device.specs.Sectors.{KeepsImages};
ghost use Rattle.half_journal.specs.Layout.{IsHalfSized, IsOf, half_size};
ghost use Rattle.store_parts.specs.Parts.{AreParts, AreSlotsOf, BeginSlots, HasPart, HasSealed, HasTail, HaveTails, IsMarkedSlots, IsSectorOrZeros};
ghost use Rattle.store_parts.specs.Copies.{AreTold, AreToldOn, IsBestOf, IsFoundAt, IsHeldIn, IsNotOf3, IsSeqOf, IsTold, LacksTwin};

use crate::part::{Part, within};
use crate::pieces::{CountedSlot, content, with_pieces};
use commit_slots::{BLOCK_BYTES, SLOT_SECTORS, Slot, begins_slot, holds_copy, is_sealed, slot_in};
use half_journal::Commit;
use half_journal::geometry::{MAX_SECTORS, MIN_SECTORS, half_size, half_start};
use half_journal::layout::{commit_in, has_magic};
use sector_device::{SECTOR_BYTES, SectorDevice};
use slot_commits::block_start;
use slot_journal::geometry::MIN_SECTORS as MIN_SECTORS_RIDING;
use std::alloc::{AllocError, Global};

/// A slot of format 3.
#[derive(Clone, Copy, Debug, PartialEq, Eq)]
pub struct SlotCopy {
    /// The commit in it, if it is valid.
    pub slot: Option<Slot>,
    /// It begins as a slot does.
    pub begun: bool,
    /// It is valid, and in the pair of the commit that counts, but it doesn't hold that commit: a write of it was lost.
    pub old: bool,
}

/// What was found on a device.
#[derive(Drop)]
pub struct Findings {
    /// It begins as a store does.
    pub marked: bool,
    /// The format: 1, 2 or 3; if no commit is valid, 2 or 3, as which it looks.
    pub format: u32,
    /// The number of changes of the commit that counts, if one does.
    pub seq: Option<u64>,
    /// The sectors of the device.
    pub sectors: u64,
    /// As many sectors as the commit that counts says that there are, or else those of the device.
    pub size: u64,
    /// The slots A, A', B and B', if it is format 3.
    pub copies: Vec<SlotCopy>,
    /// The parts that may hold frames: first that of the commit that counts, if one does, and last the pieces of slots.
    pub parts: Vec<Part>,
}

/// Finds them, by reads of sector 0 and of the slots; a sector that isn't read is taken for zeros. The places of
/// the halves are those of as many sectors as the commit says. `None`: the device has too few or too many sectors for a
/// store. `Err`: memory was refused.
pub fn examine<D: SectorDevice>(
    alloc: Global,
    device: &mut D,
) -> Result<Option<Findings>, AllocError>
    ensures same { IsSameRead (D.disk device.old) (D.disk device.new) }
    ensures later { (D.disk device.old).failures ≤ (D.disk device.new).failures }
    ensures unwritten { (D.disk device.new).honest → KeepsImages (D.disk device.old) (D.disk device.new) }
    ensures parts { IfOk result (λ found. IfSome found (λ f. AreParts (D.disk device.old).sectors f.parts.items)) }
    ensures none { IfOk result (λ found. IfNone found (IsHalfSized (D.disk device.old).sectors → ⊥)) }
    ensures tails { (D.disk device.new).honest → IfOk result (λ found. IfSome found (λ f. HaveTails (D.disk device.old).seen f.parts.items)) }
    ensures copies { (D.disk device.new).honest → IfOk result (λ found. IfSome found (AreToldOn (D.disk device.old).seen)) }
    ensures sectors { IfOk result (λ found. IfSome found (λ f. f.sectors ≡ (D.disk device.old).sectors)) }
{
    let sectors = device.sectors();
    if sectors < MIN_SECTORS || MAX_SECTORS < sectors {
        return Ok(None);
    }
    let first = sector_or_zeros(device, 0);
    let marked = has_magic(&first);
    let size = size_in(&first, sectors);
    let commit = commit_in(&first, size);
    if commit.is_some() {
        let found = in_halves(alloc, sectors, size, commit, marked)?;
        return Ok(Some(found));
    }
    let slots = read_slots(alloc, device)?;
    if begins_any(&slots) {
        let found = in_slots(alloc, sectors, &slots)?;
        return Ok(Some(found));
    }
    let found = in_halves(alloc, sectors, sectors, None, marked)?;
    Ok(Some(found))
}

// How many sectors a commit sector says that there are, or if a store can't have that number, this.
fn size_in(first: &[u8; 512], sectors: u64) -> u64
    requires { IsHalfSized sectors }
    ensures { IsHalfSized result }
{
    let size = u64_at(first, 40);
    if MIN_SECTORS <= size && size <= MAX_SECTORS {
        size
    } else {
        sectors
    }
}

// The sector, or zeros if the device doesn't read it.
fn sector_or_zeros<D: SectorDevice>(device: &mut D, at: u64) -> [u8; 512]
    requires { at < (D.disk device.old).sectors }
    ensures same { IsSameRead (D.disk device.old) (D.disk device.new) }
    ensures later { (D.disk device.old).failures ≤ (D.disk device.new).failures }
    ensures unwritten { (D.disk device.new).honest → KeepsImages (D.disk device.old) (D.disk device.new) }
    ensures read { (D.disk device.new).honest → IsSectorOrZeros (D.disk device.old).seen at result }
    ensures told { (D.disk device.new).honest → (result ≡ slice_index_or (D.disk device.old).seen at []) ⊎ ((D.disk device.old).failures < (D.disk device.new).failures) ⊎ (D.disk device.old).failures_saturated }
{
    let mut sector = [0; 512];
    match device.read(at, &mut sector) {
        Ok(()) => sector,
        Err(_) => [0; 512],
    }
}

// The sectors of the four slots: zeros are in the place of those that the device doesn't have.
fn read_slots<D: SectorDevice>(alloc: Global, device: &mut D) -> Result<Vec<[u8; 512]>, AllocError>
    ensures same { IsSameRead (D.disk device.old) (D.disk device.new) }
    ensures later { (D.disk device.old).failures ≤ (D.disk device.new).failures }
    ensures unwritten { (D.disk device.new).honest → KeepsImages (D.disk device.old) (D.disk device.new) }
    ensures whole { IfOk result (λ slots. length slots.items ≡ 128) }
    ensures slots { (D.disk device.new).honest → IfOk result (λ slots. AreSlotsOf (D.disk device.old).seen slots.items) }
{
    let mut slots = Vec::new(alloc);
    for at in 0..128 {
        slots.push(sector_if_there(device, at))?;
    }
    Ok(slots)
}

// The sector, or zeros if the device doesn't have it or read it.
fn sector_if_there<D: SectorDevice>(device: &mut D, at: u64) -> [u8; 512]
    ensures same { IsSameRead (D.disk device.old) (D.disk device.new) }
    ensures later { (D.disk device.old).failures ≤ (D.disk device.new).failures }
    ensures unwritten { (D.disk device.new).honest → KeepsImages (D.disk device.old) (D.disk device.new) }
    ensures read { (D.disk device.new).honest → IsSectorOrZeros (D.disk device.old).seen at result }
{
    if at < device.sectors() {
        sector_or_zeros(device, at)
    } else {
        [0; 512]
    }
}

// Whether one of the slots begins as slots do, or a sector of one has its checksum.
fn begins_any(slots: &[[u8; 512]]) -> bool
    requires { length slots.now ≡ 128 }
    ensures { IsTrue result ↔ IsMarkedSlots slots.now }
{
    begins_slots(slots) || has_sealed(slots)
}

// Whether the first sector of a slot begins as slots do.
fn begins_slots(slots: &[[u8; 512]]) -> bool
    requires { length slots.now ≡ 128 }
    ensures { IsTrue result ↔ BeginSlots slots.now }
{
    for place in 0..4 {
        if begins_slot(&slots[SLOT_SECTORS * place]) {
            return true;
        }
    }
    false
}

// Whether a sector has its checksum.
fn has_sealed(slots: &[[u8; 512]]) -> bool
    ensures { IsTrue result ↔ HasSealed slots.now }
{
    for at in 0..slots.len() {
        if is_sealed(&slots[at]) {
            return true;
        }
    }
    false
}

// What the commit sector of a store of `size` sectors says, or if it says nothing, both halves of formats 1 and 2.
fn in_halves(
    alloc: Global,
    sectors: u64,
    size: u64,
    commit: Option<Commit>,
    marked: bool,
) -> Result<Findings, AllocError>
    requires most { sectors ≤ 2 ^ 32 }
    requires sized { IsHalfSized size }
    requires of { IfSome commit (IsOf size) }
    ensures parts { IfOk result (λ found. AreParts sectors found.parts.items) }
    ensures tails { (image : Image) → IfOk result (λ found. HaveTails image found.parts.items) }
    ensures format { IfOk result IsNotOf3 }
    ensures sectors { IfOk result (λ found. found.sectors ≡ sectors) }
    ensures size { IfOk result (λ found. found.size ≡ size) }
{
    let mut parts = Vec::new(alloc);
    let (active, used) = match commit {
        Some(commit) => (commit.half, commit.length),
        None => (0, 0),
    };
    if commit.is_some() {
        parts.push(half_part(alloc, sectors, size, active, 0, used, true))?;
    }
    let rest = used / SECTOR_BYTES;
    let half = half_size(size);
    parts.push(half_part(
        alloc,
        sectors,
        size,
        active,
        rest,
        SECTOR_BYTES * (half - rest),
        false,
    ))?;
    parts.push(half_part(
        alloc,
        sectors,
        size,
        1 - active,
        0,
        SECTOR_BYTES * half,
        false,
    ))?;
    Ok(Findings {
        marked,
        format: commit.map_or(2, |commit| commit.format),
        seq: commit.map(|commit| commit.seq),
        sectors,
        size,
        copies: Vec::new(alloc),
        parts,
    })
}

// `len` bytes of a half of formats 1 and 2, from its sector `from` on, as far as the device has them.
fn half_part(
    alloc: Global,
    sectors: u64,
    size: u64,
    half: u32,
    from: u64,
    len: u64,
    counted: bool,
) -> Part
    requires most { sectors ≤ 2 ^ 32 }
    requires sized { IsHalfSized size }
    requires half { half ≤ 1 }
    requires inside { from ≤ half_size size }
    ensures has { HasPart sectors result }
    ensures tail { result.tail.items ≡ [] }
{
    within(
        sectors,
        Part {
            half,
            first: half_start(size, half) + from,
            len,
            counted,
            check: None,
            tail: Vec::new(alloc),
            slot: 0,
            number: None,
        },
    )
}

// What the slots say, or if none is valid, both halves of format 3; and the pieces of the slots.
fn in_slots(alloc: Global, sectors: u64, slots: &[[u8; 512]]) -> Result<Findings, AllocError>
    requires most { sectors ≤ 2 ^ 32 }
    requires whole { length slots.now ≡ 128 }
    ensures parts { IfOk result (λ found. AreParts sectors found.parts.items) }
    ensures tails { IfOk result (λ found. HaveTails slots.now found.parts.items) }
    ensures format { IfOk result (λ found. found.format ≡ 3) }
    ensures copies { IfOk result (λ found. AreTold found.size slots.now found.copies.items) }
    ensures seq { IfOk result (λ found. IsSeqOf found.size slots.now found.seq) }
    ensures sectors { IfOk result (λ found. found.sectors ≡ sectors) }
{
    let size = size_of(alloc, slots, sectors)?;
    let best = best_in(alloc, slots, size)?;
    let copies = copies_in(alloc, slots, size, &best)?;
    let seq = seq_of(&best);
    let parts = slot_parts(alloc, sectors, size, slots, best)?;
    Ok(Findings {
        marked: true,
        format: 3,
        seq,
        sectors,
        size,
        copies,
        parts,
    })
}

// The commit that counts: that of the highest number, in the first slot that holds it.
fn best_in(alloc: Global, slots: &[[u8; 512]], size: u64) -> Result<Option<Held>, AllocError>
    requires most { size ≤ 2 ^ 32 }
    requires whole { length slots.now ≡ 128 }
    ensures { IfOk result (IsBestOf size slots.now 4) }
{
    let mut best: Option<Held> = None;
    for place in 0..4 {
        best = higher(best, held_in(alloc, slots, place, size)?);
    }
    Ok(best)
}

// The number of changes of that commit.
fn seq_of(best: &Option<Held>) -> Option<u64>
    ensures { (size : ℕ) (slots : Image) → IsBestOf size slots 4 best.now → IsSeqOf size slots result }
{
    match best {
        None => None,
        Some(held) => Some(held.slot.seq),
    }
}

// The slots from A to B', of which that one holds the commit that counts.
fn copies_in(
    alloc: Global,
    slots: &[[u8; 512]],
    size: u64,
    best: &Option<Held>,
) -> Result<Vec<SlotCopy>, AllocError>
    requires most { size ≤ 2 ^ 32 }
    requires whole { length slots.now ≡ 128 }
    requires best { IsBestOf size slots.now 4 best.now }
    ensures { IfOk result (λ copies. AreTold size slots.now copies.items) }
{
    let mut copies = Vec::new(alloc);
    for place in 0..4 {
        copies.push(copy_at(alloc, slots, size, place, best)?)?;
    }
    Ok(copies)
}

// The slot at a place.
fn copy_at(
    alloc: Global,
    slots: &[[u8; 512]],
    size: u64,
    place: u64,
    best: &Option<Held>,
) -> Result<SlotCopy, AllocError>
    requires most { size ≤ 2 ^ 32 }
    requires whole { length slots.now ≡ 128 }
    requires place { place < 4 }
    requires best { IsBestOf size slots.now 4 best.now }
    ensures { IfOk result (IsTold size slots.now place) }
{
    let begun = begins_slot(&slots[SLOT_SECTORS * place as usize]);
    match held_in(alloc, slots, place, size)? {
        None => Ok(SlotCopy {
            slot: None,
            begun,
            old: false,
        }),
        Some(held) => Ok(SlotCopy {
            slot: Some(held.slot),
            begun,
            old: lacks_twin(slots, place, best),
        }),
    }
}

// Whether the slot is in the pair of the commit that counts, and doesn't hold it.
fn lacks_twin(slots: &[[u8; 512]], place: u64, best: &Option<Held>) -> bool
    requires whole { length slots.now ≡ 128 }
    requires fits { IfSome best.now (λ held. length held.tail.items ≤ 15428) }
    ensures { IsTrue result ↔ LacksTwin slots.now place best.now }
{
    match best {
        None => false,
        Some(held) => {
            held.slot.number % 2 == place / 2
                && !holds_copy(slots, &held.slot, &held.tail, place % 2)
        }
    }
}

// How many sectors the store has: those of the device, if a slot is valid for these, or else as many as the slot of the
// highest number says.
fn size_of(alloc: Global, slots: &[[u8; 512]], sectors: u64) -> Result<u64, AllocError>
    requires most { sectors ≤ 2 ^ 32 }
    requires whole { length slots.now ≡ 128 }
    ensures { IfOk result (λ size. size ≤ 2 ^ 32) }
{
    let mut best: Option<Held> = None;
    for place in 0..4 {
        if held_in(alloc, slots, place, sectors)?.is_some() {
            return Ok(sectors);
        }
        let said = u64_at(&slots[SLOT_SECTORS * place as usize], 52);
        if MIN_SECTORS_RIDING <= said && said <= MAX_SECTORS {
            best = higher(best, held_in(alloc, slots, place, said)?);
        }
    }
    Ok(match best {
        Some(held) => held.slot.sectors.min(MAX_SECTORS),
        None => sectors,
    })
}

// The parts of a store of `size` sectors whose best commit is that one, as far as the device has them.
fn slot_parts(
    alloc: Global,
    sectors: u64,
    size: u64,
    slots: &[[u8; 512]],
    best: Option<Held>,
) -> Result<Vec<Part>, AllocError>
    requires most { sectors ≤ 2 ^ 32 }
    requires size { size ≤ 2 ^ 32 }
    requires whole { length slots.now ≡ 128 }
    requires held { IfSome best (IsHeldIn size slots.now) }
    ensures parts { IfOk result (λ parts. AreParts sectors parts.items) }
    ensures tails { IfOk result (λ parts. HaveTails slots.now parts.items) }
{
    let mut parts = Vec::new(alloc);
    let (active, blocks, counted) = match best {
        Some(held) => {
            let (half, blocks) = (held.slot.half, u64::from(held.slot.blocks));
            let counted = CountedSlot {
                number: held.slot.number,
                slot: SLOT_SECTORS as u64 * held.place,
            };
            parts.push(within(sectors, counted_part(alloc, size, slots, &held)?))?;
            (half, blocks, Some(counted))
        }
        None => (0, 0, None),
    };
    let half = size.saturating_sub(128) / 16 * 8;
    let rest = half.saturating_sub(8 * blocks);
    parts.push(block_part(alloc, sectors, size, active, 8 * blocks, rest))?;
    parts.push(block_part(alloc, sectors, size, 1 - active, 0, half))?;
    with_pieces(alloc, parts, sectors, slots, counted)
}

// A valid copy of a commit, with its tail, and the slot that it is in.
#[derive(Drop)]
struct Held {
    slot: Slot,
    tail: Vec<u8>,
    place: u64,
}

// The commit in that slot, from A to B', if it is valid.
fn held_in(
    alloc: Global,
    slots: &[[u8; 512]],
    place: u64,
    sectors: u64,
) -> Result<Option<Held>, AllocError>
    requires whole { length slots.now ≡ 128 }
    requires place { place < 4 }
    requires most { sectors ≤ 2 ^ 32 }
    ensures { IfOk result (IsFoundAt sectors slots.now place) }
{
    let first = SLOT_SECTORS * place as usize;
    match slot_in(alloc, &slots[first..first + SLOT_SECTORS], sectors)? {
        None => Ok(None),
        Some((slot, tail)) => {
            if slot.number % 2 == place / 2 {
                Ok(Some(Held { slot, tail, place }))
            } else {
                Ok(None)
            }
        }
    }
}

// The one of the higher number, or the first: the second is in the slot after those of the first.
fn higher(one: Option<Held>, other: Option<Held>) -> Option<Held>
    ensures newest { IfSome result (λ held. IfSome one (λ h. h.slot.number ≤ held.slot.number) × IfSome other (λ h. h.slot.number ≤ held.slot.number)) }
    ensures best { (sectors : ℕ) (slots : Image) (places : ℕ) → IsBestOf sectors slots places one → IsFoundAt sectors slots places other → IsBestOf sectors slots (places + 1) result }
{
    match (one, other) {
        (one, None) => one,
        (None, Some(other)) => Some(other),
        (Some(one), Some(other)) => {
            if one.slot.number < other.slot.number {
                Some(other)
            } else {
                Some(one)
            }
        }
    }
}

// The part that the commit counts.
fn counted_part(
    alloc: Global,
    size: u64,
    slots: &[[u8; 512]],
    held: &Held,
) -> Result<Part, AllocError>
    requires most { size ≤ 2 ^ 32 }
    requires whole { length slots.now ≡ 128 }
    requires held { IsHeldIn size slots.now held.now }
    ensures { IfOk result (λ part. HasTail slots.now part) }
{
    let slot = held.slot;
    let first = SLOT_SECTORS * held.place as usize;
    let len = BLOCK_BYTES * u64::from(slot.blocks);
    Ok(Part {
        half: slot.half,
        first: block_start(size, slot.half),
        len,
        counted: true,
        check: Some(slot.check),
        tail: content(alloc, slots, first, first, (slot.length - len) as usize)?,
        slot: first as u64,
        number: Some(slot.number),
    })
}

// `count` sectors of a half of format 3, from its sector `from` on, as far as the device has them.
fn block_part(alloc: Global, sectors: u64, size: u64, half: u32, from: u64, count: u64) -> Part
    requires most { sectors ≤ 2 ^ 32 }
    requires size { size ≤ 2 ^ 32 }
    requires half { half ≤ 1 }
    requires from { from ≤ 2 ^ 40 }
    requires count { count ≤ 2 ^ 32 }
    ensures has { HasPart sectors result }
    ensures tail { result.tail.items ≡ [] }
{
    within(
        sectors,
        Part {
            half,
            first: block_start(size, half) + from,
            len: SECTOR_BYTES * count,
            counted: false,
            check: None,
            tail: Vec::new(alloc),
            slot: 0,
            number: None,
        },
    )
}

// The number at that byte of a sector.
fn u64_at(sector: &[u8; 512], at: usize) -> u64
    requires { at + 8 ≤ 512 }
{
    let mut bytes = [0; 8];
    bytes.copy_from_slice(&sector[at..at + 8]);
    u64::from_be_bytes(bytes)
}
