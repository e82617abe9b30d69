//! The documents that the parts of a device make.
ghost use Rattle.std.specs.Prelude.{◌≡◌, ◌≤◌, None, Some, slice_get, IfOk, IfSome};
ghost use Rattle.store_salvage.specs.Making.{IsMade, IsMadeOf, frames_of, profile_of, seq_or, source_of, sure_of};
ghost use Rattle.sector_device.specs.Disk.{Image};
ghost use Rattle.store_parts.specs.declared.findings.Findings.{Findings};
ghost use Rattle.sector_device.specs.Charges.{IsSameRead};
ghost use Rattle.sector_device.specs.Sectors.{KeepsImages};
ghost use Rattle.doc_changes.specs.State.{Good};
ghost use Rattle.frame_search.specs.Places.{IsFrameFormat};
ghost use Rattle.store_parts.specs.Parts.{AreParts, HasPart};

use crate::spare::spare_frames;
use crate::taking::{Doubt, Gathered, Source, gather};
use doc_machine::{Machine, Profile};
use sector_device::SectorDevice;
use std::alloc::{AllocError, Global};
use store_parts::{Check, Findings, Part, PartBytes, check_of, read_part};

/// The documents that a part makes.
#[derive(Drop)]
pub struct Made {
    pub machine: Machine,
    /// The place of the part among those that were found.
    pub part: usize,
    /// Whether its bytes in the half have their checksum.
    pub check: Check,
    /// Its bytes that are in no document.
    pub doubts: Vec<Doubt>,
    /// Its sectors that the device doesn't read.
    pub unread: Vec<u64>,
    /// The number of the last change: that of the commit, or of a newer frame.
    pub seq: u64,
    /// The number of the last change in the part itself.
    pub own: u64,
}

/// The documents of the part that a commit counts, or if none does, of that with the newest frame. `None`: there is no
/// part. `Err`: memory was refused.
pub fn salvage<D: SectorDevice>(
    alloc: Global,
    device: &mut D,
    found: &Findings,
) -> Result<Option<Made>, AllocError>
    requires parts { AreParts (D.disk device.old).sectors found.now.parts.items }
    ensures same { IsSameRead (D.disk device.old) (D.disk device.new) }
    ensures later { (D.disk device.old).failures ≤ (D.disk device.new).failures }
    ensures unwritten { (D.disk device.new).honest → KeepsImages (D.disk device.old) (D.disk device.new) }
    ensures good { IfOk result (λ made. IfSome made (λ m. Good m.machine)) }
    ensures made { (D.disk device.new).honest → IfOk result (λ made. IfSome made (IsMade (D.disk device.old).seen found.now)) }
{
    if found.seq.is_none() {
        return newest(alloc, device, found);
    }
    match found.parts.get(0) {
        None => Ok(None),
        Some(part) => {
            let made = made_of(alloc, device, found, part, 0)?;
            Ok(Some(made))
        }
    }
}

// The documents of the part with the newest frame.
fn newest<D: SectorDevice>(
    alloc: Global,
    device: &mut D,
    found: &Findings,
) -> Result<Option<Made>, AllocError>
    requires parts { AreParts (D.disk device.old).sectors found.now.parts.items }
    requires none { found.now.seq ≡ None }
    ensures same { IsSameRead (D.disk device.old) (D.disk device.new) }
    ensures later { (D.disk device.old).failures ≤ (D.disk device.new).failures }
    ensures unwritten { (D.disk device.new).honest → KeepsImages (D.disk device.old) (D.disk device.new) }
    ensures good { IfOk result (λ made. IfSome made (λ m. Good m.machine)) }
    ensures made { (D.disk device.new).honest → IfOk result (λ made. IfSome made (IsMade (D.disk device.old).seen found.now)) }
{
    let mut best = None;
    for (place, part) in found.parts.iter().enumerate() {
        best = with_part(alloc, device, found, part, place, best)?;
    }
    Ok(best)
}

// The best so far, or those of a part, if it isn't the piece of a slot and has a newer frame.
fn with_part<D: SectorDevice>(
    alloc: Global,
    device: &mut D,
    found: &Findings,
    part: &Part,
    place: usize,
    best: Option<Made>,
) -> Result<Option<Made>, AllocError>
    requires part { HasPart (D.disk device.old).sectors part.now }
    requires none { found.now.seq ≡ None }
    requires there { slice_get found.now.parts.items place ≡ Some part.now }
    requires best { IfSome best (λ m. Good m.machine) }
    ensures same { IsSameRead (D.disk device.old) (D.disk device.new) }
    ensures later { (D.disk device.old).failures ≤ (D.disk device.new).failures }
    ensures unwritten { (D.disk device.new).honest → KeepsImages (D.disk device.old) (D.disk device.new) }
    ensures good { IfOk result (λ made. IfSome made (λ m. Good m.machine)) }
    ensures made { (D.disk device.new).honest → IfSome best (IsMade (D.disk device.old).seen found.now) → IfOk result (λ made. IfSome made (IsMade (D.disk device.old).seen found.now)) }
{
    if part.number.is_some() {
        return Ok(best);
    }
    let made = made_of(alloc, device, found, part, place)?;
    Ok(newer(best, made))
}

// The documents of a part.
fn made_of<D: SectorDevice>(
    alloc: Global,
    device: &mut D,
    found: &Findings,
    part: &Part,
    place: usize,
) -> Result<Made, AllocError>
    requires part { HasPart (D.disk device.old).sectors part.now }
    ensures same { IsSameRead (D.disk device.old) (D.disk device.new) }
    ensures later { (D.disk device.old).failures ≤ (D.disk device.new).failures }
    ensures unwritten { (D.disk device.new).honest → KeepsImages (D.disk device.old) (D.disk device.new) }
    ensures good { IfOk result (λ made. Good made.machine) }
    ensures place { IfOk result (λ made. made.part ≡ place) }
    ensures made { (D.disk device.new).honest → IfOk result (IsMadeOf (D.disk device.old).seen found.now part.now) }
{
    let PartBytes { bytes, unread } = read_part(alloc, device, part)?;
    let check = check_of(part, &bytes);
    let spare = spare_frames(alloc, &found.parts, number_held(part, check))?;
    let source = source_of(found, part, check);
    let empty = Machine::at(alloc, u64::MAX, profile_of(found));
    let Gathered {
        machine,
        doubts,
        last,
        own,
    } = gather(alloc, &bytes, source, &found.parts, &spare, empty)?;
    Ok(Made {
        machine,
        part: place,
        check,
        doubts,
        unread,
        seq: last.max(seq_or(0, found.seq)),
        own,
    })
}

// What is known of the bytes of a part.
fn source_of(found: &Findings, part: &Part, check: Check) -> Source
    ensures value { result ≡ source_of found.now part.now check }
    ensures format { IsFrameFormat result.version }
{
    Source {
        version: frames_of(found),
        counted: part.counted,
        limit: seq_or(u64::MAX, found.seq),
        sure: sure_of(part, check),
    }
}

// The number of the commit that counts a part, if the part has its checksum: then only newer ones can have what is missing.
fn number_held(part: &Part, check: Check) -> Option<u64> {
    match check {
        Check::Held => part.number,
        Check::Failed | Check::Unknown => None,
    }
}

// The place from which on the bytes of a part have a checksum of their own, if those of the half failed theirs.
fn sure_of(part: &Part, check: Check) -> usize
    ensures { result ≡ sure_of part.now check }
{
    match check {
        Check::Failed => part.len as usize,
        Check::Held | Check::Unknown => 0,
    }
}

// The seq of the commit that counts, or if none does, that number.
fn seq_or(none: u64, seq: Option<u64>) -> u64
    ensures { result ≡ seq_or none seq }
{
    match seq {
        None => none,
        Some(seq) => seq,
    }
}

// The profile of the format.
fn profile_of(found: &Findings) -> Profile
    ensures { result ≡ profile_of found.now.format }
{
    if found.format == 3 {
        Profile::Three
    } else {
        Profile::Two
    }
}

// Those with the newer frame, or the first.
fn newer(best: Option<Made>, other: Made) -> Option<Made>
    requires best { IfSome best (λ m. Good m.machine) }
    requires other { Good other.machine }
    ensures good { IfSome result (λ m. Good m.machine) }
    ensures made { (image : Image) (found : Findings) → IfSome best (IsMade image found) → IsMade image found other → IfSome result (IsMade image found) }
    ensures newest { IfSome result (λ m. other.own ≤ m.own) }
{
    match best {
        None => Some(other),
        Some(best) => {
            if best.own < other.own {
                Some(other)
            } else {
                Some(best)
            }
        }
    }
}

// The format of the frames.
fn frames_of(found: &Findings) -> u32
    ensures value { result ≡ frames_of found.now.format }
    ensures format { IsFrameFormat result }
{
    if found.format == 1 {
        1
    } else if found.format == 3 {
        3
    } else {
        2
    }
}
