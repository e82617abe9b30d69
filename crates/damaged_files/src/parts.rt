//! The frames of all parts of a device.
ghost use Rattle.std.specs.Prelude.{◌≡◌, ◌≤◌, ◌<◌, ◌++◌, ℕ, List, IfOk, IfSome, length};
ghost use Rattle.std.specs.Io.KnownBytes.{Appends};
ghost use Rattle.sector_device.specs.Charges.{IsSameRead};
ghost use Rattle.sector_device.specs.Sectors.{KeepsImages};
ghost use Rattle.store_parts.specs.Parts.{AreParts, HasPart};
ghost use Rattle.frame_search.specs.Places.{IsFrameFormat};
ghost use Rattle.damaged_files.specs.Frames.{IsPartText, IsPartsText, ShowsParts, begin_after, begin_of, version_of};

use crate::frames::frames_text;
use crate::showing::{ShowFault, show};
use sector_device::{SECTOR_BYTES, SectorDevice};
use std::alloc::{AllocError, Global};
use std::io::Write;
use store_parts::{Findings, Part, PartBytes, check_of, examine, read_part};

/// Shows a line for each frame that can be read of a device, in both halves, with the place at which it is. `None`: the
/// device has too few or too many sectors for a store, and nothing is shown. `Err`: memory was refused, and only lines of
/// the parts before are shown; or the writer failed.
pub fn show_frames<D: SectorDevice, O: Write>(
    alloc: Global,
    device: &mut D,
    writer: &mut O,
) -> Result<Option<Findings>, ShowFault>
    ensures same { IsSameRead (D.disk device.old) (D.disk device.new) }
    ensures parts { IfOk result (λ found. IfSome found (λ f. AreParts (D.disk device.old).sectors f.parts.items)) }
    ensures shown { (D.disk device.new).honest → IfOk result (λ found. ShowsParts (D.disk device.old).seen found (O.contents writer.old) (O.contents writer.new)) }
{
    let Some(found) = examine(alloc, device)? else {
        return Ok(None);
    };
    show_parts(alloc, device, &found, writer)?;
    Ok(Some(found))
}

// Shows the frames of each part.
fn show_parts<D: SectorDevice, O: Write>(
    alloc: Global,
    device: &mut D,
    found: &Findings,
    writer: &mut O,
) -> Result<(), ShowFault>
    requires { AreParts (D.disk device.old).sectors found.now.parts.items }
    ensures same { IsSameRead (D.disk device.old) (D.disk device.new) }
    ensures shown { (D.disk device.new).honest → IfOk result (λ done. (text : List ℕ) × IsPartsText (D.disk device.old).seen found.now found.now.parts.items text
        × Appends (O.contents writer.old) (O.contents writer.new) text) }
{
    for part in &found.parts {
        let text = part_text(alloc, device, found, part)?;
        show(writer, &text)?;
    }
    Ok(())
}

// The lines of the frames of a part.
fn part_text<D: SectorDevice>(
    alloc: Global,
    device: &mut D,
    found: &Findings,
    part: &Part,
) -> Result<Vec<u8>, AllocError>
    requires { HasPart (D.disk device.old).sectors part.now }
    ensures same { IsSameRead (D.disk device.old) (D.disk device.new) }
    ensures unwritten { (D.disk device.new).honest → KeepsImages (D.disk device.old) (D.disk device.new) }
    ensures text { (D.disk device.new).honest → IfOk result (λ text. IsPartText (D.disk device.old).seen found.now part.now text.items) }
{
    let PartBytes { bytes, .. } = read_part(alloc, device, part)?;
    let check = check_of(part, &bytes);
    let from = begin_of(found, part, bytes.len());
    frames_text(alloc, part, &bytes, version_of(found), check, from)
}

// The format of the frames.
fn version_of(found: &Findings) -> u32
    ensures value { result ≡ version_of found.now }
    ensures format { IsFrameFormat result }
{
    if found.format == 1 {
        1
    } else if found.format == 3 {
        3
    } else {
        2
    }
}

// The place in the `len` bytes of a part from which frames are looked for. In formats 1 and 2 the bytes of the half that no
// commit counts begin in the middle of a sector.
fn begin_of(found: &Findings, part: &Part, len: usize) -> usize
    ensures { result ≡ begin_of found.now part.now len }
{
    match found.parts.first() {
        None => 0,
        Some(first) => begin_after(first, part, len),
    }
}

// The same, if that is the first part.
fn begin_after(first: &Part, part: &Part, len: usize) -> usize
    ensures { result ≡ begin_after first.now part.now len }
{
    if first.counted && !part.counted && part.half == first.half {
        let before = SECTOR_BYTES.saturating_mul(part.first.saturating_sub(first.first));
        first.len.saturating_sub(before).min(len as u64) as usize
    } else {
        0
    }
}
