//! The lines of the damages.
ghost use Rattle.std.specs.Prelude.{◌≡◌, ◌≤◌, ◌≢◌, ◌++◌, IfOk, IfSome, MatchResult};
ghost use Rattle.std.specs.Io.KnownBytes.{Appends};
ghost use Rattle.sector_device.specs.Charges.{IsSameRead};
ghost use Rattle.store_parts.specs.Copies.{AreToldOn};
ghost use Rattle.damaged_files.specs.Damages.{IsExaminedOn, condition_of, damages_of, has_checksums, head_for, last_line, line_of_damage, report_of, report_on, word_for};
ghost use Rattle.damaged_files.specs.Shown.{Shows};
ghost use Rattle.damaged_files.specs.declared.showing.ShowFault.TheVariants.{Writer};

use crate::damage::Damage;
use crate::damages::damages;
use crate::examined::{Examined, examine_all};
use crate::showing::{Condition, ShowFault, show};
use sector_device::SectorDevice;
use std::alloc::{AllocError, Global};
use std::io::Write;
use store_parts::Findings;

/// The report on a device.
#[derive(Drop)]
pub struct Told {
    /// What was found.
    pub examined: Examined,
    /// Whether there is a damage.
    pub condition: Condition,
}

/// Reads all of a device on which an opening is refused by that number, or isn't, and shows a line for each damage, and
/// then one that counts these. `Err`: memory was refused, and nothing is shown; or the writer failed.
pub fn tell_damages<D: SectorDevice, O: Write>(
    alloc: Global,
    device: &mut D,
    refused: Option<u16>,
    writer: &mut O,
) -> Result<Told, ShowFault>
    ensures same { IsSameRead (D.disk device.old) (D.disk device.new) }
    ensures later { (D.disk device.old).failures ≤ (D.disk device.new).failures }
    ensures examined { IfOk result (λ told. IsExaminedOn (D.disk device.old).sectors told.examined) }
    ensures copies { (D.disk device.new).honest → IfOk result (λ told. IfSome told.examined.found (AreToldOn (D.disk device.old).seen)) }
    ensures condition { IfOk result (λ told. told.condition ≡ condition_of (damages_of refused told.examined)) }
    ensures shown { MatchResult result (λ told. Appends (O.contents writer.old) (O.contents writer.new) (report_on refused told.examined))
        (λ fault. fault ≢ Writer → O.contents writer.new ≡ O.contents writer.old) }
{
    let examined = examine_all(alloc, device)?;
    let damages = damages(alloc, refused, &examined)?;
    show_report(alloc, has_checksums(&examined.found), &damages, writer)?;
    let condition = condition_of(&damages);
    Ok(Told {
        examined,
        condition,
    })
}

// Whole if there is no damage.
fn condition_of(damages: &[Damage]) -> Condition
    ensures { result ≡ condition_of damages.now }
{
    if damages.is_empty() {
        Condition::Whole
    } else {
        Condition::Damaged
    }
}

// Shows a line for each damage, and the one that counts them.
fn show_report<O: Write>(
    alloc: Global,
    checksums: bool,
    damages: &[Damage],
    writer: &mut O,
) -> Result<(), ShowFault>
    ensures { Shows result (report_of checksums damages.now) (O.contents writer.old) (O.contents writer.new) }
{
    let text = report(alloc, checksums, damages)?;
    show(writer, &text)
}

// The lines of the damages, and the one that counts them.
fn report(alloc: Global, checksums: bool, damages: &[Damage]) -> Result<Vec<u8>, AllocError>
    ensures { IfOk result (λ text. text.items ≡ report_of checksums damages.now) }
{
    let mut text = Vec::new(alloc);
    for damage in damages {
        text = with_line(text, damage)?;
    }
    with_count(text, checksums, damages.len(), damages.is_empty())
}

// The text, and after it the line of a damage.
fn with_line(text: Vec<u8>, damage: &Damage) -> Result<Vec<u8>, AllocError>
    ensures { IfOk result (λ longer. longer.items ≡ text.items ++ line_of_damage damage.now) }
{
    let mut text = text;
    match writeln!(text, "{damage}") {
        Ok(()) => Ok(text),
        Err(_) => Err(AllocError),
    }
}

// The text, and after it the line with the number of damages, which is well if there is none. It says if blocks have no
// checksums.
fn with_count(
    text: Vec<u8>,
    checksums: bool,
    count: usize,
    well: bool,
) -> Result<Vec<u8>, AllocError>
    ensures { IfOk result (λ longer. longer.items ≡ text.items ++ last_line checksums count well) }
{
    let mut text = text;
    let head = head_for(checksums);
    let word = word_for(well);
    match writeln!(text, "{head}\"damages\":{count},\"ok\":{word}}}") {
        Ok(()) => Ok(text),
        Err(_) => Err(AllocError),
    }
}

// Whether the blocks have checksums, as in format 3.
fn has_checksums(found: &Option<Findings>) -> bool
    ensures { result ≡ has_checksums found.now }
{
    match found {
        None => true,
        Some(found) => found.format == 3,
    }
}

// How a line begins that says so.
fn head_for(checksums: bool) -> &'static str
    ensures { result.now ≡ head_for checksums }
{
    if checksums {
        "{"
    } else {
        "{\"checksums\":false,"
    }
}

// Whether that is so, in a word.
fn word_for(well: bool) -> &'static str
    ensures { result.now ≡ word_for well }
{
    if well { "true" } else { "false" }
}
