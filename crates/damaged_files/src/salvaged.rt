//! The documents that can still be read.
ghost use Rattle.std.specs.Prelude.{◌≡◌, ◌≢◌, IfOk, IfSome, MatchOption, MatchResult};
ghost use Rattle.std.specs.Io.KnownBytes.{Appends};
ghost use Rattle.sector_device.specs.Charges.{IsSameRead};
ghost use Rattle.doc_changes.specs.State.{Good};
ghost use Rattle.store_parts.specs.Parts.{AreParts};
ghost use Rattle.damaged_files.specs.Dump.{dump_of};
ghost use Rattle.damaged_files.specs.Salvaged.{IsSalvagedOf, has_slot, is_cut_off, is_whole, salvaged_condition};
ghost use Rattle.damaged_files.specs.declared.showing.ShowFault.TheVariants.{Writer};

use crate::dump::show_documents;
use crate::showing::{Condition, ShowFault};
use sector_device::SectorDevice;
use std::alloc::Global;
use std::io::Write;
use store_parts::{Check, Findings, SlotCopy, examine};
use store_salvage::{Made, salvage};

/// What was salvaged of a device.
#[derive(Drop)]
pub struct Salvaged {
    /// The commits and the parts that were found.
    pub found: Findings,
    /// The documents.
    pub made: Made,
    /// Whether something is lost, or may be.
    pub condition: Condition,
}

/// Shows, of the documents that can still be read on a device, the lines that make them, and one that counts these. `None`:
/// the device has too few or too many sectors for a store, and nothing is shown. `Err`: memory was refused, and nothing is
/// shown; or the writer failed.
pub fn show_salvaged<D: SectorDevice, O: Write>(
    alloc: Global,
    device: &mut D,
    writer: &mut O,
) -> Result<Option<Salvaged>, ShowFault>
    ensures same { IsSameRead (D.disk device.old) (D.disk device.new) }
    ensures good { IfOk result (λ salvaged. IfSome salvaged (λ s. Good s.made.machine)) }
    ensures parts { IfOk result (λ salvaged. IfSome salvaged (λ s. AreParts (D.disk device.old).sectors s.found.parts.items)) }
    ensures made { (D.disk device.new).honest → IfOk result (λ salvaged. IfSome salvaged (IsSalvagedOf (D.disk device.old).seen)) }
    ensures condition { IfOk result (λ salvaged. IfSome salvaged (λ s. s.condition ≡ salvaged_condition s.found s.made)) }
    ensures shown { MatchResult result (λ salvaged. MatchOption salvaged (O.contents writer.new ≡ O.contents writer.old)
        (λ s. Appends (O.contents writer.old) (O.contents writer.new) (dump_of s.made.machine.documents s.made.seq)))
        (λ fault. fault ≢ Writer → O.contents writer.new ≡ O.contents writer.old) }
{
    let Some(found) = examine(alloc, device)? else {
        return Ok(None);
    };
    let Some(made) = salvage(alloc, device, &found)? else {
        return Ok(None);
    };
    show_documents(alloc, &made.machine, made.seq, writer)?;
    let condition = condition_of(&found, &made);
    Ok(Some(Salvaged {
        found,
        made,
        condition,
    }))
}

// Whole if nothing is lost, nor may be.
fn condition_of(found: &Findings, made: &Made) -> Condition
    ensures { result ≡ salvaged_condition found.now made.now }
{
    if is_whole(found, made) {
        Condition::Whole
    } else {
        Condition::Damaged
    }
}

// A commit counts, all of its bytes are in the documents, and no later one may be missing.
fn is_whole(found: &Findings, made: &Made) -> bool
    ensures { result ≡ is_whole found.now made.now }
{
    found.seq.is_some()
        && found.size == found.sectors
        && !is_cut_off(&found.copies)
        && made.check != Check::Failed
        && made.doubts.is_empty()
        && made.unread.is_empty()
}

// A commit may be missing: there are slots, and of A and A', or of B and B', neither is valid.
fn is_cut_off(copies: &[SlotCopy]) -> bool
    ensures { result ≡ is_cut_off copies.now }
{
    let even = has_slot(copies, 0) || has_slot(copies, 1);
    let odd = has_slot(copies, 2) || has_slot(copies, 3);
    !copies.is_empty() && !(even && odd)
}

// The slot of that place is valid.
fn has_slot(copies: &[SlotCopy], place: usize) -> bool
    ensures { result ≡ has_slot copies.now place }
{
    match copies.get(place) {
        Some(copy) => copy.slot.is_some(),
        None => false,
    }
}
