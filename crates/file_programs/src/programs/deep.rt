//! `check FILE --deep`

ghost use Rattle.std.specs.Prelude.{◌≡◌, IfOk, IfErr, OnErr};
ghost use Rattle.std.specs.declared.snapshot.Snapshot.{Snapshot};
ghost use Rattle.sector_device.specs.declared.history.Held.{Held};
ghost use Rattle.sector_device.specs.declared.history.History.{Opened};
ghost use Rattle.doc_store.specs.declared.opening.Strictness.TheVariants.{AnyState};
ghost use Rattle.file_device.specs.File.{file_disk};
ghost use Rattle.file_programs.specs.Reads.{IsExaminedIn, IsFoundIn, IsUnlookedIn, IsUnlookedOn, refused_by};

use crate::opening::{Unopened, look_on};
use damaged_files::{ShowFault, Told, tell_damages};
use doc_machine::Machine;
use doc_store::Strictness;
use file_device::{FileDevice, Held};
use refusals::numbers::MEMORY;
use std::alloc::Global;
use std::fs::File;
use std::io::Write;
use std::rt::Files;
use std::snapshot::Snapshot;

/// A store of which all was read, at the end of a program.
#[derive(Drop)]
pub struct Examined {
    pub device: FileDevice,
    /// The documents that an opening would find, or the number by which it would be refused.
    pub found: Result<Machine, u16>,
    /// The report on it.
    pub told: Result<Told, ShowFault>,
}

/// Reads all of the store in a file that holds what `held` says, and writes a line for each damage, and then one that
/// counts these. An opening that would be refused is a damage, too. The file is opened for reading alone, and no opening is counted.
pub fn check_deep<R: Files<File = File>, O: Write>(
    rt: &R,
    alloc: Global,
    file: &str,
    held: Snapshot<Held>,
    writer: &mut O,
) -> Result<Examined, Unopened>
    ensures examined { IfOk result (λ examined. IsExaminedIn held examined (O.contents writer.old) (O.contents writer.new)) }
    ensures refused { IfErr result (IsUnlookedIn AnyState held) }
    ensures unwritten { OnErr result (writer.new ≡ writer.old) }
{
    let device = FileDevice::open_to_read(rt, alloc, file, held)?;
    let (mut device, found) = find(alloc, device)?;
    let told = tell_damages(alloc, &mut device, refused_by(&found), writer);
    Ok(Examined {
        device,
        found,
        told,
    })
}

// What an opening finds on the device of a file of which nothing was read yet. `Err`: memory was refused.
fn find(alloc: Global, device: FileDevice) -> Result<(FileDevice, Result<Machine, u16>), Unopened>
    ensures found { (held : Snapshot Held) → device.history ≡ Opened held → IfOk result (λ found. IsFoundIn held (file_disk device).failures found.0 found.1) }
    ensures seen { (held : Snapshot Held) → device.history ≡ Opened held → IfOk result (λ found. (file_disk found.0).honest → (file_disk found.0).seen ≡ held.value.seen.items) }
    ensures refused { (held : Snapshot Held) → device.history ≡ Opened held → IfErr result (IsUnlookedOn AnyState held (file_disk device).sectors (file_disk device).failures) }
{
    match look_on(alloc, device, Strictness::AnyState) {
        Ok(looked) => Ok((looked.device, Ok(looked.machine))),
        Err(fault) => {
            if fault.number == MEMORY {
                return Err(Unopened::NoStore(fault));
            }
            Ok((fault.device, Err(fault.number)))
        }
    }
}

// The number by which an opening would be refused.
fn refused_by(found: &Result<Machine, u16>) -> Option<u16>
    ensures { result ≡ refused_by found.now }
{
    match found {
        Ok(_) => None,
        Err(number) => Some(*number),
    }
}
