//! `salvage FILE [--frames]`

ghost use Rattle.std.specs.Prelude.{◌≡◌, IfOk, OnErr};
ghost use Rattle.std.specs.declared.snapshot.Snapshot.{Snapshot};
ghost use Rattle.sector_device.specs.declared.history.Held.{Held};
ghost use Rattle.sector_device.specs.declared.history.History.{Opened};
ghost use Rattle.file_programs.specs.Reads.{IsLeftIn, IsSalvagedIn};

use damaged_files::{Salvaged, ShowFault, show_frames, show_salvaged};
use file_device::{FileDevice, FileFault, Held};
use std::alloc::Global;
use std::fs::File;
use std::io::Write;
use std::rt::Files;
use std::snapshot::Snapshot;
use store_parts::Findings;

/// A file that was salvaged, at the end of a program.
#[derive(Drop)]
pub struct SalvagedFile {
    pub device: FileDevice,
    /// What was shown of it.
    pub left: Left,
}

/// What was shown of a file, if it isn't one that can be no store.
#[derive(Drop)]
pub enum Left {
    /// The documents.
    Documents(Result<Option<Salvaged>, ShowFault>),
    /// The frames of what was found.
    Frames(Result<Option<Findings>, ShowFault>),
}

/// Reads what can still be read in a file that holds what `held` says, and writes for each document the line that makes it,
/// and then a line that counts these; or, if `frames`, a line for each frame of both halves. The file is opened for
/// reading alone.
pub fn salvage_file<R: Files<File = File>, O: Write>(
    rt: &R,
    alloc: Global,
    file: &str,
    frames: bool,
    held: Snapshot<Held>,
    writer: &mut O,
) -> Result<SalvagedFile, FileFault>
    ensures salvaged { IfOk result (λ salvaged. IsSalvagedIn held frames salvaged (O.contents writer.old) (O.contents writer.new)) }
    ensures unwritten { OnErr result (writer.new ≡ writer.old) }
{
    let mut device = FileDevice::open_to_read(rt, alloc, file, held)?;
    let left = show_left(alloc, &mut device, frames, writer);
    Ok(SalvagedFile { device, left })
}

// Shows what can still be read on the device of a file of which nothing was read yet.
fn show_left<O: Write>(alloc: Global, device: &mut FileDevice, frames: bool, writer: &mut O) -> Left
    ensures { (held : Snapshot Held) → device.old.history ≡ Opened held → IsLeftIn held frames device.new result (O.contents writer.old) (O.contents writer.new) }
{
    if frames {
        Left::Frames(show_frames(alloc, device, writer))
    } else {
        Left::Documents(show_salvaged(alloc, device, writer))
    }
}
