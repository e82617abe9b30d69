//! `dump FILE --read-only [--strict]`

ghost use Rattle.std.specs.Prelude.{◌≡◌, IfOk, IfErr, OnErr, true};
ghost use Rattle.std.specs.Io.KnownBytes.{Appends};
ghost use Rattle.file_programs.specs.Notices.{note_of};
ghost use Rattle.file_programs.specs.Reads.{IsDumpedIn, IsUnlookedIn};
ghost use Rattle.slot_commits.specs.declared.found.Notice.TheVariants.{Whole};

use crate::notices::note;
use crate::opening::{Unopened, look_on};
use damaged_files::{ShowFault, show_documents};
use doc_store::{Looked, Strictness};
use file_device::{FileDevice, Held};
use std::alloc::Global;
use std::fs::File;
use std::io::Write;
use std::rt::Files;
use std::snapshot::Snapshot;

/// A store that was only read, at the end of a program.
#[derive(Drop)]
pub struct Dumped {
    /// The documents, the device, and what its slots say.
    pub looked: Looked<FileDevice>,
    /// Whether all that is to be said of that was written.
    pub noted: bool,
    /// Whether they were shown.
    pub shown: Result<(), ShowFault>,
}

/// Reads the store in a file that holds what `held` says, so strictly, and writes for each document the line that makes it,
/// and then a line that counts these. What its slots say is a line on `errors` before that, unless all is whole. The file is
/// opened for reading alone, and no opening is counted.
pub fn dump_file<R: Files<File = File>, O: Write, E: Write>(
    rt: &R,
    alloc: Global,
    file: &str,
    strictness: Strictness,
    held: Snapshot<Held>,
    writer: &mut O,
    errors: &mut E,
) -> Result<Dumped, Unopened>
    ensures dumped { IfOk result (λ dumped. IsDumpedIn strictness held dumped (O.contents writer.old) (O.contents writer.new)) }
    ensures noted { IfOk result (λ dumped. dumped.noted ≡ true → Appends (E.contents errors.old) (E.contents errors.new) (note_of dumped.looked.notice)) }
    ensures whole { IfOk result (λ dumped. dumped.looked.notice ≡ Whole → errors.new ≡ errors.old) }
    ensures refused { IfErr result (IsUnlookedIn strictness held) }
    ensures unsaid { OnErr result (errors.new ≡ errors.old) }
    ensures unwritten { OnErr result (writer.new ≡ writer.old) }
{
    let device = FileDevice::open_to_read(rt, alloc, file, held)?;
    let looked = look_on(alloc, device, strictness)?;
    let noted = note(alloc, looked.notice, errors);
    let seq = looked.machine.seq();
    let shown = show_documents(alloc, &looked.machine, seq, writer);
    Ok(Dumped {
        looked,
        noted,
        shown,
    })
}
