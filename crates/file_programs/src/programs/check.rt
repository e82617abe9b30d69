//! `check FILE [--strict]` and `repair FILE`

ghost use Rattle.std.specs.Prelude.{◌≡◌, IfOk, IfErr, OnErr};
ghost use Rattle.doc_store.specs.declared.opening.Strictness.TheVariants.{AnyState};
ghost use Rattle.file_programs.specs.Calls.{IsShown};
ghost use Rattle.file_programs.specs.Files.{IsUnopenedBy};
ghost use Rattle.file_programs.specs.Notices.{checked_line};
ghost use Rattle.file_programs.specs.Shown.{Shows};

use crate::fault::Fault;
use crate::lines::show_line;
use crate::notices::checked_line;
use crate::opening::{Closed, Unopened, open_strictly};
use doc_store::{Notice, Store, Strictness};
use file_device::{FileDevice, Held};
use std::alloc::Global;
use std::fs::File;
use std::io::Write;
use std::rt::Files;
use std::snapshot::Snapshot;

/// Opens the store in a file that holds what `held` says, so strictly, which counts as an opening, and writes the reply to
/// a `status` line, which in format 3 also has what its slots said.
pub fn check_file<R: Files<File = File>, O: Write>(
    rt: &R,
    alloc: Global,
    file: &str,
    strictness: Strictness,
    held: Snapshot<Held>,
    writer: &mut O,
) -> Result<Closed, Unopened>
    ensures shown { IfOk result (λ closed. IsShown strictness held closed (O.contents writer.old) (O.contents writer.new)) }
    ensures refused { IfErr result (IsUnopenedBy strictness held) }
    ensures unwritten { OnErr result (writer.new ≡ writer.old) }
{
    let (store, notice) = open_strictly(rt, alloc, file, strictness, held)?;
    let ended = show_checked(alloc, &store, notice, writer);
    Ok(Closed {
        store,
        notice,
        noted: true,
        ended,
    })
}

/// The same of any state that the file holds. The opening writes a pair of the commit slots anew; if only one slot was
/// valid of all four, it takes a second time until both pairs are whole.
pub fn repair_file<R: Files<File = File>, O: Write>(
    rt: &R,
    alloc: Global,
    file: &str,
    held: Snapshot<Held>,
    writer: &mut O,
) -> Result<Closed, Unopened>
    ensures shown { IfOk result (λ closed. IsShown AnyState held closed (O.contents writer.old) (O.contents writer.new)) }
    ensures refused { IfErr result (IsUnopenedBy AnyState held) }
    ensures unwritten { OnErr result (writer.new ≡ writer.old) }
{
    check_file(rt, alloc, file, Strictness::AnyState, held, writer)
}

fn show_checked<O: Write>(
    alloc: Global,
    store: &Store<FileDevice>,
    notice: Notice,
    writer: &mut O,
) -> Result<(), Fault>
    ensures { Shows result (checked_line store.now.account notice) (O.contents writer.old) (O.contents writer.new) }
{
    let line = checked_line(alloc, store, notice)?;
    show_line(writer, &line)
}
