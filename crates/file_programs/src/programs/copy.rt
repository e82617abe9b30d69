//! `copy FILE NEW --sectors N [--format N] [--id HEX] [--strict]`

ghost use Rattle.std.specs.Prelude.{◌≡◌, ◌≤◌, IfOk, IfErr, OnErr, OnOk, length, true};
ghost use Rattle.std.specs.Io.KnownBytes.{Appends};
ghost use Rattle.slot_commits.specs.declared.found.Notice.TheVariants.{Whole};
ghost use Rattle.command_line.specs.declared.limits.TheConstants.{MAX_SECTORS};
ghost use Rattle.store_commits.specs.Snapshot.{snapshot_bytes};
ghost use Rattle.doc_store.specs.Formats.{rides_in, status_of};
ghost use Rattle.store_commits.specs.Account.{Account};
ghost use Rattle.file_device.specs.File.{file_disk};
ghost use Rattle.file_programs.specs.Copies.{IsCopiedFile, IsFilled, ShowsCopy, account_copied, format_copied};
ghost use Rattle.file_programs.specs.Files.{IsNoticedIn, IsOpenedIn, IsUnopenedBy};
ghost use Rattle.file_programs.specs.Notices.{note_of};
ghost use Rattle.file_programs.specs.Shown.{Shows};
ghost use Rattle.protocol.specs.Reply.{line_of};
ghost use Rattle.sector_device.specs.declared.history.History.{Created};
ghost use Rattle.status_lines.specs.Status.{status_reply};

use crate::fault::Fault;
use crate::identity::identity_for;
use crate::lines::show_line;
use crate::notices::note;
use crate::opening::{Unopened, store_on};
use crate::programs::upgrade::numbered;
use doc_store::{Format, Notice, Status, Store, Strictness};
use file_device::{Blocks, FileDevice, Held, Progress, Rights};
use status_lines::status_line;
use std::alloc::Global;
use std::fs::{self, File};
use std::io::Write;
use std::rt::Files;
use std::snapshot::Snapshot;
use store_journal::geometry::capacity;

/// What `copy` is to make.
#[derive(Clone, Copy)]
pub struct NewCopy<'a> {
    /// The path, at which nothing may exist.
    pub file: &'a str,
    /// The number of its sectors.
    pub sectors: u64,
    /// The format of the store in it: 3 or, for any other number, 2; `None`: that of the store that is copied.
    pub format: Option<u64>,
    /// The identity of the store in format 3; `None`: it is drawn.
    pub identity: Option<u128>,
}

/// How `copy` ended once it had opened the store.
#[derive(Drop)]
pub struct Ended {
    /// The store that was opened, as it is then.
    pub store: Store<FileDevice>,
    /// What its slots said when it was opened.
    pub notice: Notice,
    /// Whether all that is to be said of that was written.
    pub noted: bool,
    /// The device of the copy, or why there is none.
    pub copied: Result<FileDevice, Fault>,
}

/// Opens the store in a file that holds what `held` says, so strictly, which counts as an opening, copies it into a new file, in its format
/// unless another is asked for, and writes the status of the copy. What its slots say is a line on `errors` before that, unless all is whole. The new file has the rights of
/// the old one before its first byte, and its blocks are allocated first, while `progress` looks on. If there is a
/// fault it is removed again, if the system does so.
pub fn copy_file<R: Files<File = File>, O: Write, E: Write, P: Progress>(
    rt: &R,
    alloc: Global,
    file: &str,
    new: NewCopy,
    strictness: Strictness,
    held: Snapshot<Held>,
    writer: &mut O,
    errors: &mut E,
    progress: &mut P,
) -> Result<Ended, Unopened>
    requires most { new.sectors ≤ MAX_SECTORS }
    ensures opened { IfOk result (λ ended. IsOpenedIn held ended.store) }
    ensures copied { IfOk result (λ ended. IfOk ended.copied (IsCopiedFile new.entry.sectors (format_copied new.entry.format ended.store.account) new.entry.identity ended.store.account)) }
    ensures shown { IfOk result (λ ended. ShowsCopy new.entry.sectors (format_copied new.entry.format ended.store.account) new.entry.identity ended.store.account ended.copied (O.contents writer.old) (O.contents writer.new)) }
    ensures noticed { IfOk result (λ ended. IsNoticedIn strictness held ended.store ended.notice) }
    ensures noted { IfOk result (λ ended. ended.noted ≡ true → Appends (E.contents errors.old) (E.contents errors.new) (note_of ended.notice)) }
    ensures whole { IfOk result (λ ended. ended.notice ≡ Whole → errors.new ≡ errors.old) }
    ensures refused { IfErr result (IsUnopenedBy strictness held) }
    ensures unsaid { OnErr result (errors.new ≡ errors.old) }
    ensures unwritten { OnErr result (writer.new ≡ writer.old) }
{
    let device = FileDevice::open(rt, alloc, file, held)?;
    let rights = device.rights()?;
    let (store, notice) = store_on(alloc, device, strictness)?;
    let noted = note(alloc, notice, errors);
    let format = format_of_copy(&store, new.format);
    let copied = copy_store(rt, alloc, &store, new, format, rights, writer, progress);
    Ok(Ended {
        store,
        notice,
        noted,
        copied,
    })
}

// The format of a copy of a store: the one that was asked for, or the store's own.
fn format_of_copy(store: &Store<FileDevice>, asked: Option<u64>) -> Format
    ensures { result ≡ format_copied asked store.now.account }
{
    match asked {
        Some(number) => numbered(number),
        None => store.format(),
    }
}

// Copies a store into a new file, in a format. The file is removed again if that isn't done.
fn copy_store<R: Files<File = File>, O: Write, P: Progress>(
    rt: &R,
    alloc: Global,
    store: &Store<FileDevice>,
    new: NewCopy,
    format: Format,
    rights: Rights,
    writer: &mut O,
    progress: &mut P,
) -> Result<FileDevice, Fault>
    requires most { new.sectors ≤ MAX_SECTORS }
    ensures copied { IfOk result (IsCopiedFile new.entry.sectors format new.entry.identity store.now.account) }
    ensures shown { ShowsCopy new.entry.sectors format new.entry.identity store.now.account result (O.contents writer.old) (O.contents writer.new) }
{
    let identity = identity_for(rt, format.rides(), new.identity)?;
    let mut device = make_new(rt, alloc, new.file, new.sectors, rights, progress)?;
    match fill(
        alloc,
        store,
        &mut device,
        new.sectors,
        format,
        identity,
        writer,
    ) {
        Ok(()) => Ok(device),
        Err(fault) => {
            let _ = fs::remove_file(rt, new.file);
            Err(fault)
        }
    }
}

// Makes the file of a copy.
fn make_new<R: Files<File = File>, P: Progress>(
    rt: &R,
    alloc: Global,
    new: &str,
    sectors: u64,
    rights: Rights,
    progress: &mut P,
) -> Result<FileDevice, Fault>
    ensures sectors { IfOk result (λ device. (file_disk device).sectors ≡ sectors) }
    ensures history { IfOk result (λ device. device.history ≡ Created sectors) }
{
    match FileDevice::create(rt, alloc, new, sectors, Blocks::Allocated, rights, progress) {
        Ok(device) => Ok(device),
        Err(fault) => Err(Fault::of_new(fault)),
    }
}

// Copies a store to a device of `sectors` sectors, in a format, and writes the status of the copy.
fn fill<O: Write>(
    alloc: Global,
    store: &Store<FileDevice>,
    device: &mut FileDevice,
    sectors: u64,
    format: Format,
    identity: u128,
    writer: &mut O,
) -> Result<(), Fault>
    requires most { sectors ≤ MAX_SECTORS }
    ensures copied { OnOk result (IsFilled format identity (file_disk device.old) (file_disk device.new) store.now.account) }
    ensures shown { Shows result (line_of (status_reply (status_of (account_copied format identity store.now.account sectors)))) (O.contents writer.old) (O.contents writer.new) }
{
    match store.copy_to(device, format, identity) {
        Err(refusal) => Err(Fault::refused(refusal.number)),
        Ok(used) => {
            let status = status_of_copy(&store.status(), used, sectors, format, identity);
            show_line(writer, &status_line(alloc, &status)?)
        }
    }
}

// The status of the copy, before it is opened.
fn status_of_copy(
    status: &Status,
    used: u64,
    sectors: u64,
    format: Format,
    identity: u128,
) -> Status
    requires most { sectors ≤ MAX_SECTORS }
    ensures { (a : Account) → status.now ≡ status_of a → used ≡ length (snapshot_bytes (rides_in format) a.state.documents a.state.marks) → result ≡ status_of (account_copied format identity a sectors) }
{
    Status {
        documents: status.documents,
        seq: status.seq,
        opens: status.opens,
        identity: if format.rides() { Some(identity) } else { None },
        used,
        capacity: capacity(format.rides(), sectors),
        sectors,
        half: 0,
        broken: false,
    }
}
