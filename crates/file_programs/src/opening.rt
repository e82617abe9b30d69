//! The store in a file.

ghost use Rattle.std.specs.Prelude.{◌≡◌, IfOk, IfErr};
ghost use Rattle.doc_changes.specs.State.{Good};
ghost use Rattle.doc_store.specs.Strict.{IsSaidOf, IsTaken};
ghost use Rattle.file_device.specs.File.{file_disk};
ghost use Rattle.file_programs.specs.Faults.{told_of_unopened};
ghost use Rattle.file_programs.specs.Files.{IsNoticedIn, IsOpenedIn, IsUnopenedBy, IsUnopenedIn, IsUnopenedOn};
ghost use Rattle.file_programs.specs.Files.{WasReadIn};
ghost use Rattle.file_programs.specs.Reads.{IsNotLooked};
ghost use Rattle.store_commits.specs.Images.{Stands};
ghost use Rattle.store_journal.specs.Outdated.{IsOutdated};
ghost use Rattle.doc_store.specs.declared.opening.Strictness.TheVariants.{AnyState};
ghost use Rattle.sector_device.specs.declared.history.Held.{Held};
ghost use Rattle.sector_device.specs.declared.history.History.{Opened};
ghost use Rattle.std.specs.declared.snapshot.Snapshot.{Snapshot};

use crate::fault::Fault;
use doc_store::{Looked, Notice, Store, Strictness, look};
use file_device::{FileDevice, FileFault, Held};
use refusals::numbers::CUT_OFF;
use std::alloc::Global;
use std::fs::File;
use std::rt::Files;
use std::snapshot::Snapshot;
use store_journal::{OpenFault, newest};

/// Why the store in a file was not opened.
#[derive(Drop)]
pub enum Unopened {
    /// The file can't be opened, or is in use. No byte of it was read or changed.
    NoFile(FileFault),
    /// The store in it was refused. Its device comes back as it is then.
    NoStore(OpenFault<FileDevice>),
}

impl From<FileFault> for Unopened {
    ghost use Rattle.std.specs.Prelude.{◌≡◌};
    ghost use Rattle.file_programs.specs.declared.opening.Unopened.TheVariants.{NoFile};

    ghost from_gives = { λ fault unopened. unopened ≡ NoFile fault };

    fn from(fault: FileFault) -> Unopened {
        Unopened::NoFile(fault)
    }
}

impl From<OpenFault<FileDevice>> for Unopened {
    ghost use Rattle.std.specs.Prelude.{◌≡◌};
    ghost use Rattle.file_programs.specs.declared.opening.Unopened.TheVariants.{NoStore};

    ghost from_gives = { λ fault unopened. unopened ≡ NoStore fault };

    fn from(fault: OpenFault<FileDevice>) -> Unopened {
        Unopened::NoStore(fault)
    }
}

impl Unopened {
    /// The fault that is said of it.
    pub fn told(&self) -> Fault
        ensures { result ≡ told_of_unopened self.now }
    {
        match self {
            Unopened::NoFile(fault) => Fault::from(*fault),
            Unopened::NoStore(refused) => Fault::refused(refused.number),
        }
    }
}

/// The store in a file at the end of a program that opened it.
#[derive(Drop)]
pub struct Closed {
    /// The store, as it is then.
    pub store: Store<FileDevice>,
    /// What its slots said when it was opened.
    pub notice: Notice,
    /// Whether all that is to be said of that was written.
    pub noted: bool,
    /// How the program ended.
    pub ended: Result<(), Fault>,
}

/// Opens the store in a file that holds what `held` says, and counts the opening.
pub fn open_store<R: Files<File = File>>(
    rt: &R,
    alloc: Global,
    file: &str,
    held: Snapshot<Held>,
) -> Result<Store<FileDevice>, Unopened>
    ensures opened { IfOk result (IsOpenedIn held) }
    ensures refused { IfErr result (IsUnopenedIn held) }
{
    match open_strictly(rt, alloc, file, Strictness::AnyState, held) {
        Ok((store, _)) => Ok(store),
        Err(unopened) => Err(unopened),
    }
}

/// The same, so strictly, and what its slots say.
pub fn open_strictly<R: Files<File = File>>(
    rt: &R,
    alloc: Global,
    file: &str,
    strictness: Strictness,
    held: Snapshot<Held>,
) -> Result<(Store<FileDevice>, Notice), Unopened>
    ensures opened { IfOk result (λ opened. IsOpenedIn held opened.0) }
    ensures noticed { IfOk result (λ opened. IsNoticedIn strictness held opened.0 opened.1) }
    ensures refused { IfErr result (IsUnopenedBy strictness held) }
{
    let (store, notice, _) = open_and_read(rt, alloc, file, strictness, held)?;
    Ok((store, notice))
}

/// The same, and the bytes of which the store was made.
pub fn open_and_read<R: Files<File = File>>(
    rt: &R,
    alloc: Global,
    file: &str,
    strictness: Strictness,
    held: Snapshot<Held>,
) -> Result<(Store<FileDevice>, Notice, Vec<u8>), Unopened>
    ensures opened { IfOk result (λ opened. IsOpenedIn held opened.0) }
    ensures noticed { IfOk result (λ opened. IsNoticedIn strictness held opened.0 opened.1) }
    ensures read { IfOk result (λ opened. WasReadIn held opened.0 opened.2.items) }
    ensures refused { IfErr result (IsUnopenedBy strictness held) }
{
    let device = FileDevice::open(rt, alloc, file, held)?;
    strictly_on(alloc, device, strictness)
}

/// Opens the store on the device of a file of which nothing was read yet, so strictly, and counts the opening. It also
/// answers what the slots say.
pub fn store_on(
    alloc: Global,
    device: FileDevice,
    strictness: Strictness,
) -> Result<(Store<FileDevice>, Notice), Unopened>
    ensures opened { (held : Snapshot Held) → device.history ≡ Opened held → IfOk result (λ opened. IsOpenedIn held opened.0) }
    ensures noticed { (held : Snapshot Held) → device.history ≡ Opened held → IfOk result (λ opened. IsNoticedIn strictness held opened.0 opened.1) }
    ensures refused { (held : Snapshot Held) → device.history ≡ Opened held → IfErr result (IsUnopenedOn strictness held (file_disk device).sectors (file_disk device).failures) }
{
    match strictly_on(alloc, device, strictness) {
        Ok((store, notice, _)) => Ok((store, notice)),
        Err(unopened) => Err(unopened),
    }
}

// The same, and the bytes of which it was made.
fn strictly_on(
    alloc: Global,
    device: FileDevice,
    strictness: Strictness,
) -> Result<(Store<FileDevice>, Notice, Vec<u8>), Unopened>
    ensures opened { (held : Snapshot Held) → device.history ≡ Opened held → IfOk result (λ opened. IsOpenedIn held opened.0) }
    ensures noticed { (held : Snapshot Held) → device.history ≡ Opened held → IfOk result (λ opened. IsNoticedIn strictness held opened.0 opened.1) }
    ensures read { (held : Snapshot Held) → device.history ≡ Opened held → IfOk result (λ opened. WasReadIn held opened.0 opened.2.items) }
    ensures refused { (held : Snapshot Held) → device.history ≡ Opened held → IfErr result (IsUnopenedOn strictness held (file_disk device).sectors (file_disk device).failures) }
{
    let device = newest(alloc, device)?;
    Ok(Store::open_with(alloc, device, strictness)?)
}

/// The documents on the device of a file of which nothing was read yet. Nothing is written. Refused as a store is that is
/// opened so strictly.
pub(crate) fn look_on(
    alloc: Global,
    device: FileDevice,
    strictness: Strictness,
) -> Result<Looked<FileDevice>, OpenFault<FileDevice>>
    ensures stands { IfOk result (λ looked. (file_disk looked.device).honest → Stands looked.machine (file_disk device).seen) }
    ensures newest { IfOk result (λ looked. (file_disk looked.device).honest → IsOutdated (file_disk device).seen → ⊥) }
    ensures notice { IfOk result (λ looked. (file_disk looked.device).honest → IsSaidOf (file_disk device).seen looked.notice) }
    ensures taken { IfOk result (λ looked. IsTaken strictness looked.notice) }
    ensures good { IfOk result (λ looked. Good looked.machine) }
    ensures refused { IfErr result (λ fault. IsNotLooked strictness (file_disk device) (file_disk fault.device) fault.number) }
    ensures seen { IfOk result (λ looked. (file_disk looked.device).honest → (file_disk looked.device).seen ≡ (file_disk device).seen) }
    ensures seen_err { IfErr result (λ fault. (file_disk fault.device).honest → (file_disk fault.device).seen ≡ (file_disk device).seen) }
    ensures size_err { IfErr result (λ fault. (file_disk fault.device).honest → (file_disk fault.device).sectors ≡ (file_disk device).sectors) }
{
    let device = match newest(alloc, device) {
        Err(fault) => return Err(fault),
        Ok(device) => device,
    };
    let looked = match look(alloc, device) {
        Err(fault) => return Err(fault),
        Ok(looked) => looked,
    };
    if !strictness.takes(looked.notice) {
        return Err(OpenFault {
            number: CUT_OFF,
            device: looked.device,
        });
    }
    Ok(looked)
}
