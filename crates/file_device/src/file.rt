//! A file as a device of sectors.
ghost use Rattle.std.specs.Prelude.{◌≡◌, ◌≤◌, ◌<◌, ◌+◌, ◌*◌, ◌/◌, ◌^◌, Bool, List, Option, ℕ, IfOk, IfErr, OnOk, OnErr, length, slice_set};
ghost use Rattle.sector_device.specs.Disk.{IsRaised};
ghost use Rattle.std.specs.Path.{path_bytes};
ghost use Rattle.sector_device.specs.declared.history.History.{Opened, Created};
ghost use Rattle.file_device.specs.Folder.{folder_of};
ghost use Rattle.file_device.specs.Runs.{IsGathered};
ghost use Rattle.file_device.specs.declared.fault.FileFault.TheVariants.{Memory};
ghost use Rattle.file_device.specs.declared.file.TheConstants.{RUN};

use crate::fault::FileFault;
use crate::fill::{Blocks, Progress, fill};
use crate::rights::{Rights, Standing, create_new, settle_rights};
use crate::system::SystemFile;
use sector_device::{DeviceFault, Held, History, SECTOR_BYTES, SectorDevice};
use std::alloc::{AllocError, Global};
use std::fs::{self, File, OpenOptions};
use std::io;
use std::os::fd::AsRawFd;
use std::path::Path;
use std::rt::Files;
use std::snapshot::Snapshot;

/// The most sectors that one call moves.
const RUN: usize = 32;

/// The descriptor of standard error.
const LAST_STREAM: i32 = 2;

/// A file of the operating system that nobody else has opened as such a device. Each call is noted in a history without
/// bytes, and what the file is as a device is read off that history: each sector holds what was written to it, and the
/// device is honest as long as each read gave that. Two premises rest on the system: that it makes each call as it is
/// noted, and that a crash leaves one of the images of the history.
///
/// A write waits in `run` after its neighbours, until another call hands them to the system together. A read fetches a
/// run, from which its neighbours are served. That this changes neither what reads give nor what a crash may leave is
/// `kept`: the history is the one of the system's calls with the waiting writes noted after it.
pub struct FileDevice {
    system: SystemFile,
    sectors: u64,
    failures: u64,
    history: History,
    first: u64,
    gathered: usize,
    fetched: usize,
    run: Vec<[u8; 512]>,
    ghost has_places: { 512 * sectors < 2 ^ 64 },
    ghost whole_run: { length run.items ≡ RUN },
    ghost in_run: { (gathered ≤ length run.items) × (fetched ≤ length run.items) × (first + gathered ≤ sectors) },
    ghost kept: { ∥ IsGathered sectors system.told.value history first run.items gathered fetched ∥₁ },
}

/// What was gathered is handed over, if the system takes it, and no call failed before. It was not synced, so nobody counts
/// on it.
impl Drop for FileDevice {
    fn drop(mut self) {
        if self.failures == 0 {
            let _ = self.hand_over();
        }
        let FileDevice {
            system: _,
            sectors: _,
            failures: _,
            history: _,
            first: _,
            gathered: _,
            fetched: _,
            run: _,
        } = self;
    }
}

impl FileDevice {
    ghost use Rattle.file_device.specs.File.{file_disk};

    /// The sectors that lie whole within the first `length` bytes of `file`, which is open for reading, and for writing
    /// if it is to be written, and holds what `held` says. The file is not locked. `Err`: memory is refused.
    pub fn new(
        alloc: Global,
        file: File,
        length: u64,
        held: Snapshot<Held>,
    ) -> Result<FileDevice, FileFault>
        ensures sectors { IfOk result (λ device. (file_disk device).sectors ≡ length / 512) }
        ensures failures { IfOk result (λ device. (file_disk device).failures ≡ 0) }
        ensures history { IfOk result (λ device. device.history ≡ Opened held) }
        ensures fault { IfErr result (λ fault. fault ≡ Memory) }
    {
        let run = no_run(alloc)?;
        let history = History::Opened { held };
        Ok(with_history(file, length / SECTOR_BYTES, history, run))
    }

    /// The file at `path`, which must be there and holds what `held` says: it has as many sectors as its length divided
    /// by 512, rounded down. It is locked against every other opening until it is dropped, however its process ends.
    /// `Err`: another opening has it, or it can't be opened for reading and writing, or its length can't be found, or
    /// memory is refused. No file is made, read or changed.
    pub fn open<R: Files<File = File>>(
        rt: &R,
        alloc: Global,
        path: &str,
        held: Snapshot<Held>,
    ) -> Result<FileDevice, FileFault>
        ensures failures { IfOk result (λ device. (file_disk device).failures ≡ 0) }
        ensures history { IfOk result (λ device. device.history ≡ Opened held) }
    {
        let file = OpenOptions::new().read(true).write(true).open(rt, path)?;
        let file = apart_from_streams(file)?;
        file.try_lock()?;
        let length = file.metadata()?.len();
        FileDevice::new(alloc, file, length, held)
    }

    /// The file at `path`, as `open` has it, for reading alone: each write fails. It may be one that this user can't
    /// write. Other openings for reading may have it at the same time, and no other.
    pub fn open_to_read<R: Files<File = File>>(
        rt: &R,
        alloc: Global,
        path: &str,
        held: Snapshot<Held>,
    ) -> Result<FileDevice, FileFault>
        ensures failures { IfOk result (λ device. (file_disk device).failures ≡ 0) }
        ensures history { IfOk result (λ device. device.history ≡ Opened held) }
    {
        let file = apart_from_streams(File::open(rt, path)?)?;
        file.try_lock_shared()?;
        let metadata = file.metadata()?;
        FileDevice::new(alloc, file, metadata.len(), held)
    }

    /// A new file at `path`, at which nothing may exist: `sectors` sectors of zeros, which are written to the disk if
    /// `blocks` are to be allocated, while `progress` looks on. It has its `rights` before its first byte, and until
    /// then no more than these. Its contents, its length and its name are synced, so that a crash keeps it. It is
    /// locked against every other opening until it is dropped. `Err`: something exists there, or the file can't be made
    /// with this length and these rights, written or synced; then what was made is removed again, if the system does
    /// so. Or memory is refused, and nothing is made.
    pub fn create<R: Files<File = File>, P: Progress>(
        rt: &R,
        alloc: Global,
        path: &str,
        sectors: u64,
        blocks: Blocks,
        rights: Rights,
        progress: &mut P,
    ) -> Result<FileDevice, FileFault>
        ensures sectors { IfOk result (λ device. (file_disk device).sectors ≡ sectors) }
        ensures failures { IfOk result (λ device. (file_disk device).failures ≡ 0) }
        ensures honest { IfOk result (λ device. (file_disk device).honest) }
        ensures history { IfOk result (λ device. device.history ≡ Created sectors) }
    {
        let Some(length) = sectors.checked_mul(SECTOR_BYTES) else {
            return Err(FileFault::NoSpace);
        };
        let run = no_run(alloc)?;
        let file = create_new(rt, path, rights)?;
        match settle_new(rt, file, path, length, blocks, rights, progress) {
            Ok(file) => Ok(with_history(file, sectors, History::Created { sectors }, run)),
            Err(error) => {
                let _ = fs::remove_file(rt, path);
                Err(error)
            }
        }
    }

    /// The rights of the file, for a new one.
    pub fn rights(&self) -> Result<Rights, FileFault> {
        let metadata = self.system.metadata()?;
        Ok(Rights::Same(Standing::of(&metadata)))
    }

    /// How many calls failed. It stays at 2^64 - 1.
    pub fn failures(&self) -> u64
        ensures { result ≡ (file_disk self.now).failures }
    {
        self.failures
    }
}

impl FileDevice {
    ghost use Rattle.sector_device.specs.Disk.{Image};
    ghost use Rattle.sector_device.specs.History.{seen_after, left_by};
    ghost use Rattle.file_device.specs.File.{IsSameDevice};

    // Hands what is gathered to the system. `Err`: it stays gathered.
    fn hand_over(&mut self) -> Result<(), DeviceFault>
        ensures same { IsSameDevice self.old self.new }
        ensures done { OnOk result (self.new.gathered ≡ 0) }
    {
        if self.gathered == 0 {
            return Ok(());
        }
        self.system.write_run(self.first, &self.run, self.gathered)?;
        self.gathered = 0;
        Ok(())
    }

    // Has a place of the run for a write to that sector.
    fn make_room(&mut self, at: u64) -> Result<(), DeviceFault>
        requires { at < self.old.sectors }
        ensures same { IsSameDevice self.old self.new }
        ensures room { OnOk result ((self.new.gathered < RUN) × (self.new.first + self.new.gathered ≡ at) × (self.new.fetched ≡ 0)) }
    {
        if self.gathered < RUN && self.first + self.gathered as u64 == at {
            self.fetched = 0;
            return Ok(());
        }
        self.hand_over()?;
        self.first = at;
        self.fetched = 0;
        Ok(())
    }

    // Has the sector in the run: its place there.
    fn fetch(&mut self, at: u64) -> Result<usize, DeviceFault>
        requires { at < self.old.sectors }
        ensures same { IsSameDevice self.old self.new }
        ensures found { IfOk result (λ place. (place < self.new.fetched) × (self.new.first + place ≡ at)) }
    {
        if self.first <= at && at - self.first < self.fetched as u64 {
            return Ok((at - self.first) as usize);
        }
        self.hand_over()?;
        let most = (self.sectors - at).min(RUN as u64) as usize;
        self.first = at;
        self.fetched = self.system.read_run(at, &mut self.run, most);
        if self.fetched == 0 {
            return Err(DeviceFault);
        }
        Ok(0)
    }

    // Hands over what is gathered, and syncs.
    fn settle(&mut self) -> Result<(), DeviceFault>
        ensures same { IsSameDevice self.old self.new }
        ensures done { OnOk result (self.new.gathered ≡ 0) }
        ensures forgets { OnOk result (self.new.fetched ≡ 0) }
        ensures settled { OnOk result ((torn : Option (List ℕ → Bool)) (image : Image) → left_by torn self.new.system.told.value image → image ≡ seen_after self.new.history) }
    {
        self.hand_over()?;
        self.fetched = 0;
        self.system.sync()
    }
}

// A run with nothing in it.
fn no_run(alloc: Global) -> Result<Vec<[u8; 512]>, AllocError>
    ensures { IfOk result (λ run. length run.items ≡ RUN) }
{
    vec![in alloc; [0; 512]; RUN]
}

// A file of which nothing was asked since this history.
fn with_history(file: File, sectors: u64, history: History, run: Vec<[u8; 512]>) -> FileDevice
    requires places { 512 * sectors < 2 ^ 64 }
    requires run { length run.items ≡ RUN }
    ensures sectors { result.sectors ≡ sectors }
    ensures failures { result.failures ≡ 0 }
    ensures history { result.history ≡ history }
{
    FileDevice {
        system: SystemFile::new(file, &history),
        sectors,
        failures: 0,
        history,
        first: 0,
        gathered: 0,
        fetched: 0,
        run,
    }
}

// The same file under a descriptor that is no standard stream's: if one of these was closed, the system gives its
// number to the next file that is opened, and what is written to the stream would land in the store.
fn apart_from_streams(file: File) -> io::Result<File> {
    if file.as_raw_fd() > LAST_STREAM {
        return Ok(file);
    }
    file.try_clone()
}

// Locks a new file, gives it its rights and its length, in zeros, and syncs that, and that its folder has it. The length
// comes before the zeros, so that one that no file has is refused before anything is written.
fn settle_new<R: Files<File = File>, P: Progress>(
    rt: &R,
    file: File,
    path: &str,
    length: u64,
    blocks: Blocks,
    rights: Rights,
    progress: &mut P,
) -> Result<File, FileFault> {
    let file = apart_from_streams(file)?;
    file.try_lock()?;
    settle_rights(&file, rights)?;
    file.set_len(length)?;
    if blocks == Blocks::Allocated {
        fill(&file, length, progress)?;
    }
    file.sync_all()?;
    File::open(rt, folder_of(path))?.sync_all()?;
    Ok(file)
}

// The folder that the file is in; a bare name is in the present folder.
fn folder_of(path: &str) -> Path<'_>
    ensures { path_bytes result ≡ folder_of path.now }
{
    match Path::new(path).parent() {
        Some(folder) if !folder.as_str().is_empty() => folder,
        _ => Path::new("."),
    }
}

impl SectorDevice for FileDevice {
    ghost use Rattle.sector_device.specs.Disk.{Counts, Reads, StaysHonest, Writes, Syncs, Tears, tearing};
    ghost use Rattle.file_device.specs.File.{file_disk, file_coherent, file_tearing};

    ghost disk = { file_disk };

    ghost coherent = { file_coherent };

    ghost torn_coherent = { file_tearing };

    fn sectors(&self) -> u64 {
        self.sectors
    }

    /// Reads the sector, of the run that was fetched last or else of one that begins with it. A read that the system
    /// breaks off within the sector fails, and so does one before which what is gathered can't be handed over.
    fn read(&mut self, at: u64, into: &mut [u8; 512]) -> Result<(), DeviceFault>
        requires { at < (file_disk self.old).sectors }
        ensures counts { Counts (file_disk self.old) (file_disk self.new) result }
        ensures reads { (file_disk self.new).honest → Reads (file_disk self.old) (file_disk self.new) at into.new result }
        ensures stays { StaysHonest (file_disk self.old) (file_disk self.new) at into.new result }
        ensures torn { (torn : List ℕ → Bool) → (file_disk self.new).honest → Reads (tearing torn (file_disk self.old)) (tearing torn (file_disk self.new)) at into.new result }
        ensures failed { OnErr result (IsRaised (file_disk self.old).failures (file_disk self.new).failures) }
    {
        match self.fetch(at) {
            Ok(place) => {
                *into = self.run[place];
                let (earlier, content) = (Snapshot::of(&self.history), Snapshot::of(into));
                self.history = History::Read {
                    earlier,
                    at,
                    content,
                };
                Ok(())
            }
            Err(DeviceFault) => Err(count(&mut self.failures)),
        }
    }

    /// Gathers the sector. It fails if what is gathered before has to be handed over first, and can't be: then this
    /// write was not begun.
    fn write(&mut self, at: u64, from: &[u8; 512]) -> Result<(), DeviceFault>
        requires { at < (file_disk self.old).sectors }
        ensures counts { Counts (file_disk self.old) (file_disk self.new) result }
        ensures writes { (file_disk self.old).honest → Writes (file_disk self.old) (file_disk self.new) at from.now result }
        ensures torn { (torn : List ℕ → Bool) → (file_disk self.old).honest → Tears torn (file_disk self.old) (file_disk self.new) at from.now }
        ensures failed { OnErr result (IsRaised (file_disk self.old).failures (file_disk self.new).failures) }
    {
        match self.make_room(at) {
            Ok(()) => {
                keep(&mut self.run, self.gathered, from);
                self.gathered += 1;
                let (earlier, content) = (Snapshot::of(&self.history), Snapshot::of(from));
                self.history = History::Written {
                    earlier,
                    at,
                    content,
                };
                Ok(())
            }
            Err(DeviceFault) => Err(count(&mut self.failures)),
        }
    }

    /// Hands over what is gathered, and then the system's sync of the file's contents (`fdatasync`). The file's length
    /// is fixed since it was created, so only its times are left out, which nothing here reads.
    fn sync(&mut self) -> Result<(), DeviceFault>
        ensures counts { Counts (file_disk self.old) (file_disk self.new) result }
        ensures syncs { (file_disk self.old).honest → Syncs (file_disk self.old) (file_disk self.new) result }
        ensures torn { (torn : List ℕ → Bool) → (file_disk self.old).honest → Syncs (tearing torn (file_disk self.old)) (tearing torn (file_disk self.new)) result }
        ensures failed { OnErr result (IsRaised (file_disk self.old).failures (file_disk self.new).failures) }
    {
        match self.settle() {
            Ok(()) => {
                let earlier = Snapshot::of(&self.history);
                self.history = History::Synced { earlier };
                Ok(())
            }
            Err(DeviceFault) => Err(count(&mut self.failures)),
        }
    }
}

// Puts a sector at a place of the run.
fn keep(run: &mut Vec<[u8; 512]>, place: usize, sector: &[u8; 512])
    requires { place < length run.old.items }
    ensures { run.new.items ≡ slice_set run.old.items place sector.now }
{
    run[place] = *sector;
}

// Counts a call that failed.
fn count(failures: &mut u64) -> DeviceFault
    ensures { IsRaised failures.old failures.new }
{
    *failures = failures.saturating_add(1);
    DeviceFault
}
