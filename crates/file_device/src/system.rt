//! A file, and the calls that the system makes of it.
ghost use Rattle.std.specs.Prelude.{◌≡◌, ◌≤◌, ◌<◌, ◌+◌, ◌*◌, ◌^◌, Bool, List, Option, ℕ, [], OnOk, OnErr, length, slice_index_or};
ghost use Rattle.sector_device.specs.Disk.{Image};
ghost use Rattle.sector_device.specs.History.{seen_after, left_by, KeepsTo};
ghost use Rattle.file_device.specs.Runs.{put_run, IsOverSome};

use sector_device::{DeviceFault, History, SECTOR_BYTES};
use std::fs::{File, Metadata};
use std::os::unix::fs::FileExt;
use std::snapshot::Snapshot;
use std::{io, mem};

const SECTOR_LEN: usize = SECTOR_BYTES as usize;

/// A file of the operating system, with the calls that it answered: each is noted as one for each of its sectors.
#[derive(Drop)]
pub struct SystemFile {
    file: File,
    told: Snapshot<History>,
}

impl SystemFile {
    /// A file with that history.
    pub fn new(file: File, history: &History) -> SystemFile
        ensures { result.told.value ≡ history.now }
    {
        SystemFile {
            file,
            told: Snapshot::of(history),
        }
    }

    /// What the system says of the file.
    pub fn metadata(&self) -> io::Result<Metadata> {
        self.file.metadata()
    }

    /// Writes the first `count` sectors of the run to those from `first` on, by one call, which goes on if the system
    /// breaks it off. `Err`: some of them may be written.
    pub fn write_run(
        &mut self,
        first: u64,
        run: &[[u8; 512]],
        count: usize,
    ) -> Result<(), DeviceFault>
        requires count { count ≤ length run.now }
        requires places { 512 * (first + count) < 2 ^ 64 }
        ensures written { OnOk result (seen_after self.new.told.value ≡ put_run (seen_after self.old.told.value) first run.now count) }
        ensures failed { OnErr result (seen_after self.new.told.value ≡ seen_after self.old.told.value) }
        ensures left { (torn : Option (List ℕ → Bool)) (image : Image) → left_by torn self.new.told.value image → IsOverSome torn (left_by torn self.old.told.value) first run.now count image }
        ensures honest { (n : ℕ) → KeepsTo n self.new.told.value → KeepsTo n self.old.told.value }
    {
        let told = self.take_told();
        match self
            .file
            .write_all_at(run[..count].as_flattened(), first * SECTOR_BYTES)
        {
            Ok(()) => {
                self.told = note_written(told, first, run, count);
                Ok(())
            }
            Err(_) => {
                self.told = note_failed(told, first, run, count);
                Err(DeviceFault)
            }
        }
    }

    /// Reads up to `most` sectors from `first` on, by one call: how many it gave whole, none if it failed.
    pub fn read_run(&mut self, first: u64, run: &mut [[u8; 512]], most: usize) -> usize
        requires most { most ≤ length run.old }
        requires places { 512 * (first + most) < 2 ^ 64 }
        ensures most { result ≤ most }
        ensures seen { seen_after self.new.told.value ≡ seen_after self.old.told.value }
        ensures left { (torn : Option (List ℕ → Bool)) (image : Image) → left_by torn self.new.told.value image → left_by torn self.old.told.value image }
        ensures honest { (n : ℕ) → KeepsTo n self.new.told.value → KeepsTo n self.old.told.value }
        ensures gave { (n : ℕ) → KeepsTo n self.new.told.value → (j : ℕ) → j < result → slice_index_or run.new j [] ≡ slice_index_or (seen_after self.old.told.value) (first + j) [] }
    {
        match self
            .file
            .read_at(run[..most].as_flattened_mut(), first * SECTOR_BYTES)
        {
            Ok(bytes) => {
                let count = bytes / SECTOR_LEN;
                let told = self.take_told();
                self.told = note_read(told, first, run, count);
                count
            }
            Err(_) => 0,
        }
    }

    /// The system's sync of the file's contents (`fdatasync`).
    pub fn sync(&mut self) -> Result<(), DeviceFault>
        ensures seen { seen_after self.new.told.value ≡ seen_after self.old.told.value }
        ensures settled { OnOk result ((torn : Option (List ℕ → Bool)) (image : Image) → left_by torn self.new.told.value image → image ≡ seen_after self.old.told.value) }
        ensures left { (torn : Option (List ℕ → Bool)) (image : Image) → left_by torn self.new.told.value image → left_by torn self.old.told.value image }
        ensures honest { (n : ℕ) → KeepsTo n self.new.told.value → KeepsTo n self.old.told.value }
    {
        match self.file.sync_data() {
            Ok(()) => {
                let earlier = self.take_told();
                self.told = Snapshot::of(&History::Synced { earlier });
                Ok(())
            }
            Err(_) => Err(DeviceFault),
        }
    }

    // The calls so far, which are put in their place again once one more is noted.
    fn take_told(&mut self) -> Snapshot<History>
        ensures { result.value ≡ self.old.told.value }
    {
        mem::replace(
            &mut self.told,
            Snapshot::of(&History::Created { sectors: 0 }),
        )
    }
}

// Notes a write of each sector.
fn note_written(
    told: Snapshot<History>,
    first: u64,
    run: &[[u8; 512]],
    count: usize,
) -> Snapshot<History>
    requires count { count ≤ length run.now }
    requires places { 512 * (first + count) < 2 ^ 64 }
    ensures seen { seen_after result.value ≡ put_run (seen_after told.value) first run.now count }
    ensures left { (torn : Option (List ℕ → Bool)) (image : Image) → left_by torn result.value image → IsOverSome torn (left_by torn told.value) first run.now count image }
    ensures honest { (n : ℕ) → KeepsTo n result.value → KeepsTo n told.value }
{
    let mut noted = told;
    for i in 0..count {
        let (at, content) = (first + i as u64, Snapshot::of(&run[i]));
        noted = Snapshot::of(&History::Written {
            earlier: noted,
            at,
            content,
        });
    }
    noted
}

// Notes a failed write of each sector.
fn note_failed(
    told: Snapshot<History>,
    first: u64,
    run: &[[u8; 512]],
    count: usize,
) -> Snapshot<History>
    requires count { count ≤ length run.now }
    requires places { 512 * (first + count) < 2 ^ 64 }
    ensures seen { seen_after result.value ≡ seen_after told.value }
    ensures left { (torn : Option (List ℕ → Bool)) (image : Image) → left_by torn result.value image → IsOverSome torn (left_by torn told.value) first run.now count image }
    ensures honest { (n : ℕ) → KeepsTo n result.value → KeepsTo n told.value }
{
    let mut noted = told;
    for i in 0..count {
        let (at, content) = (first + i as u64, Snapshot::of(&run[i]));
        noted = Snapshot::of(&History::WriteFailed {
            earlier: noted,
            at,
            content,
        });
    }
    noted
}

// Notes a read of each sector.
fn note_read(
    told: Snapshot<History>,
    first: u64,
    run: &[[u8; 512]],
    count: usize,
) -> Snapshot<History>
    requires count { count ≤ length run.now }
    requires places { 512 * (first + count) < 2 ^ 64 }
    ensures seen { seen_after result.value ≡ seen_after told.value }
    ensures left { (torn : Option (List ℕ → Bool)) (image : Image) → left_by torn result.value image → left_by torn told.value image }
    ensures honest { (n : ℕ) → KeepsTo n result.value → KeepsTo n told.value }
    ensures gave { (n : ℕ) → KeepsTo n result.value → (j : ℕ) → j < count → slice_index_or run.now j [] ≡ slice_index_or (seen_after told.value) (first + j) [] }
{
    let mut noted = told;
    for i in 0..count {
        let (at, content) = (first + i as u64, Snapshot::of(&run[i]));
        noted = Snapshot::of(&History::Read {
            earlier: noted,
            at,
            content,
        });
    }
    noted
}
