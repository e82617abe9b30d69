//! A disk in memory, and the store over it while it is open.

use crate::fault::Fault;
use doc_store::{CopyState, Format, Store};
use recorded_store::RecordedStore;
use sector_device::{FailOnce, Fuse, MemDisk};
use serve_lines::{Options, serve};
use std::alloc::Global;
use store_journal::{format, format_in};

/// A reply line has at most this number of bytes, with its line feed, so a session of one line grows no writer.
const LONGEST_REPLY: usize = 16_777_217;

/// Bytes of the newest changes that a session knows.
const HISTORY: u64 = 65_536;

/// A disk that may fail once, and from some call on.
pub type Device = Fuse<FailOnce<MemDisk>>;

/// The identities of a disk that is formatted in format 3, of a copy in it, and of a store that is brought to it.
const FORMATTED: u128 = 0x0001_0203_0405_0607_0809_0a0b_0c0d_0e0f;

const COPIED: u128 = 0x1011_1213_1415_1617_1819_1a1b_1c1d_1e1f;

const UPGRADED: u128 = 0x2021_2223_2425_2627_2829_2a2b_2c2d_2e2f;

/// A disk in memory, and the store over it while it is open.
#[derive(Drop)]
pub struct Bench {
    alloc: Global,
    disk: Option<MemDisk>,
    store: Option<Store<Device>>,
    /// The calls that pass from the next opening or formatting on.
    pub passing: u64,
    /// The call from there on that fails, counted from 1 (0: none), and whether it has its effect.
    pub failing: (u64, bool),
    /// The sectors that a session's steps after changes write, 0 for no step.
    pub behind: u64,
    /// The successive changes that a session makes as one batch, at most.
    pub together: u64,
}

impl Bench {
    /// With a disk of 16 sectors, formatted.
    pub fn new(alloc: Global) -> Result<Bench, Fault> {
        Ok(Bench {
            alloc,
            disk: Some(formatted(alloc, 16, false)?),
            store: None,
            passing: u64::MAX,
            failing: (0, false),
            behind: 0,
            together: 1,
        })
    }

    /// The allocator.
    pub fn alloc(&self) -> Global {
        self.alloc
    }

    /// Takes another disk, of `sectors` sectors, formatted or all zeros.
    pub fn renew(&mut self, sectors: u64, is_formatted: bool) -> Result<(), Fault> {
        let disk = if is_formatted {
            formatted(self.alloc, sectors, false)?
        } else {
            MemDisk::new(self.alloc, sectors)?
        };
        self.store = None;
        self.disk = Some(disk);
        Ok(())
    }

    /// Takes another disk, of `sectors` sectors, formatted in format 3.
    pub fn renew_in_3(&mut self, sectors: u64) -> Result<(), Fault> {
        let disk = formatted(self.alloc, sectors, true)?;
        self.store = None;
        self.disk = Some(disk);
        Ok(())
    }

    /// The disk as it is, taken back from the store.
    pub fn disk(&mut self) -> Option<MemDisk> {
        match self.store.take() {
            Some(store) => Some(store.into_device().into_inner().into_inner()),
            None => self.disk.take(),
        }
    }

    /// Gives the disk back, which is open no more.
    pub fn put_back(&mut self, disk: MemDisk) {
        self.disk = Some(disk);
    }

    /// Opens the disk anew, and says the number if it is refused.
    pub fn open(&mut self, said: &mut String) -> Result<(), Fault> {
        let Some(disk) = self.disk() else {
            return Err(Fault::Script);
        };
        let device = self.device(disk);
        match Store::open(self.alloc, device) {
            Ok(store) => self.store = Some(store),
            Err(fault) => {
                let number = fault.number;
                self.disk = Some(fault.device.into_inner().into_inner());
                writeln!(said, "refused {number}")?;
            }
        }
        Ok(())
    }

    /// Formats the disk as it is, and says the number if that is refused.
    pub fn format(&mut self, said: &mut String) -> Result<(), Fault> {
        let Some(disk) = self.disk() else {
            return Err(Fault::Script);
        };
        let mut device = self.device(disk);
        let ended = format(&mut device);
        self.disk = Some(device.into_inner().into_inner());
        if let Err(fault) = ended {
            let number = fault.number;
            writeln!(said, "refused {number}")?;
        }
        Ok(())
    }

    /// The disk with the stops that are set for it.
    fn device(&mut self, disk: MemDisk) -> Device {
        let (call, pass) = self.failing;
        let device = Fuse::new(FailOnce::new(disk, call, pass), self.passing);
        self.passing = u64::MAX;
        self.failing = (0, false);
        device
    }

    /// Makes a step of a copied snapshot, over the disk, which is opened for it if it isn't open.
    pub fn pump(&mut self, max: u64, said: &mut String) -> Result<(), Fault> {
        if self.store.is_none() {
            self.open(said)?;
        }
        let Some(store) = &mut self.store else {
            return Ok(());
        };
        match store.pump(max) {
            Ok(pump) => {
                let written = pump.written;
                let copy = word_of(pump.copy);
                writeln!(said, "written {written}, {copy}")?;
            }
            Err(refusal) => {
                let number = refusal.number;
                writeln!(said, "refused {number}")?;
            }
        }
        Ok(())
    }

    /// Brings the store to format 3, or for any other number to format 2, over the disk, which is opened for it if it
    /// isn't open, and says the format that it was in.
    pub fn upgrade(&mut self, number: u64, said: &mut String) -> Result<(), Fault> {
        if self.store.is_none() {
            self.open(said)?;
        }
        let Some(store) = &mut self.store else {
            return Ok(());
        };
        let before = store.format().number();
        let format = if number == 3 {
            Format::Three
        } else {
            Format::Two
        };
        match store.set_format(format, UPGRADED) {
            Ok(()) => writeln!(said, "from {before}")?,
            Err(refusal) => {
                let number = refusal.number;
                writeln!(said, "refused {number}")?;
            }
        }
        Ok(())
    }

    /// Copies the store to a disk of `sectors` sectors of zeros, in that format, with the stops that are set, and goes on
    /// with that disk, which isn't open.
    pub fn copy(&mut self, sectors: u64, format: Format, said: &mut String) -> Result<(), Fault> {
        let disk = MemDisk::new(self.alloc, sectors)?;
        let mut device = self.device(disk);
        let ended = self.copy_to(&mut device, format);
        self.store = None;
        self.disk = Some(device.into_inner().into_inner());
        match ended? {
            Ok(used) => writeln!(said, "copied {used}")?,
            Err(number) => writeln!(said, "refused {number}")?,
        }
        Ok(())
    }

    /// Copies the store to a device: how many bytes it uses there, or the number of the refusal.
    fn copy_to(&self, device: &mut Device, format: Format) -> Result<Result<u64, u16>, Fault> {
        match &self.store {
            Some(store) => Ok(
                store
                    .copy_to(device, format, COPIED)
                    .map_err(|refusal| refusal.number),
            ),
            None => Err(Fault::Script),
        }
    }

    /// Serves lines, over the disk, which is opened for them if it isn't open.
    pub fn serve(&mut self, input: &str, said: &mut String) -> Result<(), Fault> {
        if self.store.is_none() {
            self.open(said)?;
        }
        let mut output = Vec::with_capacity(self.alloc, LONGEST_REPLY)?;
        let Some(store) = self.store.take() else {
            return Ok(());
        };
        let mut recorded = RecordedStore::new(self.alloc, store, HISTORY);
        let mut reader = input.as_bytes();
        let options = Options {
            batch: self.together,
            pump: self.behind,
            turns: u64::MAX,
        };
        let ended = serve(
            self.alloc,
            &mut recorded,
            &mut reader,
            &mut output,
            &options,
        );
        self.store = Some(recorded.into_store());
        said.push_str(std::str::from_utf8(output.as_slice()).unwrap_or("no text"))?;
        if let Err(fault) = ended {
            writeln!(said, "{fault}")?;
        }
        Ok(())
    }

    /// Says the status, and each document after its revision and schema, if the disk is open.
    pub fn state(&mut self, said: &mut String) -> Result<(), Fault> {
        let Some(store) = &self.store else {
            said.push_str("closed\n")?;
            return Ok(());
        };
        let mut lines = String::from_str(self.alloc, "{\"cmd\":\"status\"}\n")?;
        for name in store.list()? {
            writeln!(lines, "{{\"cmd\":\"rev\",\"name\":\"{name}\"}}")?;
            writeln!(lines, "{{\"cmd\":\"get-schema\",\"name\":\"{name}\"}}")?;
            writeln!(
                lines,
                "{{\"cmd\":\"get\",\"name\":\"{name}\",\"path\":\"\"}}"
            )?;
        }
        self.serve(lines.as_str(), said)
    }
}

/// What became of a copy.
fn word_of(copy: CopyState) -> &'static str {
    match copy {
        CopyState::Running => "running",
        CopyState::Switched => "switched",
        CopyState::Dropped => "dropped",
    }
}

/// A disk of `sectors` sectors, formatted in format 2 or 3, with nothing unsettled and no call on record.
fn formatted(alloc: Global, sectors: u64, rides: bool) -> Result<MemDisk, Fault> {
    let mut disk = MemDisk::new(alloc, sectors)?;
    format_in(&mut disk, rides, FORMATTED)?;
    Ok(disk.crash(&[]))
}
