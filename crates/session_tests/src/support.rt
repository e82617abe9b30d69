//! Stores in memory, and sessions over them.
use doc_store::Store;
use recorded_store::RecordedStore;
use sector_device::{MemDisk, SectorDevice};
use serve_lines::{Options, ServeFault, Served, serve};
use std::alloc::Global;
use std::io::{Read, Write};
use std::process::Abort;
use store_journal::format;

/// Calls of the reader that no session here reaches.
pub(crate) const TURNS: u64 = 1_000;

/// The reply line to `list` over a store without documents.
pub(crate) const LISTED: &str = "{\"names\":[],\"ok\":true}\n";

/// A disk in memory of `sectors` sectors, formatted.
pub(crate) fn formatted(rt: &impl Abort, alloc: Global, sectors: u64) -> MemDisk {
    let mut disk = MemDisk::new(alloc, sectors).expect(rt, "a disk");
    format(&mut disk).expect(rt, "formatted");
    disk
}

/// The store on a device.
pub(crate) fn opened<D: SectorDevice + Drop>(
    rt: &impl Abort,
    alloc: Global,
    device: D,
) -> Store<D> {
    match Store::open(alloc, device) {
        Ok(store) => store,
        Err(_) => panic!(rt; "not opened"),
    }
}

/// A new store of 16 sectors.
pub(crate) fn new_store(rt: &impl Abort, alloc: Global) -> Store<MemDisk> {
    opened(rt, alloc, formatted(rt, alloc, 16))
}

/// A new store of 16 sectors, with its newest changes.
pub(crate) fn new_recorded_store(rt: &impl Abort, alloc: Global) -> RecordedStore<MemDisk> {
    RecordedStore::new(alloc, new_store(rt, alloc), 4_096)
}

/// How a session over a store ended, in which each change is a batch of its own.
pub(crate) fn served<R: Read, W: Write>(
    alloc: Global,
    store: &mut RecordedStore<MemDisk>,
    reader: &mut R,
    writer: &mut W,
    turns: u64,
) -> Result<Served, ServeFault> {
    let options = Options {
        batch: 1,
        pump: 0,
        turns,
    };
    serve(alloc, store, reader, writer, &options)
}

/// How a session over a new store ended, and what it wrote.
pub(crate) fn session<R: Read>(
    rt: &impl Abort,
    alloc: Global,
    reader: &mut R,
    turns: u64,
) -> (Result<Served, ServeFault>, Vec<u8>) {
    let mut writer = Vec::new(alloc);
    let mut store = new_recorded_store(rt, alloc);
    let end = served(alloc, &mut store, reader, &mut writer, turns);
    (end, writer)
}

/// Asserts that a session over a new store ends in this way, and writes these replies.
pub(crate) fn assert_session<R: Read>(
    rt: &impl Abort,
    alloc: Global,
    reader: &mut R,
    turns: u64,
    wanted: Result<Served, ServeFault>,
    replies: &str,
) {
    let (end, said) = session(rt, alloc, reader, turns);
    assert_ended(rt, end, &said, wanted, replies);
}

/// That a session ended so, and that what it wrote are these replies.
pub(crate) fn assert_ended(
    rt: &impl Abort,
    end: Result<Served, ServeFault>,
    said: &Vec<u8>,
    wanted: Result<Served, ServeFault>,
    replies: &str,
) {
    assert_eq!(rt; end, wanted);
    assert_eq!(rt; text_of(said), replies);
}

pub(crate) fn text_of<'a>(bytes: &'a Vec<u8>) -> &'a str {
    std::str::from_utf8(bytes.as_slice()).unwrap_or("no text")
}

/// What a session that reads to its end says to an input, and to how many lines.
pub(crate) fn assert_says(rt: &impl Abort, alloc: Global, input: &[u8], wanted: &str, lines: u64) {
    let mut reader = input;
    let end = Ok(Served {
        lines,
        broken: false,
    });
    assert_session(rt, alloc, &mut reader, TURNS, end, wanted);
}
