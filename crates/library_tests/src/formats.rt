//! Frames of both formats, whose bytes were written out by hand, and a journal that is brought from format 1 to format 2.
use record_text::{Command, RecordFault, frame, frame_1, read_frame, read_frame_1};
use sector_device::{MemDisk, SectorDevice};
use std::alloc::Global;
use std::process::Abort;
use store_journal::{Journal, format};

const FORMAT_1: &[u8] = b"\x00\x00\x00\x1b{\"cmd\":\"delete\",\"name\":\"d\"}";

const FORMAT_2: &[u8] =
    b"\x00\x00\x00\x1b\x00\x00\x00\x00\x00\x00\x01\x02{\"cmd\":\"delete\",\"name\":\"d\"}";

/// The deletion of the document `d`.
fn deletion(rt: &impl Abort, alloc: Global) -> Command {
    Command::Delete {
        name: String::from_str(alloc, "d").expect(rt, "room"),
    }
}

/// The frame of the command in format 2, with the number 258.
fn in_format_2(alloc: Global, command: Command) -> Result<Vec<u8>, RecordFault> {
    frame(alloc, &command, 258)
}

/// The frame of the command in format 1.
fn in_format_1(alloc: Global, command: Command) -> Result<Vec<u8>, RecordFault> {
    frame_1(alloc, &command)
}

fn are(rt: &impl Abort, bytes: &[u8], wanted: &[u8]) {
    assert!(rt; bytes == wanted);
}

/// The command deletes the document `d`.
fn deletes(rt: &impl Abort, command: &Command) {
    match command {
        Command::Delete { name } => assert!(rt; name.as_str() == "d"),
        _ => panic!(rt; "another command"),
    }
}

#[test]
fn a_frame_of_format_2_has_a_seq(rt: HostRuntime) {
    let bytes = in_format_2(rt.alloc(), deletion(&rt, rt.alloc())).expect(&rt, "a frame");
    are(&rt, &bytes, FORMAT_2);
}

#[test]
fn a_frame_of_format_1_has_none(rt: HostRuntime) {
    let bytes = in_format_1(rt.alloc(), deletion(&rt, rt.alloc())).expect(&rt, "a frame");
    are(&rt, &bytes, FORMAT_1);
}

#[test]
fn a_frame_of_format_2_is_read_with_its_seq(rt: HostRuntime) {
    let (command, seq, len) = read_frame(rt.alloc(), FORMAT_2).expect(&rt, "a command");
    deletes(&rt, &command);
    assert!(rt; seq == 258 && len == 39);
}

#[test]
fn a_frame_of_format_1_is_read(rt: HostRuntime) {
    let (command, len) = read_frame_1(rt.alloc(), FORMAT_1).expect(&rt, "a command");
    deletes(&rt, &command);
    assert!(rt; len == 31);
}

#[test]
fn a_head_of_format_2_has_12_bytes(rt: HostRuntime) {
    let fault = read_frame(rt.alloc(), b"\xff\xff\xff\xff\x00\x00\x00\x00\x00\x00\x00").err();
    assert_eq!(rt; fault, Some(RecordFault::Short));
    let fault = read_frame_1(rt.alloc(), b"\xff\xff\xff\xff").err();
    assert_eq!(rt; fault, Some(RecordFault::Long));
}

/// A disk of 16 sectors with an empty journal of format 1.
fn of_format_1(rt: &impl Abort, alloc: Global) -> MemDisk {
    let mut disk = MemDisk::new(alloc, 16).expect(rt, "a disk");
    format(&mut disk).expect(rt, "formatted");
    assert!(rt; disk.sectors() == 16);
    let mut sector = [0; 512];
    disk.read(0, &mut sector).expect(rt, "read");
    sector[11] = 1;
    disk.write(0, &sector).expect(rt, "written");
    disk
}

/// The journal of that disk, and its bytes.
fn opened(rt: &impl Abort, alloc: Global, disk: MemDisk) -> (Journal<MemDisk>, Vec<u8>) {
    match Journal::open(alloc, disk) {
        Ok((journal, bytes, _)) => (journal, bytes),
        Err(_) => panic!(rt; "not opened"),
    }
}

fn has_version(rt: &impl Abort, journal: &Journal<MemDisk>, version: u32) {
    assert!(rt; journal.version() == version);
}

/// Brings a journal to format 2, with that frame.
fn migrate(rt: &impl Abort, journal: &mut Journal<MemDisk>) {
    assert!(rt; !journal.rides());
    assert!(rt; FORMAT_2.len() as u64 <= journal.capacity());
    journal.migrate(FORMAT_2).expect(rt, "migrated");
    assert_eq!(rt; (journal.active_half(), journal.opens()), (1, 1));
}

/// A disk whose journal was brought from format 1 to format 2.
fn migrated(rt: &impl Abort, alloc: Global) -> MemDisk {
    let (mut journal, bytes) = opened(rt, alloc, of_format_1(rt, alloc));
    has_version(rt, &journal, 1);
    are(rt, &bytes, b"");
    migrate(rt, &mut journal);
    has_version(rt, &journal, 2);
    journal.into_device()
}

#[test]
fn a_journal_is_brought_to_format_2(rt: HostRuntime) {
    let (again, bytes) = opened(&rt, rt.alloc(), migrated(&rt, rt.alloc()));
    has_version(&rt, &again, 2);
    assert!(rt; again.used() == 39);
    are(&rt, &bytes, FORMAT_2);
}
