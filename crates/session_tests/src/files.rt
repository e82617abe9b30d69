//! A file as a device: the bytes in it, and which calls the system refuses.
use file_device::{Blocks, Cause, FileDevice, FileFault, Held, Progress, Rights, SystemFault};
use sector_device::SectorDevice;
use std::alloc::Global;
use std::env;
use std::fs::{self, File, OpenOptions, Permissions};
use std::os::unix::fs::{MetadataExt, PermissionsExt};
use std::process::{self, Abort};
use std::rt::Files;

/// The rights of a file of the test's own.
const OWNER_ALONE: Rights = Rights::Mode(0o600);

/// Why a file that is missing is not opened.
const MISSING: FileFault = FileFault::File(SystemFault {
    cause: Cause::Missing,
    errno: 2,
});

/// The path of a file of the test's own.
fn place(rt: &HostRuntime, abort: &impl Abort, name: &str) -> String {
    let number = process::id(rt.process());
    let name = format!(in rt.alloc(); "file_device-{name}-{number}").expect(abort, "room");
    let mut path = env::temp_dir(rt).expect(abort, "a folder");
    path.push(name.as_str()).expect(abort, "room");
    path.into_string()
}

fn create<R: Files<File = File> + Abort>(
    rt: &R,
    alloc: Global,
    path: &str,
    sectors: u64,
) -> FileDevice {
    let blocks = Blocks::Allocated;
    let made = FileDevice::create(rt, alloc, path, sectors, blocks, OWNER_ALONE, &mut ());
    made.expect(rt, "made")
}

/// No file of `sectors` sectors is made.
fn is_not_made<R: Files<File = File> + Abort>(rt: &R, alloc: Global, path: &str, sectors: u64) {
    let blocks = Blocks::Allocated;
    let made = FileDevice::create(rt, alloc, path, sectors, blocks, OWNER_ALONE, &mut ());
    assert!(rt; made.is_err());
}

/// Opens a file of which nothing is known.
fn open<R: Files<File = File> + Abort>(rt: &R, alloc: Global, path: &str) -> FileDevice {
    FileDevice::open(rt, alloc, path, Held::any(alloc)).expect(rt, "opened")
}

/// Why a file is not opened.
fn has_fault<R: Files<File = File> + Abort>(
    rt: &R,
    alloc: Global,
    path: &str,
    fault: Option<FileFault>,
) {
    assert_eq!(rt;
        FileDevice::open(rt, alloc, path, Held::any(alloc)).err(),
        fault
    );
}

/// The file, opened for writing alone.
fn to_write<R: Files<File = File> + Abort>(rt: &R, path: &str) -> File {
    let mut how = OpenOptions::new();
    how.write(true).create(true);
    how.open(rt, path).expect(rt, "opened")
}

/// Gives a file that length; makes it if nothing is there.
fn set_length<R: Files<File = File> + Abort>(rt: &R, path: &str, length: u64) {
    to_write(rt, path).set_len(length).expect(rt, "so long");
}

/// Nothing is there.
fn is_missing<R: Files + Abort>(rt: &R, path: &str) {
    assert!(rt; !fs::exists(rt, path).expect(rt, "known"));
}

fn remove<R: Files + Abort>(rt: &R, path: &str) {
    fs::remove_file(rt, path).expect(rt, "removed");
}

/// The sector is this byte throughout.
fn is_filled(rt: &impl Abort, device: &mut FileDevice, at: u64, byte: u8) {
    assert!(rt; at < device.sectors());
    let mut sector = [9; 512];
    device.read(at, &mut sector).expect(rt, "read");
    assert!(rt; sector == [byte; 512]);
}

/// Fills the sector with this byte.
fn fill(rt: &impl Abort, device: &mut FileDevice, at: u64, byte: u8) {
    assert!(rt; at < device.sectors());
    device.write(at, &[byte; 512]).expect(rt, "written");
}

/// The numbers of sectors and of failed calls.
fn tells(rt: &impl Abort, device: &FileDevice, sectors: u64, failures: u64) {
    assert_eq!(rt; (device.sectors(), device.failures()), (sectors, failures));
}

/// Makes a file of three sectors, writes the last and the first of them, and settles that.
fn write_two<R: Files<File = File> + Abort>(rt: &R, alloc: Global, path: &str) {
    let mut device = create(rt, alloc, path, 3);
    tells(rt, &device, 3, 0);
    fill(rt, &mut device, 2, 7);
    fill(rt, &mut device, 0, 5);
    device.sync().expect(rt, "settled");
}

/// Looks at the three sectors by another opening.
fn read_three<R: Files<File = File> + Abort>(rt: &R, alloc: Global, path: &str) {
    let mut again = open(rt, alloc, path);
    is_filled(rt, &mut again, 0, 5);
    is_filled(rt, &mut again, 1, 0);
    is_filled(rt, &mut again, 2, 7);
    tells(rt, &again, 3, 0);
}

/// Looks at the bytes of the file.
fn read_bytes(rt: &HostRuntime, abort: &impl Abort, path: &str) {
    let bytes = fs::read(rt, path).expect(abort, "read");
    assert!(abort; bytes.len() == 1536);
    assert!(abort; bytes[511..513] == [5, 0]);
    assert!(abort; bytes[1023..1025] == [0, 7]);
}

#[test]
fn written_sectors_are_read_back_when_the_file_is_opened_again(rt: HostRuntime) {
    let path = place(&rt, &rt, "sectors");
    write_two(&rt, rt.alloc(), &path);
    is_not_made(&rt, rt.alloc(), &path, 3);
    read_three(&rt, rt.alloc(), &path);
    read_bytes(&rt, &rt, &path);
    remove(&rt, &path);
}

/// The file has three sectors, which begin with these bytes.
fn begins_with(rt: &HostRuntime, abort: &impl Abort, path: &str, wanted: [u8; 3]) {
    let bytes = fs::read(rt, path).expect(abort, "read");
    assert!(abort; bytes.len() == 1536);
    assert!(abort; [bytes[0], bytes[512], bytes[1024]] == wanted);
}

#[test]
fn a_write_waits_for_its_neighbours_until_another_call(rt: HostRuntime) {
    let path = place(&rt, &rt, "gathered");
    let mut device = create(&rt, rt.alloc(), &path, 3);
    fill(&rt, &mut device, 1, 5);
    fill(&rt, &mut device, 2, 7);
    begins_with(&rt, &rt, &path, [0, 0, 0]);
    fill(&rt, &mut device, 0, 3);
    begins_with(&rt, &rt, &path, [0, 5, 7]);
    is_filled(&rt, &mut device, 0, 3);
    begins_with(&rt, &rt, &path, [3, 5, 7]);
    fill(&rt, &mut device, 0, 4);
    is_filled(&rt, &mut device, 1, 5);
    begins_with(&rt, &rt, &path, [4, 5, 7]);
    fill(&rt, &mut device, 2, 8);
    device.sync().expect(&rt, "settled");
    begins_with(&rt, &rt, &path, [4, 5, 8]);
    fill(&rt, &mut device, 2, 9);
    drop(device);
    begins_with(&rt, &rt, &path, [4, 5, 9]);
    remove(&rt, &path);
}

/// Writes 100 sectors, each of its own byte.
fn write_many<R: Files<File = File> + Abort>(rt: &R, alloc: Global, path: &str) {
    let mut device = create(rt, alloc, path, 100);
    for at in 0..100 {
        fill(rt, &mut device, at, at as u8);
    }
    device.sync().expect(rt, "settled");
}

#[test]
fn runs_longer_than_the_device_gathers_are_written_and_read(rt: HostRuntime) {
    let path = place(&rt, &rt, "runs");
    write_many(&rt, rt.alloc(), &path);
    let mut again = open(&rt, rt.alloc(), &path);
    for at in 0..100 {
        is_filled(&rt, &mut again, at, at as u8);
    }
    is_filled(&rt, &mut again, 7, 7);
    tells(&rt, &again, 100, 0);
    remove(&rt, &path);
}

/// While a device has the file, no other has it, by any of its names.
fn refuse_others<R: Files<File = File> + Abort>(rt: &R, alloc: Global, path: &str, link: &str) {
    let made = create(rt, alloc, path, 3);
    has_fault(rt, alloc, path, Some(FileFault::InUse));
    drop(made);
    let opened = open(rt, alloc, path);
    has_fault(rt, alloc, path, Some(FileFault::InUse));
    fs::hard_link(rt, path, link).expect(rt, "linked");
    has_fault(rt, alloc, link, Some(FileFault::InUse));
    drop(opened);
}

#[test]
fn a_file_is_opened_by_one_alone(rt: HostRuntime) {
    let path = place(&rt, &rt, "lock");
    let link = place(&rt, &rt, "link");
    refuse_others(&rt, rt.alloc(), &path, &link);
    has_fault(&rt, rt.alloc(), &path, None);
    remove(&rt, &path);
    remove(&rt, &link);
    has_fault(&rt, rt.alloc(), &path, Some(MISSING));
    is_missing(&rt, &path);
    has_fault(&rt, rt.alloc(), "no such file", Some(MISSING));
}

/// The reports on a new file, the first three times.
#[derive(Clone, Copy, Debug, PartialEq, Eq)]
struct Told {
    times: usize,
    written: [u64; 3],
    length: u64,
}

impl Progress for Told {
    fn reached(&mut self, written: u64, length: u64) {
        if self.times < 3 {
            self.written[self.times] = written;
        }
        self.times = self.times.saturating_add(1);
        self.length = length;
    }
}

/// Makes a file of 300 sectors, of which these reports are given.
fn tells_of_a_new_file<R: Files<File = File> + Abort>(
    rt: &R,
    alloc: Global,
    path: &str,
    blocks: Blocks,
    wanted: Told,
) {
    let mut told = Told {
        times: 0,
        written: [0; 3],
        length: 0,
    };
    let made = FileDevice::create(rt, alloc, path, 300, blocks, OWNER_ALONE, &mut told);
    assert!(rt; made.is_ok());
    assert_eq!(rt; told, wanted);
    remove(rt, path);
}

#[test]
fn a_new_file_is_written_piece_after_piece_unless_it_is_sparse(rt: HostRuntime) {
    let path = place(&rt, &rt, "pieces");
    let pieces = Told {
        times: 3,
        written: [65_536, 131_072, 153_600],
        length: 153_600,
    };
    tells_of_a_new_file(&rt, rt.alloc(), &path, Blocks::Allocated, pieces);
    let nothing = Told {
        times: 0,
        written: [0; 3],
        length: 0,
    };
    tells_of_a_new_file(&rt, rt.alloc(), &path, Blocks::Sparse, nothing);
}

fn length_of<R: Files + Abort>(rt: &R, path: &str) -> u64 {
    fs::metadata(rt, path).expect(rt, "known").len()
}

/// A file of that length has `sectors` sectors, and keeps its length.
fn has_sectors<R: Files<File = File> + Abort>(
    rt: &R,
    alloc: Global,
    path: &str,
    length: u64,
    sectors: u64,
) {
    set_length(rt, path, length);
    let device = open(rt, alloc, path);
    assert_eq!(rt; (device.sectors(), length_of(rt, path)), (sectors, length));
}

#[test]
fn a_file_has_the_sectors_that_lie_whole_in_it(rt: HostRuntime) {
    let path = place(&rt, &rt, "lengths");
    has_sectors(&rt, rt.alloc(), &path, 0, 0);
    has_sectors(&rt, rt.alloc(), &path, 511, 0);
    has_sectors(&rt, rt.alloc(), &path, 512, 1);
    has_sectors(&rt, rt.alloc(), &path, 1000, 1);
    has_sectors(&rt, rt.alloc(), &path, 1024, 2);
    remove(&rt, &path);
}

#[test]
fn no_file_is_longer_than_the_system_has_them(rt: HostRuntime) {
    let path = place(&rt, &rt, "long");
    is_not_made(&rt, rt.alloc(), &path, 1 << 54);
    is_missing(&rt, &path);
    is_not_made(&rt, rt.alloc(), &path, 1 << 55);
    is_missing(&rt, &path);
}

/// The permission bits of the file at that path.
fn mode_of<R: Files + Abort>(rt: &R, path: &str) -> u32 {
    fs::metadata(rt, path).expect(rt, "known").mode() & 0o777
}

/// A new file with these rights has those permission bits.
fn has_mode<R: Files<File = File> + Abort>(
    rt: &R,
    alloc: Global,
    path: &str,
    rights: Rights,
    mode: u32,
) {
    let made = FileDevice::create(rt, alloc, path, 3, Blocks::Sparse, rights, &mut ());
    assert!(rt; made.is_ok());
    assert_eq!(rt; mode_of(rt, path), mode);
    remove(rt, path);
}

#[test]
fn a_new_file_has_its_rights(rt: HostRuntime) {
    let path = place(&rt, &rt, "rights");
    has_mode(&rt, rt.alloc(), &path, Rights::Mode(0o600), 0o600);
    has_mode(&rt, rt.alloc(), &path, Rights::Mode(0o400), 0o400);
}

#[test]
fn a_new_file_has_the_rights_of_another(rt: HostRuntime) {
    let path = place(&rt, &rt, "source");
    let copy = place(&rt, &rt, "copied");
    let source = create(&rt, rt.alloc(), &path, 3);
    has_mode_of(&rt, rt.alloc(), &source, &path, &copy, 0o604);
    has_mode_of(&rt, rt.alloc(), &source, &path, &copy, 0o666);
    remove(&rt, &path);
}

/// A new file with the rights of another has the permission bits that this one is given.
fn has_mode_of<R: Files<File = File> + Abort>(
    rt: &R,
    alloc: Global,
    source: &FileDevice,
    path: &str,
    copy: &str,
    mode: u32,
) {
    let given = fs::set_permissions(rt, path, Permissions::from_mode(mode));
    assert!(rt; given.is_ok());
    let rights = source.rights().expect(rt, "known");
    has_mode(rt, alloc, copy, rights, mode);
}

/// Reads a sector, which fails.
fn fails_to_read(rt: &impl Abort, device: &mut FileDevice, at: u64) {
    assert!(rt; at < device.sectors());
    assert!(rt; device.read(at, &mut [9; 512]).is_err());
}

/// What was written can't be settled.
fn fails_to_settle(rt: &impl Abort, device: &mut FileDevice) {
    assert!(rt; device.sync().is_err());
}

/// Writes a sector, which fails.
fn fails_to_write(rt: &impl Abort, device: &mut FileDevice, at: u64) {
    assert!(rt; at < device.sectors());
    assert!(rt; device.write(at, &[7; 512]).is_err());
}

/// Of a file of two sectors that becomes too short for the second.
fn fail_short<R: Files<File = File> + Abort>(rt: &R, alloc: Global, path: &str) {
    let mut device = create(rt, alloc, path, 2);
    set_length(rt, path, 1000);
    fails_to_read(rt, &mut device, 1);
    tells(rt, &device, 2, 1);
    is_filled(rt, &mut device, 0, 0);
    fill(rt, &mut device, 1, 7);
    is_filled(rt, &mut device, 1, 7);
    tells(rt, &device, 2, 1);
}

/// Of a file that is open for writing alone, also past the end of all files: what can't be handed over there stays in
/// the way of each later call, but for a write to the next sector.
fn fail_far<R: Files<File = File> + Abort>(rt: &R, alloc: Global, path: &str) {
    let far = FileDevice::new(alloc, to_write(rt, path), u64::MAX, Held::any(alloc));
    let mut far = far.expect(rt, "made");
    fails_to_read(rt, &mut far, 0);
    fill(rt, &mut far, 1 << 54, 7);
    fails_to_settle(rt, &mut far);
    fails_to_read(rt, &mut far, 0);
    fails_to_write(rt, &mut far, 0);
    fill(rt, &mut far, (1 << 54) + 1, 7);
    tells(rt, &far, u64::MAX / 512, 4);
}

#[test]
fn failed_calls_are_counted_and_later_ones_pass(rt: HostRuntime) {
    let path = place(&rt, &rt, "failures");
    fail_short(&rt, rt.alloc(), &path);
    fail_far(&rt, rt.alloc(), &path);
    remove(&rt, &path);
}

/// Of a file that the system doesn't sync.
fn fails_to_sync(rt: &impl Abort, device: &mut FileDevice) {
    tells(rt, device, 0, 0);
    assert!(rt; device.sync().is_err());
    tells(rt, device, 0, 1);
}

#[test]
fn a_sync_that_the_system_refuses_fails(rt: HostRuntime) {
    fails_to_sync(&rt, &mut open(&rt, rt.alloc(), "/dev/null"));
}
