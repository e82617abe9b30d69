//! `format FILE --sectors N [--format N] [--mode MODE] [--id HEX] [--sparse]`, and `new FILE [--size SIZE] [--id HEX]`

ghost use Rattle.std.specs.Prelude.{◌≡◌, ◌≤◌, IfOk, nat_eq};
ghost use Rattle.command_line.specs.declared.limits.TheConstants.{MAX_SECTORS, MIN_SECTORS};
ghost use Rattle.store_journal.specs.Layout.{capacity_of};
ghost use Rattle.doc_tree.specs.Text.{data_of};
ghost use Rattle.file_programs.specs.Calls.{format_reply};
ghost use Rattle.file_programs.specs.Files.{IsFormattedFile};
ghost use Rattle.file_programs.specs.Shown.{Shows};
ghost use Rattle.protocol.specs.Reply.{line_of};
ghost use Rattle.serde_json.specs.Events.{SendsValue};

use crate::fault::Fault;
use crate::identity::identity_for;
use crate::lines::show_line;
use file_device::{Blocks, FileDevice, Progress, Rights};
use protocol::shown_line;
use serde::{Described, Serialize, Serializer};
use std::alloc::{AllocError, Global};
use std::fs::{self, File};
use std::io::Write;
use std::rt::Files;
use store_journal::geometry::capacity;

/// What `format` or `new` is to make.
#[derive(Clone, Copy)]
pub struct NewFile<'a> {
    /// The path, at which nothing may exist.
    pub file: &'a str,
    /// The number of its sectors.
    pub sectors: u64,
    /// The format of the store in it: 3 or, for any other number, 2.
    pub format: u64,
    /// Its permission bits, of which the umask may take some away.
    pub mode: u32,
    /// Whether its blocks are left to be allocated as they are written.
    pub sparse: bool,
    /// The identity of the store in format 3; `None`: it is drawn.
    pub identity: Option<u128>,
}

/// Makes a file with an empty store in it, and writes what it can hold. A file in which no store can be made is removed
/// again, if the system does so. If no identity can be drawn, none is made.
pub fn format_file<R: Files<File = File>, O: Write, P: Progress>(
    rt: &R,
    alloc: Global,
    new: NewFile,
    writer: &mut O,
    progress: &mut P,
) -> Result<FileDevice, Fault>
    requires least { MIN_SECTORS ≤ new.sectors }
    requires most { new.sectors ≤ MAX_SECTORS }
    ensures formatted { IfOk result (IsFormattedFile new.entry.sectors new.entry.format new.entry.identity) }
    ensures shown { Shows result (line_of (format_reply (capacity_of (nat_eq new.entry.format 3) new.entry.sectors) new.entry.sectors)) (O.contents writer.old) (O.contents writer.new) }
{
    let identity = identity_for(rt, new.format == 3, new.identity)?;
    let mut device = FileDevice::create(
        rt,
        alloc,
        new.file,
        new.sectors,
        blocks_of(new.sparse),
        Rights::Mode(new.mode),
        progress,
    )?;
    if let Err(fault) = store_journal::format_in(&mut device, new.format == 3, identity) {
        let _ = fs::remove_file(rt, new.file);
        return Err(Fault::from(fault));
    }
    show_line(writer, &format_line(alloc, new.format == 3, new.sectors)?)?;
    Ok(device)
}

// Whether the blocks of a file are allocated when it is made.
fn blocks_of(sparse: bool) -> Blocks {
    if sparse {
        Blocks::Sparse
    } else {
        Blocks::Allocated
    }
}

// The line that says what was made, in format 3 if small commits ride.
fn format_line(alloc: Global, rides: bool, sectors: u64) -> Result<Vec<u8>, AllocError>
    requires { sectors ≤ MAX_SECTORS }
    ensures { IfOk result (λ line. line.items ≡ line_of (format_reply (capacity_of rides sectors) sectors)) }
{
    let shown = FormatReply {
        capacity: capacity(rides, sectors),
        sectors,
    };
    shown_line(alloc, &shown)
}

// The reply of a file that was made: its number of sectors, and how many bytes a half of it holds.
#[derive(Clone, Copy)]
struct FormatReply {
    capacity: u64,
    sectors: u64,
}

impl Described for FormatReply {
    ghost writes = { λ reply. SendsValue (data_of (format_reply reply.capacity reply.sectors)) };
}

impl Serialize for FormatReply {
    fn serialize<S: Serializer>(&self, out: &mut S) -> Result<(), S::Error> {
        out.begin_map(Some(3))?;
        out.key("capacity")?;
        out.u64(self.capacity)?;
        out.key("ok")?;
        out.bool(true)?;
        out.key("sectors")?;
        out.u64(self.sectors)?;
        out.end_map()
    }
}
