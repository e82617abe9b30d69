//! `upgrade FILE [--format N] [--id HEX] [--strict]`

ghost use Rattle.std.specs.Prelude.{◌≡◌, false, true, IfOk, IfErr, OnErr, OnOk};
ghost use Rattle.std.specs.Io.KnownBytes.{Appends};
ghost use Rattle.slot_commits.specs.declared.found.Notice.TheVariants.{Whole};
ghost use Rattle.sector_device.specs.Disk.{LeavesOnly};
ghost use Rattle.store_journal.specs.Models.{model};
ghost use Rattle.store_commits.specs.Account.{IsStanding};
ghost use Rattle.doc_store.specs.Formats.{format_of, number_of};
ghost use Rattle.doc_tree.specs.Text.{data_of};
ghost use Rattle.file_device.specs.File.{file_disk};
ghost use Rattle.file_programs.specs.Calls.{IsUpgrading};
ghost use Rattle.file_programs.specs.Files.{IsNoticedIn, IsUnopenedBy};
ghost use Rattle.file_programs.specs.Notices.{note_of};
ghost use Rattle.file_programs.specs.Shown.{Shows};
ghost use Rattle.file_programs.specs.Upgrades.{IsUpgraded, MayTurn, format_numbered, upgrade_reply};
ghost use Rattle.protocol.specs.Reply.{line_of};
ghost use Rattle.serde_json.specs.Events.{SendsValue};

use crate::fault::Fault;
use crate::identity::identity_for;
use crate::lines::show_line;
use crate::notices::note;
use crate::opening::{Closed, Unopened, open_strictly};
use doc_store::{Format, Store, Strictness};
use file_device::{FileDevice, Held};
use protocol::shown_line;
use serde::{Described, Serialize, Serializer};
use std::alloc::{AllocError, Global};
use std::fs::File;
use std::io::Write;
use std::rt::Files;
use std::snapshot::Snapshot;

/// Opens the store in a file that holds what `held` says, so strictly, which counts as an opening, brings it to format 3 or,
/// for any other number, 2, and writes the format that it is in and the one it was in. What its slots say is a line on
/// `errors` before that, unless all is whole.
pub fn upgrade_file<R: Files<File = File>, O: Write, E: Write>(
    rt: &R,
    alloc: Global,
    file: &str,
    format: u64,
    identity: Option<u128>,
    strictness: Strictness,
    held: Snapshot<Held>,
    writer: &mut O,
    errors: &mut E,
) -> Result<Closed, Unopened>
    ensures upgraded { IfOk result (λ closed. IsUpgrading held format identity closed (O.contents writer.old) (O.contents writer.new)) }
    ensures noticed { IfOk result (λ closed. IsNoticedIn strictness held closed.store closed.notice) }
    ensures noted { IfOk result (λ closed. closed.noted ≡ true → Appends (E.contents errors.old) (E.contents errors.new) (note_of closed.notice)) }
    ensures whole { IfOk result (λ closed. closed.notice ≡ Whole → errors.new ≡ errors.old) }
    ensures refused { IfErr result (IsUnopenedBy strictness held) }
    ensures unsaid { OnErr result (errors.new ≡ errors.old) }
    ensures unwritten { OnErr result (writer.new ≡ writer.old) }
{
    let (mut store, notice) = open_strictly(rt, alloc, file, strictness, held)?;
    let noted = note(alloc, notice, errors);
    let ended = upgrade_store(rt, alloc, &mut store, numbered(format), identity, writer);
    Ok(Closed {
        store,
        notice,
        noted,
        ended,
    })
}

// The format of a number of the words.
pub(super) fn numbered(number: u64) -> Format
    ensures { result ≡ format_numbered number }
{
    if number == 3 {
        Format::Three
    } else {
        Format::Two
    }
}

// Brings a store to a format, and writes the format that it is in and the one it was in.
fn upgrade_store<R: Files<File = File>, O: Write>(
    rt: &R,
    alloc: Global,
    store: &mut Store<FileDevice>,
    format: Format,
    asked: Option<u128>,
    writer: &mut O,
) -> Result<(), Fault>
    requires works { store.old.account.broken ≡ false }
    ensures done { OnOk result (IsUpgraded format asked store.old store.new) }
    ensures shown { Shows result (line_of (upgrade_reply (number_of format) (number_of (format_of store.old.account)))) (O.contents writer.old) (O.contents writer.new) }
    ensures any_moment { (file_disk store.new.device).honest
        → LeavesOnly (model store.old.account.rides (file_disk store.old.device)) (model store.old.account.rides (file_disk store.new.device)) (MayTurn store.old.account format asked) }
    ensures standing { IsStanding (file_disk store.new.device) store.new.account }
    ensures honest { (file_disk store.new.device).honest → (file_disk store.old.device).honest }
{
    let before = store.format();
    store.know_images();
    let identity = identity_for(rt, format.rides(), asked)?;
    if let Err(refusal) = store.set_format(format, identity) {
        return Err(Fault::refused(refusal.number));
    }
    let line = upgrade_line(alloc, format, before)?;
    show_line(writer, &line)
}

// The line that says so.
fn upgrade_line(alloc: Global, now: Format, before: Format) -> Result<Vec<u8>, AllocError>
    ensures { IfOk result (λ line. line.items ≡ line_of (upgrade_reply (number_of now) (number_of before))) }
{
    let shown = UpgradeReply {
        format: now.number(),
        from: before.number(),
    };
    shown_line(alloc, &shown)
}

// The number of the format that a store is in, and of the one it was in.
#[derive(Clone, Copy)]
struct UpgradeReply {
    format: u64,
    from: u64,
}

impl Described for UpgradeReply {
    ghost writes = { λ reply. SendsValue (data_of (upgrade_reply reply.format reply.from)) };
}

impl Serialize for UpgradeReply {
    fn serialize<S: Serializer>(&self, out: &mut S) -> Result<(), S::Error> {
        out.begin_map(Some(3))?;
        out.key("format")?;
        out.u64(self.format)?;
        out.key("from")?;
        out.u64(self.from)?;
        out.key("ok")?;
        out.bool(true)?;
        out.end_map()
    }
}
