//! The words of a program on the slots of a store.

ghost use Rattle.std.specs.Prelude.{◌≡◌, IfOk, OnOk, Some, true};
ghost use Rattle.std.specs.Io.KnownBytes.{Appends};
ghost use Rattle.doc_tree.specs.Text.{data_of};
ghost use Rattle.file_programs.specs.Notices.{checked_line, note_of, slots_reply, strictness_of, word_of, worded_slots, worded_status};
ghost use Rattle.protocol.specs.Reply.{line_of};
ghost use Rattle.serde_json.specs.Events.{SendsValue};
ghost use Rattle.status_lines.specs.Status.{SendsNumber};
ghost use Rattle.slot_commits.specs.declared.found.Notice.TheVariants.{Whole};

use doc_store::{Format, Notice, Status, Store, Strictness};
use file_device::FileDevice;
use protocol::shown_line;
use serde::{Described, Serialize, Serializer};
use status_lines::{identity_text, send_id, status_line};
use std::alloc::{AllocError, Global};
use std::io::Write;

/// How strictly a store is opened, by the flag.
pub fn strictness_of(strict: bool) -> Strictness
    ensures { result ≡ strictness_of strict }
{
    if strict {
        Strictness::RefusesCutOff
    } else {
        Strictness::AnyState
    }
}

/// Says on standard error what the slots say, unless all is whole, and answers whether that was written.
pub fn note<E: Write>(alloc: Global, notice: Notice, errors: &mut E) -> bool
    ensures said { result ≡ true → Appends (E.contents errors.old) (E.contents errors.new) (note_of notice) }
    ensures silent { notice ≡ Whole → errors.new ≡ errors.old }
{
    if notice == Notice::Whole {
        return true;
    }
    match slots_line(alloc, notice) {
        Ok(line) => errors.write_all(&line).is_ok(),
        Err(_) => false,
    }
}

/// The line that shows the status of a store, and in format 3 what its slots said when it was opened.
pub fn checked_line(
    alloc: Global,
    store: &Store<FileDevice>,
    notice: Notice,
) -> Result<Vec<u8>, AllocError>
    ensures { IfOk result (λ line. line.items ≡ checked_line store.now.account notice) }
{
    let status = store.status();
    match store.format() {
        Format::Two => status_line(alloc, &status),
        Format::Three => {
            let id = identity_text(alloc, status.identity.unwrap_or(0))?;
            let shown = SlotsStatus {
                status,
                id: id.as_str(),
                slots: word_of(notice),
            };
            shown_line(alloc, &shown)
        }
    }
}

// The line of what the slots say.
fn slots_line(alloc: Global, notice: Notice) -> Result<Vec<u8>, AllocError>
    ensures { IfOk result (λ line. line.items ≡ line_of (slots_reply notice)) }
{
    let shown = SlotsReply {
        slots: word_of(notice),
    };
    shown_line(alloc, &shown)
}

fn word_of(notice: Notice) -> &'static str
    ensures { result.now ≡ word_of notice }
{
    match notice {
        Notice::Whole => "whole",
        Notice::Mended => "mended",
        Notice::CutOff => "cut-off",
    }
}

#[derive(Clone, Copy)]
struct SlotsReply {
    slots: &'static str,
}

impl Described for SlotsReply {
    ghost writes = { λ reply. SendsValue (data_of (worded_slots reply.slots.now)) };
}

impl Serialize for SlotsReply {
    fn serialize<S: Serializer>(&self, out: &mut S) -> Result<(), S::Error> {
        out.begin_map(Some(1))?;
        out.key("slots")?;
        out.str(self.slots)?;
        out.end_map()
    }
}

// The status, with the word of the slots.
#[derive(Clone, Copy)]
struct SlotsStatus<'s> {
    status: Status,
    id: &'s str,
    slots: &'static str,
}

impl Described for SlotsStatus<'_> {
    ghost writes = { λ reply. SendsValue (data_of (worded_status reply.status reply.slots.now (Some reply.id.now))) };
}

impl Serialize for SlotsStatus<'_> {
    fn serialize<S: Serializer>(&self, out: &mut S) -> Result<(), S::Error> {
        out.begin_map(Some(11))?;
        out.key("broken")?;
        out.bool(self.status.broken)?;
        send_number(out, "capacity", self.status.capacity)?;
        send_number(out, "documents", self.status.documents)?;
        send_number(out, "half", u64::from(self.status.half))?;
        send_id(out, self.id)?;
        out.key("ok")?;
        out.bool(true)?;
        send_number(out, "opens", self.status.opens)?;
        send_number(out, "sectors", self.status.sectors)?;
        send_number(out, "seq", self.status.seq)?;
        out.key("slots")?;
        out.str(self.slots)?;
        send_number(out, "used", self.status.used)?;
        out.end_map()
    }
}

// A member whose value is a number.
fn send_number<S: Serializer>(out: &mut S, name: &str, number: u64) -> Result<(), S::Error>
    ensures { OnOk result (SendsNumber name.now number (S.written out.old) (S.written out.new)) }
{
    out.key(name)?;
    out.u64(number)
}
