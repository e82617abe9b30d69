//! The reply line that shows the status of a store.
ghost use Rattle.std.specs.Prelude.{◌≡◌, IfOk, OnOk, codes, if◌then◌else◌, is_some, string_bytes};
ghost use Rattle.serde_json.specs.Events.{SendsValue};
ghost use Rattle.doc_tree.specs.Doc.{object};
ghost use Rattle.doc_tree.specs.Text.{data_of};
ghost use Rattle.protocol.specs.Reply.{line_of};
ghost use Rattle.status_lines.specs.Status.{SendsId, SendsNumber, SendsText, id_of, identity_text, shown_id, status_members, status_reply};

use doc_store::Status;
use protocol::shown_line;
use serde::{Described, Serialize, Serializer};
use std::alloc::{AllocError, Global};

/// The line of the reply to `status`.
pub fn status_line(alloc: Global, status: &Status) -> Result<Vec<u8>, AllocError>
    ensures { IfOk result (λ line. line.items ≡ line_of (status_reply status.now)) }
{
    let text = id_text(alloc, status)?;
    let id = text.as_str();
    shown_line(alloc, &StatusReply { status, id })
}

/// The text of the identity that a status has; if it has none, a text that isn't shown.
pub fn id_text(alloc: Global, status: &Status) -> Result<String, AllocError>
    ensures { IfOk result (λ text. shown_id status.now (string_bytes text) ≡ id_of status.now) }
{
    match status.identity {
        Some(identity) => identity_text(alloc, identity),
        None => Ok(String::new(alloc)),
    }
}

/// The text of an identity: 32 hexadecimal digits.
pub fn identity_text(alloc: Global, identity: u128) -> Result<String, AllocError>
    ensures { IfOk result (λ text. string_bytes text ≡ identity_text identity) }
{
    hex::encode(alloc, identity.to_be_bytes())
}

#[derive(Drop)]
struct StatusReply<'s> {
    status: &'s Status,
    /// The text of its identity, if it has one.
    id: &'s str,
}

impl Described for StatusReply<'_> {
    ghost writes = { λ reply. SendsValue (data_of (object (status_members reply.status.now (shown_id reply.status.now reply.id.now)))) };
}

impl Serialize for StatusReply<'_> {
    fn serialize<S: Serializer>(&self, out: &mut S) -> Result<(), S::Error> {
        out.begin_map(Some(members_of(self.status)))?;
        out.key("broken")?;
        out.bool(self.status.broken)?;
        send_number(out, "capacity", self.status.capacity)?;
        send_number(out, "documents", self.status.documents)?;
        send_number(out, "half", u64::from(self.status.half))?;
        send_shown(out, self.status, self.id)?;
        out.key("ok")?;
        out.bool(true)?;
        send_number(out, "opens", self.status.opens)?;
        send_number(out, "sectors", self.status.sectors)?;
        send_number(out, "seq", self.status.seq)?;
        send_number(out, "used", self.status.used)?;
        out.end_map()
    }
}

// How many members a status has: one more with `id`.
fn members_of(status: &Status) -> usize
    ensures { result ≡ (if is_some status.now.identity then 10 else 9) }
{
    if status.identity.is_some() { 10 } else { 9 }
}

// Sends the member `id`, if the status has one.
fn send_shown<S: Serializer>(out: &mut S, status: &Status, id: &str) -> Result<(), S::Error>
    ensures { OnOk result (SendsId (shown_id status.now id.now) (S.written out.old) (S.written out.new)) }
{
    match status.identity {
        Some(_) => send_id(out, id),
        None => Ok(()),
    }
}

/// Sends the member `id`.
pub fn send_id<S: Serializer>(out: &mut S, id: &str) -> Result<(), S::Error>
    ensures { OnOk result (SendsText (codes "id") id.now (S.written out.old) (S.written out.new)) }
{
    out.key("id")?;
    out.str(id)
}

// A member whose value is a number.
fn send_number<S: Serializer>(out: &mut S, name: &str, number: u64) -> Result<(), S::Error>
    ensures { OnOk result (SendsNumber name.now number (S.written out.old) (S.written out.new)) }
{
    out.key(name)?;
    out.u64(number)
}
