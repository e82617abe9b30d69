//! The reasons why a file isn't made or opened, as a line on standard error.

ghost use Rattle.std.specs.Prelude.{◌≡◌, None, IfOk, IfSome, OnOk, option_map};
ghost use Rattle.std.specs.Io.KnownBytes.{Appends};
ghost use Rattle.command_line.specs.Call.{asked_of};
ghost use Rattle.doc_tree.specs.Text.{data_of};
ghost use Rattle.jpstore.specs.Reasons.{file_of, new_of, reason_line, reason_of, reason_reply};
ghost use Rattle.serde_json.specs.Events.{SendsValue};

use command_line::{Call, Order};
use file_device::SystemFault;
use file_programs::{Fault, show_line};
use protocol::shown_line;
use serde::{Described, Serialize, Serializer};
use std::alloc::{AllocError, Global};
use std::io::Write;

/// Says why a file was not made or opened, if the order asks for it, after the words of the fault.
pub fn say_why<E: Write>(
    alloc: Global,
    order: &Order,
    fault: Fault,
    errors: &mut E,
) -> Result<(), Fault>
    ensures said { OnOk result (IfSome (reason_of fault (asked_of order.now.call) order.now.why) (Appends (E.contents errors.old) (E.contents errors.new))) }
    ensures silent { reason_of fault (asked_of order.now.call) order.now.why ≡ None → errors.new ≡ errors.old }
{
    if !order.why {
        return Ok(());
    }
    match fault {
        Fault::File(refused) => say_of(alloc, refused, file_in(&order.call), errors),
        Fault::New(refused) => say_of(alloc, refused, new_in(&order.call), errors),
        _ => Ok(()),
    }
}

// Says why the file at that path was not made or opened, if a file is named.
fn say_of<E: Write>(
    alloc: Global,
    refused: SystemFault,
    path: Option<&str>,
    errors: &mut E,
) -> Result<(), Fault>
    ensures said { OnOk result (IfSome (option_map (λ p. reason_line refused p.now) path.entry) (Appends (E.contents errors.old) (E.contents errors.new))) }
    ensures silent { path.entry ≡ None → errors.new ≡ errors.old }
{
    match path {
        Some(path) => show_line(errors, &line_for(alloc, refused, path)?),
        None => Ok(()),
    }
}

// FILE of a call.
fn file_in<'a>(call: &Call<'a>) -> Option<&'a str>
    ensures { option_map (λ file. file.now) result ≡ file_of (asked_of call.now) }
{
    match call {
        Call::Format { file, .. }
        | Call::Fresh { file, .. }
        | Call::Serve { file, .. }
        | Call::Check { file, .. }
        | Call::Repair { file }
        | Call::Copy { file, .. }
        | Call::Upgrade { file, .. }
        | Call::Deep { file }
        | Call::Salvage { file, .. }
        | Call::Dump { file, .. } => Some(file),
        Call::Mem { .. } => None,
    }
}

// NEW of a call.
fn new_in<'a>(call: &Call<'a>) -> Option<&'a str>
    ensures { option_map (λ new. new.now) result ≡ new_of (asked_of call.now) }
{
    match call {
        Call::Copy { new, .. } => Some(new),
        _ => None,
    }
}

// The line.
fn line_for(alloc: Global, refused: SystemFault, path: &str) -> Result<Vec<u8>, AllocError>
    ensures { IfOk result (λ line. line.items ≡ reason_line refused path.now) }
{
    let shown = ReasonReply {
        cause: refused.cause.word(),
        errno: refused.errno,
        path,
    };
    shown_line(alloc, &shown)
}

// The word of a cause, the system's number of the error, and the path of the file.
#[derive(Clone, Copy)]
struct ReasonReply<'a> {
    cause: &'a str,
    errno: u64,
    path: &'a str,
}

impl Described for ReasonReply<'_> {
    ghost writes = { λ reply. SendsValue (data_of (reason_reply reply.cause.now reply.errno reply.path.now)) };
}

impl Serialize for ReasonReply<'_> {
    fn serialize<S: Serializer>(&self, out: &mut S) -> Result<(), S::Error> {
        out.begin_map(Some(3))?;
        out.key("cause")?;
        out.str(self.cause)?;
        out.key("errno")?;
        out.u64(self.errno)?;
        out.key("path")?;
        out.str(self.path)?;
        out.end_map()
    }
}
