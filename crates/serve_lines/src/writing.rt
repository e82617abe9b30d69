//! Replies on their way to the writer.
ghost use Rattle.std.specs.Prelude.{◌≡◌, [], OnOk};
ghost use Rattle.serve_lines.specs.Progress.{KeepsWritten, WritesReply};
ghost use Rattle.protocol.specs.Room.{HasRoom};

use protocol::{Outbox, Reply};
use std::io::Write;

/// The writer failed.
#[derive(Drop)]
pub(crate) struct Unwritten;

/// Writes what waits.
pub(crate) fn send<W: Write>(outbox: &mut Outbox, writer: &mut W) -> Result<(), Unwritten>
    ensures told { OnOk result (KeepsWritten outbox.old (W.contents writer.old) outbox.new (W.contents writer.new)) }
    ensures empty { OnOk result (outbox.new.bytes.items ≡ []) }
{
    match writer.write_all(outbox.as_slice()) {
        Ok(()) => {
            outbox.clear();
            Ok(())
        }
        Err(_) => Err(Unwritten),
    }
}

/// Writes what waits if there is no room for a reply that takes no memory.
pub(crate) fn make_room<W: Write>(outbox: &mut Outbox, writer: &mut W) -> Result<(), Unwritten>
    ensures told { OnOk result (KeepsWritten outbox.old (W.contents writer.old) outbox.new (W.contents writer.new)) }
    ensures room { OnOk result (HasRoom outbox.new) }
{
    if outbox.has_room() {
        Ok(())
    } else {
        send(outbox, writer)
    }
}

/// Lets a reply wait, or writes it after what waits.
pub(crate) fn put<W: Write>(
    outbox: &mut Outbox,
    reply: Reply,
    writer: &mut W,
) -> Result<(), Unwritten>
    requires { HasRoom outbox.old }
    ensures { OnOk result (WritesReply reply outbox.old (W.contents writer.old) outbox.new (W.contents writer.new)) }
{
    match reply {
        Reply::Changed(seq) => {
            outbox.put_change(seq);
            Ok(())
        }
        Reply::Snapshot(used) => {
            outbox.put_snapshot(used);
            Ok(())
        }
        Reply::Pumped(pump) => {
            outbox.put_pump(pump);
            Ok(())
        }
        Reply::Sealed => {
            outbox.put_sealed();
            Ok(())
        }
        Reply::Revision(revision) => {
            outbox.put_revision(revision);
            Ok(())
        }
        Reply::Refused(refusal) => {
            outbox.put_refusal(refusal);
            Ok(())
        }
        Reply::Line(line) => {
            send(outbox, writer)?;
            match writer.write_all(line.as_slice()) {
                Ok(()) => Ok(()),
                Err(_) => Err(Unwritten),
            }
        }
    }
}
