//! The frame of a command, written.
ghost use Rattle.std.specs.Prelude.{◌≡◌, ◌<◌, ◌≤◌, IfOk, MatchResult, length, slice_set};
ghost use Rattle.doc_tree.specs.Sound.{IsSound};
ghost use Rattle.doc_tree.specs.TreeView.{view};
ghost use Rattle.record_text.specs.Change.{change_of, create, object_of};
ghost use Rattle.record_text.specs.Fault.{IsWriteFault};
ghost use Rattle.record_text.specs.Frame.{body_of, entry};
ghost use Rattle.log_frames.specs.Kinds.{code_of, frame_as, logged, note};
ghost use Rattle.log_frames.specs.declared.kind.Kind.TheVariants.{Kept, Noted};

use crate::kind::Kind;
use doc_tree::Tree;
use record_text::{Command, RecordFault, creation_frame, frame};
use std::alloc::{AllocError, Global};

/// The command's frame of that kind with that seq.
///
/// `Shape` if the command asks for a revision over 2^63 - 1, which no body spells; then `Long` if the body is over
/// `BODY_LIMIT` bytes. `Memory` may come in place of any answer.
pub fn frame_as(
    alloc: Global,
    kind: Kind,
    command: &Command,
    seq: u64,
) -> Result<Vec<u8>, RecordFault>
    ensures frame { MatchResult result (λ bytes. bytes.items ≡ frame_as (logged kind (entry seq (change_of command.now))))
        (λ e. IsWriteFault e (change_of command.now)) }
    ensures small { IfOk result (λ _. length (body_of (change_of command.now)) ≤ 4194304) }
    ensures sound { IfOk result (λ _. IsSound (object_of (change_of command.now))) }
{
    let bytes = frame(alloc, command, seq)?;
    Ok(as_kind(bytes, kind))
}

/// The frame, as an entry of a snapshot with that revision, of the command that makes a document of that name, with that
/// schema and value. None of them is copied. An error means that memory ran out.
pub fn kept_frame(
    alloc: Global,
    name: &str,
    schema: &Tree,
    doc: &Tree,
    revision: u64,
) -> Result<Vec<u8>, AllocError>
    requires { length (body_of (create name.now (view schema.now) (view doc.now))) ≤ 4194304 }
    ensures { IfOk result (λ bytes. bytes.items
        ≡ frame_as (logged Kept (entry revision (create name.now (view schema.now) (view doc.now))))) }
{
    let bytes = creation_frame(alloc, name, schema, doc, revision)?;
    Ok(as_kind(bytes, Kind::Kept))
}

/// The frame of the mark with that key and that value, with that seq. An error means that memory ran out.
pub fn noted_frame(alloc: Global, key: &str, value: &str, seq: u64) -> Result<Vec<u8>, AllocError>
    requires { length (body_of (note key.now value.now)) ≤ 4194304 }
    ensures { IfOk result (λ bytes. bytes.items ≡ frame_as (logged Noted (entry seq (note key.now value.now)))) }
{
    let text = Tree::Text(String::from_str(alloc, value)?);
    let bytes = creation_frame(alloc, key, &Tree::Bool(true), &text, seq)?;
    Ok(as_kind(bytes, Kind::Noted))
}

// The frame with that kind in its first byte, which is zero in a frame of format 2.
fn as_kind(bytes: Vec<u8>, kind: Kind) -> Vec<u8>
    requires { 0 < length bytes.items }
    ensures { result.items ≡ slice_set bytes.items 0 (code_of kind) }
{
    let mut frame = bytes;
    frame[0] = kind.code();
    frame
}
