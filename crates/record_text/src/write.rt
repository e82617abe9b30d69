//! The frame of a command, written.
ghost use Rattle.std.specs.Prelude.{◌≡◌, ◌≤◌, ◌<◌, ◌^◌, ◌∷◌, ◌++◌, drop, length, IfOk, MatchResult};
ghost use Rattle.std.specs.Int.{w32, to_be_bytes};
ghost use Rattle.doc_tree.specs.Sound.{IsSound};
ghost use Rattle.doc_tree.specs.TreeView.{view};
ghost use Rattle.record_text.specs.Change.{AsksNone, IsSpelled, change_of, create, object_of};
ghost use Rattle.record_text.specs.Fault.{IsLong, IsWriteFault, IsWriteFault_1};
ghost use Rattle.record_text.specs.Frame.{body_of, entry, frame_of, frame_1_of};

use crate::body::{put_command, put_create};
use crate::command::Command;
use crate::fault::RecordFault;
use crate::limits::BODY_LIMIT;
use doc_tree::Tree;
use std::alloc::{AllocError, Global};

// Bytes for which a frame has room at first.
const FIRST_ROOM: usize = 140;

/// The command's frame with that seq, in format 2: the length of its body in 4 bytes and the seq in 8, the
/// highest first, and the body, the compact text of the command's object.
///
/// `Shape` if the command asks for a revision over 2^63 - 1, which no body spells; then `Long` if the body is over
/// `BODY_LIMIT` bytes. `Memory` may come in place of any answer.
pub fn frame(alloc: Global, command: &Command, seq: u64) -> Result<Vec<u8>, RecordFault>
    ensures frame { MatchResult result (λ bytes. bytes.items ≡ frame_of (entry seq (change_of command.now)))
        (λ e. IsWriteFault e (change_of command.now)) }
    ensures small { IfOk result (λ _. length (body_of (change_of command.now)) ≤ 4194304) }
    ensures sound { IfOk result (λ _. IsSound (object_of (change_of command.now))) }
{
    if !command.is_spelled() {
        return Err(RecordFault::Shape);
    }
    framed(alloc, &seq.to_be_bytes(), command)
}

/// The command's frame in format 1, which has no seq.
///
/// `Shape` if the command asks for a revision, since format 1 has no frame for it; then `Long` and `Memory` as `frame`
/// answers them.
pub fn frame_1(alloc: Global, command: &Command) -> Result<Vec<u8>, RecordFault>
    ensures frame { MatchResult result (λ bytes. bytes.items ≡ frame_1_of (change_of command.now))
        (λ e. IsWriteFault_1 e (change_of command.now)) }
    ensures asks_none { IfOk result (λ _. AsksNone (change_of command.now)) }
    ensures small { IfOk result (λ _. length (body_of (change_of command.now)) ≤ 4194304) }
    ensures sound { IfOk result (λ _. IsSound (object_of (change_of command.now))) }
{
    if !command.asks_none() {
        return Err(RecordFault::Shape);
    }
    framed(alloc, &[], command)
}

/// The frame, with that revision, of the command that makes a document of that name, with that schema and value. None
/// of them is copied. An error means that memory ran out.
pub fn creation_frame(
    alloc: Global,
    name: &str,
    schema: &Tree,
    doc: &Tree,
    revision: u64,
) -> Result<Vec<u8>, AllocError>
    requires { length (body_of (create name.now (view schema.now) (view doc.now))) ≤ 4194304 }
    ensures { IfOk result (λ bytes. bytes.items
        ≡ frame_of (entry revision (create name.now (view schema.now) (view doc.now)))) }
{
    let head = head_of(alloc, &revision.to_be_bytes())?;
    let whole = with_creation(head, name, schema, doc)?;
    let len = (whole.len() - 12) as u32;
    Ok(with_length(whole, len))
}

// The frame of a command, if the revision that it asks for can be spelled. Its text is written once, after the head.
fn framed(alloc: Global, stamp: &[u8], command: &Command) -> Result<Vec<u8>, RecordFault>
    requires stamp { length stamp.now ≤ 8 }
    requires spelled { IsSpelled (change_of command.now) }
    ensures frame { let body = body_of (change_of command.now) in MatchResult result
        (λ bytes. bytes.items ≡ to_be_bytes w32 (length body) ++ stamp.now ++ body) (λ e. IsLong e body) }
    ensures small { IfOk result (λ _. length (body_of (change_of command.now)) ≤ 4194304) }
    ensures sound { IfOk result (λ _. IsSound (object_of (change_of command.now))) }
{
    let head = head_of(alloc, stamp)?;
    let whole = with_body(head, command)?;
    let len = whole.len() - 4 - stamp.len();
    if len > BODY_LIMIT {
        return Err(RecordFault::Long);
    }
    Ok(with_length(whole, len as u32))
}

// Room for a length, and what is between it and the body.
fn head_of(alloc: Global, stamp: &[u8]) -> Result<Vec<u8>, AllocError>
    ensures { IfOk result (λ bytes. bytes.items ≡ 0 ∷ 0 ∷ 0 ∷ 0 ∷ stamp.now) }
{
    let mut bytes = Vec::with_capacity(alloc, FIRST_ROOM)?;
    bytes.extend_from_slice(&[0, 0, 0, 0])?;
    bytes.extend_from_slice(stamp)?;
    Ok(bytes)
}

// The head, and after it the compact text of a command's object.
fn with_body(head: Vec<u8>, command: &Command) -> Result<Vec<u8>, AllocError>
    requires { IsSpelled (change_of command.now) }
    ensures body { IfOk result (λ bytes. bytes.items ≡ head.items ++ body_of (change_of command.now)) }
    ensures sound { IfOk result (λ _. IsSound (object_of (change_of command.now))) }
{
    let mut whole = head;
    put_command(command, &mut whole)?;
    Ok(whole)
}

// The same for the creation of a document.
fn with_creation(
    head: Vec<u8>,
    name: &str,
    schema: &Tree,
    doc: &Tree,
) -> Result<Vec<u8>, AllocError>
    ensures { IfOk result (λ bytes. bytes.items
        ≡ head.items ++ body_of (create name.now (view schema.now) (view doc.now))) }
{
    let mut whole = head;
    put_create(name, schema, doc, &mut whole)?;
    Ok(whole)
}

// The bytes with that length in the room for it.
fn with_length(bytes: Vec<u8>, len: u32) -> Vec<u8>
    requires { 4 ≤ length bytes.items }
    ensures { result.items ≡ to_be_bytes w32 len ++ drop 4 bytes.items }
{
    let mut whole = bytes;
    if let Some(first) = whole.as_mut_slice().first_chunk_mut::<4>() {
        *first = len.to_be_bytes();
    }
    whole
}
