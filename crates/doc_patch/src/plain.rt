//! Patches that are read quickly: most texts hold no escape. Their operations are read in place, and what is read is
//! compared with the text. `None` says nothing of a text.

ghost use Rattle.std.specs.Prelude.{◌≡◌, ◌∷◌, ◌++◌, false, IfSome};
ghost use Rattle.serde_json.specs.Written.{comma_if};
ghost use Rattle.doc_edits.specs.Meaning.{meaning};
ghost use Rattle.doc_patch.specs.Meaning.{meanings, operations};
ghost use Rattle.doc_patch.specs.Plain.{BeginsWithOperation, BeginsWithPathAndValue, BeginsWithPointer, BeginsWithValue, before_from, IsTextOfOperations, IsTextOfPatch};
ghost use Rattle.doc_tree.specs.TreeView.{view};

use crate::limits::{PATCH_BYTES, PATCH_OPERATIONS};
use crate::patch::Patch;
use crate::read::{move_from, read_pointer};
use doc_edits::Operation;
use doc_pointer::Pointer;
use doc_tree::{Tree, strip_bytes, strip_quoted};
use std::alloc::Global;

const ADD: &[u8] = b"{\"op\":\"add\",\"path\":";

const REMOVE: &[u8] = b"{\"op\":\"remove\",\"path\":";

const REPLACE: &[u8] = b"{\"op\":\"replace\",\"path\":";

const TEST: &[u8] = b"{\"op\":\"test\",\"path\":";

const BEFORE_FROM: &[u8] = b"{\"from\":";

const COPY: &[u8] = b",\"op\":\"copy\",\"path\":";

const MOVE: &[u8] = b",\"op\":\"move\",\"path\":";

const BEFORE_VALUE: &[u8] = b",\"value\":";

const AFTER_MEMBERS: &[u8] = b"}";

// Two less than a patch may have, since its array and the operation's object are levels.
const VALUE_HEIGHT: u64 = 64;

impl Patch {
    /// The patch whose compact text the bytes are, read with no tree of its operations.
    ///
    /// `None` says nothing. It is answered if the bytes are no such text, or the patch is over a limit. It is also
    /// answered if the text has an escape, the number -2^63, an operation with more members than are defined for it, or
    /// no operation, and if memory is refused.
    pub fn read_unescaped(alloc: Global, bytes: &[u8]) -> Option<Patch>
        ensures { IfSome result (λ p. IsTextOfPatch bytes.now (operations p)) }
    {
        if bytes.len() as u64 > PATCH_BYTES {
            return None;
        }
        let operations = plain_operations(alloc, strip_bytes(b"[", bytes)?)?;
        if operations.len() > PATCH_OPERATIONS {
            return None;
        }
        Some(Patch { operations })
    }
}

// The operations after the opening bracket, up to the closing one, which ends the text.
fn plain_operations(alloc: Global, bytes: &[u8]) -> Option<Vec<Operation>>
    ensures { IfSome result (λ v. IsTextOfOperations false bytes.now (meanings v.items)) }
{
    let mut operations = Vec::new(alloc);
    let mut rest = bytes;
    let mut later = false;
    for _ in 0..PATCH_OPERATIONS {
        let (operation, after) = plain_operation(alloc, after_comma(later, rest)?)?;
        let Ok(()) = operations.push(operation) else {
            return None;
        };
        if let Some(end) = strip_bytes(b"]", after) {
            return if end.is_empty() {
                Some(operations)
            } else {
                None
            };
        }
        rest = after;
        later = true;
    }
    None
}

// What follows the comma before all but the first.
fn after_comma(later: bool, bytes: &[u8]) -> Option<&[u8]>
    ensures { IfSome result (λ rest. bytes.now ≡ comma_if later ++ rest.now) }
{
    if later {
        strip_bytes(b",", bytes)
    } else {
        Some(bytes)
    }
}

// The operation that the bytes begin with, and what follows it.
fn plain_operation(alloc: Global, bytes: &[u8]) -> Option<(Operation, &[u8])>
    ensures { IfSome result (λ r. BeginsWithOperation bytes.now (meaning r.0) r.1.now) }
{
    if let Some(rest) = strip_bytes(REPLACE, bytes) {
        let (path, value, rest) = path_and_value(alloc, rest)?;
        Some((Operation::Replace { path, value }, rest))
    } else if let Some(rest) = strip_bytes(ADD, bytes) {
        let (path, value, rest) = path_and_value(alloc, rest)?;
        Some((Operation::Add { path, value }, rest))
    } else if let Some(rest) = strip_bytes(TEST, bytes) {
        let (path, value, rest) = path_and_value(alloc, rest)?;
        Some((Operation::Test { path, value }, rest))
    } else if let Some(rest) = strip_bytes(REMOVE, bytes) {
        let (path, rest) = last_pointer(alloc, rest)?;
        Some((Operation::Remove { path }, rest))
    } else {
        operation_with_from(alloc, strip_bytes(BEFORE_FROM, bytes)?)
    }
}

// The operation whose members after `"from":` the bytes begin with, and what follows it.
fn operation_with_from(alloc: Global, bytes: &[u8]) -> Option<(Operation, &[u8])>
    ensures { IfSome result (λ r. BeginsWithOperation (before_from bytes.now) (meaning r.0) r.1.now) }
{
    let (from, rest) = plain_pointer(alloc, bytes)?;
    if let Some(rest) = strip_bytes(COPY, rest) {
        let (path, rest) = last_pointer(alloc, rest)?;
        return Some((Operation::Copy { from, path }, rest));
    }
    let (path, rest) = last_pointer(alloc, strip_bytes(MOVE, rest)?)?;
    match move_from(from, path) {
        Ok(operation) => Some((operation, rest)),
        Err(_) => None,
    }
}

// The members of an operation after `"path":`, and what follows it.
fn path_and_value(alloc: Global, bytes: &[u8]) -> Option<(Pointer, Tree, &[u8])>
    ensures { IfSome result (λ r. BeginsWithPathAndValue bytes.now r.0 (view r.1) r.2.now) }
{
    let (path, rest) = plain_pointer(alloc, bytes)?;
    let (value, rest) = plain_value(alloc, strip_bytes(BEFORE_VALUE, rest)?)?;
    Some((path, value, strip_bytes(AFTER_MEMBERS, rest)?))
}

// The pointer of an operation's last member, and what follows the operation.
fn last_pointer(alloc: Global, bytes: &[u8]) -> Option<(Pointer, &[u8])>
    ensures { IfSome result (λ r. BeginsWithPointer bytes.now r.0 (125 ∷ r.1.now)) }
{
    let (pointer, rest) = plain_pointer(alloc, bytes)?;
    Some((pointer, strip_bytes(AFTER_MEMBERS, rest)?))
}

// The pointer that a quoted text writes, and what follows it.
fn plain_pointer(alloc: Global, bytes: &[u8]) -> Option<(Pointer, &[u8])>
    ensures { IfSome result (λ r. BeginsWithPointer bytes.now r.0 r.1.now) }
{
    let (written, _) = doc_tree::read_unescaped(alloc, bytes)?;
    let rest = strip_quoted(written.as_str(), bytes)?;
    match read_pointer(alloc, written.as_str()) {
        Ok(pointer) => Some((pointer, rest)),
        Err(_) => None,
    }
}

// The value of an operation, and what follows it.
fn plain_value(alloc: Global, bytes: &[u8]) -> Option<(Tree, &[u8])>
    ensures { IfSome result (λ r. BeginsWithValue bytes.now (view r.0) r.1.now) }
{
    let (value, _) = Tree::read_compact(alloc, bytes)?;
    let rest = value.strip_text(bytes)?;
    if value.height() > VALUE_HEIGHT {
        return None;
    }
    Some((value, rest))
}
