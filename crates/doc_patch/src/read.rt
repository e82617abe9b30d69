//! The reading of a patch from the document that spells it.

ghost use Rattle.std.specs.Prelude.{◌≡◌, ◌⊎◌, Some, None, Ok, IfOk, MatchResult, false, length, nat_lt};
ghost use Rattle.doc_edits.specs.Change.{tokens_of};
ghost use Rattle.doc_patch.specs.Fault.{IsFaultOf};
ghost use Rattle.doc_edits.specs.Meaning.{meaning};
ghost use Rattle.doc_patch.specs.Meaning.{operations, spelled};
ghost use Rattle.doc_edits.specs.OperationFault.{IsOperationFaultOf};
ghost use Rattle.doc_edits.specs.Operation as pure;
ghost use Rattle.doc_patch.specs.Reading.{is_too_long, is_within, meant, not_into_itself, operation_count, operation_of, operations_of};
ghost use Rattle.refusals.specs.declared.numbers.TheConstants.{PATCH_POINTER, MEMORY};
ghost use Rattle.doc_pointer.specs.Reading.{pointer_of};
ghost use Rattle.doc_tree.specs.Doc.{height};
ghost use Rattle.doc_tree.specs.Sound.{IsSound};
ghost use Rattle.doc_tree.specs.Text.{text_of};
ghost use Rattle.doc_tree.specs.TreeView.{view};

use crate::fault::PatchFault;
use crate::limits::{PATCH_BYTES, PATCH_HEIGHT, PATCH_OPERATIONS};
use crate::patch::Patch;
use crate::spelling::{Spelling, spelling_of};
use doc_edits::{Operation, OperationFault};
use doc_pointer::Pointer;
use doc_tree::Tree;
use refusals::numbers::{MEMORY, PATCH_INTO_ITSELF, PATCH_LONG, PATCH_POINTER, PATCH_SHAPE};
use std::alloc::Global;

impl Patch {
    /// The operations that the document spells (RFC 6902, sections 3 and 4).
    ///
    /// The refusals are, in this order: `PATCH_LONG` if it is over a limit, and `PATCH_SHAPE` if it is no array, both
    /// without an operation; then the first operation that has a fault, with its first of `PATCH_SHAPE`,
    /// `PATCH_POINTER` and `PATCH_INTO_ITSELF`. `MEMORY` if there was none, and then no operation is named.
    pub fn read(alloc: Global, tree: &Tree) -> Result<Patch, PatchFault>
        ensures read { let read = operations_of (view tree.now) in
            MatchResult result (λ p. read ≡ Ok (operations p)) (IsFaultOf read) }
        ensures sound { IfOk result (λ _. IsSound (view tree.now)) }
    {
        if is_over_limits(tree) {
            return Err(PatchFault {
                number: PATCH_LONG,
                op: None,
            });
        }
        let Tree::List(items) = tree else {
            return Err(PatchFault {
                number: PATCH_SHAPE,
                op: None,
            });
        };
        let mut operations = Vec::new(alloc);
        for (index, item) in items.iter().enumerate() {
            match read_operation(alloc, item) {
                Ok(operation) => operations.push(operation)?,
                Err(fault) => return Err(PatchFault::of(fault, index as u64)),
            }
        }
        Ok(Patch { operations })
    }
}

// Whether the patch is too long or too high to be read.
fn is_over_limits(tree: &Tree) -> bool
    ensures judged { result ≡ is_too_long (view tree.now) }
    ensures sound { result ≡ false → IsSound (view tree.now) }
{
    count(tree) > PATCH_OPERATIONS || is_text_too_long(tree) || is_too_high(tree)
}

// How many operations the patch has; none if it is no array.
fn count(tree: &Tree) -> usize
    ensures { result ≡ operation_count (view tree.now) }
{
    match tree {
        Tree::List(items) => items.len(),
        _ => 0,
    }
}

// Whether the text of the patch is over its limit.
fn is_text_too_long(tree: &Tree) -> bool
    ensures { result ≡ nat_lt 2_097_152 (length (text_of (view tree.now))) }
{
    tree.text_len_within(PATCH_BYTES).is_none()
}

// Whether the patch nests deeper than its limit.
fn is_too_high(tree: &Tree) -> bool
    ensures judged { result ≡ nat_lt 66 (height (view tree.now)) }
    ensures sound { IsSound (view tree.now) }
{
    tree.height() > PATCH_HEIGHT
}

// The operation that the document spells.
fn read_operation(alloc: Global, tree: &Tree) -> Result<Operation, OperationFault>
    ensures { let read = operation_of (view tree.now) in
        MatchResult result (λ o. read ≡ Ok (meaning o)) (IsOperationFaultOf read) }
{
    let spelling = spelling_of(tree).ok_or(OperationFault {
        number: PATCH_SHAPE,
    })?;
    read_pointers(alloc, &spelling)
}

// The operation, with its pointers read.
fn read_pointers(alloc: Global, spelling: &Spelling<'_>) -> Result<Operation, OperationFault>
    ensures { let read = meant (spelled spelling.now) in
        MatchResult result (λ o. read ≡ Ok (meaning o)) (IsOperationFaultOf read) }
{
    match spelling {
        Spelling::Add { path, value } => Ok(Operation::Add {
            path: read_pointer(alloc, path)?,
            value: value.copy(alloc)?,
        }),
        Spelling::Remove { path } => Ok(Operation::Remove {
            path: read_pointer(alloc, path)?,
        }),
        Spelling::Replace { path, value } => Ok(Operation::Replace {
            path: read_pointer(alloc, path)?,
            value: value.copy(alloc)?,
        }),
        Spelling::Move { from, path } => {
            let path = read_pointer(alloc, path)?;
            move_from(read_pointer(alloc, from)?, path)
        }
        Spelling::Copy { from, path } => {
            let path = read_pointer(alloc, path)?;
            Ok(Operation::Copy {
                from: read_pointer(alloc, from)?,
                path,
            })
        }
        Spelling::Test { path, value } => Ok(Operation::Test {
            path: read_pointer(alloc, path)?,
            value: value.copy(alloc)?,
        }),
    }
}

/// A move, unless into what it moves.
pub(crate) fn move_from(from: Pointer, path: Pointer) -> Result<Operation, OperationFault>
    ensures { let read = not_into_itself (pure.move from path) in
        MatchResult result (λ o. read ≡ Ok (meaning o)) (IsOperationFaultOf read) }
{
    if is_inside(from.tokens(), path.tokens()) {
        return Err(OperationFault {
            number: PATCH_INTO_ITSELF,
        });
    }
    Ok(Operation::Move { from, path })
}

// Whether the place `path` is inside the value at `from`.
fn is_inside(from: &[String], path: &[String]) -> bool
    ensures { result ≡ is_within (tokens_of from.now) (tokens_of path.now) }
{
    path.starts_with(from) && from.len() < path.len()
}

/// The pointer that the text writes.
pub(crate) fn read_pointer(alloc: Global, text: &str) -> Result<Pointer, OperationFault>
    ensures { let read = pointer_of text.now in
        MatchResult result (λ p. read ≡ Some p)
        (λ e. ((e.number ≡ PATCH_POINTER) × (read ≡ None)) ⊎ (e.number ≡ MEMORY)) }
{
    let number = match Pointer::read(alloc, text) {
        Ok(pointer) => return Ok(pointer),
        Err(fault) if fault.number == MEMORY => MEMORY,
        Err(_) => PATCH_POINTER,
    };
    Err(OperationFault { number })
}
