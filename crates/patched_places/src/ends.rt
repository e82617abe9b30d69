//! The child that an operation brings, replaces or takes at the end of its place.
ghost use Rattle.std.specs.Prelude.{◌≡◌, ◌+◌, ◌<◌, ◌^◌, ◌++◌, [], ◌∷◌, Ok, Some, IfOk, IfSome, option_map};
ghost use Rattle.doc_tree.specs.Doc.{Doc};
ghost use Rattle.doc_tree.specs.Place.{place_of};
ghost use Rattle.doc_tree.specs.TreeView.{view};
ghost use Rattle.doc_edits.specs.Change.{tokens_of};
ghost use Rattle.doc_edits.specs.Meaning.{meaning};
ghost use Rattle.doc_edits.specs.Operation.{change};
ghost use Rattle.patched_places.specs.Along.{end_index, end_place, end_places, index_added, index_behind, places_along};
ghost use Rattle.patched_places.specs.Moved.{AreEndsOf, moved_places};
ghost use Rattle.schema_changes.specs.Agree.{AgreeOff, AgreeOffEach};

use crate::apart::are_parted;
use doc_edits::{Operation, index_within};
use doc_pointer::Pointer;
use doc_tree::{Step, Tree};
use std::alloc::{AllocError, Global};

/// A child that comes or goes in the object or list that holds it.
#[derive(Clone, Copy)]
pub(crate) struct End<'t> {
    /// The token that names it.
    pub token: &'t str,
    /// Whether it is there afterwards.
    pub is_there: bool,
}

/// A value that went from one place and came to another.
#[derive(Clone, Copy)]
pub(crate) struct Moved<'t> {
    /// The tokens of what held it.
    pub from: &'t [String],
    /// What went from there.
    pub gone: End<'t>,
    /// The tokens of what holds it.
    pub path: &'t [String],
    /// What came there.
    pub came: End<'t>,
}

/// The two ends of a move, in the document that it made, if neither place holds the other, and what came at the second
/// left the way to the first. `None` for an operation of another kind.
pub(crate) fn ends_of_move<'t>(operation: &'t Operation, made: &Tree) -> Option<Moved<'t>>
    ensures { IfSome result (λ m. (before : Doc) → change (meaning operation.now) before ≡ Ok (view made.now) → AgreeOffEach (moved_places m (view made.now)) before (view made.now)) }
{
    match operation {
        Operation::Move { from, path } => {
            if !are_parted(from.tokens(), path.tokens(), made) {
                return None;
            }
            ends_at(from, path)
        }
        _ => None,
    }
}

// All tokens but the last of both, and what these name.
fn ends_at<'t>(from: &'t Pointer, path: &'t Pointer) -> Option<Moved<'t>>
    ensures { IfSome result (λ m. AreEndsOf from.now path.now m) }
{
    let (holder, gone) = end_at(from, false)?;
    let (to, came) = end_at(path, true)?;
    Some(Moved {
        from: holder,
        gone,
        path: to,
        came,
    })
}

/// The tokens of what holds the child that the operation brings or takes, and that child. `None` for the root, and for
/// an operation of another kind.
pub(crate) fn end_of(operation: &Operation) -> Option<(&[String], End<'_>)>
    ensures { IfSome result (λ p. (before made : Doc) → change (meaning operation.now) before ≡ Ok made
        → AgreeOff (places_along (end_places (Some p.1)) (tokens_of p.0.now) made) before made) }
{
    match operation {
        Operation::Add { path, .. } => end_at(path, true),
        Operation::Copy { path, .. } => end_at(path, true),
        Operation::Remove { path } => end_at(path, false),
        _ => None,
    }
}

// All tokens but the last, and what that names.
fn end_at(path: &Pointer, is_there: bool) -> Option<(&[String], End<'_>)>
    ensures { IfSome result (λ p. (path.now ≡ tokens_of p.0.now ++ p.1.token.now ∷ []) × (p.1.is_there ≡ is_there)) }
{
    let (last, holder) = path.tokens().split_last()?;
    let end = End {
        token: last.as_str(),
        is_there,
    };
    Some((holder, end))
}

/// The step to the child, if each other one stays at its place.
pub(crate) fn end_step(end: End, document: &Tree, alloc: Global) -> Result<Option<Step>, AllocError>
    ensures { IfOk result (λ step. option_map place_of step ≡ end_place end.entry (view document.now)) }
{
    match document {
        Tree::Object(_) => Ok(Some(Step::Name(String::from_str(alloc, end.token)?))),
        Tree::List(items) => match end_index(end, items.len() as u64) {
            Some(index) => Ok(Some(Step::Index(index))),
            None => Ok(None),
        },
        _ => Ok(None),
    }
}

// The index of the child, if it is the last of `len` elements, or came after them.
fn end_index(end: End, len: u64) -> Option<u64>
    requires { len + 1 < 2 ^ 64 }
    ensures { result ≡ end_index end.entry.is_there len end.entry.token.now }
{
    if end.is_there {
        index_added(end.token, len)
    } else {
        index_behind(end.token, len)
    }
}

// The index of the last of `len` elements, if an addition at the token put it there.
fn index_added(token: &str, len: u64) -> Option<u64>
    requires { len + 1 < 2 ^ 64 }
    ensures { result ≡ index_added len token.now }
{
    let last = len.saturating_sub(1);
    if token == "-" {
        return Some(last);
    }
    index_behind(token, last)
}

// The index after `len` elements, if the token names it.
fn index_behind(token: &str, len: u64) -> Option<u64>
    requires { len + 1 < 2 ^ 64 }
    ensures { result ≡ index_behind len token.now }
{
    match index_within(token, len + 1) {
        Some(index) => {
            if index as u64 == len {
                Some(index as u64)
            } else {
                None
            }
        }
        None => None,
    }
}
