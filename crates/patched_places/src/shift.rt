//! An element that came between those of a list, or went from between them.
ghost use Rattle.std.specs.Prelude.{◌≡◌, ◌+◌, ◌<◌, ◌^◌, ◌++◌, [], ◌∷◌, None, Ok, Some, IfSome};
ghost use Rattle.doc_tree.specs.Doc.{Doc, index};
ghost use Rattle.doc_tree.specs.TreeView.{view};
ghost use Rattle.doc_edits.specs.Change.{tokens_of};
ghost use Rattle.doc_edits.specs.Meaning.{meaning};
ghost use Rattle.doc_edits.specs.Operation.{change};
ghost use Rattle.patched_places.specs.Along.{end_places, places_along};
ghost use Rattle.patched_places.specs.Shift.{IsLenAt, IsShiftAt, shifted_index};
ghost use Rattle.schema_changes.specs.Agree.{AgreeButShifted};

use doc_edits::{Operation, index_within};
use doc_pointer::{Pointer, child_at};
use doc_tree::Tree;

/// A list in which an element came to an index, or went from there.
#[derive(Clone, Copy)]
pub(crate) struct Shift<'t> {
    /// The tokens that lead to the list.
    pub holder: &'t [String],
    /// The index.
    pub index: u64,
}

/// The list and the index, in the document that the operation made, if it brought or took an element that isn't the last.
pub(crate) fn shift_of<'t>(operation: &'t Operation, made: &Tree) -> Option<Shift<'t>>
    ensures { IfSome result (λ s. (before : Doc) → change (meaning operation.now) before ≡ Ok (view made.now)
        → AgreeButShifted (places_along (end_places None) (tokens_of s.holder.now) (view made.now) ++ index s.index ∷ []) before (view made.now)) }
{
    match operation {
        Operation::Add { path, .. } => shift_at(path, true, made),
        Operation::Copy { path, .. } => shift_at(path, true, made),
        Operation::Remove { path } => shift_at(path, false, made),
        _ => None,
    }
}

// The list to which all tokens but the last lead, and the index that the last names in it.
fn shift_at<'t>(path: &'t Pointer, is_there: bool, made: &Tree) -> Option<Shift<'t>>
    ensures { IfSome result (λ s. IsShiftAt path.now is_there s (view made.now)) }
{
    let (last, holder) = path.tokens().split_last()?;
    let len = list_len(holder, made)?;
    let index = index_in(last.as_str(), len, is_there)?;
    Some(Shift { holder, index })
}

// How many elements the list has to which the tokens lead.
fn list_len(tokens: &[String], document: &Tree) -> Option<u64>
    ensures few { IfSome result (λ n. n + 1 < 2 ^ 64) }
    ensures list { IfSome result (IsLenAt (tokens_of tokens.now) (view document.now)) }
{
    match tokens.split_first() {
        None => match document {
            Tree::List(items) => Some(items.len() as u64),
            _ => None,
        },
        Some((token, rest)) => match child_at(document, token.as_str()) {
            None => None,
            Some(below) => list_len(rest, below),
        },
    }
}

// The index that the token names, if others come after it.
fn index_in(token: &str, len: u64, is_there: bool) -> Option<u64>
    requires { len + 1 < 2 ^ 64 }
    ensures { IfSome result (λ n. shifted_index is_there len token.now ≡ Some n) }
{
    let bound = if is_there { len } else { len + 1 };
    let index = index_within(token, bound)? as u64;
    if index + 1 == bound || is_there && token == "-" {
        return None;
    }
    Some(index)
}
