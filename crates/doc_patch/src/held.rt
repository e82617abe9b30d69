//! The bytes that an operation copies, and how many members or elements are beside those that it takes
//! (`specs/Held.antt`).

ghost use Rattle.std.specs.Prelude.{◌≡◌, ◌≤◌};
ghost use Rattle.std.specs.Option.{ForSome};
ghost use Rattle.doc_edits.specs.Change.{tokens_of};
ghost use Rattle.doc_edits.specs.Meaning.{meaning};
ghost use Rattle.doc_edits.specs.Size.{size};
ghost use Rattle.doc_edits.specs.SizeChange.{IsKnown};
ghost use Rattle.doc_patch.specs.Held.{children, children_of, copied, siblings, size_of};
ghost use Rattle.doc_patch.specs.declared.limits.TheConstants.{DOCUMENT_BYTES};
ghost use Rattle.doc_pointer.specs.Place.{resolve};
ghost use Rattle.doc_tree.specs.TreeView.{view};

use crate::reach::holder;
use doc_edits::{KnownPlace, KnownSize, Operation, extent_at, gone_len};
use doc_pointer::{Pointer, child_at};
use doc_tree::Tree;

/// The value that an operation copies.
#[derive(Drop)]
pub struct MeasuredCopy<'a> {
    /// The bytes of its text; 0 if none is copied.
    pub len: u64,
    /// What is known of it, or of another place.
    pub known: Option<KnownPlace<'a>>,
}

/// Measures the value that the operation copies, unless its length is known.
pub fn copied<'a>(
    tree: &Tree,
    operation: &'a Operation,
    known: Option<KnownPlace<'a>>,
) -> MeasuredCopy<'a>
    requires known { ForSome known (λ k. IsKnown k (view tree.now)) }
    requires short { size (view tree.now) ≤ DOCUMENT_BYTES }
    ensures len { result.len ≡ copied (meaning operation.now) (view tree.now) }
    ensures known { ForSome result.known (λ k. IsKnown k (view tree.now)) }
{
    match operation {
        Operation::Copy { from, .. } => copied_from(tree, from, known),
        _ => MeasuredCopy { len: 0, known },
    }
}

// Measures the value at the place.
fn copied_from<'a>(
    tree: &Tree,
    from: &'a Pointer,
    known: Option<KnownPlace<'a>>,
) -> MeasuredCopy<'a>
    requires known { ForSome known (λ k. IsKnown k (view tree.now)) }
    requires short { size (view tree.now) ≤ DOCUMENT_BYTES }
    ensures len { result.len ≡ size_of (resolve from.now (view tree.now)) }
    ensures known { ForSome result.known (λ k. IsKnown k (view tree.now)) }
{
    let Some(value) = from.resolve(tree) else {
        return MeasuredCopy { len: 0, known };
    };
    let path = from.tokens();
    let extent = extent_at(known, path);
    let len = gone_len(value, extent.len);
    let extent = KnownSize {
        height: extent.height,
        len: Some(len),
    };
    MeasuredCopy {
        len,
        known: Some(KnownPlace { path, extent }),
    }
}

/// How many members or elements the object or array has from which the operation takes one.
pub fn siblings(tree: &Tree, operation: &Operation) -> u64
    ensures { result ≡ siblings (meaning operation.now) (view tree.now) }
{
    match operation {
        Operation::Remove { path } => children_at(tree, holder(path.tokens())),
        Operation::Move { from, .. } => children_at(tree, holder(from.tokens())),
        _ => 0,
    }
}

// How many members or elements the value at the place has; 0 if there is none.
fn children_at(tree: &Tree, place: &[String]) -> u64
    ensures { result ≡ children_of (resolve (tokens_of place.now) (view tree.now)) }
{
    let [token, rest @ ..] = place else {
        return children(tree);
    };
    match child_at(tree, token.as_str()) {
        Some(child) => children_at(child, rest),
        None => 0,
    }
}

fn children(tree: &Tree) -> u64
    ensures { result ≡ children (view tree.now) }
{
    match tree {
        Tree::Object(members) => members.len() as u64,
        Tree::List(items) => items.len() as u64,
        _ => 0,
    }
}
