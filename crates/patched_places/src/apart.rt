//! Two places of which neither holds the other.
ghost use Rattle.std.specs.Prelude.{◌≡◌, true};
ghost use Rattle.doc_tree.specs.TreeView.{view};
ghost use Rattle.doc_edits.specs.Change.{tokens_of};
ghost use Rattle.patched_places.specs.Apart.{ArePartedIn, IsObject, LeavesOthers};

use doc_pointer::child_at;
use doc_tree::Tree;

/// Whether the tokens part on the way, and a value that came at the end of `path` left each other child at its place.
/// The document is the one after it came.
pub(crate) fn are_parted(from: &[String], path: &[String], document: &Tree) -> bool
    ensures { result ≡ true → ArePartedIn (tokens_of from.now) (tokens_of path.now) (view document.now) }
{
    match from.split_first() {
        None => false,
        Some((token, from_rest)) => match path.split_first() {
            None => false,
            Some((other, path_rest)) => {
                if token.as_str() == other.as_str() {
                    match child_at(document, other.as_str()) {
                        None => false,
                        Some(below) => are_parted(from_rest, path_rest, below),
                    }
                } else {
                    leaves_others(path_rest, document)
                }
            }
        },
    }
}

// Whether what came at the end of the tokens, from this child of the document on, left each other child at its place.
fn leaves_others(rest: &[String], document: &Tree) -> bool
    ensures { result ≡ true → LeavesOthers (tokens_of rest.now) (view document.now) }
{
    match rest.split_first() {
        None => is_object(document),
        Some(_) => true,
    }
}

fn is_object(document: &Tree) -> bool
    ensures { result ≡ true → IsObject (view document.now) }
{
    match document {
        Tree::Object(_) => true,
        _ => false,
    }
}
