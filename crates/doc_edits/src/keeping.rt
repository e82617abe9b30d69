//! The places that are kept before an operation changes a document in place.

ghost use Rattle.std.specs.Prelude.{◌≡◌, ◌<◌, ◌^◌, None, Some, IfOk, MatchOption, [], decimal, string_bytes};
ghost use Rattle.doc_edits.specs.Change.{tokens_of};
ghost use Rattle.doc_edits.specs.Edit as edit;
ghost use Rattle.doc_edits.specs.Keeping.{IsOriginOf, LeadsBack, TakesBack, end_at, last_of, with_last};
ghost use Rattle.doc_tree.specs.Doc.{Doc};
ghost use Rattle.doc_tree.specs.Sound.{IsSound};
ghost use Rattle.doc_tree.specs.TreeView.{view};

use crate::back::{Back, Origin};
use crate::spare::spare_at;
use doc_pointer::child_at;
use doc_tree::Tree;
use name_map::Name;
use std::alloc::{AllocError, Global};

/// The whole document as it is, to be put back.
pub fn whole(alloc: Global, tree: &Tree) -> Result<Back, AllocError>
    ensures { IfOk result (λ back. (e : Doc) → TakesBack (Some back) (view tree.now) e) }
{
    Ok(Back::Exchange {
        path: Vec::new(alloc),
        old: Some(tree.copy(alloc)?),
    })
}

/// The place with room by which what goes from there comes back; `None` if nothing can go from there.
pub fn origin_of(alloc: Global, tree: &Tree, path: &[String]) -> Result<Option<Origin>, AllocError>
    ensures { IfOk result (λ found. MatchOption found
        (edit.remove (tokens_of path.now) (view tree.now) ≡ None)
        (λ origin. IsSound (view tree.now) → IsOriginOf origin (tokens_of path.now) (view tree.now))) }
{
    let [token, rest @ ..] = path else {
        return Ok(None);
    };
    let Some(spare) = spare_at(alloc, tree, token.as_str(), rest)? else {
        return Ok(None);
    };
    let last = last_of(token.as_str(), rest);
    Ok(Some(Origin {
        path: copy_path(alloc, path)?,
        name: Name::copy_of(alloc, last)?,
        spare,
    }))
}

// The last of the tokens.
fn last_of<'a>(token: &'a str, rest: &'a [String]) -> &'a str
    ensures { result.now ≡ last_of token.now (tokens_of rest.now) }
{
    match rest.last() {
        Some(last) => last.as_str(),
        None => token,
    }
}

/// The place at which an addition is taken back: `-` there means the index after the last element.
pub fn path_of_addition(
    alloc: Global,
    tree: &Tree,
    path: &[String],
) -> Result<Vec<String>, AllocError>
    ensures { IfOk result (λ back. LeadsBack (tokens_of back.items) (tokens_of path.now) (view tree.now)) }
{
    let [token, rest @ ..] = path else {
        return Ok(Vec::new(alloc));
    };
    match end_at(tree, token.as_str(), rest) {
        Some(len) => path_to(alloc, token.as_str(), rest, len),
        None => copy_path(alloc, path),
    }
}

// How many elements the array has at whose end the place is, if its last token is `-`.
fn end_at(tree: &Tree, token: &str, rest: &[String]) -> Option<u64>
    ensures { result ≡ end_at token.now (tokens_of rest.now) (view tree.now) }
{
    let [next, others @ ..] = rest else {
        return end_here(tree, token);
    };
    end_at(child_at(tree, token)?, next.as_str(), others)
}

fn end_here(tree: &Tree, token: &str) -> Option<u64>
    ensures { result ≡ end_at token.now [] (view tree.now) }
{
    match tree {
        Tree::List(items) => {
            if token == "-" {
                Some(items.len() as u64)
            } else {
                None
            }
        }
        _ => None,
    }
}

/// The same tokens, in memory of their own.
pub fn copy_path(alloc: Global, path: &[String]) -> Result<Vec<String>, AllocError>
    ensures { IfOk result (λ copy. tokens_of copy.items ≡ tokens_of path.now) }
{
    let mut copy = Vec::with_capacity(alloc, path.len())?;
    for token in path {
        copy.push(String::from_str(alloc, token.as_str())?)?;
    }
    Ok(copy)
}

// The tokens with that index in place of the last one.
fn path_to(
    alloc: Global,
    token: &str,
    rest: &[String],
    index: u64,
) -> Result<Vec<String>, AllocError>
    ensures path { IfOk result (λ path. tokens_of path.items
        ≡ with_last (decimal index) token.now (tokens_of rest.now)) }
    ensures small { index < 2 ^ 64 }
{
    let mut path = Vec::with_capacity(alloc, rest.len() + 1)?;
    let mut last = token;
    for next in rest {
        path.push(String::from_str(alloc, last)?)?;
        last = next.as_str();
    }
    let mut buffer = itoa::Buffer::new();
    path.push(String::from_str(alloc, buffer.format(index))?)?;
    Ok(path)
}
