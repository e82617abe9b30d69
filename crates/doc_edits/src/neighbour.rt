//! The value beside a place, with which one that comes there may share the names of its members.

use doc_pointer::child_at;
use doc_tree::Tree;

/// The value at the place, or else the last of its object or array.
pub fn neighbour_at<'t>(tree: &'t Tree, path: &[String]) -> Option<&'t Tree> {
    let mut here = tree;
    for token in path {
        match child_at(here, token.as_str()) {
            Some(child) => here = child,
            None => return last_of(here),
        }
    }
    Some(here)
}

fn last_of(tree: &Tree) -> Option<&Tree> {
    match tree {
        Tree::Object(members) => members.last_value(),
        Tree::List(items) => items.last(),
        _ => None,
    }
}
