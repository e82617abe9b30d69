//! The step that takes one operation back.

ghost use Rattle.std.specs.Prelude.{◌≡◌, Some, is_some, option_map, string_bytes, true};
ghost use Rattle.doc_edits.specs.Back.{exchanged, moved_back, return_to, step_back, step_of};
ghost use Rattle.doc_edits.specs.Change.{tokens_of};
ghost use Rattle.doc_edits.specs.Edit as edit;
ghost use Rattle.doc_pointer.specs.Place.{resolve};
ghost use Rattle.doc_tree.specs.TreeView.{view};

use crate::change::{Change, change_at};
use crate::spare::Spare;
use doc_tree::Tree;
use name_map::Name;
use std::alloc::Global;
use std::mem;

/// Takes one operation back.
#[derive(Drop)]
pub enum Back {
    /// The value at the place goes, or gives way to the one that was there.
    Exchange {
        path: Vec<String>,
        old: Option<Tree>,
    },
    /// The value comes back to where it was.
    PutIn {
        origin: Origin,
        value: Tree,
    },
    /// The value at the place goes back to where it was, and the one that it replaced comes again.
    MoveBack {
        path: Vec<String>,
        old: Option<Tree>,
        origin: Origin,
    },
}

/// The place of a value that went, with the room by which it comes back.
#[derive(Drop)]
pub struct Origin {
    /// The tokens that lead there.
    pub path: Vec<String>,
    /// The last of them.
    pub name: Name,
    /// Room in the object or array that holds the place.
    pub spare: Spare,
}

impl Back {
    /// For how many members or elements it keeps room.
    pub fn room(&self) -> u64 {
        match self {
            Back::Exchange { .. } => 0,
            Back::PutIn { origin, .. } => origin.spare.len(),
            Back::MoveBack { origin, .. } => origin.spare.len(),
        }
    }
}

/// Makes of the document what it was before one operation. It takes no memory.
pub fn take_step_back(alloc: Global, tree: &mut Tree, step: Back)
    requires { is_some (step_back (step_of step) (view tree.old)) ≡ true }
    ensures { step_back (step_of step) (view tree.old) ≡ Some (view tree.new) }
{
    match step {
        Back::Exchange { path, old } => drop(exchange(alloc, tree, &path, old)),
        Back::PutIn { origin, value } => put_in(alloc, tree, origin, value),
        Back::MoveBack { path, old, origin } => move_back(alloc, tree, &path, old, origin),
    }
}

// Puts the value at the place back to where it was, and the one there again that it replaced.
fn move_back(alloc: Global, tree: &mut Tree, path: &[String], old: Option<Tree>, origin: Origin)
    requires { is_some (moved_back (tokens_of path.now) (option_map view old)
        (tokens_of origin.path.items) (string_bytes origin.name) origin.spare (view tree.old)) ≡ true }
    ensures { moved_back (tokens_of path.now) (option_map view old)
        (tokens_of origin.path.items) (string_bytes origin.name) origin.spare (view tree.old) ≡ Some (view tree.new) }
{
    if let Some(value) = exchange(alloc, tree, path, old) {
        put_in(alloc, tree, origin, value);
    }
}

// Takes the value at the place away, and puts the old one there again, if there was one.
fn exchange(alloc: Global, tree: &mut Tree, path: &[String], old: Option<Tree>) -> Option<Tree>
    requires { is_some (exchanged (tokens_of path.now) (option_map view old) (view tree.old)) ≡ true }
    ensures made { exchanged (tokens_of path.now) (option_map view old) (view tree.old) ≡ Some (view tree.new) }
    ensures taken { option_map view result ≡ resolve (tokens_of path.now) (view tree.old) }
{
    match old {
        Some(old) => put_again(alloc, tree, path, old),
        None => take_out(alloc, tree, path),
    }
}

// Removes the value at the place, which is not the root.
fn take_out(alloc: Global, tree: &mut Tree, path: &[String]) -> Option<Tree>
    requires { is_some (edit.remove (tokens_of path.now) (view tree.old)) ≡ true }
    ensures made { edit.remove (tokens_of path.now) (view tree.old) ≡ Some (view tree.new) }
    ensures taken { option_map view result ≡ resolve (tokens_of path.now) (view tree.old) }
{
    let [token, rest @ ..] = path else {
        return None;
    };
    match change_at(alloc, tree, token.as_str(), rest, Change::Remove) {
        Ok(made) => made.old,
        Err(_) => None,
    }
}

// Replaces the value at the place.
fn put_again(alloc: Global, tree: &mut Tree, path: &[String], value: Tree) -> Option<Tree>
    requires { is_some (edit.replace (tokens_of path.now) (view value) (view tree.old)) ≡ true }
    ensures made { edit.replace (tokens_of path.now) (view value) (view tree.old) ≡ Some (view tree.new) }
    ensures taken { option_map view result ≡ resolve (tokens_of path.now) (view tree.old) }
{
    let [token, rest @ ..] = path else {
        return Some(mem::replace(tree, value));
    };
    match change_at(alloc, tree, token.as_str(), rest, Change::Replace(value)) {
        Ok(made) => made.old,
        Err(_) => None,
    }
}

/// Puts the value back to where it was, if it can come back there. It takes no memory.
pub fn put_in(alloc: Global, tree: &mut Tree, origin: Origin, value: Tree)
    ensures { let made = return_to (tokens_of origin.path.items) (string_bytes origin.name) origin.spare (view value) (view tree.old) in
        is_some made ≡ true → made ≡ Some (view tree.new) }
{
    let Origin { path, name, spare } = origin;
    if let [token, rest @ ..] = path.as_slice() {
        let change = Change::Return { name, spare, value };
        let _made = change_at(alloc, tree, token.as_str(), rest, change);
    }
}
