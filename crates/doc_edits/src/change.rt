//! A change made in place, on a walk to its place with one reference for writing.

ghost use Rattle.std.specs.Prelude.{◌≡◌, [], Some, IfErr, IfOk, MatchResult, OnErr, option_map};
ghost use Rattle.doc_edits.specs.Change.{Fails, Takes, here, tokens_of, value_of};
ghost use Rattle.doc_edits.specs.Edit.{at_last};
ghost use Rattle.doc_edits.specs.SizeChange.{Grows};
ghost use Rattle.doc_edits.specs.Size.{size};
ghost use Rattle.doc_edits.specs.OperationFault.{IsMissing};
ghost use Rattle.doc_tree.specs.TreeView.{view};

use crate::fault::{MISSING, Unmade};
use crate::index::index_within;
use crate::spare::Spare;
use crate::{elements, members};
use doc_tree::Tree;
use name_map::Name;
use std::alloc::Global;

/// What is done at a place.
#[derive(Drop)]
pub enum Change {
    /// The value is added (RFC 6902, section 4.1).
    Add(Tree),
    /// The value there goes (section 4.2).
    Remove,
    /// The value replaces the one there (section 4.3).
    Replace(Tree),
    /// The value comes back to where it was, in the room that was kept for it, if it is a member under that name.
    Return {
        name: Name,
        spare: Spare,
        value: Tree,
    },
}

/// What a change took from the document, and what came or went beside its value.
#[derive(Drop)]
pub struct Made {
    /// The value that was at the place and no longer does.
    pub old: Option<Tree>,
    /// The bytes that came or went beside the value: a member's name with its colon, and a comma. `None` if they are
    /// more than a document may have.
    pub beside: Option<u64>,
}

/// Makes the change at the place that the token and those after it lead to.
///
/// `PATCH_MISSING` if the place isn't there, and `MEMORY` if an addition got none; then the document is as it was. A
/// removal and a replacement take no memory.
pub fn change_at(
    alloc: Global,
    tree: &mut Tree,
    token: &str,
    rest: &[String],
    change: Change,
) -> Result<Made, Unmade>
    ensures made { let made = at_last (here change) token.now (tokens_of rest.now) (view tree.old) in
        MatchResult result (λ _. made ≡ Some (view tree.new)) (λ e. IsMissing made e.fault) }
    ensures taken { IfOk result (λ m.
        Takes change token.now (tokens_of rest.now) (view tree.old) m.old) }
    ensures sized { IfOk result (λ m. Grows change m (size (view tree.old)) (size (view tree.new))) }
    ensures unchanged { OnErr result (view tree.new ≡ view tree.old) }
    ensures sure { IfErr result (λ e. Fails change e.fault) }
    ensures returned { IfErr result (λ e. option_map view e.value ≡ value_of change) }
{
    let [next, others @ ..] = rest else {
        return change_here(alloc, tree, token, change);
    };
    if let Some(members) = tree.as_object_mut() {
        match members.get_mut(token) {
            Some(child) => change_at(alloc, child, next.as_str(), others, change),
            None => Err(unmade(change)),
        }
    } else if let Some(items) = tree.as_list_mut() {
        match index_within(token, items.len() as u64) {
            Some(index) => change_at(alloc, &mut items[index], next.as_str(), others, change),
            None => Err(unmade(change)),
        }
    } else {
        Err(unmade(change))
    }
}

// The change in the object or array that holds the place.
fn change_here(alloc: Global, tree: &mut Tree, token: &str, change: Change) -> Result<Made, Unmade>
    ensures made { let made = here change token.now (view tree.old) in
        MatchResult result (λ _. made ≡ Some (view tree.new)) (λ e. IsMissing made e.fault) }
    ensures taken { IfOk result (λ m. Takes change token.now [] (view tree.old) m.old) }
    ensures sized { IfOk result (λ m. Grows change m (size (view tree.old)) (size (view tree.new))) }
    ensures unchanged { OnErr result (view tree.new ≡ view tree.old) }
    ensures sure { IfErr result (λ e. Fails change e.fault) }
    ensures returned { IfErr result (λ e. option_map view e.value ≡ value_of change) }
{
    if let Some(members) = tree.as_object_mut() {
        match change {
            Change::Add(value) => members::add(alloc, members, token, value),
            Change::Remove => members::remove(members, token),
            Change::Replace(value) => members::replace(members, token, value),
            Change::Return { name, spare, value } => members::put_in(members, name, spare, value),
        }
    } else if let Some(items) = tree.as_list_mut() {
        match change {
            Change::Add(value) => elements::add(items, token, value),
            Change::Remove => elements::remove(items, token),
            Change::Replace(value) => elements::replace(items, token, value),
            Change::Return {
                name: _name,
                spare,
                value,
            } => elements::put_in(items, token, spare, value),
        }
    } else {
        Err(unmade(change))
    }
}

// The change isn't made, since its place isn't there.
fn unmade(change: Change) -> Unmade
    ensures fault { result.fault ≡ MISSING }
    ensures value { option_map view result.value ≡ value_of change }
{
    match change {
        Change::Add(value) => Unmade::of(MISSING, value),
        Change::Remove => Unmade::nothing(),
        Change::Replace(value) => Unmade::of(MISSING, value),
        Change::Return {
            name: _name,
            spare: _spare,
            value,
        } => Unmade::of(MISSING, value),
    }
}
