//! Room in the object or array that holds a place, by which a value that goes from there comes back without memory.

ghost use Rattle.std.specs.Prelude.{◌≡◌, ◌<◌, ◌≤◌, IfOk, MatchOption, None, insert};
ghost use Rattle.doc_edits.specs.Change.{tokens_of};
ghost use Rattle.doc_edits.specs.Edit.{Token, at_last, remove_here};
ghost use Rattle.doc_edits.specs.Spare.{IsSpareAt, IsSpareIn};
ghost use Rattle.doc_tree.specs.TreeView.{view};

use doc_pointer::child_at;
use doc_tree::Tree;
use name_map::Room;
use std::alloc::{AllocError, Global};
use std::marker::Model;

/// Room for as many members or elements as there are.
#[derive(Drop)]
pub enum Spare {
    /// In an object.
    Members(Room<Tree>),
    /// In an array.
    Elements(ItemRoom),
}

impl Spare {
    /// For how many.
    pub fn len(&self) -> u64 {
        match self {
            Spare::Members(room) => room.len() as u64,
            Spare::Elements(room) => room.len() as u64,
        }
    }
}

/// Room for elements. Contracts see it as for how many.
#[derive(Drop)]
pub struct ItemRoom {
    items: Vec<Tree>,
}

impl Model for ItemRoom {
    ghost use Rattle.std.specs.Prelude.{ℕ, ◌≡◌, [], vec_capacity};

    ghost Value = { ℕ };

    ghost view = { λ r. vec_capacity r.items };

    ghost invariant = { λ r. r.items.items ≡ [] };
}

impl ItemRoom {
    fn with(alloc: Global, len: usize) -> Result<ItemRoom, AllocError>
        ensures { IfOk result (λ room. len ≤ room) }
    {
        Ok(ItemRoom {
            items: Vec::with_capacity(alloc, len)?,
        })
    }

    /// For how many elements it is.
    pub fn len(&self) -> usize
        ensures { result ≡ self.now }
    {
        self.items.capacity()
    }
}

/// Room for what the object or array has that holds the place; `None` if there is none.
pub fn spare_at(
    alloc: Global,
    tree: &Tree,
    token: &str,
    rest: &[String],
) -> Result<Option<Spare>, AllocError>
    ensures { IfOk result (λ found. MatchOption found
        (at_last remove_here token.now (tokens_of rest.now) (view tree.now) ≡ None)
        (λ spare. IsSpareAt spare token.now (tokens_of rest.now) (view tree.now))) }
{
    let [next, others @ ..] = rest else {
        return spare_in(alloc, tree);
    };
    match child_at(tree, token) {
        Some(child) => spare_at(alloc, child, next.as_str(), others),
        None => Ok(None),
    }
}

fn spare_in(alloc: Global, tree: &Tree) -> Result<Option<Spare>, AllocError>
    ensures { IfOk result (λ found. MatchOption found
        ((token : Token) → remove_here token (view tree.now) ≡ None)
        (λ spare. IsSpareIn spare (view tree.now))) }
{
    match tree {
        Tree::Object(members) => Ok(Some(Spare::Members(members.room(alloc)?))),
        Tree::List(items) => Ok(Some(Spare::Elements(ItemRoom::with(alloc, items.len())?))),
        _ => Ok(None),
    }
}

/// Puts an element in at the index, into the room that the array has or else into the one that is given.
pub fn put_item_in(items: &mut Vec<Tree>, room: ItemRoom, index: usize, value: Tree)
    requires room { items.old.len < room }
    requires within { index ≤ items.old.len }
    ensures { items.new.items ≡ insert items.old.items index value }
{
    if items.len() < items.capacity() {
        items.insert(index, value).unwrap();
    } else {
        let mut list = room.items;
        list.append(items).unwrap();
        list.insert(index, value).unwrap();
        *items = list;
    }
}
