//! The height of a document: how deep it nests.
ghost use Rattle.std.specs.Prelude.{◌≡◌, min};
ghost use Rattle.doc_tree.specs.Doc.{height, elements_height, members_height};
ghost use Rattle.doc_tree.specs.Sound.{IsSound, AreSound, MembersAreSound};
ghost use Rattle.doc_tree.specs.TreeView.{view, elements_view, members_view};

use crate::tree::Tree;
use name_map::NameMap;

impl Tree {
    /// How deep lists and objects nest: 0 for a scalar, 1 for an empty container; `u64::MAX` if it is more. The walk
    /// also shows that the tree is sound: numbers fit, texts are UTF-8, members are in order.
    pub fn height(&self) -> u64
        ensures height { result ≡ min (height (view self.now)) 0xffff_ffff_ffff_ffff }
        ensures sound { IsSound (view self.now) }
    {
        height_of(self)
    }
}

#[cycle(height)]
fn height_of(tree: &Tree) -> u64
    ensures height { result ≡ min (height (view tree.now)) 0xffff_ffff_ffff_ffff }
    ensures sound { IsSound (view tree.now) }
{
    match tree {
        Tree::Null => 0,
        Tree::Bool(_) => 0,
        Tree::Int(n) => {
            let _n = *n;
            0
        }
        Tree::Text(_) => 0,
        Tree::List(items) => height_over(items).saturating_add(1),
        Tree::Object(members) => height_over_members(members).saturating_add(1),
    }
}

#[cycle(height)]
fn height_over(items: &Vec<Tree>) -> u64
    ensures height { result ≡ min (elements_height (elements_view items.now.items)) 0xffff_ffff_ffff_ffff }
    ensures sound { AreSound (elements_view items.now.items) }
{
    let mut most = 0;
    for item in items {
        most = height_of(item).max(most);
    }
    most
}

#[cycle(height)]
fn height_over_members(members: &NameMap<Tree>) -> u64
    ensures height { result
        ≡ min (members_height (members_view members.now.entries)) 0xffff_ffff_ffff_ffff }
    ensures sound { MembersAreSound (members_view members.now.entries) }
{
    let mut most = 0;
    for (_, member) in members.iter() {
        most = height_of(member).max(most);
    }
    most
}
