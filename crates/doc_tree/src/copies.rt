//! A second tree for the same document.
ghost use Rattle.std.specs.Prelude.{◌≡◌, IfOk};
ghost use Rattle.doc_tree.specs.Sound.{IsSound, AreSound, MembersAreSound};
ghost use Rattle.doc_tree.specs.TreeView.{view, elements_view, members_view};

use crate::alike;
use crate::tree::Tree;
use name_map::NameMap;
use std::alloc::{AllocError, Global};

impl Tree {
    /// A tree of its own for the same document, which is sound as every tree of memory is. The two share names.
    pub fn copy(&self, alloc: Global) -> Result<Tree, AllocError>
        ensures same { IfOk result (λ t. view t ≡ view self.now) }
        ensures sound { IfOk result (λ t. IsSound (view t)) }
    {
        copy_tree(self, alloc, None)
    }

    /// The same, which shares names with `like` if the two are similar.
    pub fn copy_like(&self, alloc: Global, like: Option<&Tree>) -> Result<Tree, AllocError>
        ensures same { IfOk result (λ t. view t ≡ view self.now) }
        ensures sound { IfOk result (λ t. IsSound (view t)) }
    {
        copy_tree(self, alloc, like)
    }
}

#[cycle(copy)]
fn copy_tree(tree: &Tree, alloc: Global, like: Option<&Tree>) -> Result<Tree, AllocError>
    ensures same { IfOk result (λ t. view t ≡ view tree.now) }
    ensures sound { IfOk result (λ _. IsSound (view tree.now)) }
{
    match tree {
        Tree::Null => Ok(Tree::Null),
        Tree::Bool(b) => Ok(Tree::Bool(*b)),
        Tree::Int(n) => Ok(Tree::Int(*n)),
        Tree::Text(text) => Ok(Tree::Text(String::from_str(alloc, text.as_str())?)),
        Tree::List(items) => Ok(Tree::List(copy_elements(items, alloc, like)?)),
        Tree::Object(members) => Ok(Tree::Object(copy_members(members, alloc, like)?)),
    }
}

#[cycle(copy)]
fn copy_elements(
    items: &Vec<Tree>,
    alloc: Global,
    like: Option<&Tree>,
) -> Result<Vec<Tree>, AllocError>
    ensures same { IfOk result (λ v. elements_view v.items ≡ elements_view items.now.items) }
    ensures sound { IfOk result (λ _. AreSound (elements_view items.now.items)) }
{
    let mut copies = Vec::with_capacity(alloc, items.len())?;
    for item in items {
        let copy = copy_tree(item, alloc, alike::item(&copies, like))?;
        copies.push(copy)?;
    }
    Ok(copies)
}

#[cycle(copy)]
fn copy_members(
    members: &NameMap<Tree>,
    alloc: Global,
    like: Option<&Tree>,
) -> Result<NameMap<Tree>, AllocError>
    ensures same { IfOk result (λ m. members_view m.entries ≡ members_view members.now.entries) }
    ensures sound { IfOk result (λ _. MembersAreSound (members_view members.now.entries)) }
{
    let mut copies = NameMap::with_capacity(alloc, members.len())?;
    for (name, member) in members.named() {
        let twin = alike::member(&copies, name.as_str(), like);
        let copy = copy_tree(member, alloc, twin.value)?;
        let key = alike::share(name, twin.name)?;
        drop(copies.insert(key, copy)?);
    }
    Ok(copies)
}
