//! The values below a value, without their locations.
ghost use Rattle.std.specs.Prelude.{◌≡◌, ◌++◌, IfOk};
ghost use Rattle.doc_tree.specs.TreeView.{elements_view, members_view, view};
ghost use Rattle.path_select.specs.Nodes.{element_descendants, member_descendants};
ghost use Rattle.path_select.specs.Values as found;
ghost use Rattle.path_select.specs.Values.{values};
ghost use Rattle.path_select.specs.ChildView.{docs_of};

use doc_tree::Tree;
use name_map::NameMap;
use std::alloc::{AllocError, Global};

/// The value itself and its descendants in preorder: a value before its children, children in order.
pub fn values_below<'t>(alloc: Global, value: &'t Tree) -> Result<Vec<&'t Tree>, AllocError>
    ensures { IfOk result (λ all. docs_of all.items ≡ found.values_below (view value.now)) }
{
    and_below(value, Vec::new(alloc))
}

#[cycle(below)]
fn and_below<'t>(value: &'t Tree, before: Vec<&'t Tree>) -> Result<Vec<&'t Tree>, AllocError>
    ensures { IfOk result (λ all. docs_of all.items ≡ docs_of before.entry.items ++ found.values_below (view value.now)) }
{
    let mut before = before;
    before.push(value)?;
    match value {
        Tree::List(items) => and_below_elements(items, before),
        Tree::Object(members) => and_below_members(members, before),
        _ => Ok(before),
    }
}

#[cycle(below)]
#[tactic(auto, using(crate::proofs::Descents::child_by_child))]
fn and_below_elements<'t>(
    items: &'t Vec<Tree>,
    before: Vec<&'t Tree>,
) -> Result<Vec<&'t Tree>, AllocError>
    ensures { IfOk result (λ all. docs_of all.items
        ≡ docs_of before.entry.items ++ values (element_descendants 0 (elements_view items.now.items))) }
{
    let mut all = before;
    for item in items {
        all = and_below(item, all)?;
    }
    Ok(all)
}

#[cycle(below)]
#[tactic(auto, using(crate::proofs::Descents::child_by_child))]
fn and_below_members<'t>(
    members: &'t NameMap<Tree>,
    before: Vec<&'t Tree>,
) -> Result<Vec<&'t Tree>, AllocError>
    ensures { IfOk result (λ all. docs_of all.items
        ≡ docs_of before.entry.items ++ values (member_descendants (members_view members.now.entries))) }
{
    let mut all = before;
    for (_, member) in members.iter() {
        all = and_below(member, all)?;
    }
    Ok(all)
}
