//! The children of a value (RFC 9535, section 1.1).
ghost use Rattle.std.specs.Prelude.{◌≡◌, IfOk, map};
ghost use Rattle.doc_tree.specs.TreeView.{elements_view, members_view, view};
ghost use Rattle.path_select.specs.Nodes as nodes;
ghost use Rattle.path_select.specs.Nodes.{element_children, member_children};
ghost use Rattle.path_select.specs.ChildView.{children_of};

use doc_tree::Tree;
use name_map::NameMap;
use path_grammar::LentStep;
use std::alloc::{AllocError, Global};

/// A child of a value, and the step to it.
#[derive(Clone, Copy, Drop)]
pub struct Child<'t> {
    pub step: LentStep<'t>,
    pub value: &'t Tree,
}

/// The children of the value: elements by their indexes, members in the order of their names' bytes.
pub fn children<'t>(alloc: Global, value: &'t Tree) -> Result<Vec<Child<'t>>, AllocError>
    ensures { IfOk result (λ found. children_of found.items ≡ nodes.children (view value.now)) }
{
    match value {
        Tree::List(items) => elements(alloc, items),
        Tree::Object(entries) => members(alloc, entries),
        _ => Ok(Vec::new(alloc)),
    }
}

fn elements<'t>(alloc: Global, items: &'t Vec<Tree>) -> Result<Vec<Child<'t>>, AllocError>
    ensures { IfOk result (λ found. children_of found.items ≡ element_children 0 (elements_view items.now.items)) }
{
    let mut found = Vec::with_capacity(alloc, items.len())?;
    for (index, value) in items.iter().enumerate() {
        found.push(Child {
            step: LentStep::Index(index as u64),
            value,
        })?;
    }
    Ok(found)
}

fn members<'t>(alloc: Global, entries: &'t NameMap<Tree>) -> Result<Vec<Child<'t>>, AllocError>
    ensures { IfOk result (λ found. children_of found.items ≡ member_children (members_view entries.now.entries)) }
{
    let mut found = Vec::with_capacity(alloc, entries.len())?;
    for (name, value) in entries.iter() {
        found.push(Child {
            step: LentStep::Name(name),
            value,
        })?;
    }
    Ok(found)
}
