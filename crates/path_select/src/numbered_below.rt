//! The numbers of a node and of all nodes below it.
ghost use Rattle.std.specs.Prelude.{◌≡◌, ◌++◌, IfOk, map};
ghost use Rattle.doc_tree.specs.TreeView.{view};
ghost use Rattle.path_select.specs.Indexed.{IsIndex, at_number, at_numbers};
ghost use Rattle.path_select.specs.Nodes.{beneath, descendants};

use crate::index::Index;
use crate::numbers::span_of;
use std::alloc::{AllocError, Global};

/// The numbers, and after them those of the node and of all nodes below it, in preorder. A child's value is less high
/// than that of its node, so this ends.
fn and_below(index: &Index<'_>, number: usize, before: Vec<usize>) -> Result<Vec<usize>, AllocError>
    requires { IsIndex index.now }
    ensures { let u = at_number index.now number in
        IfOk result (λ all. at_numbers index.now all.items ≡ at_numbers index.now before.items ++ map (beneath u.0) (descendants u.1)) }
{
    let mut all = before;
    all.push(number)?;
    let span = span_of(index, number);
    for place in 0..span.count {
        all = and_below(index, span.first + place, all)?;
    }
    Ok(all)
}

/// The numbers of the node and of all nodes below it, in preorder: a node before its children, children in order.
pub fn all_below(alloc: Global, index: &Index<'_>, number: usize) -> Result<Vec<usize>, AllocError>
    requires { IsIndex index.now }
    ensures { let u = at_number index.now number in
        IfOk result (λ all. at_numbers index.now all.items ≡ map (beneath u.0) (descendants u.1)) }
{
    and_below(index, number, Vec::new(alloc))
}
