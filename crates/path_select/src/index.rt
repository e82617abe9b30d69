//! All nodes of a document, known by numbers.
ghost use Rattle.std.specs.Prelude.{◌≡◌, ◌≤◌, ◌++◌, IfOk, length};
ghost use Rattle.doc_tree.specs.TreeView.{view};
ghost use Rattle.path_select.specs.Indexed.{IsIndex, children_at};
ghost use Rattle.path_select.specs.Nodes as nodes;
ghost use Rattle.path_select.specs.Paths.{GoesOn, seen, spot_of, stand};

use crate::children::children;
use crate::paths::{Spot, Walk, with_child};
use doc_tree::Tree;
use std::alloc::{AllocError, Global};

/// The numbers of a node's children, which follow one another.
#[derive(Clone, Copy, Drop)]
pub struct Span {
    pub first: usize,
    pub count: usize,
}

/// The nodes of a document, each known by its number. The root has the number 0; a number that no node has represents
/// the root too.
#[derive(Drop)]
pub struct Index<'t> {
    pub root: &'t Tree,
    /// All nodes are listed.
    pub walk: Walk<'t>,
    /// The children of each node.
    pub spans: Vec<Span>,
    /// The children of the root.
    pub top: Span,
}

/// The walk, with the children of the node after what it has listed, and the span of these children in the list.
fn with_children<'t>(
    alloc: Global,
    walk: Walk<'t>,
    spot: Spot<'t>,
) -> Result<(Walk<'t>, Span), AllocError>
    requires stand { stand (length walk.trail.items) walk.listed.items }
    requires place { spot.place ≤ length walk.trail.items }
    ensures on { IfOk result (λ x. GoesOn walk.entry x.0) }
    ensures listed { IfOk result (λ x. seen x.0 ≡ seen walk.entry ++ children_at (spot_of walk.entry.trail.items spot.entry)) }
    ensures span { IfOk result (λ x. (x.1.first ≡ length walk.entry.listed.items)
        × (x.1.count ≡ length (nodes.children (view spot.entry.value.now)))) }
{
    let first = walk.listed.len();
    let found = children(alloc, spot.value)?;
    let count = found.len();
    let mut walked = walk;
    for child in &found {
        walked = with_child(walked, spot.place, *child)?;
    }
    Ok((walked, Span { first, count }))
}

/// The nodes of the document.
pub fn index_of<'t>(alloc: Global, root: &'t Tree) -> Result<Index<'t>, AllocError>
    ensures root { IfOk result (λ x. view x.root.now ≡ view root.now) }
    ensures complete { IfOk result IsIndex }
{
    let spot = Spot {
        place: 0,
        value: root,
    };
    let mut listed = Vec::new(alloc);
    listed.push(spot)?;
    let begun = Walk {
        trail: Vec::new(alloc),
        listed,
    };
    let (first, top) = with_children(alloc, begun, spot)?;
    let mut walk = first;
    let mut spans = Vec::new(alloc);
    spans.push(top)?;
    let mut number = 1;
    while number < walk.listed.len() {
        let spot = walk.listed[number];
        let (more, span) = with_children(alloc, walk, spot)?;
        walk = more;
        spans.push(span)?;
        number += 1;
    }
    Ok(Index {
        root,
        walk,
        spans,
        top,
    })
}
