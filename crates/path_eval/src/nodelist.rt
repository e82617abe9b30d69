//! Nodelists whose names the document lends.
ghost use Rattle.std.specs.Prelude.{◌≡◌, ◌<◌, IfOk, length, Some};
ghost use Rattle.std.specs.List.{slice_get};
ghost use Rattle.path_eval.specs.NodeView.{listed_of};
ghost use Rattle.path_eval.specs.NodeView.{lent_node_of};

use crate::node::LentNode;
use doc_tree::Tree;
use path_select::paths::{Walk, path_to};
use std::alloc::{AllocError, Global};

/// The nodes that a query selects, in order. It holds no location; each is made when it is asked for.
#[derive(Drop)]
pub struct Nodelist<'t> {
    pub(crate) walk: Walk<'t>,
}

impl<'t> Nodelist<'t> {
    /// How many nodes there are.
    pub fn len(&self) -> usize
        ensures { result ≡ length (listed_of self.now) }
    {
        self.walk.listed.len()
    }

    /// The node of that number, counted from 0. The one error is that memory was refused.
    pub fn node(&self, alloc: Global, number: usize) -> Result<LentNode<'t>, AllocError>
        requires { number < length (listed_of self.now) }
        ensures { IfOk result (λ node. slice_get (listed_of self.now) number ≡ Some (lent_node_of node)) }
    {
        let spot = self.walk.listed[number];
        let steps = path_to(alloc, self.walk.trail.as_slice(), spot.place, 0)?;
        Ok(LentNode {
            steps,
            value: spot.value,
        })
    }
}
