//! The test for a loop in a graph.

ghost use Rattle.std.specs.Prelude.{◌↔◌, IsTrue, IfOk};
ghost use Rattle.schema_graph.specs.Numbered.{IsClosed, IsCyclic};

use crate::walk::order_of;
use std::alloc::{AllocError, Global};

/// Whether the graph, given by the places that each place leads to, has a loop. An error means that memory ran out.
pub fn has_loop(alloc: Global, graph: &[Vec<usize>]) -> Result<bool, AllocError>
    requires { IsClosed graph.now }
    ensures { IfOk result (λ b. IsTrue b ↔ IsCyclic graph.now) }
{
    match order_of(alloc, graph)? {
        Some(_) => Ok(false),
        None => Ok(true),
    }
}
