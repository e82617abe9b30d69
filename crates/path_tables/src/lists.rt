//! The nodes that plans select from the root on, by their numbers.
ghost use Rattle.doc_tree.specs.TreeView.{view};
ghost use Rattle.path_plans.specs.PlanView.{plan_view};
ghost use Rattle.path_plans.specs.Planned as planned;
ghost use Rattle.path_select.specs.Gives.{Gives};
ghost use Rattle.path_select.specs.Indexed.{IsIndex, at_numbers};
ghost use Rattle.path_select.specs.Nodes.{only_node};

use crate::by_number::numbers_from;
use crate::tables::phases_of;
use path_plans::plan::Plan;
use path_select::index::Index;
use path_select::stop::Stop;
use std::alloc::Global;

/// The nodes that the plan selects from the root on, with each filter asked once of each node.
pub fn numbers_of_plan(
    plan: &Plan<'_>,
    index: &Index<'_>,
    alloc: Global,
) -> Result<Vec<usize>, Stop>
    requires { IsIndex index.now }
    ensures { let q = plan_view plan.now in let us = only_node (view index.now.root.now) in
        Gives (λ found. at_numbers index.now found.items) result (planned.plan_refused q us) (planned.listed q us) }
{
    let phases = phases_of(plan, index, alloc)?;
    numbers_from(&phases, index, alloc, 0)
}
