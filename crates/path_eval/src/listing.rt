//! The nodelist of a query (RFC 9535, sections 2.3 and 2.5).
ghost use Rattle.std.specs.Prelude.{◌≡◌, ◌<◌, ◌||◌, ◌++◌, [], get_or, IfErr, IfOk, length, map};
ghost use Rattle.doc_tree.specs.Place.{place_of};
ghost use Rattle.doc_tree.specs.TreeView.{view};
ghost use Rattle.path_parse.specs.SyntaxView.{query_view};
ghost use Rattle.path_eval.specs.Answer.{AreListed, AreNodes, IsFaultOf, nodelist_of};
ghost use Rattle.path_select.specs.Gives.{Gives};
ghost use Rattle.path_eval.specs.Listed.{IsReady, ListsAfter, Walks};
ghost use Rattle.path_select.specs.Nodes.{list_after, only_node, visited};
ghost use Rattle.path_plans.specs.PlanView.{choices_view, plan_view};
ghost use Rattle.path_plans.specs.Planned.{listed, plan, plan_refused};
ghost use Rattle.path_plans.specs.TooMany.{too_many};
ghost use Rattle.path_select.specs.Paths.{all_spots, location, seen, spot_of, stand};
ghost use Rattle.path_eval.specs.NodeView.{node_of, nodes_of};
ghost use Rattle.path_grammar.specs.Lent.{lent_place, lent_places};
ghost use Rattle.path_select.specs.Indexed.{IsIndex, at_numbers};
ghost use Rattle.path_tables.specs.Visiting.{refused_at, selected_at, visited_from};

use crate::fault::EvalFault;
use crate::node::Node;
use crate::nodelist::Nodelist;
use crate::walk::{select_below, select_here};
use doc_tree::{Step, Tree};
use path_grammar::LentStep;
use path_parse::Query;
use path_plans::plan::{Plan, PlanSegment, PlanSelector};
use path_select::index::{Index, index_of};
use path_select::numbers::spot_at;
use path_select::paths::{Mark, Spot, Walk, path_to};
use path_select::stop::Stop;
use path_tables::expensive::is_expensive;
use path_tables::lists::numbers_of_plan;
use path_tables::planning::{plain_plan_of, plan_of};
use std::alloc::{AllocError, Global};

/// The nodes that are listed, and what is taken of the node; of all that is below it too, if that is asked for.
fn and_taken<'t>(
    descend: bool,
    choices: &Vec<PlanSelector<'_>>,
    alloc: Global,
    node: Spot<'t>,
    walk: Walk<'t>,
) -> Result<Walk<'t>, Stop>
    requires { IsReady node.place walk }
    ensures { Walks (choices_view choices.now.items) walk.entry
        (visited_from descend (spot_of walk.entry.trail.items node.entry)) result }
{
    if descend {
        select_below(node.value, node.place, choices, alloc, walk)
    } else {
        select_here(node.value, node.place, choices, alloc, walk)
    }
}

/// The list after the segment.
fn after_segment<'t>(
    segment: &PlanSegment<'_>,
    alloc: Global,
    walk: Walk<'t>,
) -> Result<Walk<'t>, Stop>
    requires { stand (length walk.trail.items) walk.listed.items }
    ensures { ListsAfter (choices_view segment.now.choices.items) segment.now.descend (seen walk.entry) result }
{
    let Walk {
        trail,
        listed: list,
    } = walk;
    let mut walked = Walk {
        trail,
        listed: Vec::new(alloc),
    };
    for node in &list {
        walked = and_taken(segment.descend, &segment.choices, alloc, *node, walked)?;
    }
    Ok(walked)
}

/// The nodes that the plan selects from the root on, known by their places.
fn list_by<'t>(plan: &Plan<'_>, alloc: Global, root: &'t Tree) -> Result<Walk<'t>, Stop>
    ensures { let q = plan_view plan.now in
        Gives seen result (plan_refused q (only_node (view root.now))) (listed q (only_node (view root.now))) }
{
    let mut list = Vec::new(alloc);
    list.push(Spot {
        place: 0,
        value: root,
    })?;
    let mut walk = Walk {
        trail: Vec::new(alloc),
        listed: list,
    };
    for segment in &plan.segments {
        walk = after_segment(segment, alloc, walk)?;
    }
    Ok(walk)
}

/// The nodes of these numbers, known by their places.
fn spots_of<'t>(
    index: &Index<'t>,
    alloc: Global,
    numbers: &Vec<usize>,
) -> Result<Vec<Spot<'t>>, AllocError>
    requires { IsIndex index.now }
    ensures { IfOk result (λ spots. all_spots index.now.walk.trail.items spots.items ≡ at_numbers index.now numbers.now.items) }
{
    let mut spots = Vec::with_capacity(alloc, numbers.len())?;
    for number in numbers {
        spots.push(spot_at(index, *number))?;
    }
    Ok(spots)
}

/// The nodes that the query selects, with each filter asked once of each node.
fn spots_by_numbers<'t>(
    query: &Query,
    alloc: Global,
    index: &Index<'t>,
) -> Result<Vec<Spot<'t>>, Stop>
    requires { IsIndex index.now }
    ensures { let root = view index.now.root.now in let q = plan root (query_view query.now) in
        Gives (λ spots. all_spots index.now.walk.trail.items spots.items) result
        (plan_refused q (only_node root)) (listed q (only_node root)) }
{
    let plan = plan_of(query, alloc, index.root, Some(index))?;
    let numbers = numbers_of_plan(&plan, index, alloc)?;
    Ok(spots_of(index, alloc, &numbers)?)
}

/// The same nodes, known by their places.
fn list_by_numbers<'t>(query: &Query, alloc: Global, root: &'t Tree) -> Result<Walk<'t>, Stop>
    ensures { let q = plan (view root.now) (query_view query.now) in
        Gives seen result (plan_refused q (only_node (view root.now))) (listed q (only_node (view root.now))) }
{
    let index = index_of(alloc, root)?;
    let listed = spots_by_numbers(query, alloc, &index)?;
    let Index { walk, .. } = index;
    let Walk { trail, .. } = walk;
    Ok(Walk { trail, listed })
}

/// The nodes that the query selects, known by their places.
fn list_of<'t>(query: &Query, alloc: Global, root: &'t Tree) -> Result<Walk<'t>, Stop>
    ensures { let q = query_view query.now in
        Gives seen result
        (too_many (view root.now) q (only_node (view root.now)))
        (nodelist_of (view root.now) q) }
{
    if is_expensive(query) {
        list_by_numbers(query, alloc, root)
    } else {
        let plan = plain_plan_of(query, alloc, root)?;
        list_by(&plan, alloc, root)
    }
}

/// The step, with a name of its own.
fn step_of(alloc: Global, lent: LentStep<'_>) -> Result<Step, AllocError>
    ensures { IfOk result (λ step. place_of step ≡ lent_place lent.entry) }
{
    match lent {
        LentStep::Name(name) => Ok(Step::Name(String::from_str(alloc, name.as_str())?)),
        LentStep::Index(index) => Ok(Step::Index(index)),
    }
}

/// The steps, with names of their own.
fn steps_of(alloc: Global, lent: &Vec<LentStep<'_>>) -> Result<Vec<Step>, AllocError>
    ensures { IfOk result (λ steps. map place_of steps.items ≡ lent_places lent.now.items) }
{
    let mut steps = Vec::with_capacity(alloc, lent.len())?;
    for step in lent {
        steps.push(step_of(alloc, *step)?)?;
    }
    Ok(steps)
}

/// The node, with steps of its own.
fn node_at<'t>(alloc: Global, trail: &[Mark<'t>], spot: Spot<'t>) -> Result<Node<'t>, AllocError>
    ensures { IfOk result (λ node. node_of node ≡ spot_of trail.now spot.entry) }
{
    let lent = path_to(alloc, trail, spot.place, 0)?;
    let steps = steps_of(alloc, &lent)?;
    Ok(Node {
        steps,
        value: spot.value,
    })
}

/// The nodes, with steps of their own.
fn owned<'t>(alloc: Global, walk: &Walk<'t>) -> Result<Vec<Node<'t>>, AllocError>
    ensures { IfOk result (λ found. nodes_of found.items ≡ seen walk.now) }
{
    let mut found = Vec::with_capacity(alloc, walk.listed.len())?;
    for spot in &walk.listed {
        found.push(node_at(alloc, walk.trail.as_slice(), *spot)?)?;
    }
    Ok(found)
}

/// The nodes that the query selects in the document, in order, each with its location and with its value, which the
/// document lends (RFC 9535, sections 2.3 and 2.5). Descendants are visited in preorder, members in the order of their
/// names' bytes.
///
/// `PATH_NODES` exactly when the list after some segment has more than `limits::NODES` nodes, be it of the query or of
/// a query in a filter; all operands of a filter are evaluated. `MEMORY` may come in place of any answer.
pub fn nodes<'t>(alloc: Global, query: &Query, tree: &'t Tree) -> Result<Vec<Node<'t>>, EvalFault>
    ensures ok { IfOk result (λ found. AreNodes (view tree.now) (query_view query.now) found.items) }
    ensures err { IfErr result (IsFaultOf (view tree.now) (query_view query.now)) }
{
    let walk = list_of(query, alloc, tree)?;
    Ok(owned(alloc, &walk)?)
}

/// The same nodes, with no copy of a name and no location before it is asked for.
pub fn lent_nodes<'t>(
    alloc: Global,
    query: &Query,
    tree: &'t Tree,
) -> Result<Nodelist<'t>, EvalFault>
    ensures ok { IfOk result (AreListed (view tree.now) (query_view query.now)) }
    ensures err { IfErr result (IsFaultOf (view tree.now) (query_view query.now)) }
{
    let walk = list_of(query, alloc, tree)?;
    Ok(Nodelist { walk })
}
