//! The children that choices take of a value and of all values below it (RFC 9535, section 2.5.2). A value that is
//! visited has a place in the trail as long as something may be selected below it, and keeps it if something was.
ghost use Rattle.std.specs.Prelude.{◌≡◌, ◌++◌, ◌∷◌, [], false, length, map};
ghost use Rattle.doc_tree.specs.TreeView.{elements_view, members_view, view};
ghost use Rattle.path_eval.specs.Listed.{Goes, IsReady, Walks};
ghost use Rattle.path_select.specs.Nodes.{beneath, child_at, descendants, element_descendants, member_descendants, under};
ghost use Rattle.path_plans.specs.PlanView.{choices_view};
ghost use Rattle.path_select.specs.Paths.{location};
ghost use Rattle.path_select.specs.ChildView.{children_of};
ghost use Rattle.path_grammar.specs.Lent.{lent_place};

use doc_tree::Tree;
use name_map::NameMap;
use path_grammar::LentStep;
use path_plans::passing::all_taken;
use path_plans::plan::PlanSelector;
use path_select::children::Child;
use path_select::limits::NODES;
use path_select::paths::{Mark, Walk, back, with_child};
use path_select::stop::Stop;
use path_tables::leaf::is_leaf;
use std::alloc::Global;

/// The nodes that are listed, and the children of the value at the place; `Stop::TooMany` if they are too many for a
/// list.
fn and_nodes<'t>(place: usize, walk: Walk<'t>, more: Vec<Child<'t>>) -> Result<Walk<'t>, Stop>
    requires { IsReady place walk }
    ensures { Goes walk.entry false (map (child_at (location walk.entry.trail.items place)) (children_of more.entry.items)) result }
{
    if more.len() + walk.listed.len() > NODES {
        return Err(Stop::TooMany);
    }
    let mut walked = walk;
    for child in &more {
        walked = with_child(walked, place, *child)?;
    }
    Ok(walked)
}

/// The nodes that are listed, and what is taken of the value at the place.
pub fn select_here<'t>(
    here: &'t Tree,
    place: usize,
    choices: &Vec<PlanSelector<'_>>,
    alloc: Global,
    walk: Walk<'t>,
) -> Result<Walk<'t>, Stop>
    requires { IsReady place walk }
    ensures { Walks (choices_view choices.now.items) walk.entry
        ((location walk.entry.trail.items place, view here.now) ∷ []) result }
{
    let children = all_taken(choices, alloc, here)?;
    and_nodes(place, walk, children)
}

/// The nodes that are listed, and what is taken of the value at the place and of all values below it.
#[cycle(walk)]
pub fn select_below<'t>(
    here: &'t Tree,
    place: usize,
    choices: &Vec<PlanSelector<'_>>,
    alloc: Global,
    walk: Walk<'t>,
) -> Result<Walk<'t>, Stop>
    requires { IsReady place walk }
    ensures { Walks (choices_view choices.now.items) walk.entry
        (map (beneath (location walk.entry.trail.items place)) (descendants (view here.now))) result }
{
    let walk = select_here(here, place, choices, alloc, walk)?;
    match here {
        Tree::List(items) => below_elements(items, place, choices, alloc, walk),
        Tree::Object(members) => below_members(members, place, choices, alloc, walk),
        _ => Ok(walk),
    }
}

/// The same of a child. Of one that has no children itself nothing is taken.
#[cycle(walk)]
fn below_child<'t>(
    value: &'t Tree,
    step: LentStep<'t>,
    place: usize,
    choices: &Vec<PlanSelector<'_>>,
    alloc: Global,
    walk: Walk<'t>,
) -> Result<Walk<'t>, Stop>
    requires { IsReady place walk }
    ensures { Walks (choices_view choices.now.items) walk.entry
        (map (beneath (location walk.entry.trail.items place)) (map (under (lent_place step.entry)) (descendants (view value.now)))) result }
{
    if is_leaf(value) {
        Ok(walk)
    } else {
        below_branch(value, step, place, choices, alloc, walk)
    }
}

/// The same of a list or an object.
#[cycle(walk)]
fn below_branch<'t>(
    value: &'t Tree,
    step: LentStep<'t>,
    place: usize,
    choices: &Vec<PlanSelector<'_>>,
    alloc: Global,
    walk: Walk<'t>,
) -> Result<Walk<'t>, Stop>
    requires { IsReady place walk }
    ensures { Walks (choices_view choices.now.items) walk.entry
        (map (beneath (location walk.entry.trail.items place)) (map (under (lent_place step.entry)) (descendants (view value.now)))) result }
{
    let Walk { trail, listed } = walk;
    let known = trail.len();
    let count = listed.len();
    let mut trail = trail;
    trail.push(Mark { above: place, step })?;
    let walked = select_below(value, trail.len(), choices, alloc, Walk { trail, listed })?;
    Ok(back(walked, known, count))
}

#[cycle(walk)]
fn below_elements<'t>(
    items: &'t Vec<Tree>,
    place: usize,
    choices: &Vec<PlanSelector<'_>>,
    alloc: Global,
    walk: Walk<'t>,
) -> Result<Walk<'t>, Stop>
    requires { IsReady place walk }
    ensures { Walks (choices_view choices.now.items) walk.entry
        (map (beneath (location walk.entry.trail.items place)) (element_descendants 0 (elements_view items.now.items))) result }
{
    let mut walked = walk;
    for (index, value) in items.iter().enumerate() {
        walked = below_child(
            value,
            LentStep::Index(index as u64),
            place,
            choices,
            alloc,
            walked,
        )?;
    }
    Ok(walked)
}

#[cycle(walk)]
fn below_members<'t>(
    members: &'t NameMap<Tree>,
    place: usize,
    choices: &Vec<PlanSelector<'_>>,
    alloc: Global,
    walk: Walk<'t>,
) -> Result<Walk<'t>, Stop>
    requires { IsReady place walk }
    ensures { Walks (choices_view choices.now.items) walk.entry
        (map (beneath (location walk.entry.trail.items place)) (member_descendants (members_view members.now.entries))) result }
{
    let mut walked = walk;
    for (name, value) in members.iter() {
        walked = below_child(value, LentStep::Name(name), place, choices, alloc, walked)?;
    }
    Ok(walked)
}
