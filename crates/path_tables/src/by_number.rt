//! The evaluation of plans by the numbers of nodes: what their filters say is in tables.
ghost use Rattle.std.specs.Prelude.{◌≡◌, ◌≤◌, ◌+◌, ◌||◌, ◌++◌, ◌∷◌, [], true, drop, filter, IfOk, length, map, take};
ghost use Rattle.std.specs.List.{list_any};
ghost use Rattle.path_plans.specs.Evaluating as evaluating;
ghost use Rattle.path_plans.specs.PlanView.{choice_view, way_selector};
ghost use Rattle.path_plans.specs.Planned as planned;
ghost use Rattle.path_tables.specs.FilterTables as tables;
ghost use Rattle.path_tables.specs.FilterTables.{AreAllRight, AreRight, IsRight, phases_view, picks_view};
ghost use Rattle.path_tables.specs.Visiting.{refused_at, selected_at, visited_from};
ghost use Rattle.path_tables.specs.Visits.{AddsAt, IsBegun};
ghost use Rattle.path_select.specs.Indexed.{IsIndex, at_number, at_numbers, children_at};
ghost use Rattle.path_select.specs.Gives.{Gives};
ghost use Rattle.path_select.specs.Limit.{is_over};
ghost use Rattle.path_select.specs.Nodes.{child_at, visited};
ghost use Rattle.path_select.specs.Selectors as selectors;

use crate::filter_table::FilterTable;
use crate::leaf::is_leaf;
use crate::table_plan::{TableSegment, TableSelector};
use crate::visits::{Part, Visit, part_of, visits_of, with_part};
use path_plans::passing::child_on;
use path_plans::plan::{PlanSelector, Way};
use path_select::index::Index;
use path_select::limits::NODES;
use path_select::numbers::{numbered, numbers_of_children, span_of, value_of};
use path_select::select::{and_one, sliced};
use path_select::stop::Stop;
use std::alloc::{AllocError, Global};

/// Those of the nodes of which the filter holds.
fn held(told: &FilterTable, alloc: Global, numbers: &Vec<usize>) -> Result<Vec<usize>, Stop>
    ensures { Gives (λ found. found.items) result
        (list_any (λ n. tables.is_refused n told.now) numbers.now.items) (filter (λ n. tables.is_held n told.now) numbers.now.items) }
{
    let mut found = Vec::new(alloc);
    for number in numbers {
        if told.holds(*number)? {
            found.push(*number)?;
        }
    }
    Ok(found)
}

/// The child of that name, or at that index.
fn led(
    way: Way<'_>,
    index: &Index<'_>,
    alloc: Global,
    number: usize,
) -> Result<Vec<usize>, AllocError>
    requires { IsIndex index.now }
    ensures { let u = at_number index.now number in
        IfOk result (λ found. at_numbers index.now found.items ≡ map (child_at u.0) (evaluating.selected u.1 (way_selector way.entry) u.1)) }
{
    let found = and_one(Vec::new(alloc), child_on(way, value_of(index, number)))?;
    numbered(index, alloc, number, &found)
}

/// The elements of the slice.
fn slice_of(
    start: Option<i64>,
    stop: Option<i64>,
    step: Option<i64>,
    index: &Index<'_>,
    alloc: Global,
    number: usize,
) -> Result<Vec<usize>, AllocError>
    requires { IsIndex index.now }
    ensures { let u = at_number index.now number in
        IfOk result (λ found. at_numbers index.now found.items ≡ map (child_at u.0) (selectors.sliced start stop step u.1)) }
{
    let found = sliced(alloc, start, stop, step, value_of(index, number))?;
    numbered(index, alloc, number, &found)
}

/// What the choice takes of the node.
fn picked(
    pick: &TableSelector<'_, '_>,
    index: &Index<'_>,
    alloc: Global,
    number: usize,
) -> Result<Vec<usize>, Stop>
    requires index { IsIndex index.now }
    requires right { IsRight index.now pick.now }
    ensures { let u = at_number index.now number in let s = choice_view pick.now.choice.now in
        Gives (λ found. at_numbers index.now found.items) result
        (planned.choice_refused s u.1) (map (child_at u.0) (planned.taken s u.1)) }
{
    match pick.choice {
        PlanSelector::Only(way) => Ok(led(*way, index, alloc, number)?),
        PlanSelector::Every => Ok(numbers_of_children(alloc, index, number)?),
        PlanSelector::Sliced { start, stop, step } => {
            Ok(slice_of(*start, *stop, *step, index, alloc, number)?)
        }
        PlanSelector::Kept(_test) => {
            let children = numbers_of_children(alloc, index, number)?;
            held(&pick.told, alloc, &children)
        }
    }
}

/// The numbers that are listed, and more of them; `Stop::TooMany` if they are too many for a list.
fn and_numbers(listed: Vec<usize>, more: Vec<usize>) -> Result<Vec<usize>, Stop>
    ensures { Gives (λ all. all.items) result
        (is_over (length (listed.items ++ more.items))) (listed.items ++ more.items) }
{
    if more.len() + listed.len() > NODES {
        return Err(Stop::TooMany);
    }
    let mut all = listed;
    all.extend_from_slice(&more)?;
    Ok(all)
}

/// What each of the choices takes of the node, in order.
fn all_picked(
    picks: &Vec<TableSelector<'_, '_>>,
    index: &Index<'_>,
    alloc: Global,
    number: usize,
) -> Result<Vec<usize>, Stop>
    requires index { IsIndex index.now }
    requires right { AreRight index.now picks.now.items }
    ensures { let u = at_number index.now number in let ss = picks_view picks.now.items in
        let all = map (child_at u.0) (planned.all_taken ss u.1) in
        Gives (λ found. at_numbers index.now found.items) result (planned.choices_refused ss u.1 || is_over (length all)) all }
{
    let mut found = Vec::new(alloc);
    for pick in picks {
        found = and_numbers(found, picked(pick, index, alloc, number)?)?;
    }
    Ok(found)
}

/// The list after a segment, as far as it is made.
#[derive(Drop)]
pub struct Listing {
    pub found: Vec<usize>,
    /// What is known of the nodes of the list before the segment.
    pub visits: Vec<Visit>,
}

/// The numbers, and a part of them once more; `Stop::TooMany` if they are too many for a list.
fn and_again(listed: Vec<usize>, part: Part) -> Result<Vec<usize>, Stop>
    requires { part.first + part.count ≤ length listed.items }
    ensures { let more = take part.count (drop part.first listed.items) in
        Gives (λ all. all.items) result (is_over (length (listed.items ++ more))) (listed.items ++ more) }
{
    if part.count + listed.len() > NODES {
        return Err(Stop::TooMany);
    }
    let mut all = listed;
    all.extend_from_within(part.first..part.first + part.count)?;
    Ok(all)
}

/// The list, and what the choices take of the node itself.
fn and_here(
    phase: &TableSegment<'_, '_>,
    index: &Index<'_>,
    alloc: Global,
    number: usize,
    listing: Listing,
) -> Result<Listing, Stop>
    requires index { IsIndex index.now }
    requires right { AreRight index.now phase.now.picks.items }
    requires begun { IsBegun index.now phase.now listing }
    ensures { AddsAt index.now phase.now (at_numbers index.now listing.found.items) (at_number index.now number ∷ []) result }
{
    let Listing { found, visits } = listing;
    let found = and_numbers(found, all_picked(&phase.picks, index, alloc, number)?)?;
    Ok(Listing { found, visits })
}

/// The list, and what the segment selects of the node. A node with a known part isn't visited again.
#[cycle(visiting)]
fn and_node(
    phase: &TableSegment<'_, '_>,
    index: &Index<'_>,
    alloc: Global,
    number: usize,
    listing: Listing,
) -> Result<Listing, Stop>
    requires index { IsIndex index.now }
    requires right { AreRight index.now phase.now.picks.items }
    requires begun { IsBegun index.now phase.now listing }
    ensures { AddsAt index.now phase.now (at_numbers index.now listing.found.items)
        (visited_from phase.now.descend (at_number index.now number)) result }
{
    if is_leaf(value_of(index, number)) {
        return Ok(listing);
    }
    match part_of(&listing.visits, number) {
        Some(part) => {
            let Listing { found, visits } = listing;
            let found = and_again(found, part)?;
            Ok(Listing { found, visits })
        }
        None => and_noted(phase, index, alloc, number, listing),
    }
}

/// The same of a node that is visited now, so that its part is known from then on.
#[cycle(visiting)]
fn and_noted(
    phase: &TableSegment<'_, '_>,
    index: &Index<'_>,
    alloc: Global,
    number: usize,
    listing: Listing,
) -> Result<Listing, Stop>
    requires index { IsIndex index.now }
    requires right { AreRight index.now phase.now.picks.items }
    requires begun { IsBegun index.now phase.now listing }
    ensures { AddsAt index.now phase.now (at_numbers index.now listing.found.items)
        (visited_from phase.now.descend (at_number index.now number)) result }
{
    let first = listing.found.len();
    let Listing { found, visits } = and_visited(phase, index, alloc, number, listing)?;
    let part = Part {
        first,
        count: found.len() - first,
    };
    Ok(Listing {
        visits: with_part(visits, number, part),
        found,
    })
}

/// The same of a node that is visited now.
#[cycle(visiting)]
fn and_visited(
    phase: &TableSegment<'_, '_>,
    index: &Index<'_>,
    alloc: Global,
    number: usize,
    listing: Listing,
) -> Result<Listing, Stop>
    requires index { IsIndex index.now }
    requires right { AreRight index.now phase.now.picks.items }
    requires begun { IsBegun index.now phase.now listing }
    ensures { AddsAt index.now phase.now (at_numbers index.now listing.found.items)
        (visited_from phase.now.descend (at_number index.now number)) result }
{
    let listing = and_here(phase, index, alloc, number, listing)?;
    if phase.descend {
        and_below(phase, index, alloc, number, listing)
    } else {
        Ok(listing)
    }
}

/// The list, and what the descendant segment selects below the node.
#[cycle(visiting)]
fn and_below(
    phase: &TableSegment<'_, '_>,
    index: &Index<'_>,
    alloc: Global,
    number: usize,
    listing: Listing,
) -> Result<Listing, Stop>
    requires index { IsIndex index.now }
    requires right { AreRight index.now phase.now.picks.items }
    requires begun { IsBegun index.now phase.now listing }
    requires descend { phase.now.descend ≡ true }
    ensures { AddsAt index.now phase.now (at_numbers index.now listing.found.items)
        (visited true (children_at (at_number index.now number))) result }
{
    let span = span_of(index, number);
    let mut listing = listing;
    for place in 0..span.count {
        listing = and_node(phase, index, alloc, span.first + place, listing)?;
    }
    Ok(listing)
}

/// The list after the segment.
fn after_phase(
    phase: &TableSegment<'_, '_>,
    index: &Index<'_>,
    alloc: Global,
    list: &Vec<usize>,
) -> Result<Vec<usize>, Stop>
    requires index { IsIndex index.now }
    requires right { AreRight index.now phase.now.picks.items }
    ensures { let ss = picks_view phase.now.picks.items in let us = visited phase.now.descend (at_numbers index.now list.now.items) in
        Gives (λ found. at_numbers index.now found.items) result
        (refused_at ss us || is_over (length (selected_at ss us))) (selected_at ss us) }
{
    let mut listing = Listing {
        found: Vec::new(alloc),
        visits: visits_of(alloc, list)?,
    };
    for number in list {
        listing = and_node(phase, index, alloc, *number, listing)?;
    }
    Ok(listing.found)
}

/// The nodes that the plan selects from a node on.
pub fn numbers_from(
    phases: &Vec<TableSegment<'_, '_>>,
    index: &Index<'_>,
    alloc: Global,
    number: usize,
) -> Result<Vec<usize>, Stop>
    requires index { IsIndex index.now }
    requires right { AreAllRight index.now phases.now.items }
    ensures { let q = phases_view phases.now.items in let us = at_number index.now number ∷ [] in
        Gives (λ found. at_numbers index.now found.items) result (planned.plan_refused q us) (planned.listed q us) }
{
    let mut list = Vec::new(alloc);
    list.push(number)?;
    for phase in phases {
        list = after_phase(phase, index, alloc, &list)?;
    }
    Ok(list)
}
