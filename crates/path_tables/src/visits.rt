//! The nodes of a list by their numbers, each once, with what a segment selects of it as soon as that is known. Equal
//! nodes select the same, so a node that is listed many times is visited once.
ghost use Rattle.std.specs.Prelude.{Bool, IfOk, IfSome, List};
ghost use Rattle.path_tables.specs.Visiting.{visited_from};
ghost use Rattle.path_tables.specs.Visits.{AreVisits, IsPart};
ghost use Rattle.path_plans.specs.Planned.{PlanSelectors};
ghost use Rattle.path_select.specs.Indexed.{at_number};
ghost use Rattle.path_select.specs.Nodes.{Located};
ghost use Rattle.path_select.specs.declared.index.Index as numbered;

use std::alloc::{AllocError, Global};

/// What a segment selects of a node, as a part of the list after the segment.
#[derive(Clone, Copy, Drop)]
pub struct Part {
    pub first: usize,
    pub count: usize,
}

/// A node of the list before the segment.
#[derive(Clone, Copy, Drop)]
pub struct Visit {
    pub number: usize,
    /// None before it is visited.
    pub part: Option<Part>,
}

/// The nodes, none of which is visited. A node that is listed alone isn't kept, since it isn't asked for again.
pub fn visits_of(alloc: Global, list: &Vec<usize>) -> Result<Vec<Visit>, AllocError>
    ensures { (ss : PlanSelectors) (descend : Bool) (x : numbered.Index) (listed : List Located)
        → IfOk result (λ visits. AreVisits ss descend x listed visits.items) }
{
    let mut visits: Vec<Visit> = Vec::new(alloc);
    if list.len() < 2 {
        return Ok(visits);
    }
    let mut sorted = Vec::from_slice(alloc, list.as_slice())?;
    sorted.sort_unstable();
    for number in &sorted {
        if !is_last(&visits, *number) {
            visits.push(Visit {
                number: *number,
                part: None,
            })?;
        }
    }
    Ok(visits)
}

/// Whether the node is the last one.
fn is_last(visits: &Vec<Visit>, number: usize) -> bool {
    match visits.last() {
        Some(visit) => visit.number == number,
        None => false,
    }
}

/// The place of the node, if it is one of the nodes.
fn place_of(visits: &Vec<Visit>, number: usize) -> usize {
    visits.partition_point(|visit| visit.number < number)
}

/// The part of the node, if it is known.
pub fn part_of(visits: &Vec<Visit>, number: usize) -> Option<Part>
    ensures { (ss : PlanSelectors) (descend : Bool) (x : numbered.Index) (listed : List Located)
        → AreVisits ss descend x listed visits.now.items
        → IfSome result (IsPart ss listed (visited_from descend (at_number x number))) }
{
    let visit = visits.get(place_of(visits, number))?;
    if visit.number == number {
        visit.part
    } else {
        None
    }
}

/// The nodes, with the part of this one, if it is one of them.
pub fn with_part(visits: Vec<Visit>, number: usize, part: Part) -> Vec<Visit>
    ensures { (ss : PlanSelectors) (descend : Bool) (x : numbered.Index) (listed : List Located)
        → AreVisits ss descend x listed visits.items
        → IsPart ss listed (visited_from descend (at_number x number)) part
        → AreVisits ss descend x listed result.items }
{
    let place = place_of(&visits, number);
    let mut visits = visits;
    if place < visits.len() && visits[place].number == number {
        visits[place] = Visit {
            number,
            part: Some(part),
        };
    }
    visits
}
