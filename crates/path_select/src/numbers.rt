//! The nodes of a document that selectors without a filter select, by their numbers.
ghost use Rattle.std.specs.Prelude.{◌≡◌, ◌≤◌, ◌+◌, IfOk, Some, drop, length, map, take};
ghost use Rattle.std.specs.List.{AllByRecursion, slice_get};
ghost use Rattle.doc_tree.specs.Doc as doc;
ghost use Rattle.doc_tree.specs.Doc.{Doc, child, get_member};
ghost use Rattle.doc_tree.specs.TreeView.{members_view, view};
ghost use Rattle.path_grammar.specs.Lent.{lent_place};
ghost use Rattle.path_select.specs.Nodes as nodes;
ghost use Rattle.path_select.specs.Nodes.{child_at, member_children};
ghost use Rattle.path_select.specs.ChildView.{children_of};
ghost use Rattle.path_select.specs.Indexed.{HasChildren, IsIndex, at_number, at_numbers, children_at};
ghost use Rattle.path_select.specs.Paths.{seen, spot_of};

use crate::children::Child;
use crate::index::{Index, Span};
use crate::paths::Spot;
use doc_tree::Tree;
use name_map::NameMap;
use path_grammar::LentStep;
use std::alloc::{AllocError, Global};

/// The span of the node's children.
pub fn span_of(index: &Index<'_>, number: usize) -> Span
    requires { IsIndex index.now }
    ensures { HasChildren (seen index.now.walk) result (at_number index.now number) }
{
    match index.spans.get(number) {
        Some(span) => *span,
        None => index.top,
    }
}

/// The value of the node.
pub fn value_of<'s>(index: &'s Index<'_>, number: usize) -> &'s Tree
    ensures { view result.now ≡ (at_number index.now number).1 }
{
    match index.walk.listed.get(number) {
        Some(spot) => spot.value,
        None => index.root,
    }
}

/// The node, known by its place.
pub fn spot_at<'t>(index: &Index<'t>, number: usize) -> Spot<'t>
    requires { IsIndex index.now }
    ensures { spot_of index.now.walk.trail.items result ≡ at_number index.now number }
{
    match index.walk.listed.get(number) {
        Some(spot) => *spot,
        None => Spot {
            place: 0,
            value: index.root,
        },
    }
}

/// The numbers of all children of the node.
pub fn numbers_of_children(
    alloc: Global,
    index: &Index<'_>,
    number: usize,
) -> Result<Vec<usize>, AllocError>
    requires { IsIndex index.now }
    ensures { IfOk result (λ ns. at_numbers index.now ns.items ≡ children_at (at_number index.now number)) }
{
    let span = span_of(index, number);
    let mut found = Vec::with_capacity(alloc, span.count)?;
    for place in 0..span.count {
        found.push(span.first + place)?;
    }
    Ok(found)
}

/// The place of the member of that name among the members.
fn place_of(members: &NameMap<Tree>, name: &str) -> usize
    ensures { (d : Doc) → get_member name.now (members_view members.now.entries) ≡ Some d
        → slice_get (member_children (members_view members.now.entries)) result ≡ Some (doc.name name.now, d) }
{
    let mut place = 0;
    for (key, _) in members.iter() {
        if key.as_str() == name {
            return place;
        }
        place += 1;
    }
    place
}

/// The place of the member of that name among the children of the value.
fn place_in(value: &Tree, name: &str) -> usize
    ensures { (d : Doc) → child (doc.name name.now) (view value.now) ≡ Some d
        → slice_get (nodes.children (view value.now)) result ≡ Some (doc.name name.now, d) }
{
    match value {
        Tree::Object(members) => place_of(members, name),
        _ => 0,
    }
}

/// The number of the child at that place.
fn number_at(index: &Index<'_>, number: usize, place: usize) -> usize
    requires { IsIndex index.now }
    ensures { let u = at_number index.now number in
        (c : nodes.Child) → slice_get (nodes.children u.1) place ≡ Some c → at_number index.now result ≡ child_at u.0 c }
{
    let span = span_of(index, number);
    if place < span.count {
        span.first + place
    } else {
        number
    }
}

/// The number of the child to which the step leads.
fn number_of(index: &Index<'_>, number: usize, step: LentStep<'_>) -> usize
    requires { IsIndex index.now }
    ensures { let u = at_number index.now number in
        (d : Doc) → child (lent_place step.entry) u.1 ≡ Some d → at_number index.now result ≡ child_at u.0 (lent_place step.entry, d) }
{
    match step {
        LentStep::Name(name) => {
            let place = place_in(value_of(index, number), name.as_str());
            number_at(index, number, place)
        }
        LentStep::Index(place) => number_at(index, number, place as usize),
    }
}

/// The numbers of these children of the node.
pub fn numbered(
    index: &Index<'_>,
    alloc: Global,
    number: usize,
    found: &Vec<Child<'_>>,
) -> Result<Vec<usize>, AllocError>
    requires index { IsIndex index.now }
    requires children { AllByRecursion (λ c. child c.0 (at_number index.now number).1 ≡ Some c.1) (children_of found.now.items) }
    ensures { let u = at_number index.now number in
        IfOk result (λ ns. at_numbers index.now ns.items ≡ map (child_at u.0) (children_of found.now.items)) }
{
    let mut numbers = Vec::with_capacity(alloc, found.len())?;
    for child in found {
        numbers.push(number_of(index, number, child.step))?;
    }
    Ok(numbers)
}
