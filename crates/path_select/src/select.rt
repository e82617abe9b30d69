//! The values that selectors without a filter select of a value (RFC 9535, sections 2.3.1 to 2.3.4).
ghost use Rattle.std.specs.Prelude.{◌≡◌, ◌<◌, ◌++◌, flat_map, IfOk, option_map, option_to_list, zero};
ghost use Rattle.doc_tree.specs.TreeView.{members_view, view};
ghost use Rattle.doc_tree.specs.Doc.{get_member};
ghost use Rattle.doc_tree.specs.Doc as place;
ghost use Rattle.path_select.specs.Selectors as selectors;
ghost use Rattle.path_select.specs.Slicing as slicing;
ghost use Rattle.path_select.specs.ChildView.{child_of, children_of};

use crate::children::Child;
use doc_tree::Tree;
use name_map::NameMap;
use path_grammar::LentStep;
use std::alloc::{AllocError, Global};

/// The member of that name, with the name as the document has it.
fn entry<'t>(name: &str, members: &'t NameMap<Tree>) -> Option<Child<'t>>
    ensures { option_to_list (option_map child_of result)
        ≡ selectors.found (place.name name.now) (get_member name.now (members_view members.now.entries)) }
{
    let (name, value) = members.get_key_value(name)?;
    Some(Child {
        step: LentStep::Name(name),
        value,
    })
}

/// The member of that name (section 2.3.1).
pub fn named<'t>(name: &str, value: &'t Tree) -> Option<Child<'t>>
    ensures { option_to_list (option_map child_of result) ≡ selectors.named name.now (view value.now) }
{
    match value {
        Tree::Object(members) => entry(name, members),
        _ => None,
    }
}

/// The element at that index, counted from 0.
fn item(index: u64, value: &Tree) -> Option<Child<'_>>
    ensures { option_to_list (option_map child_of result) ≡ selectors.item index (view value.now) }
{
    let value = value.item(index)?;
    Some(Child {
        step: LentStep::Index(index),
        value,
    })
}

/// The children that were found, and one more, if there is one.
pub fn and_one<'t>(
    found: Vec<Child<'t>>,
    child: Option<Child<'t>>,
) -> Result<Vec<Child<'t>>, AllocError>
    ensures { IfOk result (λ all. children_of all.items
        ≡ children_of found.entry.items ++ option_to_list (option_map child_of child.entry)) }
{
    let mut found = found;
    if let Some(child) = child {
        found.push(child)?;
    }
    Ok(found)
}

/// How many elements a list has; 0 for any other value.
fn item_count(value: &Tree) -> u64
    ensures { result ≡ selectors.item_count (view value.now) }
{
    match value {
        Tree::List(items) => items.len() as u64,
        _ => 0,
    }
}

/// The index counted from the front of `count` elements: a negative one counts from the end.
fn from_front(count: u64, index: i64) -> Option<u64>
    ensures { result ≡ selectors.from_front count index }
{
    if index >= 0 {
        Some(index as u64)
    } else {
        count.checked_sub(index.unsigned_abs())
    }
}

/// The element at that index, a negative one counted from the end (section 2.3.3).
pub fn indexed(index: i64, value: &Tree) -> Option<Child<'_>>
    ensures { option_to_list (option_map child_of result) ≡ selectors.indexed index (view value.now) }
{
    item(from_front(item_count(value), index)?, value)
}

/// A bound of a slice that goes up through `count` elements, moved to the nearest from 0 to `count`.
fn bound_up(count: u64, bound: i64) -> u64
    ensures { result ≡ slicing.bound_up count bound }
{
    if bound >= 0 {
        count.min(bound as u64)
    } else {
        count.saturating_sub(bound.unsigned_abs())
    }
}

/// One more than a bound of a slice that goes down, which is moved to the nearest from -1 to `count` - 1.
fn bound_down(count: u64, bound: i64) -> u64
    ensures { result ≡ slicing.bound_down count bound }
{
    if bound >= 0 {
        count.min(bound as u64 + 1)
    } else {
        count.saturating_sub(bound.unsigned_abs() - 1)
    }
}

/// The elements at `lower`, `lower + step` and so on, below `upper`.
fn upward<'t>(
    alloc: Global,
    value: &'t Tree,
    step: u64,
    lower: u64,
    upper: u64,
) -> Result<Vec<Child<'t>>, AllocError>
    requires { 0 < step }
    ensures { IfOk result (λ found. children_of found.items
        ≡ flat_map (λ i. selectors.item i (view value.now)) (slicing.upward step lower upper)) }
{
    let mut found = Vec::new(alloc);
    let mut index = lower;
    while index < upper {
        found = and_one(found, item(index, value))?;
        index = index.saturating_add(step);
    }
    Ok(found)
}

/// The elements at `upper - 1`, `upper - 1 - step` and so on, from `lower` on.
fn downward<'t>(
    alloc: Global,
    value: &'t Tree,
    step: u64,
    lower: u64,
    upper: u64,
) -> Result<Vec<Child<'t>>, AllocError>
    requires { 0 < step }
    ensures { IfOk result (λ found. children_of found.items
        ≡ flat_map (λ i. selectors.item i (view value.now)) (slicing.downward step lower upper)) }
{
    let mut found = Vec::new(alloc);
    let mut above = upper;
    while lower < above {
        found = and_one(found, item(above - 1, value))?;
        above = above.saturating_sub(step);
    }
    Ok(found)
}

/// The bound if one is given, else the number.
fn bound_up_or(count: u64, bound: Option<i64>, absent: u64) -> u64
    ensures { result ≡ slicing.given_or (slicing.bound_up count) bound absent }
{
    match bound {
        Some(bound) => bound_up(count, bound),
        None => absent,
    }
}

/// The same of a slice that goes down.
fn bound_down_or(count: u64, bound: Option<i64>, absent: u64) -> u64
    ensures { result ≡ slicing.given_or (slicing.bound_down count) bound absent }
{
    match bound {
        Some(bound) => bound_down(count, bound),
        None => absent,
    }
}

/// The elements that a slice by that step selects.
fn sliced_by<'t>(
    alloc: Global,
    start: Option<i64>,
    stop: Option<i64>,
    step: i64,
    value: &'t Tree,
) -> Result<Vec<Child<'t>>, AllocError>
    ensures { IfOk result (λ found. children_of found.items
        ≡ flat_map (λ i. selectors.item i (view value.now)) (selectors.slice_indexes (selectors.item_count (view value.now)) start stop step)) }
{
    let count = item_count(value);
    if step > 0 {
        let lower = bound_up_or(count, start, 0);
        let upper = bound_up_or(count, stop, count);
        upward(alloc, value, step.unsigned_abs(), lower, upper)
    } else if step < 0 {
        let lower = bound_down_or(count, stop, 0);
        let upper = bound_down_or(count, start, count);
        downward(alloc, value, step.unsigned_abs(), lower, upper)
    } else {
        Ok(Vec::new(alloc))
    }
}

/// The elements that the slice selects (section 2.3.4).
pub fn sliced<'t>(
    alloc: Global,
    start: Option<i64>,
    stop: Option<i64>,
    step: Option<i64>,
    value: &'t Tree,
) -> Result<Vec<Child<'t>>, AllocError>
    ensures { IfOk result (λ found. children_of found.items ≡ selectors.sliced start stop step (view value.now)) }
{
    sliced_by(alloc, start, stop, step.unwrap_or(1), value)
}
