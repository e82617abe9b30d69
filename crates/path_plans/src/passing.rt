//! The evaluation of plans, by values alone: what they select of a value. No root is needed.
ghost use Rattle.std.specs.Prelude.{◌≡◌, ◌&&◌, ◌||◌, [], false, filter, IfSome, length, option_map, option_to_list, true};
ghost use Rattle.std.specs.List.{list_any};
ghost use Rattle.doc_tree.specs.Doc.{Doc};
ghost use Rattle.doc_tree.specs.TreeView.{elements_view, members_view, view};
ghost use Rattle.path_plans.specs.Evaluating as evaluating;
ghost use Rattle.path_select.specs.Gives.{Gives};
ghost use Rattle.path_plans.specs.PlanValues.{IsWithin};
ghost use Rattle.path_select.specs.Nodes as nodes;
ghost use Rattle.path_select.specs.Comparing as comparing;
ghost use Rattle.path_select.specs.Nodes.{element_children, member_children, only_node};
ghost use Rattle.path_plans.specs.PlanValues.{ListsPlanned, planned_from};
ghost use Rattle.path_plans.specs.PlanView.{choice_view, choices_view, plan_view, term_view, test_view, tests_view, way_selector, ways_plan};
ghost use Rattle.path_plans.specs.Planned as planned;
ghost use Rattle.path_select.specs.Limit.{is_over};
ghost use Rattle.path_select.specs.Values.{visited_values};
ghost use Rattle.path_select.specs.ChildView.{child_of, children_of, doc_if, docs_of, side_if};

use crate::plan::{Plan, PlanComparable, PlanFilter, PlanSegment, PlanSelector, Way};
use doc_tree::Tree;
use name_map::NameMap;
use path_grammar::{CompareOp, LentStep};
use path_select::below::values_below;
use path_select::children::{Child, children};
use path_select::compare::{Side, compares, count, is_some_value, lend, length_value, only};
use path_select::gather::{and_children, and_values};
use path_select::select::{and_one, indexed, named, sliced};
use path_select::stop::Stop;
use std::alloc::Global;

/// Whether the value passes the test.
#[cycle(passing)]
pub fn passes(test: &PlanFilter<'_>, alloc: Global, here: &Tree) -> Result<bool, Stop>
    ensures { let t = test_view test.now in
        Gives (λ b. b) result (planned.test_refused t (view here.now)) (planned.passes t (view here.now)) }
{
    match passes_at_hand(test, here) {
        Some(holds) => Ok(holds),
        None => passes_by_lists(test, alloc, here),
    }
}

/// The same with all that a test may need. It is a function of its own, since what is at hand needs no such frame on
/// the stack.
#[cycle(passing)]
#[inline(never)]
fn passes_by_lists(test: &PlanFilter<'_>, alloc: Global, here: &Tree) -> Result<bool, Stop>
    ensures { let t = test_view test.now in
        Gives (λ b. b) result (planned.test_refused t (view here.now)) (planned.passes t (view here.now)) }
{
    match test {
        PlanFilter::SomeOf(parts) => some_pass(parts, alloc, here),
        PlanFilter::AllOf(parts) => all_pass(parts, alloc, here),
        PlanFilter::NotThat(test) => Ok(!passes(test, alloc, here)?),
        PlanFilter::ThereIs(plan) => Ok(is_some_value(&values_of_plan(plan, alloc, here)?)),
        PlanFilter::LeadsThere(ways) => Ok(led_to(ways, here).is_some()),
        PlanFilter::ThereWas { refused, is } => if *refused {
            Err(Stop::TooMany)
        } else {
            Ok(*is)
        },
        PlanFilter::Compared { op, left, right } => {
            let left = term(left, alloc, here)?;
            let right = term(right, alloc, here)?;
            Ok(compares(*op, lend(&left), lend(&right)))
        }
    }
}

/// Whether it passes some of the tests.
#[cycle(passing)]
fn some_pass(parts: &Vec<PlanFilter<'_>>, alloc: Global, here: &Tree) -> Result<bool, Stop>
    ensures { let ts = tests_view parts.now.items in
        Gives (λ b. b) result (planned.tests_refused ts (view here.now)) (planned.some_pass ts (view here.now)) }
{
    let mut held = false;
    for part in parts {
        held = or_passes(held, part, alloc, here)?;
    }
    Ok(held)
}

/// Whether it held already, or the value passes the test. If it held, a test is tried only if it may be refused.
#[cycle(passing)]
fn or_passes(held: bool, test: &PlanFilter<'_>, alloc: Global, here: &Tree) -> Result<bool, Stop>
    ensures { let t = test_view test.now in
        Gives (λ b. b) result (planned.test_refused t (view here.now)) (held || planned.passes t (view here.now)) }
{
    if held && !may_be_refused(test) {
        return Ok(true);
    }
    let holds = passes(test, alloc, here)?;
    Ok(held || holds)
}

/// Whether it passes all of the tests.
#[cycle(passing)]
fn all_pass(parts: &Vec<PlanFilter<'_>>, alloc: Global, here: &Tree) -> Result<bool, Stop>
    ensures { let ts = tests_view parts.now.items in
        Gives (λ b. b) result (planned.tests_refused ts (view here.now)) (planned.all_pass ts (view here.now)) }
{
    let mut held = true;
    for part in parts {
        held = and_passes(held, part, alloc, here)?;
    }
    Ok(held)
}

/// Whether it held until now, and the value passes the test. If it didn't, a test is tried only if it may be refused.
#[cycle(passing)]
fn and_passes(held: bool, test: &PlanFilter<'_>, alloc: Global, here: &Tree) -> Result<bool, Stop>
    ensures { let t = test_view test.now in
        Gives (λ b. b) result (planned.test_refused t (view here.now)) (held && planned.passes t (view here.now)) }
{
    if !held && !may_be_refused(test) {
        return Ok(false);
    }
    let holds = passes(test, alloc, here)?;
    Ok(held && holds)
}

/// The value of a side of a comparison, or Nothing.
#[cycle(passing)]
pub fn term<'t>(
    side: &'t PlanComparable<'_>,
    alloc: Global,
    here: &'t Tree,
) -> Result<Option<Side<'t>>, Stop>
    ensures { let o = term_view side.now in
        Gives side_if result (planned.side_refused o (view here.now)) (planned.side_value o (view here.now)) }
{
    match side {
        PlanComparable::Known { refused, value } => if *refused {
            Err(Stop::TooMany)
        } else {
            Ok(lent_side(lend(value)))
        },
        PlanComparable::OnlyOf(plan) => Ok(only(&values_of_plan(plan, alloc, here)?)),
        PlanComparable::LedTo(ways) => Ok(lent_side(led_to(ways, here))),
        PlanComparable::SizeOf(inner) => {
            let value = term(inner, alloc, here)?;
            Ok(length_value(lend(&value)))
        }
        PlanComparable::NumberOf(plan) => Ok(count(&values_of_plan(plan, alloc, here)?)),
    }
}

/// The children that pass the test. It is tried on each.
#[cycle(passing)]
fn filtered<'t>(
    test: &PlanFilter<'_>,
    alloc: Global,
    here: &'t Tree,
) -> Result<Vec<Child<'t>>, Stop>
    ensures { let t = test_view test.now in
        Gives (λ all. children_of all.items) result
        (list_any (λ c. planned.test_refused t c.1) (nodes.children (view here.now)))
        (filter (λ c. planned.passes t c.1) (nodes.children (view here.now))) }
{
    match here {
        Tree::List(items) => filtered_elements(test, alloc, items),
        Tree::Object(members) => filtered_members(test, alloc, members),
        _ => Ok(Vec::new(alloc)),
    }
}

#[cycle(passing)]
fn filtered_elements<'t>(
    test: &PlanFilter<'_>,
    alloc: Global,
    items: &'t Vec<Tree>,
) -> Result<Vec<Child<'t>>, Stop>
    ensures { let t = test_view test.now in let cs = element_children 0 (elements_view items.now.items) in
        Gives (λ all. children_of all.items) result (list_any (λ c. planned.test_refused t c.1) cs) (filter (λ c. planned.passes t c.1) cs) }
{
    let mut found = Vec::new(alloc);
    for (index, item) in items.iter().enumerate() {
        if passes(test, alloc, item)? {
            found.push(Child {
                step: LentStep::Index(index as u64),
                value: item,
            })?;
        }
    }
    Ok(found)
}

#[cycle(passing)]
fn filtered_members<'t>(
    test: &PlanFilter<'_>,
    alloc: Global,
    members: &'t NameMap<Tree>,
) -> Result<Vec<Child<'t>>, Stop>
    ensures { let t = test_view test.now in let cs = member_children (members_view members.now.entries) in
        Gives (λ all. children_of all.items) result (list_any (λ c. planned.test_refused t c.1) cs) (filter (λ c. planned.passes t c.1) cs) }
{
    let mut found = Vec::new(alloc);
    for (name, value) in members.iter() {
        if passes(test, alloc, value)? {
            found.push(Child {
                step: LentStep::Name(name),
                value,
            })?;
        }
    }
    Ok(found)
}

/// What the choice takes of the value.
#[cycle(passing)]
fn taken<'t>(
    choice: &PlanSelector<'_>,
    alloc: Global,
    here: &'t Tree,
) -> Result<Vec<Child<'t>>, Stop>
    ensures { let s = choice_view choice.now in
        Gives (λ all. children_of all.items) result (planned.choice_refused s (view here.now)) (planned.taken s (view here.now)) }
{
    match choice {
        PlanSelector::Only(way) => Ok(and_one(Vec::new(alloc), child_on(*way, here))?),
        PlanSelector::Every => Ok(children(alloc, here)?),
        PlanSelector::Sliced { start, stop, step } => Ok(sliced(
            alloc, *start, *stop, *step, here,
        )?),
        PlanSelector::Kept(test) => filtered(test, alloc, here),
    }
}

/// What each of the choices takes of the value, in order.
#[cycle(passing)]
pub fn all_taken<'t>(
    choices: &Vec<PlanSelector<'_>>,
    alloc: Global,
    here: &'t Tree,
) -> Result<Vec<Child<'t>>, Stop>
    ensures { let ss = choices_view choices.now.items in
        Gives (λ found. children_of found.items) result
        (planned.choices_refused ss (view here.now) || is_over (length (planned.all_taken ss (view here.now)))) (planned.all_taken ss (view here.now)) }
{
    let mut found = Vec::new(alloc);
    for choice in choices {
        found = and_children(found, taken(choice, alloc, here)?)?;
    }
    Ok(found)
}

/// The values that are listed, and what is taken of each of the others.
#[cycle(passing)]
fn and_each_taken<'t>(
    choices: &Vec<PlanSelector<'_>>,
    alloc: Global,
    visited: &Vec<&'t Tree>,
    listed: Vec<&'t Tree>,
) -> Result<Vec<&'t Tree>, Stop>
    requires within { IsWithin (docs_of listed.items) }
    ensures { ListsPlanned (choices_view choices.now.items) (docs_of listed.entry.items) (docs_of visited.now.items) result }
{
    let mut found = listed;
    for value in visited {
        found = and_values(found, all_taken(choices, alloc, value)?)?;
    }
    Ok(found)
}

/// What is taken of each of the values and of all values below it.
#[cycle(passing)]
fn each_taken_below<'t>(
    choices: &Vec<PlanSelector<'_>>,
    alloc: Global,
    list: &Vec<&'t Tree>,
) -> Result<Vec<&'t Tree>, Stop>
    ensures { ListsPlanned (choices_view choices.now.items) [] (visited_values true (docs_of list.now.items)) result }
{
    let mut found = Vec::new(alloc);
    for value in list {
        let visited = values_below(alloc, value)?;
        found = and_each_taken(choices, alloc, &visited, found)?;
    }
    Ok(found)
}

/// The list after the segment.
#[cycle(passing)]
fn values_after<'t>(
    segment: &PlanSegment<'_>,
    alloc: Global,
    list: &Vec<&'t Tree>,
) -> Result<Vec<&'t Tree>, Stop>
    ensures { ListsPlanned (choices_view segment.now.choices.items) [] (visited_values segment.now.descend (docs_of list.now.items)) result }
{
    if segment.descend {
        each_taken_below(&segment.choices, alloc, list)
    } else {
        and_each_taken(&segment.choices, alloc, list, Vec::new(alloc))
    }
}

/// The values that the plan selects from a value on.
#[cycle(passing)]
pub fn values_of_plan<'t>(
    plan: &Plan<'_>,
    alloc: Global,
    start: &'t Tree,
) -> Result<Vec<&'t Tree>, Stop>
    ensures { let q = plan_view plan.now in
        Gives (λ found. docs_of found.items) result (planned.plan_refused q (only_node (view start.now))) (planned_from q (view start.now)) }
{
    let mut list = Vec::new(alloc);
    list.push(start)?;
    for segment in &plan.segments {
        list = values_after(segment, alloc, &list)?;
    }
    Ok(list)
}

/// The child of that name, or at that index.
pub fn child_on<'t>(way: Way<'_>, here: &'t Tree) -> Option<Child<'t>>
    ensures { option_to_list (option_map child_of result)
        ≡ evaluating.selected (view here.now) (way_selector way.entry) (view here.now) }
{
    match way {
        Way::Name(name) => named(name.as_str(), here),
        Way::Index(index) => indexed(index, here),
    }
}

/// The value to which the ways lead, one after the other.
fn led_to<'t>(ways: &[Way<'_>], here: &'t Tree) -> Option<&'t Tree>
    ensures { option_to_list (doc_if result) ≡ planned_from (ways_plan ways.now) (view here.now) }
{
    let mut value = here;
    for way in ways {
        value = child_on(*way, value)?.value;
    }
    Some(value)
}

/// The value of a side of a comparison, or Nothing, if that is known or a way leads there: then it is not refused.
fn at_hand<'t>(side: &'t PlanComparable<'_>, here: &'t Tree) -> Option<Option<&'t Tree>>
    ensures { let o = term_view side.now in let d = view here.now in
        IfSome result (λ v. (planned.side_refused o d ≡ false) × (doc_if v ≡ planned.side_value o d)) }
{
    match side {
        PlanComparable::Known {
            refused: false,
            value,
        } => Some(lend(value)),
        PlanComparable::LedTo(ways) => Some(led_to(ways, here)),
        _ => None,
    }
}

/// Whether the value passes a test that follows ways, or compares what is at hand: then it is not refused.
fn passes_at_hand(test: &PlanFilter<'_>, here: &Tree) -> Option<bool>
    ensures { let t = test_view test.now in let d = view here.now in
        IfSome result (λ holds. (planned.test_refused t d ≡ false) × (holds ≡ planned.passes t d)) }
{
    match test {
        PlanFilter::LeadsThere(ways) => Some(led_to(ways, here).is_some()),
        PlanFilter::Compared { op, left, right } => compares_at_hand(*op, left, right, here),
        _ => None,
    }
}

/// Whether the test may be refused of some value: not if it only follows ways, or compares what is at hand.
fn may_be_refused(test: &PlanFilter<'_>) -> bool
    ensures { let t = test_view test.now in (d : Doc) → result ≡ false → planned.test_refused t d ≡ false }
{
    match test {
        PlanFilter::LeadsThere(_) => false,
        PlanFilter::Compared { left, right, .. } => is_sought(left) || is_sought(right),
        _ => true,
    }
}

/// Whether the side is neither known nor the end of a way.
fn is_sought(side: &PlanComparable<'_>) -> bool
    ensures { let o = term_view side.now in (d : Doc) → result ≡ false → planned.side_refused o d ≡ false }
{
    match side {
        PlanComparable::Known { refused, .. } => *refused,
        PlanComparable::LedTo(_) => false,
        _ => true,
    }
}

/// Whether the comparison holds of the value, if both sides are at hand: then it is not refused.
fn compares_at_hand<'x>(
    op: CompareOp,
    left: &'x PlanComparable<'_>,
    right: &'x PlanComparable<'_>,
    here: &'x Tree,
) -> Option<bool>
    ensures { let a = term_view left.now in let b = term_view right.now in let d = view here.now in
        IfSome result (λ holds. ((planned.side_refused a d || planned.side_refused b d) ≡ false)
        × (holds ≡ comparing.compares op (planned.side_value a d) (planned.side_value b d))) }
{
    let left = at_hand(left, here)?;
    let right = at_hand(right, here)?;
    Some(compares(op, left, right))
}

/// The value that is lent, as a side of a comparison.
fn lent_side<'t>(value: Option<&'t Tree>) -> Option<Side<'t>>
    ensures { side_if result ≡ doc_if value.entry }
{
    match value {
        Some(value) => Some(Side::Lent(value)),
        None => None,
    }
}
