//! Asking a test of one node, when what its parts say of all nodes is known.
ghost use Rattle.std.specs.Prelude.{◌≡◌, IfOk, not};
ghost use Rattle.std.specs.List.{list_all, list_any};
ghost use Rattle.path_plans.specs.PlanValues.{planned_from};
ghost use Rattle.path_plans.specs.PlanView.{term_view};
ghost use Rattle.path_plans.specs.Planned as planned;
ghost use Rattle.path_tables.specs.FilterTables.{AreAllRight, IsAskedRightly, asked_view, is_held, phases_view, plan_in, is_refused};
ghost use Rattle.path_select.specs.Indexed.{IsIndex, at_number, at_numbers};
ghost use Rattle.path_select.specs.Gives.{Gives};
ghost use Rattle.path_select.specs.Nodes.{only_node};
ghost use Rattle.path_select.specs.Values.{values};
ghost use Rattle.path_select.specs.ChildView.{docs_of, side_if};

use crate::asked::Asked;
use crate::by_number::numbers_from;
use crate::filter_table::FilterTable;
use crate::table_plan::TableSegment;
use doc_tree::Tree;
use path_plans::passing::{passes, term};
use path_plans::plan::PlanComparable;
use path_select::compare::{Side, compares, count, is_some_value, lend, length_value, only};
use path_select::index::Index;
use path_select::numbers::value_of;
use path_select::stop::Stop;
use std::alloc::{AllocError, Global};

/// The values of the nodes.
pub fn values_at<'s>(
    index: &'s Index<'_>,
    alloc: Global,
    numbers: &Vec<usize>,
) -> Result<Vec<&'s Tree>, AllocError>
    ensures { IfOk result (λ found. docs_of found.items ≡ values (at_numbers index.now numbers.now.items)) }
{
    let mut found = Vec::with_capacity(alloc, numbers.len())?;
    for number in numbers {
        found.push(value_of(index, *number))?;
    }
    Ok(found)
}

/// The values that the plan selects from a node on.
fn values_from<'s>(
    phases: &Vec<TableSegment<'_, '_>>,
    index: &'s Index<'_>,
    alloc: Global,
    number: usize,
) -> Result<Vec<&'s Tree>, Stop>
    requires index { IsIndex index.now }
    requires right { AreAllRight index.now phases.now.items }
    ensures { let q = phases_view phases.now.items in let d = (at_number index.now number).1 in
        Gives (λ found. docs_of found.items) result (planned.plan_refused q (only_node d)) (planned_from q d) }
{
    let numbers = numbers_from(phases, index, alloc, number)?;
    let values = values_at(index, alloc, &numbers)?;
    Ok(values)
}

/// The value of a side of a comparison at the node, or Nothing.
fn sought<'s>(
    side: &'s PlanComparable<'_>,
    phases: &Vec<TableSegment<'_, '_>>,
    index: &'s Index<'_>,
    alloc: Global,
    number: usize,
) -> Result<Option<Side<'s>>, Stop>
    requires index { IsIndex index.now }
    requires right { AreAllRight index.now phases.now.items }
    requires plan { phases_view phases.now.items ≡ plan_in side.now }
    ensures { let o = term_view side.now in let d = (at_number index.now number).1 in
        Gives side_if result (planned.side_refused o d) (planned.side_value o d) }
{
    match side {
        PlanComparable::OnlyOf(_) => Ok(only(&values_from(phases, index, alloc, number)?)),
        PlanComparable::NumberOf(_) => Ok(count(&values_from(phases, index, alloc, number)?)),
        PlanComparable::SizeOf(inner) => {
            let value = sought(inner, phases, index, alloc, number)?;
            Ok(length_value(lend(&value)))
        }
        _ => term(side, alloc, value_of(index, number)),
    }
}

/// Whether some of the tests hold of the node, by what they say.
fn some_hold(told: &Vec<FilterTable>, number: usize) -> Result<bool, Stop>
    ensures { Gives (λ b. b) result (list_any (is_refused number) told.now.items) (list_any (is_held number) told.now.items) }
{
    let mut held = false;
    for each in told {
        let holds = each.holds(number)?;
        held = held || holds;
    }
    Ok(held)
}

/// Whether all of the tests hold of the node, by what they say.
fn all_hold(told: &Vec<FilterTable>, number: usize) -> Result<bool, Stop>
    ensures { Gives (λ b. b) result (list_any (is_refused number) told.now.items) (list_all (is_held number) told.now.items) }
{
    let mut held = true;
    for each in told {
        let holds = each.holds(number)?;
        held = held && holds;
    }
    Ok(held)
}

/// Whether the test doesn't hold of the node, by what it says.
fn not_hold(told: &FilterTable, number: usize) -> Result<bool, Stop>
    ensures { Gives (λ b. b) result (is_refused number told.now) (not (is_held number told.now)) }
{
    let holds = told.holds(number)?;
    Ok(!holds)
}

/// Whether the node passes the test.
pub fn node_passes(
    asked: &Asked<'_, '_>,
    index: &Index<'_>,
    alloc: Global,
    number: usize,
) -> Result<bool, Stop>
    requires index { IsIndex index.now }
    requires right { IsAskedRightly index.now asked.now }
    ensures { let t = asked_view asked.now in let d = (at_number index.now number).1 in
        Gives (λ b. b) result (planned.test_refused t d) (planned.passes t d) }
{
    match asked {
        Asked::Plainly(test) => passes(test, alloc, value_of(index, number)),
        Asked::SomeOf { told, .. } => some_hold(told, number),
        Asked::AllOf { told, .. } => all_hold(told, number),
        Asked::NotThat { told, .. } => not_hold(told, number),
        Asked::ThereIs(phases) => Ok(is_some_value(&values_from(phases, index, alloc, number)?)),
        Asked::Compared { op, left, right } => {
            let left = sought(left.side, &left.phases, index, alloc, number)?;
            let right = sought(right.side, &right.phases, index, alloc, number)?;
            Ok(compares(*op, lend(&left), lend(&right)))
        }
    }
}
