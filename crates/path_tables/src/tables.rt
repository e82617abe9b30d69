//! The tables of filters over all nodes of a document. Each filter is asked once of each node.
ghost use Rattle.std.specs.Prelude.{◌≡◌, Bool, IfOk, false, if◌then◌else◌};
ghost use Rattle.path_plans.specs.PlanView.{choice_view, choices_view, plan_view, term_view, test_view, tests_view};
ghost use Rattle.path_tables.specs.FilterTables.{AreAllRight, AreRight, IsAskedRightly, IsRightFor, IsSoughtRightly, TellEach, TellsAll, asked_view, phases_view, picks_view, plan_in, said_of};
ghost use Rattle.path_select.specs.Indexed.{IsIndex};
ghost use Rattle.path_select.specs.Gives.{Gives};

use crate::asked::{Asked, Sought};
use crate::asking::node_passes;
use crate::branches::{goes_by_numbers, side_goes_by_numbers};
use crate::filter_table::{FilterOutcome, FilterTable};
use crate::table_plan::{TableSegment, TableSelector};
use path_plans::plan::{Plan, PlanComparable, PlanFilter, PlanSelector};
use path_select::index::Index;
use path_select::stop::Stop;
use std::alloc::{AllocError, Global};

/// What a test says that was asked.
fn outcome(passes: Result<bool, Stop>) -> Result<FilterOutcome, AllocError>
    ensures { (refused held : Bool) → Gives (λ b. b) passes refused held
        → IfOk result (λ s. said_of s ≡ (refused, if refused then false else held)) }
{
    match passes {
        Ok(true) => Ok(FilterOutcome::Holds),
        Ok(false) => Ok(FilterOutcome::Fails),
        Err(Stop::TooMany) => Ok(FilterOutcome::Refused),
        Err(Stop::Memory) => Err(AllocError),
    }
}

/// What the test says of all nodes.
fn told_by(
    asked: &Asked<'_, '_>,
    index: &Index<'_>,
    alloc: Global,
) -> Result<FilterTable, AllocError>
    requires index { IsIndex index.now }
    requires right { IsAskedRightly index.now asked.now }
    ensures { IfOk result (TellsAll index.now (asked_view asked.now)) }
{
    let first = node_passes(asked, index, alloc, 0);
    let top = outcome(first)?;
    let count = index.walk.listed.len();
    let mut all = Vec::with_capacity(alloc, count)?;
    for number in 0..count {
        let found = node_passes(asked, index, alloc, number);
        let said = outcome(found)?;
        all.push(said)?;
    }
    Ok(FilterTable { said: all, top })
}

/// What the test says of all nodes.
#[cycle(telling)]
fn told_of(
    test: &PlanFilter<'_>,
    index: &Index<'_>,
    alloc: Global,
) -> Result<FilterTable, AllocError>
    requires { IsIndex index.now }
    ensures { IfOk result (TellsAll index.now (test_view test.now)) }
{
    let asked = asked_of(test, index, alloc)?;
    told_by(&asked, index, alloc)
}

/// The test, with what its parts say of all nodes.
#[cycle(telling)]
fn asked_of<'p, 'q>(
    test: &'p PlanFilter<'q>,
    index: &Index<'_>,
    alloc: Global,
) -> Result<Asked<'p, 'q>, AllocError>
    requires { IsIndex index.now }
    ensures same { IfOk result (λ asked. asked_view asked ≡ test_view test.now) }
    ensures right { IfOk result (IsAskedRightly index.now) }
{
    match test {
        PlanFilter::SomeOf(parts) => {
            let told = told_each(parts, index, alloc)?;
            Ok(Asked::SomeOf { parts, told })
        }
        PlanFilter::AllOf(parts) => {
            let told = told_each(parts, index, alloc)?;
            Ok(Asked::AllOf { parts, told })
        }
        PlanFilter::NotThat(part) => {
            let told = told_of(part, index, alloc)?;
            Ok(Asked::NotThat { part, told })
        }
        PlanFilter::ThereIs(plan) => {
            if !goes_by_numbers(plan) {
                return Ok(Asked::Plainly(test));
            }
            Ok(Asked::ThereIs(phases_of(plan, index, alloc)?))
        }
        PlanFilter::Compared { op, left, right } => {
            if !side_goes_by_numbers(left) && !side_goes_by_numbers(right) {
                return Ok(Asked::Plainly(test));
            }
            Ok(Asked::Compared {
                op: *op,
                left: sought_of(left, index, alloc)?,
                right: sought_of(right, index, alloc)?,
            })
        }
        _ => Ok(Asked::Plainly(test)),
    }
}

/// What each of the tests says of all nodes.
#[cycle(telling)]
fn told_each(
    parts: &Vec<PlanFilter<'_>>,
    index: &Index<'_>,
    alloc: Global,
) -> Result<Vec<FilterTable>, AllocError>
    requires { IsIndex index.now }
    ensures { IfOk result (λ all. TellEach index.now (tests_view parts.now.items) all.items) }
{
    let mut all = Vec::with_capacity(alloc, parts.len())?;
    for part in parts {
        all.push(told_of(part, index, alloc)?)?;
    }
    Ok(all)
}

/// The side of a comparison, with the plan in it.
#[cycle(telling)]
fn sought_of<'p, 'q>(
    side: &'p PlanComparable<'q>,
    index: &Index<'_>,
    alloc: Global,
) -> Result<Sought<'p, 'q>, AllocError>
    requires { IsIndex index.now }
    ensures { IfOk result (λ sought. IsSoughtRightly index.now sought × (term_view sought.side.now ≡ term_view side.now)) }
{
    let phases = phases_in(side, index, alloc)?;
    Ok(Sought { side, phases })
}

/// The plan in the side of a comparison, with what its filters say of all nodes.
#[cycle(telling)]
fn phases_in<'p, 'q>(
    side: &'p PlanComparable<'q>,
    index: &Index<'_>,
    alloc: Global,
) -> Result<Vec<TableSegment<'p, 'q>>, AllocError>
    requires { IsIndex index.now }
    ensures right { IfOk result (λ phases. AreAllRight index.now phases.items) }
    ensures same { IfOk result (λ phases. phases_view phases.items ≡ plan_in side.now) }
{
    match side {
        PlanComparable::OnlyOf(plan) => phases_of(plan, index, alloc),
        PlanComparable::NumberOf(plan) => phases_of(plan, index, alloc),
        PlanComparable::SizeOf(inner) => phases_in(inner, index, alloc),
        _ => Ok(Vec::new(alloc)),
    }
}

/// The plan, with what its filters say of all nodes.
#[cycle(telling)]
#[tactic(auto, using(crate::proofs::Phased::phase_by_phase))]
pub fn phases_of<'p, 'q>(
    plan: &'p Plan<'q>,
    index: &Index<'_>,
    alloc: Global,
) -> Result<Vec<TableSegment<'p, 'q>>, AllocError>
    requires { IsIndex index.now }
    ensures right { IfOk result (λ phases. AreAllRight index.now phases.items) }
    ensures same { IfOk result (λ phases. phases_view phases.items ≡ plan_view plan.now) }
{
    let mut phases = Vec::with_capacity(alloc, plan.segments.len())?;
    for segment in &plan.segments {
        phases.push(TableSegment {
            descend: segment.descend,
            picks: picks_of(&segment.choices, index, alloc)?,
        })?;
    }
    Ok(phases)
}

/// The choices, with what filters among them say of all nodes.
#[cycle(telling)]
#[tactic(auto, using(crate::proofs::Phased::phase_by_phase))]
fn picks_of<'p, 'q>(
    choices: &'p Vec<PlanSelector<'q>>,
    index: &Index<'_>,
    alloc: Global,
) -> Result<Vec<TableSelector<'p, 'q>>, AllocError>
    requires { IsIndex index.now }
    ensures right { IfOk result (λ picks. AreRight index.now picks.items) }
    ensures same { IfOk result (λ picks. picks_view picks.items ≡ choices_view choices.now.items) }
{
    let mut picks = Vec::with_capacity(alloc, choices.len())?;
    for choice in choices {
        let told = told_if_filter(choice, index, alloc)?;
        picks.push(TableSelector { choice, told })?;
    }
    Ok(picks)
}

/// What the choice says of all nodes, if it is a filter.
#[cycle(telling)]
fn told_if_filter(
    choice: &PlanSelector<'_>,
    index: &Index<'_>,
    alloc: Global,
) -> Result<FilterTable, AllocError>
    requires { IsIndex index.now }
    ensures { IfOk result (IsRightFor index.now (choice_view choice.now)) }
{
    match choice {
        PlanSelector::Kept(test) => told_of(test, index, alloc),
        _ => Ok(FilterTable {
            said: Vec::new(alloc),
            top: FilterOutcome::Fails,
        }),
    }
}
