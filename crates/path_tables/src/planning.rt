//! The making of plans. An absolute query in a filter is evaluated here, once, and the plan has what was found of it in
//! its place.
ghost use Rattle.std.specs.Prelude.{◌≡◌, false, length, option_map, IfOk, MatchOption, None, ⊤};
ghost use Rattle.doc_tree.specs.TreeView.{view};
ghost use Rattle.path_grammar.specs.Syntax.{count_of, existence, no_selectors, selector, value_of};
ghost use Rattle.path_parse.specs.SyntaxView.{expression_view, expressions_view, operand_view, query_view, selector_view, selectors_view, source_query, source_root};
ghost use Rattle.path_select.specs.Comparing.{number};
ghost use Rattle.path_plans.specs.PlanView.{choice_view, choices_view, plan_view, term_view, test_view, tests_view, way_selector};
ghost use Rattle.path_plans.specs.Planned as planned;
ghost use Rattle.path_tables.specs.Planning.{FoundOf, GoesBy, IsIndexOf, KeptOf, made_of};
ghost use Rattle.path_plans.specs.PlanValues.{planned_from};
ghost use Rattle.path_select.specs.ChildView.{doc_if, docs_of};
ghost use Rattle.path_select.specs.Gives.{Gives};
ghost use Rattle.path_select.specs.Nodes.{only_node};
ghost use Rattle.path_select.specs.Values as found_values;
ghost use Rattle.path_select.specs.Values.{is_some_value};

use crate::asking::values_at;
use crate::lists::numbers_of_plan;
use doc_tree::Tree;
use path_grammar::CompareOp;
use path_parse::{Expr, Operand, Query, Segment, Selector, Source};
use path_plans::passing::values_of_plan;
use path_plans::plan::{Plan, PlanComparable, PlanFilter, PlanSegment, PlanSelector, Way};
use path_select::compare::{Side, compares, count, is_some_value, lend, length_value, only};
use path_select::index::Index;
use path_select::stop::Stop;
use std::alloc::{AllocError, Global};

/// The plan of the query, whose absolute queries go by values alone.
pub fn plain_plan_of<'q>(
    query: &'q Query,
    alloc: Global,
    root: &'q Tree,
) -> Result<Plan<'q>, AllocError>
    ensures { IfOk result (λ p. plan_view p ≡ planned.plan (view root.now) (query_view query.now)) }
{
    plan_of(query, alloc, root, None)
}

/// The plan of the query. Its absolute queries go by the numbers of nodes, if these are known.
#[cycle(planning)]
#[tactic(auto, using(crate::proofs::Made::part_by_part))]
pub fn plan_of<'q>(
    query: &'q Query,
    alloc: Global,
    root: &'q Tree,
    index: Option<&'q Index<'_>>,
) -> Result<Plan<'q>, AllocError>
    requires { IsIndexOf (view root.now) index }
    ensures { IfOk result (λ p. plan_view p ≡ planned.plan (view root.now) (query_view query.now)) }
{
    let mut segments = Vec::with_capacity(alloc, query.segments.len())?;
    for segment in &query.segments {
        segments.push(PlanSegment {
            descend: segment.descend,
            choices: choices_of(&segment.selectors, alloc, root, index)?,
        })?;
    }
    Ok(Plan { segments })
}

#[cycle(planning)]
#[tactic(auto, using(crate::proofs::Made::part_by_part))]
fn choices_of<'q>(
    selectors: &'q Vec<Selector>,
    alloc: Global,
    root: &'q Tree,
    index: Option<&'q Index<'_>>,
) -> Result<Vec<PlanSelector<'q>>, AllocError>
    requires { IsIndexOf (view root.now) index }
    ensures { IfOk result (λ cs. choices_view cs.items ≡ planned.plan_choices (view root.now) (selectors_view selectors.now.items)) }
{
    let mut choices = Vec::with_capacity(alloc, selectors.len())?;
    for selector in selectors {
        choices.push(choice_of(selector, alloc, root, index)?)?;
    }
    Ok(choices)
}

#[cycle(planning)]
fn choice_of<'q>(
    selector: &'q Selector,
    alloc: Global,
    root: &'q Tree,
    index: Option<&'q Index<'_>>,
) -> Result<PlanSelector<'q>, AllocError>
    requires { IsIndexOf (view root.now) index }
    ensures { IfOk result (λ c. choice_view c ≡ planned.plan_choice (view root.now) (selector_view selector.now)) }
{
    Ok(match selector {
        Selector::Name(name) => PlanSelector::Only(Way::Name(name)),
        Selector::Wild => PlanSelector::Every,
        Selector::Index(index) => PlanSelector::Only(Way::Index(*index)),
        Selector::Filter(expression) => PlanSelector::Kept(test_of(
            expression, alloc, root, index,
        )?),
        Selector::Slice { start, stop, step } => PlanSelector::Sliced {
            start: *start,
            stop: *stop,
            step: *step,
        },
    })
}

#[cycle(planning)]
fn test_of<'q>(
    expression: &'q Expr,
    alloc: Global,
    root: &'q Tree,
    index: Option<&'q Index<'_>>,
) -> Result<PlanFilter<'q>, AllocError>
    requires { IsIndexOf (view root.now) index }
    ensures { IfOk result (λ t. test_view t ≡ planned.plan_test (view root.now) (expression_view expression.now)) }
{
    match expression {
        Expr::Or(parts) => Ok(PlanFilter::SomeOf(tests_of(parts, alloc, root, index)?)),
        Expr::And(parts) => Ok(PlanFilter::AllOf(tests_of(parts, alloc, root, index)?)),
        Expr::Not(part) => Ok(PlanFilter::NotThat(Box::new(
            alloc,
            test_of(part, alloc, root, index)?,
        )?)),
        Expr::Exists(source) => exists_of(source, alloc, root, index),
        Expr::Compare { op, left, right } => Ok(compared(
            *op,
            term_of(left, alloc, root, index)?,
            term_of(right, alloc, root, index)?,
        )),
    }
}

#[cycle(planning)]
#[tactic(auto, using(crate::proofs::Made::part_by_part))]
fn tests_of<'q>(
    parts: &'q Vec<Expr>,
    alloc: Global,
    root: &'q Tree,
    index: Option<&'q Index<'_>>,
) -> Result<Vec<PlanFilter<'q>>, AllocError>
    requires { IsIndexOf (view root.now) index }
    ensures { IfOk result (λ ts. tests_view ts.items ≡ planned.plan_tests (view root.now) (expressions_view parts.now.items)) }
{
    let mut tests = Vec::with_capacity(alloc, parts.len())?;
    for part in parts {
        tests.push(test_of(part, alloc, root, index)?)?;
    }
    Ok(tests)
}

/// Whether the query selects a node.
#[cycle(planning)]
fn exists_of<'q>(
    source: &'q Source,
    alloc: Global,
    root: &'q Tree,
    index: Option<&'q Index<'_>>,
) -> Result<PlanFilter<'q>, AllocError>
    requires { IsIndexOf (view root.now) index }
    ensures { IfOk result (λ t. test_view t ≡ planned.plan_test (view root.now) (existence (source_root source.now) (source_query source.now))) }
{
    if source.from_root {
        let found = found_of(&source.query, alloc, root, index)?;
        return Ok(there_was(found));
    }
    match ways_of(&source.query, alloc)? {
        Some(ways) => Ok(PlanFilter::LeadsThere(ways)),
        None => Ok(PlanFilter::ThereIs(plan_of(&source.query, alloc, root, index)?)),
    }
}

#[cycle(planning)]
fn term_of<'q>(
    operand: &'q Operand,
    alloc: Global,
    root: &'q Tree,
    index: Option<&'q Index<'_>>,
) -> Result<PlanComparable<'q>, AllocError>
    requires { IsIndexOf (view root.now) index }
    ensures { IfOk result (λ t. term_view t ≡ planned.plan_side (view root.now) (operand_view operand.now)) }
{
    match operand {
        Operand::Literal(value) => Ok(PlanComparable::Known {
            refused: false,
            value: Some(Side::Lent(value)),
        }),
        Operand::Single(source) => only_of(source, alloc, root, index),
        Operand::Length(inner) => sized(term_of(inner, alloc, root, index)?, alloc),
        Operand::Count(source) => number_of(source, alloc, root, index),
        Operand::ValueOf(source) => only_of(source, alloc, root, index),
    }
}

/// The value of the one node of the query.
#[cycle(planning)]
fn only_of<'q>(
    source: &'q Source,
    alloc: Global,
    root: &'q Tree,
    index: Option<&'q Index<'_>>,
) -> Result<PlanComparable<'q>, AllocError>
    requires { IsIndexOf (view root.now) index }
    ensures { IfOk result (λ t. term_view t ≡ planned.plan_side (view root.now) (value_of (source_root source.now) (source_query source.now))) }
{
    if source.from_root {
        let found = found_of(&source.query, alloc, root, index)?;
        return Ok(was_only(found));
    }
    match ways_of(&source.query, alloc)? {
        Some(ways) => Ok(PlanComparable::LedTo(ways)),
        None => Ok(PlanComparable::OnlyOf(plan_of(&source.query, alloc, root, index)?)),
    }
}

/// How many nodes the query selects.
#[cycle(planning)]
fn number_of<'q>(
    source: &'q Source,
    alloc: Global,
    root: &'q Tree,
    index: Option<&'q Index<'_>>,
) -> Result<PlanComparable<'q>, AllocError>
    requires { IsIndexOf (view root.now) index }
    ensures { IfOk result (λ t. term_view t ≡ planned.plan_side (view root.now) (count_of (source_root source.now) (source_query source.now))) }
{
    if source.from_root {
        let found = found_of(&source.query, alloc, root, index)?;
        Ok(was_number(found))
    } else {
        Ok(PlanComparable::NumberOf(plan_of(&source.query, alloc, root, index)?))
    }
}

/// The values that the query selects from the root on; None if it is refused.
#[cycle(planning)]
fn found_of<'q>(
    query: &'q Query,
    alloc: Global,
    root: &'q Tree,
    index: Option<&'q Index<'_>>,
) -> Result<Option<Vec<&'q Tree>>, AllocError>
    requires { IsIndexOf (view root.now) index }
    ensures { IfOk result (FoundOf (view root.now) (query_view query.now)) }
{
    let plan = plan_of(query, alloc, root, index)?;
    unless_too_many(values_of(&plan, alloc, root, index))
}

/// The values that the plan selects from the root on.
fn values_of<'q>(
    plan: &Plan<'_>,
    alloc: Global,
    root: &'q Tree,
    index: Option<&'q Index<'_>>,
) -> Result<Vec<&'q Tree>, Stop>
    requires { IsIndexOf (view root.now) index }
    ensures { let q = plan_view plan.now in
        Gives (λ found. docs_of found.items) result (planned.plan_refused q (only_node (view root.now))) (planned_from q (view root.now)) }
{
    match index {
        Some(index) => {
            let numbers = numbers_of_plan(plan, index, alloc)?;
            Ok(values_at(index, alloc, &numbers)?)
        }
        None => values_of_plan(plan, alloc, root),
    }
}

/// The values; None if there are too many.
fn unless_too_many<'t>(
    found: Result<Vec<&'t Tree>, Stop>,
) -> Result<Option<Vec<&'t Tree>>, AllocError>
    ensures { IfOk result (KeptOf found.entry) }
{
    match found {
        Ok(values) => Ok(Some(values)),
        Err(Stop::TooMany) => Ok(None),
        Err(Stop::Memory) => Err(AllocError),
    }
}

/// Whether the query selected a node.
fn there_was<'q>(found: Option<Vec<&'q Tree>>) -> PlanFilter<'q>
    ensures { let made = made_of is_some_value false found.entry in
        test_view result ≡ planned.there_was made.0 made.1 }
{
    match found {
        Some(values) => PlanFilter::ThereWas {
            refused: false,
            is: is_some_value(&values),
        },
        None => PlanFilter::ThereWas {
            refused: true,
            is: false,
        },
    }
}

/// The value of the one node that the query selected.
fn was_only<'q>(found: Option<Vec<&'q Tree>>) -> PlanComparable<'q>
    ensures { let made = made_of found_values.only None found.entry in
        term_view result ≡ planned.known made.0 made.1 }
{
    match found {
        Some(values) => PlanComparable::Known {
            refused: false,
            value: only(&values),
        },
        None => PlanComparable::Known {
            refused: true,
            value: None,
        },
    }
}

/// How many nodes the query selected.
fn was_number<'q>(found: Option<Vec<&'q Tree>>) -> PlanComparable<'q>
    ensures { let made = made_of (λ ds. number (length ds)) None found.entry in
        term_view result ≡ planned.known made.0 made.1 }
{
    match found {
        Some(values) => PlanComparable::Known {
            refused: false,
            value: count(&values),
        },
        None => PlanComparable::Known {
            refused: true,
            value: None,
        },
    }
}

/// A comparison, which is made here, once, if both sides are known.
fn compared<'q>(
    op: CompareOp,
    left: PlanComparable<'q>,
    right: PlanComparable<'q>,
) -> PlanFilter<'q>
    ensures { test_view result ≡ planned.compared_once op (term_view left.entry) (term_view right.entry) }
{
    match decision(op, &left, &right) {
        Some((refused, is)) => PlanFilter::ThereWas { refused, is },
        None => PlanFilter::Compared { op, left, right },
    }
}

/// Whether a comparison is refused, and whether it holds, if both sides are known.
fn decision(
    op: CompareOp,
    left: &PlanComparable<'_>,
    right: &PlanComparable<'_>,
) -> Option<(bool, bool)>
    ensures { result ≡ planned.decision op (term_view left.now) (term_view right.now) }
{
    let (refused, one) = known(left)?;
    let (refused_too, other) = known(right)?;
    Some((refused || refused_too, compares(op, one, other)))
}

/// What is known of a side whatever the current value is: whether it is refused, and its value.
fn known<'t>(term: &'t PlanComparable<'_>) -> Option<(bool, Option<&'t Tree>)>
    ensures { option_map (λ found. (found.0, doc_if found.1)) result ≡ planned.known_of (term_view term.now) }
{
    match term {
        PlanComparable::Known { refused, value } => Some((*refused, lend(value))),
        PlanComparable::OnlyOf(_) => None,
        PlanComparable::LedTo(_) => None,
        PlanComparable::SizeOf(_) => None,
        PlanComparable::NumberOf(_) => None,
    }
}

/// The length of a side, which is taken here, once, if the side is known.
fn sized<'q>(term: PlanComparable<'q>, alloc: Global) -> Result<PlanComparable<'q>, AllocError>
    ensures { IfOk result (λ t. term_view t ≡ planned.sized_once (term_view term.entry)) }
{
    let length = match known(&term) {
        Some((refused, value)) => Some((refused, length_value(value))),
        None => None,
    };
    match length {
        Some((refused, value)) => Ok(PlanComparable::Known { refused, value }),
        None => Ok(PlanComparable::SizeOf(Box::new(alloc, term)?)),
    }
}

/// The ways of the query, one for each segment, if it is a singular one (RFC 9535, section 2.3.5.1).
#[tactic(auto, using(crate::proofs::Made::part_by_part))]
fn ways_of<'q>(query: &'q Query, alloc: Global) -> Result<Option<Vec<Way<'q>>>, AllocError>
    ensures { IfOk result (GoesBy (query_view query.now)) }
{
    let mut ways = Vec::new(alloc);
    for segment in &query.segments {
        match way_of(segment) {
            Some(way) => ways.push(way)?,
            None => return Ok(None),
        }
    }
    Ok(Some(ways))
}

/// The way of the segment, if it is a child segment of one name or one index.
fn way_of(segment: &Segment) -> Option<Way<'_>>
    ensures { MatchOption result ⊤ (λ w. (segment.now.descend ≡ false)
        × (selectors_view segment.now.selectors.items ≡ selector (way_selector w) no_selectors)) }
{
    if segment.descend {
        return None;
    }
    match segment.selectors.as_slice() {
        [Selector::Name(name)] => Some(Way::Name(name)),
        [Selector::Index(index)] => Some(Way::Index(*index)),
        _ => None,
    }
}
