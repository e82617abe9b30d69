//! Tests that must be asked of all nodes, with what their parts say of them.
use crate::filter_table::FilterTable;
use crate::table_plan::TableSegment;
use path_grammar::CompareOp;
use path_plans::plan::{PlanComparable, PlanFilter};

/// A test, with what its parts say of all nodes.
#[derive(Drop)]
pub enum Asked<'p, 'q> {
    /// No filter is in it.
    Plainly(&'p PlanFilter<'q>),
    SomeOf {
        parts: &'p Vec<PlanFilter<'q>>,
        told: Vec<FilterTable>,
    },
    AllOf {
        parts: &'p Vec<PlanFilter<'q>>,
        told: Vec<FilterTable>,
    },
    NotThat {
        part: &'p PlanFilter<'q>,
        told: FilterTable,
    },
    ThereIs(Vec<TableSegment<'p, 'q>>),
    Compared {
        op: CompareOp,
        left: Sought<'p, 'q>,
        right: Sought<'p, 'q>,
    },
}

/// A side of a comparison, with the plan in it.
#[derive(Drop)]
pub struct Sought<'p, 'q> {
    pub side: &'p PlanComparable<'q>,
    /// The phases of its plan; none if it has no plan.
    pub phases: Vec<TableSegment<'p, 'q>>,
}
