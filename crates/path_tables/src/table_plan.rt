//! Plans that are evaluated by the numbers of nodes, with the tables of their filters.
use crate::filter_table::FilterTable;
use path_plans::plan::PlanSelector;

/// A choice, and if it is a filter what that says of each node.
#[derive(Drop)]
pub struct TableSelector<'p, 'q> {
    pub choice: &'p PlanSelector<'q>,
    /// Of a filter alone.
    pub told: FilterTable,
}

/// A segment.
#[derive(Drop)]
pub struct TableSegment<'p, 'q> {
    /// Whether it is a descendant segment.
    pub descend: bool,
    pub picks: Vec<TableSelector<'p, 'q>>,
}
