//! Plans: queries in whose filters each absolute query is replaced by what was found of it, once, and each singular
//! query by the steps that it takes.
use path_grammar::CompareOp;
use path_select::compare::Side;

/// A plan: its segments in order.
#[cycle(plan)]
#[derive(Drop)]
pub struct Plan<'q> {
    pub segments: Vec<PlanSegment<'q>>,
}

/// A segment of a plan.
#[cycle(plan)]
#[derive(Drop)]
pub struct PlanSegment<'q> {
    /// Whether it is a descendant segment.
    pub descend: bool,
    pub choices: Vec<PlanSelector<'q>>,
}

/// A selector of a plan.
#[cycle(plan)]
#[derive(Drop)]
pub enum PlanSelector<'q> {
    /// The one child, if there is one.
    Only(Way<'q>),
    /// All children.
    Every,
    /// The elements of a slice.
    Sliced {
        start: Option<i64>,
        stop: Option<i64>,
        step: Option<i64>,
    },
    /// The children that pass the test.
    Kept(PlanFilter<'q>),
}

/// A name, or an index; a negative one counts from the end.
#[derive(Clone, Copy, Drop)]
pub enum Way<'q> {
    Name(&'q String),
    Index(i64),
}

/// What a filter of a plan asks.
#[cycle(plan)]
#[derive(Drop)]
pub enum PlanFilter<'q> {
    SomeOf(Vec<PlanFilter<'q>>),
    AllOf(Vec<PlanFilter<'q>>),
    NotThat(Box<PlanFilter<'q>>),
    ThereIs(Plan<'q>),
    /// Of a singular query.
    LeadsThere(Vec<Way<'q>>),
    /// Of an absolute query: whether it is refused, and whether it selects a node.
    ThereWas {
        refused: bool,
        is: bool,
    },
    Compared {
        op: CompareOp,
        left: PlanComparable<'q>,
        right: PlanComparable<'q>,
    },
}

/// A side of a comparison of a plan.
#[cycle(plan)]
#[derive(Drop)]
pub enum PlanComparable<'q> {
    /// A literal, or what was found of an absolute query: whether it is refused, and its value.
    Known {
        refused: bool,
        value: Option<Side<'q>>,
    },
    OnlyOf(Plan<'q>),
    /// Of a singular query.
    LedTo(Vec<Way<'q>>),
    SizeOf(Box<PlanComparable<'q>>),
    NumberOf(Plan<'q>),
}
