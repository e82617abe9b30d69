//! The syntax of a query, as a tree of segments, selectors and expressions.
use doc_tree::Tree;
use path_grammar::CompareOp;

/// A query: its segments in order (RFC 9535, section 2.1).
#[cycle(syntax)]
#[derive(Drop)]
pub struct Query {
    pub segments: Vec<Segment>,
}

/// A child segment, or a descendant segment that begins with `..` (RFC 9535, section 2.5).
#[cycle(syntax)]
#[derive(Drop)]
pub struct Segment {
    /// Whether it is a descendant segment.
    pub descend: bool,
    pub selectors: Vec<Selector>,
}

/// What a segment takes of each node (RFC 9535, section 2.3).
#[cycle(syntax)]
#[derive(Drop)]
pub enum Selector {
    /// The member of this name.
    Name(String),
    /// All members or elements.
    Wild,
    /// The element at this place; a negative one counts from the end.
    Index(i64),
    /// The members or elements for which the expression holds.
    Filter(Expr),
    /// The elements from `start` up to but without `stop`, `step` apart.
    Slice {
        start: Option<i64>,
        stop: Option<i64>,
        step: Option<i64>,
    },
}

/// What a filter asks of a node (RFC 9535, section 2.3.5). The reader gives `Or` and `And` at least two parts.
#[cycle(syntax)]
#[derive(Drop)]
pub enum Expr {
    /// Some part holds.
    Or(Vec<Expr>),
    /// All parts hold.
    And(Vec<Expr>),
    Not(Box<Expr>),
    /// The query selects a node.
    Exists(Source),
    Compare {
        op: CompareOp,
        left: Operand,
        right: Operand,
    },
}

/// A query and its beginning: the root (`$`) or the current node (`@`).
#[cycle(syntax)]
#[derive(Drop)]
pub struct Source {
    pub from_root: bool,
    pub query: Query,
}

/// A side of a comparison, or what `length` is given (RFC 9535, sections 2.3.5 and 2.4).
#[cycle(syntax)]
#[derive(Drop)]
pub enum Operand {
    /// The reader makes these from `null`, `true`, `false`, strings and whole numbers alone.
    Literal(Tree),
    /// The value of the one node of a query that selects at most one.
    Single(Source),
    /// `length` (section 2.4.4).
    Length(Box<Operand>),
    /// `count` (section 2.4.5).
    Count(Source),
    /// `value` (section 2.4.8).
    ValueOf(Source),
}
