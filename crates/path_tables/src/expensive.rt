//! Expensive queries: they may visit a node many times, with all that is below it, or try a filter many times on one
//! value. This decides the way that an evaluation goes, and not what it gives.
use path_parse::{Expr, Operand, Query, Segment, Selector, Source};

/// A segment of more selectors than these asks much of each node.
const MANY_SELECTORS: usize = 8;

/// What the list before a segment may have.
#[derive(Clone, Copy, Drop)]
struct Repeats {
    /// A node more than once.
    doubled: bool,
    /// A node below another; for a query in a filter, below a node at which the query begins too.
    nested: bool,
}

/// Whether the two never select the same child.
fn are_apart(one: &Selector, other: &Selector) -> bool {
    match (one, other) {
        (Selector::Name(one), Selector::Name(other)) => one.as_str() != other.as_str(),
        (Selector::Index(one), Selector::Index(other)) => one != other
            && (*one < 0) == (*other < 0),
        (Selector::Name(_), Selector::Index(_)) => true,
        (Selector::Index(_), Selector::Name(_)) => true,
        _ => false,
    }
}

/// Whether none of the others selects a child that the selector selects too.
fn is_apart(selector: &Selector, others: &[Selector]) -> bool {
    for other in others {
        if !are_apart(selector, other) {
            return false;
        }
    }
    true
}

/// Whether two of the selectors may select the same child.
fn may_overlap(selectors: &Vec<Selector>) -> bool {
    if selectors.len() > MANY_SELECTORS {
        return true;
    }
    for place in 0..selectors.len() {
        if !is_apart(&selectors[place], &selectors[place + 1..]) {
            return true;
        }
    }
    false
}

/// Whether there is a filter among the selectors.
fn has_filter(selectors: &Vec<Selector>) -> bool {
    for selector in selectors {
        if let Selector::Filter(_) = selector {
            return true;
        }
    }
    false
}

/// What the list after the segment may have.
fn after(segment: &Segment, before: Repeats) -> Repeats {
    Repeats {
        doubled: before.doubled
            || (segment.descend && before.nested)
            || may_overlap(&segment.selectors),
        nested: before.nested || segment.descend,
    }
}

/// Whether the segment may visit or try many times what it need visit or try once.
fn is_segment_expensive(segment: &Segment, before: Repeats) -> bool {
    if before.doubled {
        segment.descend
            || segment.selectors.len() > MANY_SELECTORS
            || has_filter(&segment.selectors)
    } else {
        before.nested && segment.descend && has_filter(&segment.selectors)
    }
}

/// Whether the query is expensive.
pub fn is_expensive(query: &Query) -> bool {
    is_expensive_from(query, false)
}

/// Whether the query is expensive; `nested` says whether it begins at nodes below one another.
#[cycle(expensive)]
fn is_expensive_from(query: &Query, nested: bool) -> bool {
    let mut before = Repeats {
        doubled: false,
        nested,
    };
    for segment in &query.segments {
        if is_segment_expensive(segment, before) {
            return true;
        }
        if some_selector_expensive(&segment.selectors, segment.descend || before.nested) {
            return true;
        }
        before = after(segment, before);
    }
    false
}

#[cycle(expensive)]
fn some_selector_expensive(selectors: &Vec<Selector>, nested: bool) -> bool {
    for selector in selectors {
        if let Selector::Filter(expression) = selector {
            if is_expression_expensive(expression, nested) {
                return true;
            }
        }
    }
    false
}

#[cycle(expensive)]
fn is_expression_expensive(expression: &Expr, nested: bool) -> bool {
    match expression {
        Expr::Or(parts) => some_part_expensive(parts, nested),
        Expr::And(parts) => some_part_expensive(parts, nested),
        Expr::Not(part) => is_expression_expensive(part, nested),
        Expr::Exists(source) => is_source_expensive(source, nested),
        Expr::Compare { left, right, .. } => is_operand_expensive(left, nested)
            || is_operand_expensive(right, nested),
    }
}

#[cycle(expensive)]
fn some_part_expensive(parts: &Vec<Expr>, nested: bool) -> bool {
    for part in parts {
        if is_expression_expensive(part, nested) {
            return true;
        }
    }
    false
}

#[cycle(expensive)]
fn is_operand_expensive(operand: &Operand, nested: bool) -> bool {
    match operand {
        Operand::Literal(_) => false,
        Operand::Single(source) => is_source_expensive(source, nested),
        Operand::Length(inner) => is_operand_expensive(inner, nested),
        Operand::Count(source) => is_source_expensive(source, nested),
        Operand::ValueOf(source) => is_source_expensive(source, nested),
    }
}

/// An absolute query begins at the root alone.
#[cycle(expensive)]
fn is_source_expensive(source: &Source, nested: bool) -> bool {
    is_expensive_from(&source.query, nested && !source.from_root)
}
