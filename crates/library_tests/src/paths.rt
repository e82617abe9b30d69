//! Normalized paths that no document of a store has: indexes up to 2^64, and a path at the limit of a query. Their
//! escapes (RFC 9535, section 2.7) are tried by the crate transcripts.
use doc_tree::Step;
use path_parse::laws::reads_what_is_spelled;
use path_parse::normal_laws::reads_back;
use path_parse::{Query, QueryFault, Segment, Selector, normal_text};
use refusals::numbers::{PATH, PATH_LONG};
use std::alloc::Global;
use std::process::Abort;

/// Whether the segment is a child segment with the step as its one selector.
fn is_child(segment: &Segment, step: &Step) -> bool {
    match (segment.selectors.as_slice(), step) {
        ([Selector::Name(found)], Step::Name(wanted)) => {
            !segment.descend && found.as_str() == wanted.as_str()
        }
        ([Selector::Index(found)], Step::Index(wanted)) => {
            !segment.descend && u64::try_from(*found) == Ok(*wanted)
        }
        _ => false,
    }
}

fn has_children(query: &Query, steps: &[Step]) -> bool {
    query.segments.len() == steps.len()
        && query
            .segments
            .iter()
            .zip(steps)
            .all(|(segment, step)| is_child(segment, step))
}

/// The steps are written as the text.
fn is_written(rt: &impl Abort, alloc: Global, steps: &[Step], wanted: &str) {
    let text = normal_text(alloc, steps).expect(rt, "room");
    assert_eq!(rt; text.as_str(), wanted);
}

/// The text is read as the steps.
fn is_read(rt: &impl Abort, alloc: Global, text: &str, steps: &[Step]) {
    let query = Query::read(alloc, text).expect(rt, "a query");
    assert!(rt; has_children(&query, steps));
}

/// The steps are written as the text, which is read as them.
fn is_theirs(rt: &impl Abort, alloc: Global, steps: &[Step], text: &str) {
    is_written(rt, alloc, steps, text);
    is_read(rt, alloc, text, steps);
}

/// The text is no query, for that reason.
fn is_refused(rt: &impl Abort, alloc: Global, text: &str, number: u16) {
    let fault = Query::read(alloc, text).err();
    assert_eq!(rt; fault, Some(QueryFault { number }));
}

/// By the law that what is spelled is read.
#[test]
fn what_is_spelled_is_read(rt: HostRuntime) {
    let root = reads_what_is_spelled(rt.alloc(), "$").expect(&rt, "a query");
    assert!(rt; has_children(&root, &[]));
}

/// By the law that a path is read as its steps.
#[test]
fn what_is_written_is_read(rt: HostRuntime) {
    let steps = [Step::Index(7)];
    let query = reads_back(rt.alloc(), &steps).expect(&rt, "a query");
    assert!(rt; has_children(&query, &steps));
}

#[test]
fn indexes_are_decimal_and_read_back_up_to_two_to_the_53(rt: HostRuntime) {
    let alloc = rt.alloc();
    is_theirs(&rt, alloc, &[], "$");
    is_theirs(&rt, alloc, &[Step::Index(0), Step::Index(10)], "$[0][10]");
    let text = "$[9007199254740991]";
    is_theirs(&rt, alloc, &[Step::Index(9007199254740991)], text);
    let text = "$[9007199254740992]";
    is_written(&rt, alloc, &[Step::Index(9007199254740992)], text);
    is_refused(&rt, alloc, text, PATH);
    let text = "$[18446744073709551615]";
    is_written(&rt, alloc, &[Step::Index(u64::MAX)], text);
}

/// `count` steps to the eighth element.
fn eighths(rt: &impl Abort, alloc: Global, count: usize) -> Vec<Step> {
    let mut steps = Vec::new(alloc);
    for _ in 0..count {
        steps.push(Step::Index(7)).expect(rt, "room");
    }
    steps
}

/// The path of `count` such steps, which has `bytes` bytes.
fn path(rt: &impl Abort, alloc: Global, count: usize, bytes: usize) -> String {
    let text = normal_text(alloc, &eighths(rt, alloc, count)).expect(rt, "room");
    assert_eq!(rt; text.len(), bytes);
    text
}

#[test]
fn a_long_path_is_written_and_not_read(rt: HostRuntime) {
    let alloc = rt.alloc();
    let longest = path(&rt, alloc, 341, 1024);
    is_read(&rt, alloc, &longest, &eighths(&rt, alloc, 341));
    is_refused(&rt, alloc, &path(&rt, alloc, 342, 1027), PATH_LONG);
}
