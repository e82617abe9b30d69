//! Nodelists whose names the document lends, and the paths of their nodes.
use doc_tree::Tree;
use path_eval::{LentNode, Nodelist, lent_nodes, lent_normal_text};
use path_parse::Query;
use std::alloc::Global;
use std::process::Abort;

const DOCUMENT: &str = "{\"it's\":[5,{\"b\":6}],\"z\":7}";

fn document(rt: &impl Abort, alloc: Global) -> Tree {
    Tree::read(alloc, DOCUMENT.as_bytes()).expect(rt, "a document")
}

/// What the query selects.
fn listed<'t>(rt: &impl Abort, alloc: Global, query: &str, tree: &'t Tree) -> Nodelist<'t> {
    let query = Query::read(alloc, query).expect(rt, "a query");
    lent_nodes(alloc, &query, tree).expect(rt, "nodes")
}

/// The number that a value is.
fn number(value: &Tree) -> Option<i64> {
    match value {
        Tree::Int(number) => Some(*number),
        _ => None,
    }
}

/// The node has that normalized path, and that number for its value, or none.
fn stands(rt: &impl Abort, alloc: Global, node: &LentNode<'_>, path: &str, value: Option<i64>) {
    assert!(rt; number(node.value) == value);
    let text = lent_normal_text(alloc, &node.steps).expect(rt, "room");
    assert_eq!(rt; text.as_str(), path);
}

/// The same of the node of that number in the list.
fn has(
    rt: &impl Abort,
    alloc: Global,
    list: &Nodelist<'_>,
    at: usize,
    path: &str,
    value: Option<i64>,
) {
    assert!(rt; at < list.len());
    let node = list.node(alloc, at).expect(rt, "room");
    stands(rt, alloc, &node, path, value);
}

#[test]
fn a_lent_list_has_each_node_with_its_path(rt: HostRuntime) {
    let alloc = rt.alloc();
    let tree = document(&rt, alloc);
    let list = listed(&rt, alloc, "$..*", &tree);
    assert!(rt; list.len() == 5);
    has(&rt, alloc, &list, 0, "$['it\\'s']", None);
    has(&rt, alloc, &list, 1, "$['z']", Some(7));
    has(&rt, alloc, &list, 2, "$['it\\'s'][0]", Some(5));
    has(&rt, alloc, &list, 3, "$['it\\'s'][1]", None);
    has(&rt, alloc, &list, 4, "$['it\\'s'][1]['b']", Some(6));
}

#[test]
fn the_root_is_lent_too(rt: HostRuntime) {
    let tree = document(&rt, rt.alloc());
    let list = listed(&rt, rt.alloc(), "$", &tree);
    assert!(rt; list.len() == 1);
    has(&rt, rt.alloc(), &list, 0, "$", None);
}

#[test]
fn a_node_that_is_listed_twice_selects_twice(rt: HostRuntime) {
    let alloc = rt.alloc();
    let tree = document(&rt, alloc);
    let list = listed(&rt, alloc, "$['it\\'s','z','it\\'s']..[1,0]", &tree);
    assert!(rt; list.len() == 4);
    has(&rt, alloc, &list, 0, "$['it\\'s'][1]", None);
    has(&rt, alloc, &list, 1, "$['it\\'s'][0]", Some(5));
    has(&rt, alloc, &list, 2, "$['it\\'s'][1]", None);
    has(&rt, alloc, &list, 3, "$['it\\'s'][0]", Some(5));
}

#[test]
fn where_nothing_stands_no_node_is_lent(rt: HostRuntime) {
    let tree = document(&rt, rt.alloc());
    assert!(rt; listed(&rt, rt.alloc(), "$.z[0]", &tree).len() == 0);
}
