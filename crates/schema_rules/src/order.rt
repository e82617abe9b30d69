//! A total order of trees, by which equal ones come to be side by side.
ghost use Rattle.std.specs.Prelude.{◌≡◌};
ghost use Rattle.doc_tree.specs.Doc.{text};
ghost use Rattle.doc_tree.specs.TreeView.{view, elements_view, members_view};
ghost use Rattle.schema_rules.specs.Order.{doc_cmp, elements_cmp, members_cmp, kind_rank};

use doc_tree::Tree;
use name_map::NameMap;
use std::cmp::Ordering;

/// The order of two trees: by their kinds, numbers by value, texts by their bytes, arrays and objects part by part.
#[cycle(order)]
pub(crate) fn compare(a: &Tree, b: &Tree) -> Ordering
    ensures { result ≡ doc_cmp (view a.now) (view b.now) }
{
    match (a, b) {
        (Tree::Int(x), Tree::Int(y)) => x.cmp(y),
        (Tree::Text(x), Tree::Text(y)) => x.cmp(y),
        (Tree::List(x), Tree::List(y)) => compare_elements(x, y),
        (Tree::Object(x), Tree::Object(y)) => compare_members(x, y),
        _ => kind_rank(a).cmp(&kind_rank(b)),
    }
}

#[cycle(order)]
fn compare_elements(a: &Vec<Tree>, b: &Vec<Tree>) -> Ordering
    ensures { result ≡ elements_cmp (elements_view a.now.items) (elements_view b.now.items) }
{
    let mut others = b.iter();
    for element in a {
        match others.next() {
            Some(other) => {
                let order = compare(element, other);
                if order.is_ne() {
                    return order;
                }
            }
            None => return Ordering::Greater,
        }
    }
    if others.next().is_none() {
        Ordering::Equal
    } else {
        Ordering::Less
    }
}

#[cycle(order)]
fn compare_members(a: &NameMap<Tree>, b: &NameMap<Tree>) -> Ordering
    ensures { result ≡ members_cmp (members_view a.now.entries) (members_view b.now.entries) }
{
    let mut others = b.iter();
    for (name, member) in a.iter() {
        match others.next() {
            Some((other_name, other)) => {
                let order = name.cmp(other_name).then(compare(member, other));
                if order.is_ne() {
                    return order;
                }
            }
            None => return Ordering::Greater,
        }
    }
    if others.next().is_none() {
        Ordering::Equal
    } else {
        Ordering::Less
    }
}

/// The order of a tree and a text, which is no tree yet.
pub(crate) fn compare_to_text(a: &Tree, b: &str) -> Ordering
    ensures { result ≡ doc_cmp (view a.now) (text b.now) }
{
    match a {
        Tree::Text(a) => a.as_str().cmp(b),
        Tree::Null | Tree::Bool(_) | Tree::Int(_) => Ordering::Less,
        Tree::List(_) | Tree::Object(_) => Ordering::Greater,
    }
}

// A number for each kind of tree.
fn kind_rank(tree: &Tree) -> u8
    ensures { result ≡ kind_rank (view tree.now) }
{
    match tree {
        Tree::Null => 0,
        Tree::Bool(false) => 1,
        Tree::Bool(true) => 2,
        Tree::Int(_) => 3,
        Tree::Text(_) => 4,
        Tree::List(_) => 5,
        Tree::Object(_) => 6,
    }
}
