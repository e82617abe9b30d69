//! Comparisons and functions of filters (RFC 9535, sections 2.3.5.2.2 and 2.4.4).
ghost use Rattle.std.specs.Prelude.{◌≡◌, ◌<◌, ◌≤◌, ◌^◌, chars, length, option_map, Some};
ghost use Rattle.doc_tree.specs.Doc as doc;
ghost use Rattle.doc_tree.specs.TreeView.{view};
ghost use Rattle.path_select.specs.Comparing as comparing;
ghost use Rattle.path_select.specs.Values as found;
ghost use Rattle.path_select.specs.ChildView.{doc_if, docs_of, side_if};

use doc_tree::Tree;
use path_grammar::CompareOp;

/// The value of a side of a comparison: lent by the document or the query, or made.
#[derive(Drop)]
pub enum Side<'t> {
    Lent(&'t Tree),
    Made(Tree),
}

/// The value, lent.
pub fn lend<'t>(side: &'t Option<Side<'_>>) -> Option<&'t Tree>
    ensures { doc_if result ≡ side_if side.now }
{
    match side {
        Some(Side::Lent(value)) => Some(value),
        Some(Side::Made(value)) => Some(value),
        None => None,
    }
}

/// Whether both are Nothing, or two values that are the same.
fn are_equal(left: Option<&Tree>, right: Option<&Tree>) -> bool
    ensures { result ≡ comparing.are_equal (doc_if left.entry) (doc_if right.entry) }
{
    match left {
        Some(a) => match right {
            Some(b) => a.equals(b),
            None => false,
        },
        None => right.is_none(),
    }
}

/// Whether the first text comes before the second, by their code points.
fn text_before(a: &str, b: &str) -> bool
    ensures { result ≡ comparing.text_before a.now b.now }
{
    let mut others = b.chars();
    for point in a.chars() {
        match others.next() {
            Some(other) => if point != other {
                return point < other;
            },
            None => return false,
        }
    }
    others.next().is_some()
}

/// Whether the first is the smaller number, or the text that comes before.
fn comes_before(a: &Tree, b: &Tree) -> bool
    ensures { result ≡ comparing.comes_before (view a.now) (view b.now) }
{
    match a {
        Tree::Int(x) => match b {
            Tree::Int(y) => *x < *y,
            _ => false,
        },
        Tree::Text(x) => match b {
            Tree::Text(y) => text_before(x.as_str(), y.as_str()),
            _ => false,
        },
        _ => false,
    }
}

fn is_less(left: Option<&Tree>, right: Option<&Tree>) -> bool
    ensures { result ≡ comparing.is_less (doc_if left.entry) (doc_if right.entry) }
{
    match left {
        Some(a) => match right {
            Some(b) => comes_before(a, b),
            None => false,
        },
        None => false,
    }
}

/// Whether the comparison holds of the two values; None is Nothing.
pub fn compares(op: CompareOp, left: Option<&Tree>, right: Option<&Tree>) -> bool
    ensures { result ≡ comparing.compares op (doc_if left.entry) (doc_if right.entry) }
{
    match op {
        CompareOp::Equal => are_equal(left, right),
        CompareOp::NotEqual => !are_equal(left, right),
        CompareOp::Less => is_less(left, right),
        CompareOp::LessEqual => is_less(left, right) || are_equal(left, right),
        CompareOp::Greater => is_less(right, left),
        CompareOp::GreaterEqual => is_less(right, left) || are_equal(right, left),
    }
}

/// How many characters the text has.
fn characters(text: &str) -> usize
    ensures count { result ≡ length (chars text.now) }
    ensures small { result ≤ length text.now }
{
    text.chars().count()
}

/// That many, as a value.
fn number<'t>(n: usize) -> Option<Side<'t>>
    requires { n < 2 ^ 63 }
    ensures { side_if result ≡ comparing.number n }
{
    Some(Side::Made(Tree::Int(n as i64)))
}

/// `length` of a value: the code points of a text, the elements of a list, the members of an object.
fn size<'t>(value: &Tree) -> Option<Side<'t>>
    ensures { side_if result ≡ comparing.length_value (Some (view value.now)) }
{
    match value {
        Tree::Text(text) => number(characters(text.as_str())),
        Tree::List(items) => number(items.len()),
        Tree::Object(members) => number(members.len()),
        _ => None,
    }
}

/// `length` of a value or Nothing (section 2.4.4).
pub fn length_value<'t>(value: Option<&Tree>) -> Option<Side<'t>>
    ensures { side_if result ≡ comparing.length_value (doc_if value.entry) }
{
    match value {
        Some(value) => size(value),
        None => None,
    }
}

/// `value`: the value of a list of exactly one, else Nothing (section 2.4.8).
pub fn only<'t>(values: &Vec<&'t Tree>) -> Option<Side<'t>>
    ensures { side_if result ≡ found.only (docs_of values.now.items) }
{
    match values.as_slice() {
        [value] => Some(Side::Lent(value)),
        _ => None,
    }
}

/// `count`: how many values there are (section 2.4.5).
pub fn count<'t>(values: &Vec<&Tree>) -> Option<Side<'t>>
    ensures { side_if result ≡ comparing.number (length (docs_of values.now.items)) }
{
    number(values.len())
}

/// Whether there is a value.
pub fn is_some_value(values: &Vec<&Tree>) -> bool
    ensures { result ≡ found.is_some_value (docs_of values.now.items) }
{
    !values.is_empty()
}
