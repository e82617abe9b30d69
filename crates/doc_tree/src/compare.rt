//! The equality of two documents.
ghost use Rattle.std.specs.Prelude.{◌≡◌, ◌↔◌, IsTrue};
ghost use Rattle.doc_tree.specs.Same.{same, same_elements, same_members};
ghost use Rattle.doc_tree.specs.TreeView.{view, elements_view, members_view};

use crate::tree::Tree;
use name_map::NameMap;

impl Tree {
    /// Whether the two are one document: RFC 6902, section 4.6, by which arrays are equal element by
    /// element and objects member by member.
    pub fn equals(&self, other: &Tree) -> bool
        ensures decided { result ≡ same (view self.now) (view other.now) }
        ensures equal { IsTrue result ↔ (view self.now ≡ view other.now) }
    {
        are_same(self, other)
    }
}

#[cycle(same)]
fn are_same(a: &Tree, b: &Tree) -> bool
    ensures { result ≡ same (view a.now) (view b.now) }
{
    match a {
        Tree::Null => matches!(b, Tree::Null),
        Tree::Bool(x) => match b {
            Tree::Bool(y) => *x == *y,
            _ => false,
        },
        Tree::Int(x) => match b {
            Tree::Int(y) => *x == *y,
            _ => false,
        },
        Tree::Text(x) => match b {
            Tree::Text(y) => x == y,
            _ => false,
        },
        Tree::List(x) => match b {
            Tree::List(y) => are_elements_same(x, y),
            _ => false,
        },
        Tree::Object(x) => match b {
            Tree::Object(y) => are_members_same(x, y),
            _ => false,
        },
    }
}

#[cycle(same)]
fn are_elements_same(a: &Vec<Tree>, b: &Vec<Tree>) -> bool
    ensures { result ≡ same_elements (elements_view a.now.items) (elements_view b.now.items) }
{
    let mut others = b.iter();
    for element in a {
        match others.next() {
            Some(other) => if !are_same(element, other) {
                return false;
            },
            None => return false,
        }
    }
    others.next().is_none()
}

#[cycle(same)]
fn are_members_same(a: &NameMap<Tree>, b: &NameMap<Tree>) -> bool
    ensures { result ≡ same_members (members_view a.now.entries) (members_view b.now.entries) }
{
    let mut others = b.iter();
    for (name, member) in a.iter() {
        match others.next() {
            Some((other_name, other)) => if name != other_name || !are_same(member, other) {
                return false;
            },
            None => return false,
        }
    }
    others.next().is_none()
}
