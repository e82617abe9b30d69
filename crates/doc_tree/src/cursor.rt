//! A walk over the members of an object, in the order of their names.
ghost use Rattle.std.specs.Prelude.{◌≡◌, ◌↔◌, ℕ, List, IsSome, IsTrue, MatchOption, option_map, pos, string_bytes};
ghost use Rattle.doc_tree.specs.Cursor.{ahead, IsNext};
ghost use Rattle.doc_tree.specs.Doc.{Doc, Members, as_object, int, member, no_members, text};
ghost use Rattle.doc_tree.specs.TreeView.{view};

use crate::tree::Tree;
use name_map::NameMap;

/// A walk over the members of an object, in the order of their names, that hands out their values.
#[derive(Drop)]
pub struct MemberCursor {
    left: NameMap<Tree>,
}

impl MemberCursor {
    /// A walk before the first member of an object; `None` for any other value.
    pub fn of(tree: Tree) -> Option<MemberCursor>
        ensures { option_map ahead result ≡ as_object (view tree) }
    {
        match tree {
            Tree::Object(left) => Some(MemberCursor { left }),
            _ => None,
        }
    }

    /// Whether the next member has the name.
    pub fn is_at(&self, name: &str) -> bool
        ensures { IsTrue result ↔ IsNext name.now (ahead self.now) }
    {
        match self.left.first_key_value() {
            Some((key, _)) => key.as_str() == name,
            None => false,
        }
    }

    /// The value of the next member, if that has the name, and the walk after it; else `None`.
    pub fn take(self, name: &str) -> Option<(Tree, MemberCursor)>
        ensures { MatchOption result
            ((d : Doc) (ms : Members) → ahead self ≡ member name.now d ms → ⊥)
            (λ r. ahead self ≡ member name.now (view r.0) (ahead r.1)) }
    {
        let mut left = self.left;
        let (key, value) = left.pop_first()?;
        if key.as_str() == name {
            Some((value, MemberCursor { left }))
        } else {
            None
        }
    }

    /// The same of a member that is a text; `None` too if it is none.
    pub fn take_text(self, name: &str) -> Option<(String, MemberCursor)>
        ensures { MatchOption result
            ((s : List ℕ) (ms : Members) → ahead self ≡ member name.now (text s) ms → ⊥)
            (λ r. ahead self ≡ member name.now (text (string_bytes r.0)) (ahead r.1)) }
    {
        let (value, rest) = self.take(name)?;
        match value {
            Tree::Text(text) => Some((text, rest)),
            _ => None,
        }
    }

    /// The same of a member that is a number from 0 on; `None` too if it is none.
    pub fn take_number(self, name: &str) -> Option<(u64, MemberCursor)>
        ensures { MatchOption result
            ((n : ℕ) (ms : Members) → ahead self ≡ member name.now (int (pos n)) ms → ⊥)
            (λ r. ahead self ≡ member name.now (int (pos r.0)) (ahead r.1)) }
    {
        let (value, rest) = self.take(name)?;
        match value {
            Tree::Int(number) => match u64::try_from(number) {
                Ok(number) => Some((number, rest)),
                Err(_) => None,
            },
            _ => None,
        }
    }

    /// `Some` if no member is left.
    pub fn end(self) -> Option<()>
        ensures { IsSome result ↔ (ahead self ≡ no_members) }
    {
        let mut left = self.left;
        match left.pop_first() {
            Some(_) => None,
            None => Some(()),
        }
    }
}
