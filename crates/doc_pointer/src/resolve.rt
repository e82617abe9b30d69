//! The value that a pointer leads to.

ghost use Rattle.std.specs.Prelude.{◌≡◌, option_map};
ghost use Rattle.doc_pointer.specs.Place.{child_named, resolve};
ghost use Rattle.doc_tree.specs.TreeView.{view};

use crate::index::array_index;
use crate::pointer::Pointer;
use doc_tree::Tree;

impl Pointer {
    /// The value in the tree that the tokens lead to (RFC 6901, section 4), or `None` if one of them names nothing. `-`
    /// names the place after an array's last element, which has no value. Takes no memory.
    pub fn resolve<'t>(&self, tree: &'t Tree) -> Option<&'t Tree>
        ensures { option_map (λ t. view t.now) result ≡ resolve self.now (view tree.now) }
    {
        let mut here = tree;
        for token in &self.tokens {
            here = child_at(here, token)?;
        }
        Some(here)
    }
}

/// The member or the element that one token names, or `None` if it names nothing. Takes no memory.
pub fn child_at<'t>(tree: &'t Tree, token: &str) -> Option<&'t Tree>
    ensures { option_map (λ t. view t.now) result ≡ child_named token.now (view tree.now) }
{
    match tree {
        Tree::Object(_) => tree.member(token),
        Tree::List(_) => tree.item(array_index(token)?),
        _ => None,
    }
}
