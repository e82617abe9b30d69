//! Values without children.
ghost use Rattle.std.specs.Prelude.{◌≡◌};
ghost use Rattle.doc_tree.specs.TreeView.{view};
ghost use Rattle.path_tables.specs.Visiting as visiting;

use doc_tree::Tree;

/// Whether the value is neither a list nor an object, so that it has no children.
pub fn is_leaf(value: &Tree) -> bool
    ensures { result ≡ visiting.is_leaf (view value.now) }
{
    !matches!(value, Tree::List(_) | Tree::Object(_))
}
