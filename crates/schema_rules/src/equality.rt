//! Elements that are equal to a value, or to one another.
ghost use Rattle.std.specs.Prelude.{◌≡◌};
ghost use Rattle.std.specs.List.{list_any};
ghost use Rattle.doc_tree.specs.Lists.{elements_list};
ghost use Rattle.doc_tree.specs.Same.{same};
ghost use Rattle.doc_tree.specs.TreeView.{view, elements_view};
ghost use Rattle.schema_rules.specs.Assertions.{is_among, is_unique};
ghost use Rattle.schema_rules.specs.Instances.{seen};

use crate::distinct::are_distinct;
use crate::instance::Instance;
use doc_tree::Tree;

/// Whether the instance is equal to one of the elements.
pub(crate) fn is_among(value: &Tree, instance: Instance<'_>) -> bool
    ensures { result ≡ is_among (view value.now) (seen instance.entry) }
{
    match value {
        Tree::List(items) => is_equal_to_some(items, instance),
        _ => true,
    }
}

fn is_equal_to_some(items: &Vec<Tree>, instance: Instance<'_>) -> bool
    ensures { result ≡ list_any (λ d. same d (seen instance.entry)) (elements_list (elements_view items.now.items)) }
{
    for item in items {
        if is_equal(item, instance) {
            return true;
        }
    }
    false
}

/// Whether the two are equal.
pub(crate) fn is_equal(value: &Tree, instance: Instance<'_>) -> bool
    ensures { result ≡ same (view value.now) (seen instance.entry) }
{
    match instance {
        Instance::Value(tree) => value.equals(tree),
        Instance::Name(name) => match value {
            Tree::Text(text) => text.as_str() == name,
            _ => false,
        },
    }
}

/// Whether no two elements are equal, if the keyword asks for that.
pub(crate) fn is_unique(value: &Tree, instance: &Tree) -> bool
    ensures { result ≡ is_unique (view value.now) (view instance.now) }
{
    match value {
        Tree::Bool(true) => match instance {
            Tree::List(items) => are_distinct(items.as_slice()),
            _ => true,
        },
        _ => true,
    }
}
