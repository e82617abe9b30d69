//! The assertions of the keywords on sizes.
ghost use Rattle.std.specs.Prelude.{◌≡◌, length};
ghost use Rattle.std.specs.Str.{chars};
ghost use Rattle.doc_tree.specs.Lists.{names_list};
ghost use Rattle.doc_tree.specs.TreeView.{view, members_view};
ghost use Rattle.schema_rules.specs.Assertions.{at_least, at_most, on_text, on_list, on_object};
ghost use Rattle.schema_rules.specs.Instances.{seen};

use crate::instance::Instance;
use doc_tree::Tree;

/// Whether a text has at least `value` code points.
pub(crate) fn has_length_from(value: &Tree, instance: Instance<'_>) -> bool
    ensures { result ≡ on_text (at_least (view value.now)) (seen instance.entry) }
{
    match instance {
        Instance::Value(tree) => match tree {
            Tree::Text(text) => at_least(value, code_points(text.as_str())),
            _ => true,
        },
        Instance::Name(name) => at_least(value, code_points(name)),
    }
}

/// Whether a text has at most `value` code points.
pub(crate) fn has_length_up_to(value: &Tree, instance: Instance<'_>) -> bool
    ensures { result ≡ on_text (at_most (view value.now)) (seen instance.entry) }
{
    match instance {
        Instance::Value(tree) => match tree {
            Tree::Text(text) => at_most(value, code_points(text.as_str())),
            _ => true,
        },
        Instance::Name(name) => at_most(value, code_points(name)),
    }
}

/// Whether an array has at least `value` elements.
pub(crate) fn has_items_from(value: &Tree, instance: &Tree) -> bool
    ensures { result ≡ on_list (at_least (view value.now)) (view instance.now) }
{
    match instance {
        Tree::List(items) => at_least(value, items.as_slice().len()),
        _ => true,
    }
}

/// Whether an array has at most `value` elements.
pub(crate) fn has_items_up_to(value: &Tree, instance: &Tree) -> bool
    ensures { result ≡ on_list (at_most (view value.now)) (view instance.now) }
{
    match instance {
        Tree::List(items) => at_most(value, items.as_slice().len()),
        _ => true,
    }
}

/// Whether an object has at least `value` members.
pub(crate) fn has_members_from(value: &Tree, instance: &Tree) -> bool
    ensures { result ≡ on_object (at_least (view value.now)) (view instance.now) }
{
    match instance {
        Tree::Object(members) => at_least(value, members.len()),
        _ => true,
    }
}

/// Whether an object has at most `value` members.
pub(crate) fn has_members_up_to(value: &Tree, instance: &Tree) -> bool
    ensures { result ≡ on_object (at_most (view value.now)) (view instance.now) }
{
    match instance {
        Tree::Object(members) => at_most(value, members.len()),
        _ => true,
    }
}

/// Whether the size is at least the keyword's number; one that is no number asks nothing.
pub fn at_least(value: &Tree, size: usize) -> bool
    ensures { result ≡ at_least (view value.now) size }
{
    match value {
        Tree::Int(least) => *least <= 0 || least.unsigned_abs() <= size as u64,
        _ => true,
    }
}

/// Whether the size is at most the keyword's number; one that is no number asks nothing.
pub fn at_most(value: &Tree, size: usize) -> bool
    ensures { result ≡ at_most (view value.now) size }
{
    match value {
        Tree::Int(most) => 0 <= *most && size as u64 <= most.unsigned_abs(),
        _ => true,
    }
}

fn code_points(text: &str) -> usize
    ensures { result ≡ length (chars text.now) }
{
    text.chars().count()
}
