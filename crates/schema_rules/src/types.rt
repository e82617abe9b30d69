//! The types of instances by their names.
ghost use Rattle.std.specs.Prelude.{◌≡◌};
ghost use Rattle.std.specs.List.{list_any};
ghost use Rattle.doc_tree.specs.Lists.{elements_list};
ghost use Rattle.doc_tree.specs.TreeView.{view, elements_view};
ghost use Rattle.schema_rules.specs.Assertions.{has_type, is_of, is_of_text};
ghost use Rattle.schema_rules.specs.Forms.{is_type_name};
ghost use Rattle.schema_rules.specs.Instances.{seen};

use crate::instance::Instance;
use doc_tree::Tree;

/// Whether the instance has the type that is named, or one of those named.
pub(crate) fn has_type(value: &Tree, instance: Instance<'_>) -> bool
    ensures { result ≡ has_type (view value.now) (seen instance.entry) }
{
    match value {
        Tree::Text(name) => is_of(name.as_str(), instance),
        Tree::List(names) => has_some_type(names, instance),
        _ => true,
    }
}

fn has_some_type(names: &Vec<Tree>, instance: Instance<'_>) -> bool
    ensures { result ≡ list_any (λ name. is_of_text name (seen instance.entry)) (elements_list (elements_view names.now.items)) }
{
    for name in names {
        if is_of_text(name, instance) {
            return true;
        }
    }
    false
}

fn is_of_text(name: &Tree, instance: Instance<'_>) -> bool
    ensures { result ≡ is_of_text (view name.now) (seen instance.entry) }
{
    match name {
        Tree::Text(text) => is_of(text.as_str(), instance),
        _ => false,
    }
}

fn is_of(name: &str, instance: Instance<'_>) -> bool
    ensures { result ≡ is_of name.now (seen instance.entry) }
{
    match instance {
        Instance::Value(tree) => is_of_value(name, tree),
        Instance::Name(_) => name == "string",
    }
}

fn is_of_value(name: &str, instance: &Tree) -> bool
    ensures { result ≡ is_of name.now (view instance.now) }
{
    match instance {
        Tree::Null => name == "null",
        Tree::Bool(_) => name == "boolean",
        Tree::Int(_) => name == "number" || name == "integer",
        Tree::Text(_) => name == "string",
        Tree::List(_) => name == "array",
        Tree::Object(_) => name == "object",
    }
}

/// Whether the name is that of a type.
pub(crate) fn is_type_name(name: &str) -> bool
    ensures { result ≡ is_type_name name.now }
{
    name == "null"
        || name == "boolean"
        || name == "object"
        || name == "array"
        || name == "number"
        || name == "string"
        || name == "integer"
}
