//! The values that each keyword may have.
ghost use Rattle.std.specs.Prelude.{◌≡◌};
ghost use Rattle.std.specs.List.{list_all};
ghost use Rattle.doc_tree.specs.Lists.{elements_list, values_list};
ghost use Rattle.doc_tree.specs.TreeView.{view, elements_view, members_view};
ghost use Rattle.schema_rules.specs.Forms.{has_form, is_text, is_boolean, is_list, is_some_list, is_object, is_number, is_number_from, is_type, is_list_of_distinct, is_object_of};

use crate::anchors::is_anchor_text;
use crate::distinct::are_distinct;
use crate::keyword::Keyword;
use crate::types::is_type_name;
use doc_tree::Tree;
use name_map::NameMap;

/// Whether the value has the keyword's form, at the root of a schema or below it (JSON Schema Validation, section 6;
/// Core, sections 8 and 10). A value that is itself a schema has, and so has that of a left-out keyword.
pub fn has_form(at_root: bool, keyword: Keyword, value: &Tree) -> bool
    ensures { result ≡ has_form at_root keyword (view value.now) }
{
    match keyword {
        Keyword::OfType => is_type(value) || is_list_of_types(value),
        Keyword::Enumeration => matches!(value, Tree::List(_)),
        Keyword::MultipleOf => is_number_from(1, value),
        Keyword::Minimum
        | Keyword::Maximum
        | Keyword::ExclusiveMinimum
        | Keyword::ExclusiveMaximum => matches!(value, Tree::Int(_)),
        Keyword::MinLength
        | Keyword::MaxLength
        | Keyword::MinItems
        | Keyword::MaxItems
        | Keyword::MinProperties
        | Keyword::MaxProperties
        | Keyword::MinContains
        | Keyword::MaxContains => is_number_from(0, value),
        Keyword::UniqueItems => matches!(value, Tree::Bool(_)),
        Keyword::Required => is_list_of_texts(value),
        Keyword::DependentRequired => is_object_of_lists(value),
        Keyword::Properties
        | Keyword::PatternProperties
        | Keyword::DependentSchemas
        | Keyword::Defs => matches!(value, Tree::Object(_)),
        Keyword::PrefixItems | Keyword::AllOf | Keyword::AnyOf | Keyword::OneOf => is_some_list(
            value,
        ),
        Keyword::Anchor => is_anchor_text(value),
        Keyword::Pattern | Keyword::Ref => is_text(value),
        Keyword::Id | Keyword::Dialect => !at_root || is_text(value),
        _ => true,
    }
}

fn is_text(value: &Tree) -> bool
    ensures { result ≡ is_text (view value.now) }
{
    matches!(value, Tree::Text(_))
}

fn is_some_list(value: &Tree) -> bool
    ensures { result ≡ is_some_list (view value.now) }
{
    match value {
        Tree::List(items) => !items.as_slice().is_empty(),
        _ => false,
    }
}

fn is_number_from(least: i64, value: &Tree) -> bool
    ensures { result ≡ is_number_from least (view value.now) }
{
    match value {
        Tree::Int(number) => least <= *number,
        _ => false,
    }
}

fn is_type(value: &Tree) -> bool
    ensures { result ≡ is_type (view value.now) }
{
    match value {
        Tree::Text(name) => is_type_name(name.as_str()),
        _ => false,
    }
}

fn is_list_of_types(value: &Tree) -> bool
    ensures { result ≡ is_list_of_distinct is_type (view value.now) }
{
    match value {
        Tree::List(items) => are_types(items) && are_distinct(items.as_slice()),
        _ => false,
    }
}

fn are_types(items: &Vec<Tree>) -> bool
    ensures { result ≡ list_all is_type (elements_list (elements_view items.now.items)) }
{
    for item in items {
        if !is_type(item) {
            return false;
        }
    }
    true
}

fn is_list_of_texts(value: &Tree) -> bool
    ensures { result ≡ is_list_of_distinct is_text (view value.now) }
{
    match value {
        Tree::List(items) => are_texts(items) && are_distinct(items.as_slice()),
        _ => false,
    }
}

fn are_texts(items: &Vec<Tree>) -> bool
    ensures { result ≡ list_all is_text (elements_list (elements_view items.now.items)) }
{
    for item in items {
        if !is_text(item) {
            return false;
        }
    }
    true
}

fn is_object_of_lists(value: &Tree) -> bool
    ensures { result ≡ is_object_of (is_list_of_distinct is_text) (view value.now) }
{
    match value {
        Tree::Object(members) => are_lists_of_texts(members),
        _ => false,
    }
}

fn are_lists_of_texts(members: &NameMap<Tree>) -> bool
    ensures { result ≡ list_all (is_list_of_distinct is_text) (values_list (members_view members.now.entries)) }
{
    for (_, value) in members.iter() {
        if !is_list_of_texts(value) {
            return false;
        }
    }
    true
}
