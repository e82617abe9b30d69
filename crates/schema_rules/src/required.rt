//! The members that an object must have.
ghost use Rattle.std.specs.Prelude.{◌≡◌, is_some};
ghost use Rattle.std.specs.List.{list_all};
ghost use Rattle.doc_tree.specs.Doc.{get_member};
ghost use Rattle.doc_tree.specs.Lists.{elements_list};
ghost use Rattle.doc_tree.specs.TreeView.{view, elements_view, members_view};
ghost use Rattle.schema_rules.specs.Assertions.{each_dependent, has_dependents, has_each, is_member};
ghost use Rattle.schema_rules.specs.Parts.{members_in};

use crate::instance::Instance;
use crate::members::{has_member, member_named};
use doc_tree::Tree;
use name_map::NameMap;

/// Whether an object has a member of each name.
pub(crate) fn has_each(value: &Tree, instance: &Tree) -> bool
    ensures { result ≡ has_each (view value.now) (view instance.now) }
{
    match (value, instance) {
        (Tree::List(names), Tree::Object(members)) => are_members(names, members),
        _ => true,
    }
}

fn are_members(names: &Vec<Tree>, members: &NameMap<Tree>) -> bool
    ensures { result ≡ list_all (λ name. is_member name (members_view members.now.entries)) (elements_list (elements_view names.now.items)) }
{
    for name in names {
        if !is_member(name, members) {
            return false;
        }
    }
    true
}

fn is_member(name: &Tree, members: &NameMap<Tree>) -> bool
    ensures { result ≡ is_member (view name.now) (members_view members.now.entries) }
{
    match name {
        Tree::Text(name) => member_named(members, name.as_str()).is_some(),
        _ => true,
    }
}

/// Whether an object has, for each name that it has a member of, a member of each name that is listed there.
pub(crate) fn has_dependents(value: &Tree, instance: &Tree) -> bool
    ensures { result ≡ has_dependents (view value.now) (view instance.now) }
{
    match value {
        Tree::Object(dependents) => has_each_dependent(dependents, instance),
        _ => true,
    }
}

fn has_each_dependent(dependents: &NameMap<Tree>, instance: &Tree) -> bool
    ensures { result ≡ each_dependent (members_view dependents.now.entries) (view instance.now) }
{
    for (name, names) in dependents.iter() {
        if has_member(Instance::Value(instance), name.as_str()) && !has_each(names, instance) {
            return false;
        }
    }
    true
}
