//! The parts of a document that a keyword speaks of, nothing if it has none.

ghost use Rattle.std.specs.Prelude.{◌≡◌, MatchOption, codes, drop, is_some, length, option_map};
ghost use Rattle.doc_tree.specs.Doc.{get_member, no_members};
ghost use Rattle.doc_tree.specs.Lists.{elements_list};
ghost use Rattle.doc_tree.specs.TreeView.{view, elements_view, members_view};
ghost use Rattle.schema_rules.specs.Instances.{seen};
ghost use Rattle.schema_rules.specs.Assertions.{at_least, at_most, on_list};
ghost use Rattle.schema_rules.specs.Rules.{or_one};
ghost use Rattle.schema_rules.specs.Parts.{beside, elements_in, members_in};

use doc_tree::Tree;
use name_map::NameMap;
use schema_rules::{Instance, at_least, at_most, member_named};

// The elements; none if it is no array.
pub(crate) fn elements_of(value: &Tree) -> &[Tree]
    ensures { elements_view result.now ≡ elements_in (view value.now) }
{
    match value {
        Tree::List(items) => items.as_slice(),
        _ => &[],
    }
}

// The elements of an instance; none if it is no array.
pub(crate) fn items_of<'t>(instance: Instance<'t>) -> &'t [Tree]
    ensures { elements_view result.now ≡ elements_in (seen instance.entry) }
{
    match instance {
        Instance::Value(value) => elements_of(value),
        Instance::Name(_) => &[],
    }
}

// The members of an instance, if it is an object.
pub(crate) fn members_of<'t>(instance: Instance<'t>) -> Option<&'t NameMap<Tree>>
    ensures { MatchOption result (members_in (seen instance.entry) ≡ no_members) (λ m. members_view m.now.entries ≡ members_in (seen instance.entry)) }
{
    match instance {
        Instance::Value(value) => members_of_value(value),
        Instance::Name(_) => None,
    }
}

fn members_of_value(value: &Tree) -> Option<&NameMap<Tree>>
    ensures { MatchOption result (members_in (view value.now) ≡ no_members) (λ m. members_view m.now.entries ≡ members_in (view value.now)) }
{
    match value {
        Tree::Object(members) => Some(members),
        _ => None,
    }
}

// How many elements `prefixItems` has in the same schema object.
pub(crate) fn prefix_len(siblings: &NameMap<Tree>) -> usize
    ensures { result
        ≡ length (elements_list (elements_in (beside (codes "prefixItems") (members_view siblings.now.entries)))) }
{
    match member_named(siblings, "prefixItems") {
        Some(prefix) => elements_of(prefix).len(),
        None => 0,
    }
}

// The elements after the first `count`.
pub(crate) fn after(items: &[Tree], count: usize) -> &[Tree]
    ensures { result.now ≡ drop count items.now }
{
    if count < items.len() {
        &items[count..]
    } else {
        &[]
    }
}

// Whether `properties` has a schema of that name in the same schema object.
pub(crate) fn is_named(siblings: &NameMap<Tree>, name: &str) -> bool
    ensures { result
        ≡ is_some (get_member name.now (members_in (beside (codes "properties") (members_view siblings.now.entries)))) }
{
    match member_named(siblings, "properties") {
        Some(Tree::Object(named)) => member_named(named, name).is_some(),
        _ => false,
    }
}

// Whether `many` is at least the number of `minContains`, or 1 without it; of an array alone.
pub(crate) fn is_enough(least: Option<&Tree>, many: usize, instance: Instance<'_>) -> bool
    ensures { result ≡ on_list (λ _. at_least (or_one (option_map (λ t. view t.now) least.entry)) many) (seen instance.entry) }
{
    match instance {
        Instance::Value(value) => match value {
            Tree::List(_) => is_least(least, many),
            _ => true,
        },
        Instance::Name(_) => true,
    }
}

fn is_least(least: Option<&Tree>, many: usize) -> bool
    ensures { result ≡ at_least (or_one (option_map (λ t. view t.now) least.entry)) many }
{
    match least {
        Some(least) => at_least(least, many),
        None => many >= 1,
    }
}

// Whether `many` is at most the number of `maxContains`; of an array alone.
pub(crate) fn is_within(most: &Tree, many: usize, instance: Instance<'_>) -> bool
    ensures { result ≡ on_list (λ _. at_most (view most.now) many) (seen instance.entry) }
{
    match instance {
        Instance::Value(value) => match value {
            Tree::List(_) => at_most(most, many),
            _ => true,
        },
        Instance::Name(_) => true,
    }
}
