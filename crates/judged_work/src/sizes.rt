//! The sizes of values.
ghost use Rattle.std.specs.Prelude.{◌≡◌, ◌+◌, ◌/◌, ◌<◌, IfOk, IfErr, length};
ghost use Rattle.doc_tree.specs.Doc.{text};
ghost use Rattle.doc_tree.specs.TreeView.{view, elements_view, members_view};
ghost use Rattle.schema_rules.specs.Instances.{seen};
ghost use Rattle.judged_work.specs.Sizes.{elements_size, members_size, names_size, own_size, whole_size};
ghost use Rattle.judged_work.specs.Work.{size_of_names};
ghost use Rattle.judged_work.specs.declared.stop.Stop.TheVariants.{Limit};

use crate::stop::{Stop, spend};
use doc_tree::Tree;
use name_map::NameMap;
use schema_rules::Instance;

/// The size of an instance by itself.
pub(crate) fn own_size(instance: Instance<'_>) -> usize
    ensures { result ≡ own_size (seen instance.entry) }
{
    match instance {
        Instance::Value(value) => size_of(value),
        Instance::Name(name) => size_of_text(name),
    }
}

fn size_of(value: &Tree) -> usize
    ensures { result ≡ own_size (view value.now) }
{
    match value {
        Tree::Text(text) => size_of_text(text.as_str()),
        Tree::List(items) => 1 + items.len(),
        Tree::Object(members) => 1 + members.len(),
        Tree::Null => 1,
        Tree::Bool(_) => 1,
        Tree::Int(_) => 1,
    }
}

fn size_of_text(string: &str) -> usize
    ensures { result ≡ own_size (text string.now) }
{
    1 + string.len() / 64
}

/// Spends the sizes of the names of the instance's members.
pub(crate) fn spend_names(instance: Instance<'_>, left: usize) -> Result<usize, Stop>
    ensures rest { IfOk result (λ rest. rest + size_of_names (seen instance.entry) ≡ left) }
    ensures more { IfErr result (λ e. e ≡ Limit → left < size_of_names (seen instance.entry)) }
{
    match instance {
        Instance::Value(value) => spend_names_of(value, left),
        Instance::Name(_) => Ok(left),
    }
}

fn spend_names_of(value: &Tree, left: usize) -> Result<usize, Stop>
    ensures rest { IfOk result (λ rest. rest + size_of_names (view value.now) ≡ left) }
    ensures more { IfErr result (λ e. e ≡ Limit → left < size_of_names (view value.now)) }
{
    match value {
        Tree::Object(members) => spend_each_name(members, left),
        _ => Ok(left),
    }
}

fn spend_each_name(members: &NameMap<Tree>, before: usize) -> Result<usize, Stop>
    ensures rest { IfOk result (λ rest. rest + names_size (members_view members.now.entries) ≡ before) }
    ensures more { IfErr result (λ e. e ≡ Limit → before < names_size (members_view members.now.entries)) }
{
    let mut left = before;
    for (name, _) in members.iter() {
        left = spend(size_of_text(name.as_str()), left)?;
    }
    Ok(left)
}

/// Spends the size of the instance with all that is in it.
pub(crate) fn spend_whole(instance: Instance<'_>, left: usize) -> Result<usize, Stop>
    ensures rest { IfOk result (λ rest. rest + whole_size (seen instance.entry) ≡ left) }
    ensures more { IfErr result (λ e. e ≡ Limit → left < whole_size (seen instance.entry)) }
{
    match instance {
        Instance::Value(value) => spend_value(value, left),
        Instance::Name(name) => spend(size_of_text(name), left),
    }
}

/// The same of a value.
#[cycle(whole)]
pub(crate) fn spend_value(value: &Tree, before: usize) -> Result<usize, Stop>
    ensures rest { IfOk result (λ rest. rest + whole_size (view value.now) ≡ before) }
    ensures more { IfErr result (λ e. e ≡ Limit → before < whole_size (view value.now)) }
{
    let left = spend(size_of(value), before)?;
    match value {
        Tree::List(items) => spend_elements(items, left),
        Tree::Object(members) => spend_members(members, left),
        _ => Ok(left),
    }
}

#[cycle(whole)]
fn spend_elements(items: &Vec<Tree>, before: usize) -> Result<usize, Stop>
    ensures rest { IfOk result (λ rest. rest + elements_size (elements_view items.now.items) ≡ before) }
    ensures more { IfErr result (λ e. e ≡ Limit → before < elements_size (elements_view items.now.items)) }
{
    let mut left = before;
    for item in items {
        left = spend_value(item, left)?;
    }
    Ok(left)
}

#[cycle(whole)]
fn spend_members(members: &NameMap<Tree>, before: usize) -> Result<usize, Stop>
    ensures rest { IfOk result (λ rest. rest + members_size (members_view members.now.entries) ≡ before) }
    ensures more { IfErr result (λ e. e ≡ Limit → before < members_size (members_view members.now.entries)) }
{
    let mut left = before;
    for (name, member) in members.iter() {
        left = spend(size_of_text(name.as_str()), left)?;
        left = spend_value(member, left)?;
    }
    Ok(left)
}
