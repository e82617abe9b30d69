//! The document that is made of the value which `serde_json` read: texts are moved, and similar objects share names.
ghost use Rattle.std.specs.Prelude.{◌≡◌, Some, IfOk, MatchResult};
ghost use Rattle.serde_json.specs.View.{view as data_view, items_view, members_view as data_members};
ghost use Rattle.doc_tree.specs.Fault.{IsRefusalOf};
ghost use Rattle.doc_tree.specs.Read.{doc_of, elements_from, members_from};
ghost use Rattle.doc_tree.specs.Sound.{IsSound, AreSound, MembersAreSound};
ghost use Rattle.doc_tree.specs.TreeView.{view, elements_view, members_view};

use crate::alike;
use crate::fault::TreeFault;
use crate::tree::Tree;
use name_map::NameMap;
use refusals::numbers::NUMBER;
use serde_json::Value;
use std::alloc::{AllocError, Global};
use std::collections::BTreeMap;

#[cycle(tree_of)]
pub(crate) fn tree_of(alloc: Global, value: Value, like: Option<&Tree>) -> Result<Tree, TreeFault>
    ensures document { MatchResult result (λ t. doc_of (data_view value) ≡ Some (view t))
        (λ e. IsRefusalOf e (doc_of (data_view value))) }
    ensures sound { IfOk result (λ t. IsSound (view t)) }
{
    match value {
        Value::Null => Ok(Tree::Null),
        Value::Bool(b) => Ok(Tree::Bool(b)),
        Value::Number(number) => match number.as_i64() {
            Some(n) => Ok(Tree::Int(n)),
            None => Err(TreeFault { number: NUMBER }),
        },
        Value::String(text) => Ok(Tree::Text(text)),
        Value::Array(items) => Ok(Tree::List(elements_of(alloc, items, like)?)),
        Value::Object(members) => Ok(Tree::Object(members_of(alloc, members, like)?)),
    }
}

#[cycle(tree_of)]
fn elements_of(
    alloc: Global,
    items: Vec<Value>,
    like: Option<&Tree>,
) -> Result<Vec<Tree>, TreeFault>
    ensures elements { MatchResult result
        (λ v. elements_from (items_view items.items) ≡ Some (elements_view v.items))
        (λ e. IsRefusalOf e (elements_from (items_view items.items))) }
    ensures sound { IfOk result (λ v. AreSound (elements_view v.items)) }
{
    let mut found = Vec::with_capacity(alloc, items.len())?;
    for item in items {
        let tree = tree_of(alloc, item, alike::item(&found, like))?;
        found.push(tree)?;
    }
    Ok(found)
}

#[cycle(tree_of)]
fn members_of(
    alloc: Global,
    members: BTreeMap<String, Value>,
    like: Option<&Tree>,
) -> Result<NameMap<Tree>, TreeFault>
    ensures members { MatchResult result
        (λ m. members_from (data_members members.entries) ≡ Some (members_view m.entries))
        (λ e. IsRefusalOf e (members_from (data_members members.entries))) }
    ensures sound { IfOk result (λ m. MembersAreSound (members_view m.entries)) }
{
    let mut found = NameMap::with_capacity(alloc, members.len())?;
    for (name, member) in members {
        let twin = alike::member(&found, name.as_str(), like);
        let tree = tree_of(alloc, member, twin.value)?;
        let key = alike::name_of(alloc, name.as_str(), twin.name)?;
        found.add_last(key, tree).ok_or(AllocError)?;
    }
    Ok(found)
}
