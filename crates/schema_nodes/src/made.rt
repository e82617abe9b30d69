//! The node of a schema.
ghost use Rattle.std.specs.Prelude.{◌≡◌, ◌<◌, ℕ, IfOk, length};
ghost use Rattle.doc_tree.specs.TreeView.{view, members_view};
ghost use Rattle.schema_graph.specs.Orders.{at};
ghost use Rattle.schema_rules.specs.Parts.{members_in};
ghost use Rattle.schema_nodes.specs.Entries.{HasRows};
ghost use Rattle.schema_nodes.specs.Fits.{AreMade, AsMany, IsBuilt, IsBuiltOf, IsMade, says_rules};

use crate::entries::Entry;
use crate::names::{numbers_under, prefix_len};
use crate::ranks::moved_rows;
use crate::rules::rules_of;
use crate::targets::Targets;
use doc_tree::Tree;
use name_map::NameMap;
use schema_levels::{Node, Rule};
use std::alloc::{AllocError, Global};
use std::collections::BTreeMap;

/// The nodes of the entries in order, if the numbers have these ranks.
pub(crate) fn nodes_of(
    entries: &[Entry<'_>],
    places: &[usize],
    ranks: &[usize],
    root: &Tree,
    targets: &Targets<'_>,
    alloc: Global,
) -> Result<Vec<Node>, AllocError>
    requires within { (i : ℕ) → i < length places.now → at places.now i < length entries.now }
    requires rows { HasRows entries.now }
    ensures { IfOk result (λ v. AreMade targets.now ranks.now (view root.now) entries.now places.now v.items) }
{
    let mut nodes = Vec::with_capacity(alloc, places.len())?;
    for number in places {
        nodes.push(node_at(*number, entries, ranks, root, targets, alloc)?)?;
    }
    Ok(nodes)
}

// The node of the entry with that number.
fn node_at(
    number: usize,
    entries: &[Entry<'_>],
    ranks: &[usize],
    root: &Tree,
    targets: &Targets<'_>,
    alloc: Global,
) -> Result<Node, AllocError>
    requires within { number < length entries.now }
    requires rows { HasRows entries.now }
    ensures { IfOk result (λ x. IsMade targets.now ranks.now (view root.now) entries.now number x) }
{
    let entry = &entries[number];
    let rows = moved_rows(&entry.rows, ranks, alloc)?;
    node_of(entry.schema, &rows, root, targets, ranks, alloc)
}

// The node that says what the schema says.
fn node_of(
    schema: &Tree,
    rows: &[Vec<usize>],
    root: &Tree,
    targets: &Targets<'_>,
    ranks: &[usize],
    alloc: Global,
) -> Result<Node, AllocError>
    requires as_many { AsMany (members_in (view schema.now)) rows.now }
    ensures { IfOk result (λ x. IsBuilt targets.now ranks.now (view root.now) rows.now x (view schema.now)) }
{
    match schema {
        Tree::Bool(b) => plain(Some(*b), alloc),
        Tree::Object(members) => node_of_object(members, rows, root, targets, ranks, alloc),
        _ => plain(None, alloc),
    }
}

fn node_of_object(
    members: &NameMap<Tree>,
    rows: &[Vec<usize>],
    root: &Tree,
    targets: &Targets<'_>,
    ranks: &[usize],
    alloc: Global,
) -> Result<Node, AllocError>
    requires as_many { AsMany (members_view members.now.entries) rows.now }
    ensures { IfOk result (λ x. IsBuiltOf targets.now ranks.now (view root.now) rows.now x (members_view members.now.entries)) }
{
    let rules = rules_of(members, rows, root, targets, ranks, alloc)?;
    let named = numbers_under("properties", members, rows, alloc)?;
    let prefix = prefix_len(members);
    Ok(Node {
        rules,
        named,
        prefix,
    })
}

// A node that says the same of every value.
fn plain(says: Option<bool>, alloc: Global) -> Result<Node, AllocError>
    ensures { IfOk result (λ x. x.rules.items ≡ says_rules says) }
{
    let mut rules = Vec::new(alloc);
    if let Some(b) = says {
        rules.push(Rule::Says(b))?;
    }
    Ok(Node {
        rules,
        named: BTreeMap::new(alloc),
        prefix: 0,
    })
}
