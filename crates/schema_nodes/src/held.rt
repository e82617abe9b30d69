//! The schemas that a schema's members hold, to be found by the members' names.
ghost use Rattle.std.specs.Prelude.{◌≡◌, ℕ, IfOk, map};
ghost use Rattle.doc_tree.specs.Doc.{Doc};
ghost use Rattle.doc_tree.specs.Lists.{values_list};
ghost use Rattle.doc_tree.specs.TreeView.{view, members_view};
ghost use Rattle.schema_rules.specs.Keywords.{keyword_of, shape_of};
ghost use Rattle.schema_rules.specs.Parts.{members_in};
ghost use Rattle.schema_rules.specs.declared.keyword.Shape.TheVariants as shapes;
ghost use Rattle.schema_nodes.specs.Holding.{AddsHeld, AreHeld, Holds};
ghost use Rattle.schema_nodes.specs.Nodes.{AreNamed};

use crate::entries::Entry;
use crate::names::numbers_in;
use doc_tree::Tree;
use name_map::NameMap;
use schema_rules::{Shape, keyword_named, shape_of};
use std::alloc::{AllocError, Global};
use std::collections::BTreeMap;

/// What a member of a schema holds.
#[derive(Drop)]
pub struct Held<'s> {
    /// The member's name.
    pub name: &'s str,
    /// The numbers of the schemas.
    pub row: &'s [usize],
    /// The same by the schemas' names, if they have names.
    pub named: BTreeMap<String, usize>,
}

/// For each entry what those members of its schema hold that may hold schemas. These are few, whatever other members
/// there are. An error means that memory ran out.
pub(crate) fn held_by_entries<'s>(
    entries: &'s [Entry<'s>],
    alloc: Global,
) -> Result<Vec<Vec<Held<'s>>>, AllocError>
    ensures { IfOk result (λ v. AreHeld entries.now v.items) }
{
    let mut all = Vec::with_capacity(alloc, entries.len())?;
    for entry in entries {
        all.push(held_by(entry, alloc)?)?;
    }
    Ok(all)
}

fn held_by<'s>(entry: &'s Entry<'s>, alloc: Global) -> Result<Vec<Held<'s>>, AllocError>
    ensures { IfOk result (λ v. Holds (members_in (view entry.now.schema.now)) entry.now.rows.items v.items) }
{
    match entry.schema {
        Tree::Object(members) => held_by_members(members, &entry.rows, alloc),
        _ => Ok(Vec::new(alloc)),
    }
}

fn held_by_members<'s>(
    members: &'s NameMap<Tree>,
    rows: &'s [Vec<usize>],
    alloc: Global,
) -> Result<Vec<Held<'s>>, AllocError>
    ensures { IfOk result (λ v. Holds (members_view members.now.entries) rows.now v.items) }
{
    let mut all = Vec::new(alloc);
    for ((name, value), row) in members.iter().zip(rows) {
        all = with_member(name.as_str(), value, row.as_slice(), all, alloc)?;
    }
    Ok(all)
}

// Adds what this member holds, if it may hold schemas.
fn with_member<'s>(
    name: &'s str,
    value: &Tree,
    row: &'s [usize],
    all: Vec<Held<'s>>,
    alloc: Global,
) -> Result<Vec<Held<'s>>, AllocError>
    ensures { IfOk result (λ v. AddsHeld (shape_of (keyword_of name.now)) name.now (view value.now) row.now all.entry.items v.items) }
{
    let mut all = all;
    match shape_of(keyword_named(name)) {
        Shape::Plain => {}
        shape => {
            let named = named_in(shape, value, row, alloc)?;
            all.push(Held { name, row, named })?;
        }
    }
    Ok(all)
}

fn named_in(
    shape: Shape,
    value: &Tree,
    row: &[usize],
    alloc: Global,
) -> Result<BTreeMap<String, usize>, AllocError>
    ensures { IfOk result (λ m. (schema : ℕ → Doc) → shape ≡ shapes.Named → map schema row.now ≡ values_list (members_in (view value.now)) → AreNamed schema m.entries (members_in (view value.now))) }
{
    match shape {
        Shape::Named => numbers_in(value, row, alloc),
        _ => Ok(BTreeMap::new(alloc)),
    }
}
