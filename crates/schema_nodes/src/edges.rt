//! The schemas that a schema applies to the instance itself, by numbers.
ghost use Rattle.std.specs.Prelude.{◌≡◌, ◌++◌, IfOk};
ghost use Rattle.std.specs.Option.{option_to_list};
ghost use Rattle.doc_tree.specs.TreeView.{view, members_view};
ghost use Rattle.schema_rules.specs.Parts.{members_in};
ghost use Rattle.schema_nodes.specs.Edges.{AreEdges, edges_at, edges_in};

use crate::entries::Entry;
use crate::targets::{Targets, target_number};
use doc_tree::Tree;
use name_map::NameMap;
use schema_rules::{Keyword, keyword_named};
use std::alloc::{AllocError, Global};

/// The graph of the entries: each leads to those that it applies to the instance itself.
pub(crate) fn edges_of(
    entries: &[Entry<'_>],
    targets: &Targets<'_>,
    root: &Tree,
    alloc: Global,
) -> Result<Vec<Vec<usize>>, AllocError>
    ensures { IfOk result (λ g. AreEdges targets.now (view root.now) entries.now g.items) }
{
    let mut graph = Vec::with_capacity(alloc, entries.len())?;
    for entry in entries {
        graph.push(edges_from(entry.schema, &entry.rows, targets, root, alloc)?)?;
    }
    Ok(graph)
}

fn edges_from(
    schema: &Tree,
    rows: &[Vec<usize>],
    targets: &Targets<'_>,
    root: &Tree,
    alloc: Global,
) -> Result<Vec<usize>, AllocError>
    ensures { IfOk result (λ v. v.items ≡ edges_in targets.now (view root.now) (members_in (view schema.now)) rows.now) }
{
    match schema {
        Tree::Object(members) => edges_in(members, rows, targets, root, alloc),
        _ => Ok(Vec::new(alloc)),
    }
}

fn edges_in(
    members: &NameMap<Tree>,
    rows: &[Vec<usize>],
    targets: &Targets<'_>,
    root: &Tree,
    alloc: Global,
) -> Result<Vec<usize>, AllocError>
    ensures { IfOk result (λ v. v.items ≡ edges_in targets.now (view root.now) (members_view members.now.entries) rows.now) }
{
    let mut found = Vec::new(alloc);
    for ((name, value), row) in members.iter().zip(rows) {
        found = with_edges(
            keyword_named(name.as_str()),
            value,
            row,
            targets,
            root,
            found,
            alloc,
        )?;
    }
    Ok(found)
}

// Adds those that a keyword with this value applies.
fn with_edges(
    keyword: Keyword,
    value: &Tree,
    row: &[usize],
    targets: &Targets<'_>,
    root: &Tree,
    found: Vec<usize>,
    alloc: Global,
) -> Result<Vec<usize>, AllocError>
    ensures { IfOk result (λ v. v.items ≡ found.items ++ edges_at targets.now (view root.now) keyword (view value.now) row.now) }
{
    match keyword {
        Keyword::AllOf => with_each(row, found),
        Keyword::AnyOf => with_each(row, found),
        Keyword::OneOf => with_each(row, found),
        Keyword::Not => with_each(row, found),
        Keyword::If => with_each(row, found),
        Keyword::Then => with_each(row, found),
        Keyword::Else => with_each(row, found),
        Keyword::DependentSchemas => with_each(row, found),
        Keyword::Ref => with_number(target_number(targets, root, value, alloc)?, found),
        _ => Ok(found),
    }
}

fn with_each(row: &[usize], found: Vec<usize>) -> Result<Vec<usize>, AllocError>
    ensures { IfOk result (λ v. v.items ≡ found.items ++ row.now) }
{
    let mut found = found;
    for number in row {
        found.push(*number)?;
    }
    Ok(found)
}

fn with_number(number: Option<usize>, found: Vec<usize>) -> Result<Vec<usize>, AllocError>
    ensures { IfOk result (λ v. v.items ≡ found.items ++ option_to_list number) }
{
    let mut found = found;
    if let Some(number) = number {
        found.push(number)?;
    }
    Ok(found)
}
