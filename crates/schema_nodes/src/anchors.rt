//! The numbers of schemas by their anchors.
ghost use Rattle.std.specs.Prelude.{◌≡◌, ℕ, IfOk, List, Some, cond};
ghost use Rattle.std.specs.Str.{bytes_eq};
ghost use Rattle.doc_tree.specs.TreeView.{view};
ghost use Rattle.schema_levels.specs.Below.{number_named};
ghost use Rattle.schema_rules.specs.Anchors.{anchor_of};
ghost use Rattle.schema_nodes.specs.Anchored.{AddsAnchor, AreAnchors};

use crate::entries::Entry;
use doc_tree::Tree;
use schema_rules::anchor_of;
use std::alloc::{AllocError, Global};
use std::collections::BTreeMap;

/// The number of a schema that has it, by each anchor. An error means that memory ran out; none is taken without anchors.
pub(crate) fn numbers_of_anchors(
    entries: &[Entry<'_>],
    alloc: Global,
) -> Result<BTreeMap<String, usize>, AllocError>
    ensures { IfOk result (λ m. AreAnchors entries.now m.entries) }
{
    let mut anchors = BTreeMap::new(alloc);
    for (number, entry) in entries.iter().enumerate() {
        anchors = with_schema(entry.schema, number, anchors, alloc)?;
    }
    Ok(anchors)
}

// Adds the number of a schema, if it has an anchor.
fn with_schema(
    schema: &Tree,
    number: usize,
    anchors: BTreeMap<String, usize>,
    alloc: Global,
) -> Result<BTreeMap<String, usize>, AllocError>
    ensures { IfOk result (λ m. AddsAnchor (anchor_of (view schema.now)) number anchors.entries m.entries) }
{
    match anchor_of(schema) {
        Some(anchor) => with_anchor(anchor, number, anchors, alloc),
        None => Ok(anchors),
    }
}

fn with_anchor(
    anchor: &str,
    number: usize,
    before: BTreeMap<String, usize>,
    alloc: Global,
) -> Result<BTreeMap<String, usize>, AllocError>
    ensures { IfOk result (λ m. (s : List ℕ) → number_named s m.entries ≡ cond (bytes_eq anchor.now s) (Some number) (number_named s before.entries)) }
{
    let mut anchors = before;
    let name = String::from_str(alloc, anchor)?;
    drop(anchors.insert(name, number)?);
    Ok(anchors)
}
