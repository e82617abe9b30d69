//! The nodes of a schema's tree.
ghost use Rattle.std.specs.Prelude.{◌≡◌, ◌*◌, ◌<◌, ◌≤◌, ℕ, IfOk, Some, codes, length, map, true};
ghost use Rattle.doc_tree.specs.Doc.{Doc};
ghost use Rattle.doc_tree.specs.TreeView.{view};
ghost use Rattle.schema_rules.specs.Anchors.{anchors_of, are_different};
ghost use Rattle.schema_rules.specs.Parts.{beside, members_in};
ghost use Rattle.schema_rules.specs.PatternTexts.{pattern_texts};
ghost use Rattle.schema_rules.specs.Schemas.{schemas};
ghost use Rattle.schema_nodes.specs.Compiled.{IsFound};
ghost use Rattle.schema_levels.specs.Counters.{HaveRoom};
ghost use Rattle.schema_nodes.specs.Entries.{AreEntries, doc_at, entries_want};
ghost use Rattle.schema_nodes.specs.Holding.{AreHeld};
ghost use Rattle.schema_nodes.specs.Nodes.{AreNamed, HaveRows};
ghost use Rattle.schema_nodes.specs.Wants.{schemas_want};

use crate::anchors::numbers_of_anchors;
use crate::edges::edges_of;
use crate::entries::{Entry, Grown, with_schema};
use crate::held::{Held, held_by_entries};
use crate::made::nodes_of;
use crate::names::numbers_under;
use crate::ranks::rank_of;
use crate::targets::Targets;
use doc_tree::Tree;
use schema_graph::order_of;
use schema_levels::{Counters, MOST_WORDS, Node, counters_of};
use std::alloc::{AllocError, Global};
use std::collections::BTreeMap;

/// The nodes of a schema, and the number of the whole one.
#[derive(Drop)]
pub struct Compiled {
    /// The nodes.
    pub nodes: Vec<Node>,
    /// Their counters.
    pub counters: Counters,
    /// The number of the whole schema.
    pub whole: usize,
}

/// The nodes of the schema; none if some schema in it leads back to itself at one and the same instance. `patterns` are
/// the texts of all its patterns; no two of its anchors are equal. An error means that memory ran out.
pub fn compile(
    root: &Tree,
    patterns: &[&str],
    alloc: Global,
) -> Result<Option<Compiled>, AllocError>
    requires room { length (schemas (view root.now)) ≤ 64 * MOST_WORDS }
    requires few { HaveRoom (schemas_want (schemas (view root.now))) }
    requires patterns { map (λ s. s.now) patterns.now ≡ pattern_texts (view root.now) }
    requires anchors { are_different (anchors_of (schemas (view root.now))) ≡ true }
    ensures { IfOk result (λ found. IsFound (view root.now) found) }
{
    let empty = Grown {
        entries: Vec::new(alloc),
        row: Vec::new(alloc),
    };
    let grown = with_schema(root, root, alloc, empty)?;
    let held = held_by_entries(&grown.entries, alloc)?;
    compile_entries(root, patterns, &grown.entries, &held, grown.row[0], alloc)
}

// The same, once the whole schema and those below it have their numbers, and it is known what their members hold.
fn compile_entries(
    root: &Tree,
    patterns: &[&str],
    entries: &[Entry<'_>],
    held: &[Vec<Held<'_>>],
    whole: usize,
    alloc: Global,
) -> Result<Option<Compiled>, AllocError>
    requires room { length (schemas (view root.now)) ≤ 64 * MOST_WORDS }
    requires few { HaveRoom (schemas_want (schemas (view root.now))) }
    requires patterns { map (λ s. s.now) patterns.now ≡ pattern_texts (view root.now) }
    requires anchors { are_different (anchors_of (schemas (view root.now))) ≡ true }
    requires many { length entries.now ≡ length (schemas (view root.now)) }
    requires want { entries_want entries.now ≡ schemas_want (schemas (view root.now)) }
    requires are { AreEntries (view root.now) entries.now }
    requires held { AreHeld entries.now held.now }
    requires within { whole < length entries.now }
    requires whole { doc_at entries.now whole ≡ Some (view root.now) }
    ensures { IfOk result (λ found. IsFound (view root.now) found) }
{
    let entry = &entries[whole];
    let targets = Targets {
        held,
        whole,
        named: definitions(root, &entry.rows, alloc)?,
        anchors: numbers_of_anchors(entries, alloc)?,
        patterns,
    };
    let graph = edges_of(entries, &targets, root, alloc)?;
    match order_of(alloc, &graph)? {
        Some(order) => {
            let nodes = nodes_of(entries, &order.places, &order.ranks, root, &targets, alloc)?;
            let counters = counters_of(&nodes, alloc)?;
            Ok(Some(Compiled {
                nodes,
                counters,
                whole: rank_of(&order.ranks, whole),
            }))
        }
        None => Ok(None),
    }
}

// The numbers of the definitions.
fn definitions(
    root: &Tree,
    rows: &[Vec<usize>],
    alloc: Global,
) -> Result<BTreeMap<String, usize>, AllocError>
    ensures { IfOk result (λ m. (schema : ℕ → Doc) → HaveRows schema (members_in (view root.now)) rows.now
        → AreNamed schema m.entries (members_in (beside (codes "$defs") (members_in (view root.now))))) }
{
    match root {
        Tree::Object(members) => numbers_under("$defs", members, rows, alloc),
        _ => Ok(BTreeMap::new(alloc)),
    }
}
