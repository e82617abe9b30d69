//! The places of children.
ghost use Rattle.std.specs.Prelude.{◌≡◌, ◌<◌, ◌^◌, length, option_map};
ghost use Rattle.doc_tree.specs.Doc.{child};
ghost use Rattle.doc_tree.specs.Place.{place_of};
ghost use Rattle.doc_tree.specs.TreeView.{view};
ghost use Rattle.schema_levels.specs.PlaceInValue.{name};
ghost use Rattle.schema_levels.specs.Searched.{AreSearched};
ghost use Rattle.schema_pattern.specs.Tables.{sources};
ghost use Rattle.schema_changes.specs.Again.{IsSorted, collect_must, site_of};

use crate::must::collect;
use doc_tree::{Step, Tree};
use schema_levels::found::{find, sought};
use schema_levels::{ChildPlace, Node};
use schema_pattern::Search;

/// The child of a value that a step leads to.
pub fn child<'t>(value: &'t Tree, step: &Step) -> Option<&'t Tree>
    ensures { option_map (λ t. view t.now) result ≡ child (place_of step.now) (view value.now) }
{
    match step {
        Step::Name(name) => value.member(name.as_str()),
        Step::Index(index) => value.item(*index),
    }
}

/// Opens the members of an object, so that the order of their names is known. Nothing is done.
pub(crate) fn open_members(value: &Tree)
    ensures { IsSorted (view value.now) }
{
    if let Tree::Object(members) = value {
        let _ = members.iter();
    }
}

/// Adds the nodes that must pass the child to which the step leads because those of the set must pass the value.
pub(crate) fn collect_at(
    nodes: &[Node],
    searches: &mut [Search<'_>],
    step: &Step,
    asked: &[u64],
    found: &mut [u64],
)
    requires short { length asked.now < 2 ^ 32 }
    requires searched { AreSearched (sources searches.old) nodes.now }
    ensures found { found.new ≡ collect_must asked.now (site_of (place_of step.now)) 0 nodes.now found.old }
    ensures same { sources searches.new ≡ sources searches.old }
{
    match step {
        Step::Name(name) => collect_named(nodes, searches, name.as_str(), asked, found),
        Step::Index(index) => collect(nodes, asked, ChildPlace::Index(*index as usize), found),
    }
}

fn collect_named(
    nodes: &[Node],
    searches: &mut [Search<'_>],
    key: &str,
    asked: &[u64],
    found: &mut [u64],
)
    requires short { length asked.now < 2 ^ 32 }
    requires searched { AreSearched (sources searches.old) nodes.now }
    ensures found { found.new ≡ collect_must asked.now (name key.now) 0 nodes.now found.old }
    ensures same { sources searches.new ≡ sources searches.old }
{
    let names = find(searches, sought(nodes, asked), key);
    collect(nodes, asked, ChildPlace::Name(key, names), found);
}
