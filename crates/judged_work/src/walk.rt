//! The walk over the values of a document, and the nodes that are asked of each. The calls nest as deep as the document.
ghost use Rattle.std.specs.Prelude.{◌≡◌, ◌+◌, ◌<◌, ◌≤◌, IfOk, IfErr, length, replicate};
ghost use Rattle.doc_tree.specs.TreeView.{view, elements_view, members_view};
ghost use Rattle.schema_levels.specs.Below.{seen as place};
ghost use Rattle.schema_levels.specs.Known.{AreSought, KnowsAsked};
ghost use Rattle.schema_levels.specs.PlaceInValue.{member_name};
ghost use Rattle.schema_levels.specs.Searched.{AreSearched};
ghost use Rattle.schema_pattern.specs.Tables.{sources};
ghost use Rattle.judged_work.specs.Work.{asked_at, closed, elements_work, members_work, work};
ghost use Rattle.judged_work.specs.declared.stop.Stop.TheVariants.{Limit};

use crate::stop::Stop;
use crate::weights::weigh;
use doc_tree::Tree;
use name_map::NameMap;
use schema_levels::bits::fill;
use schema_levels::found::sought;
use schema_levels::{ChildPlace, Node, close, collect, find_for};
use schema_pattern::Search;
use schema_rules::Instance;
use std::alloc::{AllocError, Global};

/// Spends the work on a value of which these nodes are asked.
#[cycle(work)]
pub(crate) fn spend_work(
    nodes: &[Node],
    searches: &mut [Search<'_>],
    value: &Tree,
    asked: &mut [u64],
    before: usize,
    alloc: Global,
) -> Result<usize, Stop>
    requires searched { AreSearched (sources searches.old) nodes.now }
    requires short { length asked.old ≤ 1366 }
    ensures rest { IfOk result (λ rest. rest + work nodes.now asked.old (view value.now) ≡ before) }
    ensures more { IfErr result (λ e. e ≡ Limit → before < work nodes.now asked.old (view value.now)) }
    ensures same { sources searches.new ≡ sources searches.old }
{
    close(nodes, asked);
    let left = weigh(nodes, asked, Instance::Value(value), before)?;
    match value {
        Tree::List(items) => on_elements(nodes, searches, items, asked, left, alloc),
        Tree::Object(members) => on_members(nodes, searches, members, asked, left, alloc),
        _ => Ok(left),
    }
}

#[cycle(work)]
fn on_elements(
    nodes: &[Node],
    searches: &mut [Search<'_>],
    items: &Vec<Tree>,
    asked: &[u64],
    before: usize,
    alloc: Global,
) -> Result<usize, Stop>
    requires searched { AreSearched (sources searches.old) nodes.now }
    requires short { length asked.now ≤ 1366 }
    ensures rest { IfOk result (λ rest. rest + elements_work nodes.now asked.now 0 (elements_view items.now.items) ≡ before) }
    ensures more { IfErr result (λ e. e ≡ Limit → before < elements_work nodes.now asked.now 0 (elements_view items.now.items)) }
    ensures same { sources searches.new ≡ sources searches.old }
{
    let mut below = none(asked.len(), alloc)?;
    on_each_element(nodes, searches, items, asked, &mut below, before, alloc)
}

#[cycle(work)]
fn on_each_element(
    nodes: &[Node],
    searches: &mut [Search<'_>],
    items: &Vec<Tree>,
    asked: &[u64],
    below: &mut [u64],
    before: usize,
    alloc: Global,
) -> Result<usize, Stop>
    requires searched { AreSearched (sources searches.old) nodes.now }
    requires short { length asked.now ≤ 1366 }
    requires empty { below.old ≡ replicate (length asked.now) 0 }
    ensures rest { IfOk result (λ rest. rest + elements_work nodes.now asked.now 0 (elements_view items.now.items) ≡ before) }
    ensures more { IfErr result (λ e. e ≡ Limit → before < elements_work nodes.now asked.now 0 (elements_view items.now.items)) }
    ensures same { sources searches.new ≡ sources searches.old }
{
    let mut left = before;
    for (index, item) in items.iter().enumerate() {
        left = on_child(
            nodes,
            searches,
            item,
            ChildPlace::Index(index),
            asked,
            below,
            left,
            alloc,
        )?;
    }
    Ok(left)
}

#[cycle(work)]
fn on_members(
    nodes: &[Node],
    searches: &mut [Search<'_>],
    members: &NameMap<Tree>,
    asked: &[u64],
    before: usize,
    alloc: Global,
) -> Result<usize, Stop>
    requires searched { AreSearched (sources searches.old) nodes.now }
    requires short { length asked.now ≤ 1366 }
    ensures rest { IfOk result (λ rest. rest + members_work nodes.now asked.now (members_view members.now.entries) ≡ before) }
    ensures more { IfErr result (λ e. e ≡ Limit → before < members_work nodes.now asked.now (members_view members.now.entries)) }
    ensures same { sources searches.new ≡ sources searches.old }
{
    let mut below = none(asked.len(), alloc)?;
    let mut named = none(asked.len(), alloc)?;
    with_names(
        nodes, searches, members, asked, &mut below, &mut named, before, alloc,
    )
}

// The same is asked of each name, so it is collected once.
#[cycle(work)]
fn with_names(
    nodes: &[Node],
    searches: &mut [Search<'_>],
    members: &NameMap<Tree>,
    asked: &[u64],
    below: &mut [u64],
    named: &mut [u64],
    before: usize,
    alloc: Global,
) -> Result<usize, Stop>
    requires searched { AreSearched (sources searches.old) nodes.now }
    requires short { length asked.now ≤ 1366 }
    requires empty { below.old ≡ replicate (length asked.now) 0 }
    requires nothing { named.old ≡ replicate (length asked.now) 0 }
    ensures rest { IfOk result (λ rest. rest + members_work nodes.now asked.now (members_view members.now.entries) ≡ before) }
    ensures more { IfErr result (λ e. e ≡ Limit → before < members_work nodes.now asked.now (members_view members.now.entries)) }
    ensures same { sources searches.new ≡ sources searches.old }
{
    ask_names(nodes, asked, named);
    let patterns = sought(nodes, asked);
    on_each_member(
        nodes, searches, patterns, members, asked, below, named, before, alloc,
    )
}

// Adds the nodes that are asked of each name.
fn ask_names(nodes: &[Node], asked: &[u64], named: &mut [u64])
    requires short { length asked.now ≤ 1366 }
    requires nothing { named.old ≡ replicate (length asked.now) 0 }
    ensures named { named.new ≡ closed nodes.now (asked_at nodes.now asked.now member_name) }
    ensures narrow { length named.new ≡ length asked.now }
{
    collect(nodes, asked, ChildPlace::MemberName, named);
    close(nodes, named);
}

// `patterns` has the numbers of those that names are searched for, and `named` the nodes that are asked of each name.
#[cycle(work)]
fn on_each_member(
    nodes: &[Node],
    searches: &mut [Search<'_>],
    patterns: u64,
    members: &NameMap<Tree>,
    asked: &[u64],
    below: &mut [u64],
    named: &[u64],
    before: usize,
    alloc: Global,
) -> Result<usize, Stop>
    requires searched { AreSearched (sources searches.old) nodes.now }
    requires short { length asked.now ≤ 1366 }
    requires empty { below.old ≡ replicate (length asked.now) 0 }
    requires narrow { length named.now ≡ length asked.now }
    requires named { named.now ≡ closed nodes.now (asked_at nodes.now asked.now member_name) }
    requires sought { AreSought nodes.now asked.now patterns }
    ensures rest { IfOk result (λ rest. rest + members_work nodes.now asked.now (members_view members.now.entries) ≡ before) }
    ensures more { IfErr result (λ e. e ≡ Limit → before < members_work nodes.now asked.now (members_view members.now.entries)) }
    ensures same { sources searches.new ≡ sources searches.old }
{
    let mut left = before;
    for (name, member) in members.iter() {
        let key = name.as_str();
        let found = find_for(nodes, asked, searches, patterns, key);
        left = on_child(
            nodes,
            searches,
            member,
            ChildPlace::Name(key, found),
            asked,
            below,
            left,
            alloc,
        )?;
        left = weigh(nodes, named, Instance::Name(key), left)?;
    }
    Ok(left)
}

// If anything is asked of the child.
#[cycle(work)]
fn on_child(
    nodes: &[Node],
    searches: &mut [Search<'_>],
    child: &Tree,
    spot: ChildPlace<'_>,
    asked: &[u64],
    below: &mut [u64],
    before: usize,
    alloc: Global,
) -> Result<usize, Stop>
    requires searched { AreSearched (sources searches.old) nodes.now }
    requires short { length asked.now ≤ 1366 }
    requires empty { below.old ≡ replicate (length asked.now) 0 }
    requires known { KnowsAsked nodes.now asked.now spot }
    ensures rest { IfOk result (λ rest. rest + work nodes.now (asked_at nodes.now asked.now (place spot.entry)) (view child.now) ≡ before) }
    ensures more { IfErr result (λ e. e ≡ Limit → before < work nodes.now (asked_at nodes.now asked.now (place spot.entry)) (view child.now)) }
    ensures empty { below.new ≡ replicate (length asked.now) 0 }
    ensures same { sources searches.new ≡ sources searches.old }
{
    if !collect(nodes, asked, spot, below) {
        return Ok(before);
    }
    let outcome = spend_work(nodes, searches, child, below, before, alloc);
    fill(below, 0);
    outcome
}

/// A set of that many words with nothing in it.
pub(crate) fn none(words: usize, alloc: Global) -> Result<Vec<u64>, AllocError>
    ensures { IfOk result (λ set. set.items ≡ replicate words 0) }
{
    vec![in alloc; 0u64; words]
}
