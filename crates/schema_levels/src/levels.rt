//! The recursion over the document. Each array and object that is judged takes what its children need of the words that
//! are free; if too few are, it opens a block of its own.
ghost use Rattle.std.specs.Prelude.{◌≡◌, ◌+◌, ◌*◌, ◌<◌, ◌≤◌, ◌^◌, [], ◌∷◌, true, false, length, nat_lt, replicate};
ghost use Rattle.doc_tree.specs.Doc.{list, object};
ghost use Rattle.doc_tree.specs.TreeView.{view, elements_view, members_view};
ghost use Rattle.schema_rules.specs.Instances.{seen};
ghost use Rattle.schema_levels.specs.Below.{seen as place};
ghost use Rattle.schema_levels.specs.Counters.{AreCounted, most, width};
ghost use Rattle.schema_levels.specs.Known.{AreSought, KnowsAsked};
ghost use Rattle.schema_levels.specs.Levels.{AreJudged, AreKept, AreFolded, AreLowered, AreTold, AskNothing};
ghost use Rattle.schema_levels.specs.Nodes.{AreOrdered};
ghost use Rattle.schema_levels.specs.Searched.{AreSearched};
ghost use Rattle.schema_pattern.specs.Tables.{sources};
ghost use Rattle.schema_levels.specs.Table.{child_at, members_each};

use crate::below::{collect, fold};
use crate::bits::fill;
use crate::closure::close;
use crate::conclude::conclude;
use crate::counters::Counters;
use crate::counts::{tally, weigh, width};
use crate::found::{find_for, sought};
use crate::named::{fold_names, judge_name};
use crate::node::{ChildPlace, Node};
use doc_tree::Tree;
use name_map::NameMap;
use schema_pattern::Search;
use schema_rules::Instance;

// How many words a block has: enough for one level of any schema, and for eight of the largest.
const BLOCK: usize = 36_864;

// An array of this many elements has a word for each counter, and not a quarter of one.
const WIDE: usize = 65_536;

/// Judges the asked nodes on the instance. No memory is taken.
pub fn judge_instance(
    nodes: &[Node],
    counters: &Counters,
    searches: &mut [Search<'_>],
    instance: Instance<'_>,
    asked: &mut [u64],
    passed: &mut [u64],
    free: &mut [u64],
)
    requires order { AreOrdered nodes.now }
    requires counted { AreCounted nodes.now counters.now }
    requires searched { AreSearched (sources searches.old) nodes.now }
    requires room { length nodes.now ≤ 64 * length asked.old }
    requires short { length asked.old ≤ 1366 }
    requires passed_len { length passed.old ≡ length asked.old }
    ensures judged { AreJudged nodes.now (seen instance.entry) asked.old passed.new }
    ensures same { sources searches.new ≡ sources searches.old }
{
    match instance {
        Instance::Value(value) => judge(nodes, counters, searches, value, asked, passed, free),
        Instance::Name(name) => judge_name(nodes, searches, name, asked, passed),
    }
}

// Judges the asked nodes on a value.
#[cycle(levels)]
fn judge(
    nodes: &[Node],
    counters: &Counters,
    searches: &mut [Search<'_>],
    instance: &Tree,
    asked: &mut [u64],
    passed: &mut [u64],
    free: &mut [u64],
)
    requires order { AreOrdered nodes.now }
    requires counted { AreCounted nodes.now counters.now }
    requires searched { AreSearched (sources searches.old) nodes.now }
    requires room { length nodes.now ≤ 64 * length asked.old }
    requires short { length asked.old ≤ 1366 }
    requires passed_len { length passed.old ≡ length asked.old }
    ensures judged { AreJudged nodes.now (view instance.now) asked.old passed.new }
    ensures kept { AreKept nodes.now asked.old asked.new }
    ensures same { sources searches.new ≡ sources searches.old }
{
    close(nodes, asked);
    fill(passed, u64::MAX);
    lower(nodes, counters, searches, instance, asked, passed, free);
    conclude(nodes, searches, Instance::Value(instance), asked, passed);
}

// Judges the children, and joins what is said of them to the answers of the asked nodes.
#[cycle(levels)]
fn lower(
    nodes: &[Node],
    counters: &Counters,
    searches: &mut [Search<'_>],
    instance: &Tree,
    asked: &[u64],
    passed: &mut [u64],
    free: &mut [u64],
)
    requires order { AreOrdered nodes.now }
    requires counted { AreCounted nodes.now counters.now }
    requires searched { AreSearched (sources searches.old) nodes.now }
    requires room { length nodes.now ≤ 64 * length asked.now }
    requires short { length asked.now ≤ 1366 }
    requires passed_len { length passed.old ≡ length asked.now }
    ensures lowered { AreLowered nodes.now asked.now (view instance.now) passed.old passed.new }
    ensures same { sources searches.new ≡ sources searches.old }
{
    match instance {
        Tree::List(items) => if free.len() < 3 * asked.len() + width(counters, items.len() < WIDE) {
            lower_in_a_block(nodes, counters, searches, instance, asked, passed)
        } else {
            lower_items(nodes, counters, searches, items, asked, passed, free)
        },
        Tree::Object(members) => if free.len() < 2 * asked.len() {
            lower_in_a_block(nodes, counters, searches, instance, asked, passed)
        } else {
            lower_members(nodes, counters, searches, members, asked, passed, free)
        },
        _ => {}
    }
}

// The same in a block of its own. Its frame is large and must stay out of those of its callers, of which there is one for
// each level: it alone opens blocks, and two places call it, so that compilers leave it a function. `stack.py` measures it.
#[cycle(levels)]
#[inline(never)]
fn lower_in_a_block(
    nodes: &[Node],
    counters: &Counters,
    searches: &mut [Search<'_>],
    instance: &Tree,
    asked: &[u64],
    passed: &mut [u64],
)
    requires order { AreOrdered nodes.now }
    requires counted { AreCounted nodes.now counters.now }
    requires searched { AreSearched (sources searches.old) nodes.now }
    requires room { length nodes.now ≤ 64 * length asked.now }
    requires short { length asked.now ≤ 1366 }
    requires passed_len { length passed.old ≡ length asked.now }
    ensures lowered { AreLowered nodes.now asked.now (view instance.now) passed.old passed.new }
    ensures same { sources searches.new ≡ sources searches.old }
{
    let mut block = [0u64; BLOCK];
    match instance {
        Tree::List(items) => lower_items(
            nodes, counters, searches, items, asked, passed, &mut block,
        ),
        Tree::Object(members) => lower_members(
            nodes, counters, searches, members, asked, passed, &mut block,
        ),
        _ => {}
    }
}

// Of an array: three sets and the counters are needed.
#[cycle(levels)]
fn lower_items(
    nodes: &[Node],
    counters: &Counters,
    searches: &mut [Search<'_>],
    items: &Vec<Tree>,
    asked: &[u64],
    passed: &mut [u64],
    free: &mut [u64],
)
    requires order { AreOrdered nodes.now }
    requires counted { AreCounted nodes.now counters.now }
    requires searched { AreSearched (sources searches.old) nodes.now }
    requires room { length nodes.now ≤ 64 * length asked.now }
    requires short { length asked.now ≤ 1366 }
    requires passed_len { length passed.old ≡ length asked.now }
    requires enough { 3 * length asked.now + width (nat_lt (length items.now.items) 65536) (length counters.now.counted.items) ≤ length free.old }
    ensures lowered { AreLowered nodes.now asked.now (list (elements_view items.now.items)) passed.old passed.new }
    ensures same { sources searches.new ≡ sources searches.old }
{
    if items.len() < WIDE {
        fold_items(nodes, counters, searches, true, items, asked, passed, free)
    } else {
        fold_items(nodes, counters, searches, false, items, asked, passed, free)
    }
}

#[cycle(levels)]
fn fold_items(
    nodes: &[Node],
    counters: &Counters,
    searches: &mut [Search<'_>],
    narrow: bool,
    items: &Vec<Tree>,
    asked: &[u64],
    passed: &mut [u64],
    free: &mut [u64],
)
    requires order { AreOrdered nodes.now }
    requires counted { AreCounted nodes.now counters.now }
    requires searched { AreSearched (sources searches.old) nodes.now }
    requires room { length nodes.now ≤ 64 * length asked.now }
    requires short { length asked.now ≤ 1366 }
    requires passed_len { length passed.old ≡ length asked.now }
    requires many { length items.now.items ≤ most narrow }
    requires enough { 3 * length asked.now + width narrow (length counters.now.counted.items) ≤ length free.old }
    ensures lowered { AreLowered nodes.now asked.now (list (elements_view items.now.items)) passed.old passed.new }
    ensures same { sources searches.new ≡ sources searches.old }
{
    let words = asked.len();
    let (sets, rest) = free.split_at_mut(3 * words);
    let (below_asked, others) = sets.split_at_mut(words);
    let (below_passed, found) = others.split_at_mut(words);
    let (counts, left) = rest.split_at_mut(width(counters, narrow));
    fill(below_asked, 0);
    fill(found, 0);
    fill(counts, 0);
    fold_each_item(
        nodes,
        counters,
        searches,
        narrow,
        items,
        asked,
        passed,
        below_asked,
        below_passed,
        found,
        counts,
        left,
    );
}

// Judges each element, and joins what is said of it, and then what is said of how many pass.
#[cycle(levels)]
fn fold_each_item(
    nodes: &[Node],
    counters: &Counters,
    searches: &mut [Search<'_>],
    narrow: bool,
    items: &Vec<Tree>,
    asked: &[u64],
    passed: &mut [u64],
    below_asked: &mut [u64],
    below_passed: &mut [u64],
    found: &mut [u64],
    counts: &mut [u64],
    free: &mut [u64],
)
    requires order { AreOrdered nodes.now }
    requires counted { AreCounted nodes.now counters.now }
    requires searched { AreSearched (sources searches.old) nodes.now }
    requires room { length nodes.now ≤ 64 * length asked.now }
    requires short { length asked.now ≤ 1366 }
    requires passed_len { length passed.old ≡ length asked.now }
    requires many { length items.now.items ≤ most narrow }
    requires below_asked { below_asked.old ≡ replicate (length asked.now) 0 }
    requires below_len { length below_passed.old ≡ length asked.now }
    requires found { found.old ≡ replicate (length asked.now) 0 }
    requires counts { counts.old ≡ replicate (width narrow (length counters.now.counted.items)) 0 }
    ensures lowered { AreLowered nodes.now asked.now (list (elements_view items.now.items)) passed.old passed.new }
    ensures same { sources searches.new ≡ sources searches.old }
{
    for (index, item) in items.iter().enumerate() {
        if fold_child(
            nodes,
            counters,
            searches,
            item,
            ChildPlace::Index(index),
            asked,
            below_asked,
            below_passed,
            passed,
            free,
        ) {
            tally(counters, narrow, below_asked, below_passed, found, counts);
            fill(below_asked, 0);
        }
    }
    weigh(nodes, asked, counters, narrow, found, counts, passed);
}

// Of an object: two sets are needed.
#[cycle(levels)]
fn lower_members(
    nodes: &[Node],
    counters: &Counters,
    searches: &mut [Search<'_>],
    members: &NameMap<Tree>,
    asked: &[u64],
    passed: &mut [u64],
    free: &mut [u64],
)
    requires order { AreOrdered nodes.now }
    requires counted { AreCounted nodes.now counters.now }
    requires searched { AreSearched (sources searches.old) nodes.now }
    requires room { length nodes.now ≤ 64 * length asked.now }
    requires short { length asked.now ≤ 1366 }
    requires passed_len { length passed.old ≡ length asked.now }
    requires enough { 2 * length asked.now ≤ length free.old }
    ensures lowered { AreLowered nodes.now asked.now (object (members_view members.now.entries)) passed.old passed.new }
    ensures same { sources searches.new ≡ sources searches.old }
{
    fold_members(nodes, counters, searches, members, asked, passed, free);
    fold_names(nodes, searches, members, asked, passed, free);
}

#[cycle(levels)]
fn fold_members(
    nodes: &[Node],
    counters: &Counters,
    searches: &mut [Search<'_>],
    members: &NameMap<Tree>,
    asked: &[u64],
    passed: &mut [u64],
    free: &mut [u64],
)
    requires order { AreOrdered nodes.now }
    requires counted { AreCounted nodes.now counters.now }
    requires searched { AreSearched (sources searches.old) nodes.now }
    requires room { length nodes.now ≤ 64 * length asked.now }
    requires short { length asked.now ≤ 1366 }
    requires passed_len { length passed.old ≡ length asked.now }
    requires enough { 2 * length asked.now ≤ length free.old }
    ensures folded { AreFolded nodes.now asked.now (members_each (members_view members.now.entries)) passed.old passed.new }
    ensures same { sources searches.new ≡ sources searches.old }
{
    let words = asked.len();
    let (below_asked, rest) = free.split_at_mut(words);
    let (below_passed, left) = rest.split_at_mut(words);
    fill(below_asked, 0);
    fold_each_member(
        nodes,
        counters,
        searches,
        sought(nodes, asked),
        members,
        asked,
        passed,
        below_asked,
        below_passed,
        left,
    );
}

// Judges each member, and joins what is said of it. `names` has the numbers of the patterns that names are searched for.
#[cycle(levels)]
fn fold_each_member(
    nodes: &[Node],
    counters: &Counters,
    searches: &mut [Search<'_>],
    names: u64,
    members: &NameMap<Tree>,
    asked: &[u64],
    passed: &mut [u64],
    below_asked: &mut [u64],
    below_passed: &mut [u64],
    free: &mut [u64],
)
    requires order { AreOrdered nodes.now }
    requires counted { AreCounted nodes.now counters.now }
    requires searched { AreSearched (sources searches.old) nodes.now }
    requires room { length nodes.now ≤ 64 * length asked.now }
    requires short { length asked.now ≤ 1366 }
    requires passed_len { length passed.old ≡ length asked.now }
    requires below_asked { below_asked.old ≡ replicate (length asked.now) 0 }
    requires below_len { length below_passed.old ≡ length asked.now }
    requires sought { AreSought nodes.now asked.now names }
    ensures folded { AreFolded nodes.now asked.now (members_each (members_view members.now.entries)) passed.old passed.new }
    ensures same { sources searches.new ≡ sources searches.old }
{
    for (name, member) in members.iter() {
        let key = name.as_str();
        let found = find_for(nodes, asked, searches, names, key);
        if fold_child(
            nodes,
            counters,
            searches,
            member,
            ChildPlace::Name(key, found),
            asked,
            below_asked,
            below_passed,
            passed,
            free,
        ) {
            fill(below_asked, 0);
        }
    }
}

// Judges one child, if anything is asked of it, joins what is said of it, and answers whether anything was asked.
#[cycle(levels)]
fn fold_child(
    nodes: &[Node],
    counters: &Counters,
    searches: &mut [Search<'_>],
    child: &Tree,
    spot: ChildPlace<'_>,
    asked: &[u64],
    below_asked: &mut [u64],
    below_passed: &mut [u64],
    passed: &mut [u64],
    free: &mut [u64],
) -> bool
    requires order { AreOrdered nodes.now }
    requires counted { AreCounted nodes.now counters.now }
    requires searched { AreSearched (sources searches.old) nodes.now }
    requires room { length nodes.now ≤ 64 * length asked.now }
    requires short { length asked.now ≤ 1366 }
    requires passed_len { length passed.old ≡ length asked.now }
    requires below_len { length below_passed.old ≡ length asked.now }
    requires empty { below_asked.old ≡ replicate (length asked.now) 0 }
    requires known { KnowsAsked nodes.now asked.now spot }
    ensures folded { AreFolded nodes.now asked.now (child_at (place spot.entry) (view child.now) ∷ []) passed.old passed.new }
    ensures told { result ≡ true → AreTold nodes.now asked.now (place spot.entry) (view child.now) below_asked.new below_passed.new }
    ensures none { result ≡ false → (below_asked.new ≡ replicate (length asked.now) 0) × AskNothing nodes.now asked.now (place spot.entry) }
    ensures same { sources searches.new ≡ sources searches.old }
{
    if !collect(nodes, asked, spot, below_asked) {
        return false;
    }
    judge(
        nodes,
        counters,
        searches,
        child,
        below_asked,
        below_passed,
        free,
    );
    fold(nodes, asked, spot, below_passed, passed);
    true
}
