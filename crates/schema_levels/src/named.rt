//! Judging the names of members, which have no children.
ghost use Rattle.std.specs.Prelude.{◌≡◌, ◌*◌, ◌≤◌, length, replicate};
ghost use Rattle.doc_tree.specs.TreeView.{members_view};
ghost use Rattle.doc_tree.specs.Doc.{text};
ghost use Rattle.schema_levels.specs.Levels.{AreFolded, AreJudged, AreKept};
ghost use Rattle.schema_levels.specs.Nodes.{AreOrdered};
ghost use Rattle.schema_levels.specs.Searched.{AreSearched};
ghost use Rattle.schema_levels.specs.Table.{titles};
ghost use Rattle.schema_pattern.specs.Tables.{sources};

use crate::below::{collect, fold};
use crate::bits::fill;
use crate::closure::close;
use crate::conclude::conclude;
use crate::node::{ChildPlace, Node};
use doc_tree::Tree;
use name_map::NameMap;
use schema_pattern::Search;
use schema_rules::Instance;

/// Judges the asked nodes on a name, as a text.
pub(crate) fn judge_name(
    nodes: &[Node],
    searches: &mut [Search<'_>],
    name: &str,
    asked: &mut [u64],
    passed: &mut [u64],
)
    requires order { AreOrdered nodes.now }
    requires searched { AreSearched (sources searches.old) nodes.now }
    requires room { length nodes.now ≤ 64 * length asked.old }
    requires short { length asked.old ≤ 1366 }
    requires passed_len { length passed.old ≡ length asked.old }
    ensures judged { AreJudged nodes.now (text name.now) asked.old passed.new }
    ensures kept { AreKept nodes.now asked.old asked.new }
    ensures same { sources searches.new ≡ sources searches.old }
{
    close(nodes, asked);
    fill(passed, u64::MAX);
    conclude(nodes, searches, Instance::Name(name), asked, passed);
}

/// Judges the name of each member, if anything is asked of names, and joins what is said of it. Two sets are needed.
pub(crate) fn fold_names(
    nodes: &[Node],
    searches: &mut [Search<'_>],
    members: &NameMap<Tree>,
    asked: &[u64],
    passed: &mut [u64],
    free: &mut [u64],
)
    requires order { AreOrdered nodes.now }
    requires searched { AreSearched (sources searches.old) nodes.now }
    requires room { length nodes.now ≤ 64 * length asked.now }
    requires short { length asked.now ≤ 1366 }
    requires passed_len { length passed.old ≡ length asked.now }
    requires enough { 2 * length asked.now ≤ length free.old }
    ensures folded { AreFolded nodes.now asked.now (titles (members_view members.now.entries)) passed.old passed.new }
    ensures same { sources searches.new ≡ sources searches.old }
{
    let words = asked.len();
    let (below_asked, rest) = free.split_at_mut(words);
    let (below_passed, _) = rest.split_at_mut(words);
    fill(below_asked, 0);
    fold_each_name(
        nodes,
        searches,
        members,
        asked,
        passed,
        below_asked,
        below_passed,
    );
}

// The same is asked of each name, so that it is collected once.
fn fold_each_name(
    nodes: &[Node],
    searches: &mut [Search<'_>],
    members: &NameMap<Tree>,
    asked: &[u64],
    passed: &mut [u64],
    below_asked: &mut [u64],
    below_passed: &mut [u64],
)
    requires order { AreOrdered nodes.now }
    requires searched { AreSearched (sources searches.old) nodes.now }
    requires room { length nodes.now ≤ 64 * length asked.now }
    requires short { length asked.now ≤ 1366 }
    requires passed_len { length passed.old ≡ length asked.now }
    requires empty { below_asked.old ≡ replicate (length asked.now) 0 }
    requires below_len { length below_passed.old ≡ length asked.now }
    ensures folded { AreFolded nodes.now asked.now (titles (members_view members.now.entries)) passed.old passed.new }
    ensures same { sources searches.new ≡ sources searches.old }
{
    if !collect(nodes, asked, ChildPlace::MemberName, below_asked) {
        return;
    }
    for (name, _) in members.iter() {
        judge_name(nodes, searches, name.as_str(), below_asked, below_passed);
        fold(nodes, asked, ChildPlace::MemberName, below_passed, passed);
    }
}
