//! Nodes that are judged whole on an instance.
ghost use Rattle.std.specs.Prelude.{◌≡◌, ℕ, Bool, true, false, ◌*◌, ◌<◌, ◌≤◌, ◌^◌, length};
ghost use Rattle.doc_tree.specs.Doc.{Doc};
ghost use Rattle.schema_rules.specs.Instances.{seen};
ghost use Rattle.schema_levels.specs.Bits.{bit};
ghost use Rattle.schema_levels.specs.Counters.{AreCounted};
ghost use Rattle.schema_levels.specs.Levels.{AreJudged};
ghost use Rattle.schema_levels.specs.Nodes.{AreOrdered};
ghost use Rattle.schema_levels.specs.Searched.{AreSearched};
ghost use Rattle.schema_levels.specs.Table.{IsTable};
ghost use Rattle.schema_pattern.specs.Tables.{sources};
ghost use Rattle.schema_changes.specs.Again.{AllPass, Tells};

use schema_levels::bits::{bit, next};
use schema_levels::{Counters, Node, judge_instance};
use schema_pattern::Search;
use schema_rules::Instance;

/// Whether the instance passes each node of the set. `judging` and `passed` are written over.
pub(crate) fn all_pass(
    nodes: &[Node],
    counters: &Counters,
    searches: &mut [Search<'_>],
    instance: Instance<'_>,
    asked: &[u64],
    judging: &mut [u64],
    passed: &mut [u64],
    free: &mut [u64],
) -> bool
    requires order { AreOrdered nodes.now }
    requires counted { AreCounted nodes.now counters.now }
    requires searched { AreSearched (sources searches.old) nodes.now }
    requires room { length nodes.now ≤ 64 * length asked.now }
    requires short { length asked.now ≤ 1366 }
    requires judging_len { length judging.old ≡ length asked.now }
    requires passed_len { length passed.old ≡ length asked.now }
    ensures value { (known : ℕ → Doc → Bool) → IsTable nodes.now known → Tells result (AllPass known asked.now (seen instance.entry)) }
    ensures same { sources searches.new ≡ sources searches.old }
{
    judging.copy_from_slice(asked);
    judge_marked(nodes, counters, searches, instance, judging, passed, free);
    are_within(asked, passed, nodes.len())
}

/// Judges the nodes of the set, if there are any. `judging` is written over.
pub(crate) fn judge_marked(
    nodes: &[Node],
    counters: &Counters,
    searches: &mut [Search<'_>],
    instance: Instance<'_>,
    judging: &mut [u64],
    passed: &mut [u64],
    free: &mut [u64],
)
    requires order { AreOrdered nodes.now }
    requires counted { AreCounted nodes.now counters.now }
    requires searched { AreSearched (sources searches.old) nodes.now }
    requires room { length nodes.now ≤ 64 * length judging.old }
    requires short { length judging.old ≤ 1366 }
    requires passed_len { length passed.old ≡ length judging.old }
    ensures value { AreJudged nodes.now (seen instance.entry) judging.old passed.new }
    ensures same { sources searches.new ≡ sources searches.old }
{
    if !is_empty(judging, nodes.len()) {
        judge_instance(nodes, counters, searches, instance, judging, passed, free);
    }
}

// Whether no number below that one is in the set.
fn is_empty(words: &[u64], upto: usize) -> bool
    requires { length words.now < 2 ^ 32 }
    ensures { result ≡ true → (j : ℕ) → j < upto → bit words.now j ≡ false }
{
    next(words, 0) >= upto
}

// Whether each number below that one that is in the first set is in the second.
fn are_within(words: &[u64], others: &[u64], upto: usize) -> bool
    requires { length words.now < 2 ^ 32 }
    ensures { Tells result ((j : ℕ) → j < upto → bit words.now j ≡ true → bit others.now j ≡ true) }
{
    let mut number = next(words, 0);
    while number < upto {
        if bit(words, number) && !bit(others, number) {
            return false;
        }
        number = next(words, number + 1);
    }
    true
}
