//! The judgement of one node on a value. No memory is taken.
ghost use Rattle.std.specs.Prelude.{◌≡◌, ℕ, Bool, ◌*◌, ◌<◌, ◌≤◌, length};
ghost use Rattle.doc_tree.specs.Doc.{Doc};
ghost use Rattle.schema_rules.specs.Instances.{seen};
ghost use Rattle.schema_levels.specs.Counters.{AreCounted};
ghost use Rattle.schema_levels.specs.Nodes.{AreOrdered};
ghost use Rattle.schema_levels.specs.Searched.{AreSearched};
ghost use Rattle.schema_levels.specs.Table.{IsTable};
ghost use Rattle.schema_pattern.specs.Tables.{sources};

use crate::bits::{bit, fill, write};
use crate::counters::Counters;
use crate::counts::width;
use crate::levels::judge_instance;
use crate::node::Node;
use schema_pattern::Search;
use schema_rules::Instance;

/// How many nodes a schema of the most bytes has at most, in words of 64.
pub const MOST_WORDS: usize = 1_366;

/// Whether the node with that number passes the instance, in words for 64 levels, or fewer if the nodes are many. Takes
/// no memory.
pub fn passes(
    nodes: &[Node],
    counters: &Counters,
    searches: &mut [Search<'_>],
    number: usize,
    instance: Instance<'_>,
) -> bool
    requires order { AreOrdered nodes.now }
    requires counted { AreCounted nodes.now counters.now }
    requires searched { AreSearched (sources searches.old) nodes.now }
    requires number { number < length nodes.now }
    requires room { length nodes.now ≤ 64 * MOST_WORDS }
    ensures value { (known : ℕ → Doc → Bool) → IsTable nodes.now known → result ≡ known number (seen instance.entry) }
    ensures same { sources searches.new ≡ sources searches.old }
{
    let words = (nodes.len() + 63) / 64;
    let level = 3 * words + width(counters, true);
    if level <= 8 {
        passes_in::<512>(nodes, counters, searches, number, instance, words)
    } else if level <= 64 {
        passes_in::<4096>(nodes, counters, searches, number, instance, words)
    } else if level <= 256 {
        passes_in::<16384>(nodes, counters, searches, number, instance, words)
    } else {
        passes_in::<36864>(nodes, counters, searches, number, instance, words)
    }
}

#[inline(never)]
fn passes_in<const N: usize>(
    nodes: &[Node],
    counters: &Counters,
    searches: &mut [Search<'_>],
    number: usize,
    instance: Instance<'_>,
    words: usize,
) -> bool
    requires order { AreOrdered nodes.now }
    requires counted { AreCounted nodes.now counters.now }
    requires searched { AreSearched (sources searches.old) nodes.now }
    requires number { number < length nodes.now }
    requires room { length nodes.now ≤ 64 * words }
    requires short { words ≤ 1366 }
    requires enough { 2 * words ≤ N }
    requires few { N ≤ 36864 }
    ensures value { (known : ℕ → Doc → Bool) → IsTable nodes.now known → result ≡ known number (seen instance.entry) }
    ensures same { sources searches.new ≡ sources searches.old }
{
    let mut block = [0u64; N];
    passes_within(
        nodes, counters, searches, number, instance, words, &mut block,
    )
}

fn passes_within(
    nodes: &[Node],
    counters: &Counters,
    searches: &mut [Search<'_>],
    number: usize,
    instance: Instance<'_>,
    words: usize,
    free: &mut [u64],
) -> bool
    requires order { AreOrdered nodes.now }
    requires counted { AreCounted nodes.now counters.now }
    requires searched { AreSearched (sources searches.old) nodes.now }
    requires number { number < length nodes.now }
    requires room { length nodes.now ≤ 64 * words }
    requires short { words ≤ 1366 }
    requires enough { 2 * words ≤ length free.old }
    ensures value { (known : ℕ → Doc → Bool) → IsTable nodes.now known → result ≡ known number (seen instance.entry) }
    ensures same { sources searches.new ≡ sources searches.old }
{
    let (asked, rest) = free.split_at_mut(words);
    let (passed, left) = rest.split_at_mut(words);
    fill(asked, 0);
    write(asked, number, true);
    judge_instance(nodes, counters, searches, instance, asked, passed, left);
    bit(passed, number)
}
