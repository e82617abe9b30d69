//! The judgement of one node on a value that changed at a location, or at several. No memory is taken.
ghost use Rattle.std.specs.Prelude.{◌≡◌, ℕ, Bool, true, ◌+◌, ◌*◌, ◌/◌, ◌<◌, ◌≤◌, length, map};
ghost use Rattle.doc_tree.specs.Doc.{Doc};
ghost use Rattle.doc_tree.specs.Place.{place_of};
ghost use Rattle.doc_tree.specs.TreeView.{view};
ghost use Rattle.schema_levels.specs.Counters.{AreCounted};
ghost use Rattle.schema_levels.specs.Nodes.{AreOrdered};
ghost use Rattle.schema_levels.specs.Searched.{AreSearched};
ghost use Rattle.schema_levels.specs.Table.{IsTable};
ghost use Rattle.schema_pattern.specs.Tables.{sources};
ghost use Rattle.schema_changes.specs.Again.{IsPassedAfter, IsPassedAgain, IsPassedShifted, TellsBy};

use crate::along::along;
use doc_tree::{Step, Tree};
use schema_levels::bits::{fill, write};
use schema_levels::{Counters, MOST_WORDS, Node};
use schema_pattern::Search;

/// Whether the node with that number passes the value, if it passed one that agrees with it off the location. Takes no
/// memory: words for 64 levels, or fewer if the nodes are many.
pub fn passes_again(
    nodes: &[Node],
    counters: &Counters,
    searches: &mut [Search<'_>],
    number: usize,
    value: &Tree,
    path: &[Step],
) -> bool
    requires order { AreOrdered nodes.now }
    requires counted { AreCounted nodes.now counters.now }
    requires searched { AreSearched (sources searches.old) nodes.now }
    requires number { number < length nodes.now }
    requires room { length nodes.now ≤ 64 * MOST_WORDS }
    ensures value { (known : ℕ → Doc → Bool) → IsTable nodes.now known → IsPassedAgain known number (map place_of path.now) (view value.now) result }
    ensures same { sources searches.new ≡ sources searches.old }
{
    holds_along(nodes, counters, searches, number, value, path, false)
}

/// The same if the value agrees with one that passed off all of these locations: it may have changed at one after
/// another. Takes no memory.
pub fn passes_after(
    nodes: &[Node],
    counters: &Counters,
    searches: &mut [Search<'_>],
    number: usize,
    value: &Tree,
    paths: &[Vec<Step>],
) -> bool
    requires order { AreOrdered nodes.now }
    requires counted { AreCounted nodes.now counters.now }
    requires searched { AreSearched (sources searches.old) nodes.now }
    requires number { number < length nodes.now }
    requires room { length nodes.now ≤ 64 * MOST_WORDS }
    ensures value { (known : ℕ → Doc → Bool) → IsTable nodes.now known
        → IsPassedAfter known number (map (λ p. map place_of p.items) paths.now) (view value.now) result }
    ensures same { sources searches.new ≡ sources searches.old }
{
    for path in paths {
        if !holds_along(nodes, counters, searches, number, value, path, false) {
            return false;
        }
    }
    true
}

/// The same if the value agrees with one that passed off this location, and at its end an element came, or went from
/// there, between others. Takes no memory.
pub fn passes_shifted(
    nodes: &[Node],
    counters: &Counters,
    searches: &mut [Search<'_>],
    number: usize,
    value: &Tree,
    path: &[Step],
) -> bool
    requires order { AreOrdered nodes.now }
    requires counted { AreCounted nodes.now counters.now }
    requires searched { AreSearched (sources searches.old) nodes.now }
    requires number { number < length nodes.now }
    requires room { length nodes.now ≤ 64 * MOST_WORDS }
    ensures value { (known : ℕ → Doc → Bool) → IsTable nodes.now known → IsPassedShifted known number (map place_of path.now) (view value.now) result }
    ensures same { sources searches.new ≡ sources searches.old }
{
    holds_along(nodes, counters, searches, number, value, path, true)
}

// Whether what must hold again along the location does, if the node with that number must pass the value.
fn holds_along(
    nodes: &[Node],
    counters: &Counters,
    searches: &mut [Search<'_>],
    number: usize,
    value: &Tree,
    path: &[Step],
    shifts: bool,
) -> bool
    requires order { AreOrdered nodes.now }
    requires counted { AreCounted nodes.now counters.now }
    requires searched { AreSearched (sources searches.old) nodes.now }
    requires number { number < length nodes.now }
    requires room { length nodes.now ≤ 64 * MOST_WORDS }
    ensures value { (known : ℕ → Doc → Bool) → IsTable nodes.now known
        → TellsBy shifts known nodes.now ((length nodes.now + 63) / 64) number (map place_of path.now) (view value.now) result }
    ensures same { sources searches.new ≡ sources searches.old }
{
    let words = (nodes.len() + 63) / 64;
    let level = 4 * words + counters.counted.as_slice().len() / 4;
    if level <= 9 {
        passes_in::<512>(
            nodes, counters, searches, number, value, path, shifts, words,
        )
    } else if level <= 64 {
        passes_in::<4096>(
            nodes, counters, searches, number, value, path, shifts, words,
        )
    } else if level <= 256 {
        passes_in::<16384>(
            nodes, counters, searches, number, value, path, shifts, words,
        )
    } else {
        passes_in::<36864>(
            nodes, counters, searches, number, value, path, shifts, words,
        )
    }
}

#[inline(never)]
fn passes_in<const N: usize>(
    nodes: &[Node],
    counters: &Counters,
    searches: &mut [Search<'_>],
    number: usize,
    value: &Tree,
    path: &[Step],
    shifts: bool,
    words: usize,
) -> bool
    requires order { AreOrdered nodes.now }
    requires counted { AreCounted nodes.now counters.now }
    requires searched { AreSearched (sources searches.old) nodes.now }
    requires number { number < length nodes.now }
    requires room { length nodes.now ≤ 64 * words }
    requires short { words ≤ 1366 }
    requires enough { 4 * words ≤ N }
    requires few { N ≤ 36864 }
    ensures value { (known : ℕ → Doc → Bool) → IsTable nodes.now known → TellsBy shifts known nodes.now words number (map place_of path.now) (view value.now) result }
    ensures same { sources searches.new ≡ sources searches.old }
{
    let mut block = [0u64; N];
    passes_within(
        nodes, counters, searches, number, value, path, shifts, words, &mut block,
    )
}

fn passes_within(
    nodes: &[Node],
    counters: &Counters,
    searches: &mut [Search<'_>],
    number: usize,
    value: &Tree,
    path: &[Step],
    shifts: bool,
    words: usize,
    free: &mut [u64],
) -> bool
    requires order { AreOrdered nodes.now }
    requires counted { AreCounted nodes.now counters.now }
    requires searched { AreSearched (sources searches.old) nodes.now }
    requires number { number < length nodes.now }
    requires room { length nodes.now ≤ 64 * words }
    requires short { words ≤ 1366 }
    requires enough { 4 * words ≤ length free.old }
    ensures value { (known : ℕ → Doc → Bool) → IsTable nodes.now known → TellsBy shifts known nodes.now words number (map place_of path.now) (view value.now) result }
    ensures same { sources searches.new ≡ sources searches.old }
{
    let (asked, rest) = free.split_at_mut(words);
    let (below, others) = rest.split_at_mut(words);
    let (judging, more) = others.split_at_mut(words);
    let (passed, left) = more.split_at_mut(words);
    fill(asked, 0);
    write(asked, number, true);
    along(
        nodes, counters, searches, value, path, shifts, asked, below, judging, passed, left,
    )
}
