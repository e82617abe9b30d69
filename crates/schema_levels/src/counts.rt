//! Counting elements that pass, and what rules say of the counts. A counter is a word, or a quarter of one for an array of
//! fewer than 65,536 elements.
ghost use Rattle.std.specs.Prelude.{◌≡◌, ℕ, ◌&&◌, ◌<◌, ◌≤◌, ◌^◌, if◌then◌else◌, length, slice_index_or, true};
ghost use Rattle.schema_levels.specs.Bits.{bit, put};
ghost use Rattle.schema_levels.specs.Counters.{counted, count_of, fourth, held, more, more_in_fourths, rule_counts, rules_count, unit, weigh, width, Tallied, is_tallied};

use crate::bits::{bit, next, write};
use crate::counters::{Counters, counter, owns};
use crate::node::{Node, Rule};
use schema_rules::{at_least, at_most};

/// Adds an element to the counts: of those that were asked, the nodes that it passes are found, and their counters count it.
pub(crate) fn tally(
    counters: &Counters,
    narrow: bool,
    asked: &[u64],
    passed: &[u64],
    found: &mut [u64],
    counts: &mut [u64],
)
    requires { length asked.now < 2 ^ 32 }
    ensures { (n : ℕ) × (length counters.now.ranks.items ≤ n) × Tallied counters.now narrow asked.now passed.now n found.old counts.old found.new counts.new }
{
    let mut number = next(asked, 0);
    while number < counters.ranks.len() {
        tally_one(number, counters, narrow, asked, passed, found, counts);
        number = next(asked, number + 1);
    }
}

fn tally_one(
    number: usize,
    counters: &Counters,
    narrow: bool,
    asked: &[u64],
    passed: &[u64],
    found: &mut [u64],
    counts: &mut [u64],
)
    ensures found { found.new ≡ (if is_tallied asked.now passed.now number then put found.old number true else found.old) }
    ensures counts { counts.new ≡ (if is_tallied asked.now passed.now number then counted counters.now narrow number counts.old else counts.old) }
{
    if bit(asked, number) && bit(passed, number) {
        write(found, number, true);
        if owns(counters, number) {
            count(counts, narrow, counter(counters, number));
        }
    }
}

// Counts one more, up to the most that the counter holds.
#[tactic(auto, unfolding(crate::specs::Counters::more))]
fn count(words: &mut [u64], narrow: bool, at: usize)
    ensures { words.new ≡ more narrow words.old at }
{
    if narrow {
        count_in_fourths(words, at);
    } else if at < words.len() {
        words[at] = words[at].wrapping_add(1);
    }
}

#[tactic(auto, unfolding(crate::specs::Counters::more_in_fourths))]
fn count_in_fourths(words: &mut [u64], at: usize)
    ensures { words.new ≡ more_in_fourths words.old at }
{
    let word = at / 4;
    if word < words.len() {
        if fourth(words[word], at % 4) < 65_535 {
            words[word] += unit(at % 4);
        }
    }
}

// One in that quarter of a word.
fn unit(part: usize) -> u64
    ensures { result ≡ unit part }
{
    match part {
        0 => 1,
        1 => 65_536,
        2 => 4_294_967_296,
        _ => 281_474_976_710_656,
    }
}

// The count in that quarter.
fn fourth(word: u64, part: usize) -> u64
    ensures { result ≡ fourth word part }
{
    match part {
        0 => word % 65_536,
        1 => word / 65_536 % 65_536,
        2 => word / 4_294_967_296 % 65_536,
        _ => word / 281_474_976_710_656 % 65_536,
    }
}

/// How many words the counters take.
pub(crate) fn width(counters: &Counters, narrow: bool) -> usize
    ensures { result ≡ width narrow (length counters.now.counted.items) }
{
    if narrow {
        counters.counted.as_slice().len() / 4 + 1
    } else {
        counters.counted.as_slice().len()
    }
}

/// Joins to each asked node's answer what it says of the counts.
pub(crate) fn weigh(
    nodes: &[Node],
    asked: &[u64],
    counters: &Counters,
    narrow: bool,
    found: &[u64],
    counts: &[u64],
    passed: &mut [u64],
)
    requires { length asked.now < 2 ^ 32 }
    ensures { passed.new ≡ weigh counters.now narrow (bit found.now) counts.now asked.now 0 nodes.now passed.old }
{
    let mut number = next(asked, 0);
    while number < nodes.len() {
        weigh_one(
            &nodes[number],
            number,
            asked,
            counters,
            narrow,
            found,
            counts,
            passed,
        );
        number = next(asked, number + 1);
    }
}

fn weigh_one(
    node: &Node,
    number: usize,
    asked: &[u64],
    counters: &Counters,
    narrow: bool,
    found: &[u64],
    counts: &[u64],
    passed: &mut [u64],
)
    ensures { passed.new ≡ (if bit asked.now number
        then put passed.old number (bit passed.old number && rules_count counters.now narrow (bit found.now) counts.now node.now.rules.items)
        else passed.old) }
{
    if bit(asked, number) {
        let passes = bit(passed, number)
            && rules_count(&node.rules, counters, narrow, found, counts);
        write(passed, number, passes);
    }
}

fn rules_count(
    rules: &[Rule],
    counters: &Counters,
    narrow: bool,
    found: &[u64],
    counts: &[u64],
) -> bool
    ensures { result ≡ rules_count counters.now narrow (bit found.now) counts.now rules.now }
{
    for rule in rules {
        if !rule_counts(rule, counters, narrow, found, counts) {
            return false;
        }
    }
    true
}

fn rule_counts(
    rule: &Rule,
    counters: &Counters,
    narrow: bool,
    found: &[u64],
    counts: &[u64],
) -> bool
    ensures { result ≡ rule_counts counters.now narrow (bit found.now) counts.now rule.now }
{
    match rule {
        Rule::Contains(number) => bit(found, *number),
        Rule::AtLeast(number, least) => {
            at_least(least, count_of(counters, narrow, counts, *number))
        }
        Rule::AtMost(number, most) => at_most(most, count_of(counters, narrow, counts, *number)),
        _ => true,
    }
}

fn count_of(counters: &Counters, narrow: bool, counts: &[u64], number: usize) -> usize
    ensures { result ≡ count_of counters.now narrow counts.now number }
{
    held(counts, narrow, counter(counters, number))
}

// What the counter holds.
fn held(words: &[u64], narrow: bool, at: usize) -> usize
    ensures { result ≡ held narrow words.now at }
{
    if narrow {
        fourth(word_at(words, at / 4), at % 4) as usize
    } else {
        word_at(words, at) as usize
    }
}

fn word_at(words: &[u64], at: usize) -> u64
    ensures { result ≡ slice_index_or words.now at 0 }
{
    match words.get(at) {
        Some(word) => *word,
        None => 0,
    }
}
