//! The patterns that are found in the names of members.
ghost use Rattle.std.specs.Prelude.{◌≡◌, ◌<◌, ◌^◌, [], ◌∷◌, if◌then◌else◌, length, true};
ghost use Rattle.schema_pattern.specs.Patterns.{is_found, pattern_in};
ghost use Rattle.schema_pattern.specs.Tables.{source_at, sources};
ghost use Rattle.schema_levels.specs.Bits.{bit, put};
ghost use Rattle.schema_levels.specs.Known.{AllIn, AreFound, AreSought, Keeps, SaysOfAsked};
ghost use Rattle.schema_levels.specs.NamePatterns.{patterns_by, patterns_in};
ghost use Rattle.schema_levels.specs.Searched.{AreSearched};

use crate::bits::{bit, next, write};
use crate::node::{NamePattern, Node, Rule};
use schema_pattern::{Search, finds_at};

/// Whether the number is in the set, which is one word.
pub fn has(word: u64, number: usize) -> bool
    ensures { result ≡ bit (word ∷ []) number }
{
    bit(&[word], number)
}

/// The set with the number in it or not, as given.
fn with(word: u64, number: usize, is_in: bool) -> u64
    ensures { result ∷ [] ≡ put (word ∷ []) number is_in }
{
    let mut words = [word];
    write(&mut words, number, is_in);
    words[0]
}

/// The numbers of the patterns that the asked nodes have for the names of members.
pub fn sought(nodes: &[Node], asked: &[u64]) -> u64
    requires { length asked.now < 2 ^ 32 }
    ensures { AreSought nodes.now asked.now result }
{
    let mut sought = 0;
    let mut number = next(asked, 0);
    while number < nodes.len() {
        sought = with_node(&nodes[number], number, asked, sought);
        number = next(asked, number + 1);
    }
    sought
}

fn with_node(node: &Node, number: usize, asked: &[u64], before: u64) -> u64
    ensures all { bit asked.now number ≡ true → AllIn result (patterns_in node.now.rules.items) }
    ensures keeps { Keeps before result }
{
    if bit(asked, number) {
        with_rules(&node.rules, before)
    } else {
        before
    }
}

fn with_rules(rules: &[Rule], before: u64) -> u64
    ensures all { AllIn result (patterns_in rules.now) }
    ensures keeps { Keeps before result }
{
    let mut sought = before;
    for rule in rules {
        sought = with_rule(rule, sought);
    }
    sought
}

fn with_rule(rule: &Rule, before: u64) -> u64
    ensures all { AllIn result (patterns_by rule.now) }
    ensures keeps { Keeps before result }
{
    match rule {
        Rule::Matching(pattern, _) => with(before, pattern.number, true),
        Rule::Others(patterns, _) => with_patterns(patterns, before),
        _ => before,
    }
}

fn with_patterns(patterns: &[NamePattern], before: u64) -> u64
    ensures all { AllIn result patterns.now }
    ensures keeps { Keeps before result }
{
    let mut sought = before;
    for pattern in patterns {
        sought = with(sought, pattern.number, true);
    }
    sought
}

/// Those of these numbers whose patterns are found in the name.
pub fn find(searches: &mut [Search<'_>], sought: u64, name: &str) -> u64
    ensures value { AreFound (sources searches.old) sought name.now result }
    ensures same { sources searches.new ≡ sources searches.old }
{
    let mut found = 0;
    let mut number = next(&[sought], 0);
    while number < searches.len() {
        found = find_one(searches, sought, number, name, found);
        number = next(&[sought], number + 1);
    }
    found
}

/// The same of the patterns that the asked nodes have, whose numbers `sought` has: nodes and set are for the clauses alone.
pub fn find_for(
    _nodes: &[Node],
    _asked: &[u64],
    searches: &mut [Search<'_>],
    sought: u64,
    name: &str,
) -> u64
    requires searched { AreSearched (sources searches.old) _nodes.now }
    requires sought { AreSought _nodes.now _asked.now sought }
    ensures known { SaysOfAsked _nodes.now _asked.now result name.now }
    ensures searched { AreSearched (sources searches.new) _nodes.now }
    ensures same { sources searches.new ≡ sources searches.old }
{
    find(searches, sought, name)
}

fn find_one(searches: &mut [Search<'_>], sought: u64, number: usize, name: &str, before: u64) -> u64
    requires { number < length searches.old }
    ensures value { result ∷ [] ≡ (if bit (sought ∷ []) number then put (before ∷ []) number (is_found (pattern_in (source_at (sources searches.old) number)) name.now) else before ∷ []) }
    ensures same { sources searches.new ≡ sources searches.old }
{
    if has(sought, number) {
        with(before, number, finds_at(searches, number, name))
    } else {
        before
    }
}
