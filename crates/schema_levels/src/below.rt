//! The nodes that are asked of a child, and how their answers are joined.
ghost use Rattle.std.specs.Prelude.{◌≡◌, ℕ, List, false, true, ◌&&◌, ◌<◌, ◌^◌, if◌then◌else◌, length};
ghost use Rattle.schema_pattern.specs.Tables.{some_found};
ghost use Rattle.schema_rules.specs.Rules.{every};
ghost use Rattle.schema_levels.specs.Bits.{bit, put};
ghost use Rattle.schema_levels.specs.Below.{at_index, collect, collect_rules, fold, rule_below, rules_below, below, number_named, number_at, seen, where_found};
ghost use Rattle.schema_levels.specs.Known.{Knows, KnowsAsked, SaysOf};
ghost use Rattle.schema_levels.specs.NamePatterns.{patterns_by, patterns_in, texts_of};

use crate::bits::{bit, next, write};
use crate::found::has;
use crate::node::{ChildPlace, NamePattern, Node, Rule};
use std::collections::BTreeMap;

/// The node that a rule asks of the child, if any.
pub fn below(node: &Node, rule: &Rule, spot: ChildPlace<'_>) -> Option<usize>
    requires { Knows spot (patterns_by rule.now) }
    ensures { result ≡ below node.now rule.now (seen spot.entry) }
{
    match rule {
        Rule::Properties => match spot {
            ChildPlace::Name(name, _) => number_named(&node.named, name),
            _ => None,
        },
        Rule::Matching(pattern, number) => match spot {
            ChildPlace::Name(_, found) => where_found(has(found, pattern.number), *number),
            _ => None,
        },
        Rule::Others(patterns, number) => match spot {
            ChildPlace::Name(name, found) => if number_named(&node.named, name).is_some()
                || some_is_found(patterns, found)
            {
                None
            } else {
                Some(*number)
            },
            _ => None,
        },
        Rule::Names(number) => match spot {
            ChildPlace::MemberName => Some(*number),
            _ => None,
        },
        Rule::ByPlace(numbers) => match spot {
            ChildPlace::Index(index) => number_at(numbers, index),
            _ => None,
        },
        Rule::Rest(number) => match spot {
            ChildPlace::Index(index) => if index < node.prefix {
                None
            } else {
                Some(*number)
            },
            _ => None,
        },
        Rule::Contains(number) => at_index(*number, spot),
        Rule::AtLeast(number, _) => at_index(*number, spot),
        Rule::AtMost(number, _) => at_index(*number, spot),
        _ => None,
    }
}

fn where_found(found: bool, number: usize) -> Option<usize>
    ensures { result ≡ where_found found number }
{
    if found { Some(number) } else { None }
}

fn some_is_found(patterns: &[NamePattern], found: u64) -> bool
    ensures { (k : List ℕ) → SaysOf found k patterns.now → result ≡ some_found (texts_of patterns.now) k }
{
    for pattern in patterns {
        if has(found, pattern.number) {
            return true;
        }
    }
    false
}

fn at_index(number: usize, spot: ChildPlace<'_>) -> Option<usize>
    ensures { result ≡ at_index number (seen spot.entry) }
{
    match spot {
        ChildPlace::Index(_) => Some(number),
        _ => None,
    }
}

fn number_at(numbers: &[usize], index: usize) -> Option<usize>
    ensures { result ≡ number_at numbers.now index }
{
    match numbers.get(index) {
        Some(number) => Some(*number),
        None => None,
    }
}

fn number_named(named: &BTreeMap<String, usize>, name: &str) -> Option<usize>
    ensures { result ≡ number_named name.now named.now.entries }
{
    match named.get(name) {
        Some(number) => Some(*number),
        None => None,
    }
}

/// Adds the nodes that the asked ones ask of the child, and answers whether they ask any.
pub fn collect(nodes: &[Node], asked: &[u64], spot: ChildPlace<'_>, found: &mut [u64]) -> bool
    requires short { length asked.now < 2 ^ 32 }
    requires known { KnowsAsked nodes.now asked.now spot }
    ensures found { found.new ≡ collect asked.now (seen spot.entry) 0 nodes.now found.old }
    ensures none { result ≡ false → found.new ≡ found.old }
{
    let mut asks = false;
    let mut number = next(asked, 0);
    while number < nodes.len() {
        asks |= collect_one(&nodes[number], number, asked, spot, found);
        number = next(asked, number + 1);
    }
    asks
}

fn collect_one(
    node: &Node,
    number: usize,
    asked: &[u64],
    spot: ChildPlace<'_>,
    found: &mut [u64],
) -> bool
    requires { bit asked.now number ≡ true → Knows spot (patterns_in node.now.rules.items) }
    ensures found { found.new ≡ (if bit asked.now number then collect_rules node.now (seen spot.entry) node.now.rules.items found.old else found.old) }
    ensures none { result ≡ false → found.new ≡ found.old }
{
    bit(asked, number) && collect_rules(node, spot, found)
}

fn collect_rules(node: &Node, spot: ChildPlace<'_>, found: &mut [u64]) -> bool
    requires { Knows spot (patterns_in node.now.rules.items) }
    ensures found { found.new ≡ collect_rules node.now (seen spot.entry) node.now.rules.items found.old }
    ensures none { result ≡ false → found.new ≡ found.old }
{
    let mut asks = false;
    for rule in &node.rules {
        if let Some(number) = below(node, rule, spot) {
            write(found, number, true);
            asks = true;
        }
    }
    asks
}

// Joins the child's answers to those of the asked nodes.
pub(crate) fn fold(
    nodes: &[Node],
    asked: &[u64],
    spot: ChildPlace<'_>,
    child: &[u64],
    passed: &mut [u64],
)
    requires short { length asked.now < 2 ^ 32 }
    requires known { KnowsAsked nodes.now asked.now spot }
    ensures { passed.new ≡ fold (bit child.now) asked.now (seen spot.entry) 0 nodes.now passed.old }
{
    let mut number = next(asked, 0);
    while number < nodes.len() {
        fold_one(&nodes[number], number, asked, spot, child, passed);
        number = next(asked, number + 1);
    }
}

fn fold_one(
    node: &Node,
    number: usize,
    asked: &[u64],
    spot: ChildPlace<'_>,
    child: &[u64],
    passed: &mut [u64],
)
    requires { bit asked.now number ≡ true → Knows spot (patterns_in node.now.rules.items) }
    ensures { passed.new ≡ (if bit asked.now number
        then put passed.old number (bit passed.old number && rules_below (bit child.now) node.now (seen spot.entry) node.now.rules.items)
        else passed.old) }
{
    if bit(asked, number) {
        let passes = bit(passed, number) && rules_below(node, spot, child);
        write(passed, number, passes);
    }
}

fn rules_below(node: &Node, spot: ChildPlace<'_>, child: &[u64]) -> bool
    requires { Knows spot (patterns_in node.now.rules.items) }
    ensures { result ≡ rules_below (bit child.now) node.now (seen spot.entry) node.now.rules.items }
{
    for rule in &node.rules {
        if !rule_below(node, rule, spot, child) {
            return false;
        }
    }
    true
}

// What a rule says of the child alone.
fn rule_below(node: &Node, rule: &Rule, spot: ChildPlace<'_>, child: &[u64]) -> bool
    requires { Knows spot (patterns_by rule.now) }
    ensures { result ≡ rule_below (bit child.now) node.now rule.now (seen spot.entry) }
{
    match rule {
        Rule::Contains(_) | Rule::AtLeast(_, _) | Rule::AtMost(_, _) => true,
        _ => match below(node, rule, spot) {
            Some(number) => bit(child, number),
            None => true,
        },
    }
}
