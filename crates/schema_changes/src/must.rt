//! The nodes that must pass because others must: at the same value, and at a child.
ghost use Rattle.std.specs.Prelude.{◌≡◌, ◌<◌, ◌^◌, if◌then◌else◌, length, true};
ghost use Rattle.std.specs.Option.{option_to_list};
ghost use Rattle.schema_levels.specs.Below.{seen};
ghost use Rattle.schema_levels.specs.Bits.{bit, mark_all};
ghost use Rattle.schema_levels.specs.Known.{Knows, KnowsAsked};
ghost use Rattle.schema_levels.specs.NamePatterns.{patterns_by, patterns_in};
ghost use Rattle.schema_changes.specs.Again.{close_must, collect_must, mark_must, mark_must_below, must_below, must_here};

use schema_levels::below::below;
use schema_levels::bits::{bit, last, mark_each, next, write};
use schema_levels::{ChildPlace, Node, Rule};

/// Adds all nodes that must pass the value because those of the set must.
pub(crate) fn close(nodes: &[Node], asked: &mut [u64])
    requires { length asked.old < 2 ^ 32 }
    ensures { asked.new ≡ close_must nodes.now (length nodes.now) asked.old }
{
    let mut upto = nodes.len();
    while let Some(number) = last(asked, upto) {
        mark_rules(&nodes[number].rules, asked);
        upto = number;
    }
}

fn mark_rules(rules: &[Rule], asked: &mut [u64])
    ensures { asked.new ≡ mark_must rules.now asked.old }
{
    for rule in rules {
        mark_rule(rule, asked);
    }
}

fn mark_rule(rule: &Rule, asked: &mut [u64])
    ensures { asked.new ≡ mark_all (must_here rule.now) asked.old }
{
    match rule {
        Rule::All(numbers) => mark_each(numbers, asked),
        Rule::Refers(number) => write(asked, *number, true),
        _ => {}
    }
}

/// Adds the nodes that must pass the child because those of the set must pass the value.
pub(crate) fn collect(nodes: &[Node], asked: &[u64], spot: ChildPlace<'_>, found: &mut [u64])
    requires short { length asked.now < 2 ^ 32 }
    requires known { KnowsAsked nodes.now asked.now spot }
    ensures { found.new ≡ collect_must asked.now (seen spot.entry) 0 nodes.now found.old }
{
    let mut number = next(asked, 0);
    while number < nodes.len() {
        collect_one(&nodes[number], number, asked, spot, found);
        number = next(asked, number + 1);
    }
}

fn collect_one(node: &Node, number: usize, asked: &[u64], spot: ChildPlace<'_>, found: &mut [u64])
    requires { bit asked.now number ≡ true → Knows spot (patterns_in node.now.rules.items) }
    ensures { found.new ≡ (if bit asked.now number then mark_must_below node.now (seen spot.entry) node.now.rules.items found.old else found.old) }
{
    if bit(asked, number) {
        collect_rules(node, spot, found);
    }
}

fn collect_rules(node: &Node, spot: ChildPlace<'_>, found: &mut [u64])
    requires { Knows spot (patterns_in node.now.rules.items) }
    ensures { found.new ≡ mark_must_below node.now (seen spot.entry) node.now.rules.items found.old }
{
    for rule in &node.rules {
        collect_rule(node, rule, spot, found);
    }
}

fn collect_rule(node: &Node, rule: &Rule, spot: ChildPlace<'_>, found: &mut [u64])
    requires { Knows spot (patterns_by rule.now) }
    ensures { found.new ≡ mark_all (option_to_list (must_below node.now rule.now (seen spot.entry))) found.old }
{
    if let Some(number) = must_below(node, rule, spot) {
        write(found, number, true);
    }
}

// The node that must pass the child; a rule that counts elements rests on them together.
fn must_below(node: &Node, rule: &Rule, spot: ChildPlace<'_>) -> Option<usize>
    requires { Knows spot (patterns_by rule.now) }
    ensures { result ≡ must_below node.now rule.now (seen spot.entry) }
{
    match rule {
        Rule::Contains(_) | Rule::AtLeast(_, _) | Rule::AtMost(_, _) => None,
        _ => below(node, rule, spot),
    }
}
