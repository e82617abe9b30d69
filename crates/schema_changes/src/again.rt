//! The second judgement of one value.
ghost use Rattle.std.specs.Prelude.{◌≡◌, ℕ, Bool, true, false, ◌*◌, ◌&&◌, ◌<◌, ◌≤◌, ◌^◌, if◌then◌else◌, length};
ghost use Rattle.doc_tree.specs.Doc.{Doc};
ghost use Rattle.doc_tree.specs.TreeView.{view};
ghost use Rattle.schema_levels.specs.Bits.{bit, mark_all};
ghost use Rattle.schema_levels.specs.Counters.{AreCounted};
ghost use Rattle.schema_levels.specs.Nodes.{AreOrdered};
ghost use Rattle.schema_levels.specs.Searched.{AreRulesSearched, AreSearched, IsSearched};
ghost use Rattle.schema_levels.specs.Table.{IsTable};
ghost use Rattle.schema_pattern.specs.Tables.{sources};
ghost use Rattle.schema_changes.specs.Again.{AllAgain, Tells, anew_here, collect_anew, counts, is_list, mark_anew, mark_anew_rules, node_again, rule_again, rules_again, some_counts};

use crate::whole::judge_marked;
use doc_tree::Tree;
use schema_levels::bits::{bit, fill, mark_each, next, write};
use schema_levels::conclude::rule_here;
use schema_levels::{Counters, Node, Rule};
use schema_pattern::Search;
use schema_rules::Instance;

/// Whether each node of the set holds of the value, if the nodes that it needs at the value and at its children pass.
/// `judging` and `passed` are written over.
pub(crate) fn all_hold(
    nodes: &[Node],
    counters: &Counters,
    searches: &mut [Search<'_>],
    value: &Tree,
    asked: &[u64],
    judging: &mut [u64],
    passed: &mut [u64],
    free: &mut [u64],
) -> bool
    requires order { AreOrdered nodes.now }
    requires counted { AreCounted nodes.now counters.now }
    requires searched { AreSearched (sources searches.old) nodes.now }
    requires room { length nodes.now ≤ 64 * length asked.now }
    requires short { length asked.now ≤ 1366 }
    requires judging_len { length judging.old ≡ length asked.now }
    requires passed_len { length passed.old ≡ length asked.now }
    ensures value { (known : ℕ → Doc → Bool) → IsTable nodes.now known
        → Tells result (AllAgain (λ j. known j (view value.now)) (is_list (view value.now)) (view value.now) nodes.now asked.now) }
    ensures same { sources searches.new ≡ sources searches.old }
{
    let in_list = is_list(value);
    fill(judging, 0);
    collect_anew(nodes, in_list, asked, judging);
    judge_marked(
        nodes,
        counters,
        searches,
        Instance::Value(value),
        judging,
        passed,
        free,
    );
    each_holds(nodes, searches, in_list, value, asked, passed)
}

fn is_list(value: &Tree) -> bool
    ensures { result ≡ is_list (view value.now) }
{
    match value {
        Tree::List(_) => true,
        _ => false,
    }
}

// ---- What is judged whole.

fn collect_anew(nodes: &[Node], in_list: bool, asked: &[u64], found: &mut [u64])
    requires { length asked.now < 2 ^ 32 }
    ensures { found.new ≡ collect_anew in_list asked.now 0 nodes.now found.old }
{
    let mut number = next(asked, 0);
    while number < nodes.len() {
        collect_one(&nodes[number], in_list, number, asked, found);
        number = next(asked, number + 1);
    }
}

fn collect_one(node: &Node, in_list: bool, number: usize, asked: &[u64], found: &mut [u64])
    ensures { found.new ≡ (if bit asked.now number then mark_anew in_list number node.now found.old else found.old) }
{
    if bit(asked, number) {
        mark_node(node, in_list, number, found);
    }
}

fn mark_node(node: &Node, in_list: bool, number: usize, found: &mut [u64])
    ensures { found.new ≡ mark_anew in_list number node.now found.old }
{
    if in_list && some_counts(&node.rules) {
        write(found, number, true);
    }
    mark_rules(&node.rules, found);
}

fn mark_rules(rules: &[Rule], found: &mut [u64])
    ensures { found.new ≡ mark_anew_rules rules.now found.old }
{
    for rule in rules {
        mark_rule(rule, found);
    }
}

fn mark_rule(rule: &Rule, found: &mut [u64])
    ensures { found.new ≡ mark_all (anew_here rule.now) found.old }
{
    match rule {
        Rule::Any(numbers) => mark_each(numbers, found),
        Rule::One(numbers) => mark_each(numbers, found),
        Rule::Dependent(_, numbers) => mark_each(numbers, found),
        Rule::Not(number) => write(found, *number, true),
        Rule::Then(condition, number) => {
            write(found, *condition, true);
            write(found, *number, true);
        }
        Rule::Else(condition, number) => {
            write(found, *condition, true);
            write(found, *number, true);
        }
        _ => {}
    }
}

fn some_counts(rules: &[Rule]) -> bool
    ensures { result ≡ some_counts rules.now }
{
    for rule in rules {
        if counts(rule) {
            return true;
        }
    }
    false
}

fn counts(rule: &Rule) -> bool
    ensures { result ≡ counts rule.now }
{
    match rule {
        Rule::Contains(_) | Rule::AtLeast(_, _) | Rule::AtMost(_, _) => true,
        _ => false,
    }
}

// ---- Whether it holds.

fn each_holds(
    nodes: &[Node],
    searches: &mut [Search<'_>],
    in_list: bool,
    value: &Tree,
    asked: &[u64],
    passed: &[u64],
) -> bool
    requires short { length asked.now < 2 ^ 32 }
    requires searched { AreSearched (sources searches.old) nodes.now }
    ensures value { Tells result (AllAgain (bit passed.now) in_list (view value.now) nodes.now asked.now) }
    ensures same { sources searches.new ≡ sources searches.old }
{
    let mut number = next(asked, 0);
    while number < nodes.len() {
        if bit(asked, number)
            && !node_holds(&nodes[number], searches, in_list, value, number, passed)
        {
            return false;
        }
        number = next(asked, number + 1);
    }
    true
}

fn node_holds(
    node: &Node,
    searches: &mut [Search<'_>],
    in_list: bool,
    value: &Tree,
    number: usize,
    passed: &[u64],
) -> bool
    requires { AreRulesSearched (sources searches.old) node.now.rules.items }
    ensures value { result ≡ node_again (bit passed.now) in_list (view value.now) number node.now }
    ensures same { sources searches.new ≡ sources searches.old }
{
    if in_list && some_counts(&node.rules) {
        bit(passed, number)
    } else {
        rules_hold(&node.rules, searches, value, passed)
    }
}

fn rules_hold(rules: &[Rule], searches: &mut [Search<'_>], value: &Tree, passed: &[u64]) -> bool
    requires { AreRulesSearched (sources searches.old) rules.now }
    ensures value { result ≡ rules_again (bit passed.now) (view value.now) rules.now }
    ensures same { sources searches.new ≡ sources searches.old }
{
    for rule in rules {
        if !rule_holds(rule, searches, value, passed) {
            return false;
        }
    }
    true
}

fn rule_holds(rule: &Rule, searches: &mut [Search<'_>], value: &Tree, passed: &[u64]) -> bool
    requires { IsSearched (sources searches.old) rule.now }
    ensures value { result ≡ rule_again (bit passed.now) (view value.now) rule.now }
    ensures same { sources searches.new ≡ sources searches.old }
{
    match rule {
        Rule::All(_) | Rule::Refers(_) => true,
        _ => rule_here(rule, searches, Instance::Value(value), passed),
    }
}
