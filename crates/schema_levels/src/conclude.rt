//! The answers of nodes on a value once its children are judged.
ghost use Rattle.std.specs.Prelude.{◌≡◌, ◌==◌, ◌&&◌, ◌<◌, ◌^◌, if◌then◌else◌, length, map, string_bytes};
ghost use Rattle.doc_tree.specs.Doc.{text};
ghost use Rattle.schema_pattern.specs.Tables.{source_at, sources};
ghost use Rattle.schema_rules.specs.Instances.{seen};
ghost use Rattle.schema_rules.specs.Patterns.{fits};
ghost use Rattle.schema_rules.specs.Rules.{every, some, how_many, where_present};
ghost use Rattle.schema_levels.specs.Bits.{bit, put};
ghost use Rattle.schema_levels.specs.Conclude.{conclude, rules_here, rule_here};
ghost use Rattle.schema_levels.specs.Searched.{AreRulesSearched, AreSearched, IsSearched};

use crate::bits::{bit, next, write};
use crate::node::{Node, Rule};
use doc_tree::Tree;
use schema_pattern::{Search, finds_at};
use schema_rules::{Instance, has_member};

// Joins to each asked node's answer on the children what it says of the value itself.
pub(crate) fn conclude(
    nodes: &[Node],
    searches: &mut [Search<'_>],
    instance: Instance<'_>,
    asked: &[u64],
    passed: &mut [u64],
)
    requires short { length asked.now < 2 ^ 32 }
    requires searched { AreSearched (sources searches.old) nodes.now }
    ensures concluded { passed.new ≡ conclude (seen instance.entry) asked.now 0 nodes.now passed.old }
    ensures same { sources searches.new ≡ sources searches.old }
{
    let mut number = next(asked, 0);
    while number < nodes.len() {
        conclude_one(&nodes[number], number, searches, instance, asked, passed);
        number = next(asked, number + 1);
    }
}

fn conclude_one(
    node: &Node,
    number: usize,
    searches: &mut [Search<'_>],
    instance: Instance<'_>,
    asked: &[u64],
    passed: &mut [u64],
)
    requires { AreRulesSearched (sources searches.old) node.now.rules.items }
    ensures concluded { passed.new ≡ (if bit asked.now number then put passed.old number (bit passed.old number && rules_here (bit passed.old) (seen instance.entry) node.now.rules.items) else passed.old) }
    ensures same { sources searches.new ≡ sources searches.old }
{
    if bit(asked, number) {
        let passes = bit(passed, number) && rules_here(&node.rules, searches, instance, passed);
        write(passed, number, passes);
    }
}

fn rules_here(
    rules: &[Rule],
    searches: &mut [Search<'_>],
    instance: Instance<'_>,
    passed: &[u64],
) -> bool
    requires { AreRulesSearched (sources searches.old) rules.now }
    ensures value { result ≡ rules_here (bit passed.now) (seen instance.entry) rules.now }
    ensures same { sources searches.new ≡ sources searches.old }
{
    for rule in rules {
        if !rule_here(rule, searches, instance, passed) {
            return false;
        }
    }
    true
}

/// The answer of a rule on the value itself, if the answers of the nodes that it asks are known.
pub fn rule_here(
    rule: &Rule,
    searches: &mut [Search<'_>],
    instance: Instance<'_>,
    passed: &[u64],
) -> bool
    requires { IsSearched (sources searches.old) rule.now }
    ensures value { result ≡ rule_here (bit passed.now) (seen instance.entry) rule.now }
    ensures same { sources searches.new ≡ sources searches.old }
{
    match rule {
        Rule::Says(b) => *b,
        Rule::Asserts(assertion) => assertion.holds(instance),
        Rule::Matches(number, _) => fits(searches, *number, instance),
        Rule::All(numbers) => all_pass(numbers, passed),
        Rule::Any(numbers) => some_passes(numbers, passed),
        Rule::One(numbers) => how_many_pass(numbers, passed) == 1,
        Rule::Not(number) => !bit(passed, *number),
        Rule::Then(condition, number) => !bit(passed, *condition) || bit(passed, *number),
        Rule::Else(condition, number) => bit(passed, *condition) || bit(passed, *number),
        Rule::Dependent(names, numbers) => present_pass(names, numbers, instance, passed),
        Rule::Refers(number) => bit(passed, *number),
        _ => true,
    }
}

// Whether the instance is no text, or some part of it matches the pattern of that number.
fn fits(searches: &mut [Search<'_>], number: usize, instance: Instance<'_>) -> bool
    requires { number < length searches.old }
    ensures value { result ≡ fits (text (source_at (sources searches.old) number)) (seen instance.entry) }
    ensures same { sources searches.new ≡ sources searches.old }
{
    match instance {
        Instance::Name(name) => finds_at(searches, number, name),
        Instance::Value(Tree::Text(text)) => finds_at(searches, number, text.as_str()),
        _ => true,
    }
}

fn all_pass(numbers: &[usize], passed: &[u64]) -> bool
    ensures { result ≡ every (map (bit passed.now) numbers.now) }
{
    for number in numbers {
        if !bit(passed, *number) {
            return false;
        }
    }
    true
}

fn some_passes(numbers: &[usize], passed: &[u64]) -> bool
    ensures { result ≡ some (map (bit passed.now) numbers.now) }
{
    for number in numbers {
        if bit(passed, *number) {
            return true;
        }
    }
    false
}

fn how_many_pass(numbers: &[usize], passed: &[u64]) -> usize
    ensures { result ≡ how_many (map (bit passed.now) numbers.now) }
{
    let mut count = 0;
    for number in numbers {
        if bit(passed, *number) {
            count += 1;
        }
    }
    count
}

fn present_pass(names: &[String], numbers: &[usize], instance: Instance<'_>, passed: &[u64]) -> bool
    ensures { result ≡ where_present (map string_bytes names.now) (seen instance.entry) (map (bit passed.now) numbers.now) }
{
    for (name, number) in names.iter().zip(numbers) {
        if has_member(instance, name.as_str()) && !bit(passed, *number) {
            return false;
        }
    }
    true
}
