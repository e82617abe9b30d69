//! The weights of nodes on an instance.
ghost use Rattle.std.specs.Prelude.{◌≡◌, ◌+◌, ◌/◌, ◌<◌, ◌^◌, IfOk, IfErr, if◌then◌else◌, length};
ghost use Rattle.schema_rules.specs.Instances.{seen};
ghost use Rattle.schema_levels.specs.Bits.{bit};
ghost use Rattle.judged_work.specs.Sizes.{own_size};
ghost use Rattle.judged_work.specs.Work.{beyond, node_weight, rule_weight, rules_weight, weight};
ghost use Rattle.judged_work.specs.declared.stop.Stop.TheVariants.{Limit};

use crate::sizes::{own_size, spend_names, spend_value, spend_whole};
use crate::stop::{Stop, spend};
use schema_levels::bits::{bit, next};
use schema_levels::{Node, Rule};
use schema_rules::{Assertion, Instance, Keyword};

/// Spends what the asked nodes weigh together.
pub(crate) fn weigh(
    nodes: &[Node],
    asked: &[u64],
    instance: Instance<'_>,
    before: usize,
) -> Result<usize, Stop>
    requires { length asked.now < 2 ^ 32 }
    ensures rest { IfOk result (λ rest. rest + weight nodes.now asked.now (seen instance.entry) ≡ before) }
    ensures more { IfErr result (λ e. e ≡ Limit → before < weight nodes.now asked.now (seen instance.entry)) }
{
    let size = own_size(instance);
    let mut left = before;
    let mut number = next(asked, 0);
    while number < nodes.len() {
        left = weigh_if_asked(&nodes[number], number, asked, instance, size, left)?;
        number = next(asked, number + 1);
    }
    Ok(left)
}

fn weigh_if_asked(
    node: &Node,
    number: usize,
    asked: &[u64],
    instance: Instance<'_>,
    size: usize,
    left: usize,
) -> Result<usize, Stop>
    requires { size ≡ own_size (seen instance) }
    ensures rest { IfOk result (λ rest. rest + (if bit asked.now number then node_weight (length asked.now) node.now (seen instance.entry) else 0) ≡ left) }
    ensures more { IfErr result (λ e. e ≡ Limit → left < (if bit asked.now number then node_weight (length asked.now) node.now (seen instance.entry) else 0)) }
{
    if bit(asked, number) {
        weigh_node(node, asked.len(), instance, size, left)
    } else {
        Ok(left)
    }
}

fn weigh_node(
    node: &Node,
    words: usize,
    instance: Instance<'_>,
    size: usize,
    before: usize,
) -> Result<usize, Stop>
    requires { size ≡ own_size (seen instance) }
    ensures rest { IfOk result (λ rest. rest + node_weight words node.now (seen instance.entry) ≡ before) }
    ensures more { IfErr result (λ e. e ≡ Limit → before < node_weight words node.now (seen instance.entry)) }
{
    let searched = spend(words / 16, before)?;
    let left = spend(size, searched)?;
    weigh_rules(&node.rules, instance, size, left)
}

fn weigh_rules(
    rules: &[Rule],
    instance: Instance<'_>,
    size: usize,
    before: usize,
) -> Result<usize, Stop>
    requires { size ≡ own_size (seen instance) }
    ensures rest { IfOk result (λ rest. rest + rules_weight rules.now (seen instance.entry) ≡ before) }
    ensures more { IfErr result (λ e. e ≡ Limit → before < rules_weight rules.now (seen instance.entry)) }
{
    let mut left = before;
    for rule in rules {
        left = weigh_rule(rule, instance, size, left)?;
    }
    Ok(left)
}

fn weigh_rule(
    rule: &Rule,
    instance: Instance<'_>,
    size: usize,
    before: usize,
) -> Result<usize, Stop>
    requires { size ≡ own_size (seen instance) }
    ensures rest { IfOk result (λ rest. rest + rule_weight rule.now (seen instance.entry) ≡ before) }
    ensures more { IfErr result (λ e. e ≡ Limit → before < rule_weight rule.now (seen instance.entry)) }
{
    let left = spend(size, before)?;
    match rule {
        Rule::Asserts(assertion) => spend_beyond(assertion, instance, left),
        Rule::Matching(_, _) => spend_names(instance, left),
        _ => Ok(left),
    }
}

fn spend_beyond(assertion: &Assertion, instance: Instance<'_>, left: usize) -> Result<usize, Stop>
    ensures rest { IfOk result (λ rest. rest + beyond assertion.now (seen instance.entry) ≡ left) }
    ensures more { IfErr result (λ e. e ≡ Limit → left < beyond assertion.now (seen instance.entry)) }
{
    match assertion {
        Assertion::Stated(keyword, value) => match keyword {
            Keyword::Constant => spend_whole(instance, left),
            Keyword::Enumeration => spend_whole(instance, left),
            Keyword::UniqueItems => spend_whole(instance, left),
            Keyword::DependentRequired => spend_value(value, left),
            _ => Ok(left),
        },
        Assertion::Among(_) => spend_whole(instance, left),
    }
}
