//! The nodes that are asked of a value because another is.
ghost use Rattle.std.specs.Prelude.{◌≡◌, ◌<◌, ◌^◌, length};
ghost use Rattle.schema_levels.specs.Closure.{close, mark_rules, mark_rule};

use crate::bits::{last, mark_each, write};
use crate::node::{Node, Rule};

/// Adds all nodes that asked ones lead to at the same value.
pub fn close(nodes: &[Node], asked: &mut [u64])
    requires { length asked.old < 2 ^ 32 }
    ensures { asked.new ≡ close nodes.now (length nodes.now) asked.old }
{
    let mut upto = nodes.len();
    while let Some(number) = last(asked, upto) {
        mark_rules(&nodes[number].rules, asked);
        upto = number;
    }
}

fn mark_rules(rules: &[Rule], asked: &mut [u64])
    ensures { asked.new ≡ mark_rules rules.now asked.old }
{
    for rule in rules {
        mark_rule(rule, asked);
    }
}

fn mark_rule(rule: &Rule, asked: &mut [u64])
    ensures { asked.new ≡ mark_rule rule.now asked.old }
{
    match rule {
        Rule::All(numbers) => mark_each(numbers, asked),
        Rule::Any(numbers) => mark_each(numbers, asked),
        Rule::One(numbers) => mark_each(numbers, asked),
        Rule::Not(number) => write(asked, *number, true),
        Rule::Then(condition, number) => {
            write(asked, *condition, true);
            write(asked, *number, true);
        }
        Rule::Else(condition, number) => {
            write(asked, *condition, true);
            write(asked, *number, true);
        }
        Rule::Dependent(_, numbers) => mark_each(numbers, asked),
        Rule::Refers(number) => write(asked, *number, true),
        _ => {}
    }
}
