//! Elements that move when another comes or goes before them.
ghost use Rattle.std.specs.Prelude.{◌≡◌, ◌<◌, ◌^◌, [], true, false, length, map};
ghost use Rattle.doc_tree.specs.Place.{place_of};
ghost use Rattle.schema_changes.specs.Again.{AreSteady, IsSteadyAt, all_steady, is_steady};

use doc_tree::Step;
use schema_levels::bits::{bit, next};
use schema_levels::{Node, Rule};

/// Whether the location ends at an element that came or went, and some node of the set asks something else of those
/// after it than before.
pub(crate) fn moves_others(
    nodes: &[Node],
    asked: &[u64],
    step: &Step,
    rest: &[Step],
    shifts: bool,
) -> bool
    requires { length asked.now < 2 ^ 32 }
    ensures shifts { result ≡ true → shifts ≡ true }
    ensures ends { result ≡ true → map place_of rest.now ≡ [] }
    ensures steady { result ≡ false → IsSteadyAt shifts (place_of step.now) (map place_of rest.now) nodes.now asked.now }
{
    if !shifts {
        return false;
    }
    match rest.split_first() {
        Some(_) => false,
        None => match step {
            Step::Index(index) => !are_steady(nodes, asked, *index as usize),
            Step::Name(_) => true,
        },
    }
}

// Whether each node of the set asks the same of each element from the index on.
fn are_steady(nodes: &[Node], asked: &[u64], index: usize) -> bool
    requires { length asked.now < 2 ^ 32 }
    ensures { result ≡ true → AreSteady index nodes.now asked.now }
{
    let mut number = next(asked, 0);
    while number < nodes.len() {
        if bit(asked, number) && !all_steady(&nodes[number], index) {
            return false;
        }
        number = next(asked, number + 1);
    }
    true
}

fn all_steady(node: &Node, index: usize) -> bool
    ensures { result ≡ all_steady index node.now node.now.rules.items }
{
    for rule in &node.rules {
        if !is_steady(node, rule, index) {
            return false;
        }
    }
    true
}

fn is_steady(node: &Node, rule: &Rule, index: usize) -> bool
    ensures { result ≡ is_steady index node.now rule.now }
{
    match rule {
        Rule::ByPlace(numbers) => numbers.as_slice().len() <= index,
        Rule::Rest(_) => node.prefix <= index,
        _ => true,
    }
}
