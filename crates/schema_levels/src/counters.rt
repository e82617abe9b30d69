//! The counters of nodes whose passing elements are counted.
ghost use Rattle.std.specs.Prelude.{◌≡◌, ◌+◌, ◌<◌, ◌≤◌, IfOk, true, length};
ghost use Rattle.schema_levels.specs.Counters.{HasCounter, HaveCounters, AreCounted, HaveRoom, Keeps, counter, owns, wants, wanted, wanted_in};

use crate::node::{Node, Rule};
use std::alloc::{AllocError, Global};

/// How many counters there is room for: one for each 13 bytes of the longest schema.
pub const MOST_COUNTERS: usize = 20_165;

/// Counters for nodes.
#[derive(Drop)]
pub struct Counters {
    /// The counter of each node by its number, if it has one.
    pub ranks: Vec<usize>,
    /// The number of the node that has the counter, counter by counter.
    pub counted: Vec<usize>,
}

/// A counter for each node whose passing elements some rule counts. An error means that memory ran out.
pub fn counters_of(nodes: &[Node], alloc: Global) -> Result<Counters, AllocError>
    requires { HaveRoom (wanted_in nodes.now) }
    ensures { IfOk result (AreCounted nodes.now) }
{
    let mut counters = Counters {
        ranks: Vec::new(alloc),
        counted: Vec::new(alloc),
    };
    for node in nodes {
        counters = with_rules(&node.rules, counters)?;
    }
    Ok(counters)
}

fn with_rules(rules: &[Rule], before: Counters) -> Result<Counters, AllocError>
    ensures given { IfOk result (λ c. Keeps before c × HaveCounters c rules.now) }
    ensures few { IfOk result (λ c. length c.counted.items ≤ length before.counted.items + wanted rules.now) }
{
    let mut counters = before;
    for rule in rules {
        counters = with_rule(rule, counters)?;
    }
    Ok(counters)
}

fn with_rule(rule: &Rule, before: Counters) -> Result<Counters, AllocError>
    ensures given { IfOk result (λ c. Keeps before c × HasCounter c rule.now) }
    ensures few { IfOk result (λ c. length c.counted.items ≤ length before.counted.items + wants rule.now) }
{
    match rule {
        Rule::Contains(number) => reaching(*number, before),
        Rule::AtLeast(number, _) => with_number(*number, before),
        Rule::AtMost(number, _) => with_number(*number, before),
        _ => Ok(before),
    }
}

// With a rank for the number.
fn reaching(number: usize, before: Counters) -> Result<Counters, AllocError>
    ensures given { IfOk result (λ c. Keeps before c × (number < length c.ranks.items)) }
    ensures few { IfOk result (λ c. length c.counted.items ≡ length before.counted.items) }
{
    let mut counters = before;
    while counters.ranks.len() <= number {
        counters.ranks.push(0)?;
    }
    Ok(counters)
}

// With a counter for the number.
fn with_number(number: usize, before: Counters) -> Result<Counters, AllocError>
    ensures given { IfOk result (λ c. Keeps before c × (number < length c.ranks.items) × (owns c number ≡ true)) }
    ensures few { IfOk result (λ c. length c.counted.items ≤ length before.counted.items + 1) }
{
    let counters = reaching(number, before)?;
    if owns(&counters, number) {
        return Ok(counters);
    }
    with_counter(number, counters)
}

fn with_counter(number: usize, before: Counters) -> Result<Counters, AllocError>
    requires { number < length before.ranks.items }
    ensures given { IfOk result (λ c. Keeps before c × (number < length c.ranks.items) × (owns c number ≡ true)) }
    ensures few { IfOk result (λ c. length c.counted.items ≤ length before.counted.items + 1) }
{
    let mut counters = before;
    counters.ranks[number] = counters.counted.as_slice().len();
    counters.counted.push(number)?;
    Ok(counters)
}

/// The counter of the node with that number.
pub(crate) fn counter(counters: &Counters, number: usize) -> usize
    ensures { result ≡ counter counters.now number }
{
    match counters.ranks.get(number) {
        Some(counter) => *counter,
        None => 0,
    }
}

/// Whether it is that of this node.
pub(crate) fn owns(counters: &Counters, number: usize) -> bool
    ensures { result ≡ owns counters.now number }
{
    match counters.counted.get(counter(counters, number)) {
        Some(owner) => *owner == number,
        None => false,
    }
}
