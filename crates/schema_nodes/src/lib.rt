//! Schemas as numbered nodes, made from a schema's tree.
//!
//! `compile` numbers the schemas in a schema (`entries`), puts them in an order in which each comes after those that it
//! applies to the instance itself (`edges`), and makes a node of each (`made`, `rules`, `targets`,
//! `names`). `held` is what a pointer is followed by, `anchors` what an anchor is found by.
#![tactic(auto)]

mod anchors;
mod edges;
mod entries;
mod held;
mod made;
mod names;
mod ranks;
mod rules;
mod targets;
mod tree;

pub use tree::{Compiled, compile};
