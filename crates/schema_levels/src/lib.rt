//! Judging by numbered nodes, one level of the document at a time: each node is judged on each value at most once, and the
//! calls nest as deep as the document alone.
#![tactic(auto)]

pub mod below;
pub mod bits;
mod closure;
pub mod conclude;
mod counters;
mod counts;
pub mod found;
mod levels;
mod named;
mod node;
mod run;

pub use below::collect;
pub use closure::close;
pub use counters::{Counters, counters_of};
pub use found::find_for;
pub use levels::judge_instance;
pub use node::{ChildPlace, NamePattern, Node, Rule};
pub use run::{MOST_WORDS, passes};
