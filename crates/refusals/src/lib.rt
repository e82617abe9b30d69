//! The refusals of all crates: each number is here once, with its name. This crate uses no other.
#![tactic(auto)]

mod names;
pub mod numbers;

pub use names::name_of;
