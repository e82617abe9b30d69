//! The words of the program `jpstore`.
//!
//! `order_of` reads the words after the program's name by `clap`. Each number of a call that it
//! answers lies in the range of its option, and words that are a row of the program's table, with
//! numbers in plain decimal, are answered with the call of that row.
#![tactic(auto)]

mod call;
mod command;
pub mod limits;
mod sizes;
mod version;

pub use call::{Call, Order, order_of};
pub use version::VERSION;
