//! Loops in a graph.
//!
//! A loop is a list of places, each of which leads to the one after it, that ends where it begins (`specs/Loops.antt`).
//! `order_of` puts the places of a graph in an order in which each comes after those that it leads to, or answers that
//! there is a loop, by one walk over it with marks; `has_loop` answers that alone.
//! `laws` has what judging along edges rests on: a loop is the same fact as a walk that comes back, whatever its length.
#![tactic(auto)]

pub mod laws;
mod loops;
mod walk;

pub use loops::has_loop;
pub use walk::{Order, order_of};
