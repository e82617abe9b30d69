//! Judging again what changed, by numbered nodes.
//!
//! If a document passed and another agrees with it off one location, or several, only the values along them are judged
//! again: what must hold of each other value still holds. Rules that join the answers of other nodes at a value, as
//! those of `anyOf` and `not`, are judged there as far as they reach.
#![tactic(auto)]

mod again;
mod along;
mod must;
mod places;
mod run;
mod steady;
mod whole;

pub use places::child;
pub use run::{passes_after, passes_again, passes_shifted};
