//! Patches that are made of valid documents and judged on the way.
//!
//! `apply_judged` makes a patch operation by operation, so that each change is judged at its own places alone
//! (`patched_places`): a document that is valid after some of them is judged no further, and one that isn't may be so
//! again after others, which is judged along the places of all of them. `accepts_patched` judges what a patch made as a
//! whole, and `accepts` judges any document.
#![tactic(auto)]

mod apply;
mod judging;
mod known;

pub use apply::apply_judged;
pub use judging::{accepts, accepts_patched};
