//! The work of judging a document, counted before it is judged, up to a limit.
//!
//! Which nodes are asked of which values doesn't depend on the answers, so a walk of its own finds them, by the same
//! `close` and `collect` as the judgement. `specs/Work.antt` has what each of them weighs, in units that bound the time of
//! a judgement. The walk stops as soon as the limit is passed, and takes memory for a set or two of nodes at each level.
#![tactic(auto)]

mod sizes;
mod stop;
mod walk;
mod weights;
mod within;

pub use within::work_within;
