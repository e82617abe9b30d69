//! Transactions as a history keeps them: their frames, cut by the heads alone, and the history of the log of a store that
//! was opened.
#![tactic(auto)]

mod begun;
mod frame;

pub use begun::history_of_log;
pub use frame::{Frame, first_frame};
