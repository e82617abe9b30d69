//! A store with its newest transactions: what it did is also given to a history (`change_history`), so that those after a
//! change can be asked for. A history has at most a number of bytes; 0 keeps none.
//!
//! The frames are those that were committed, each transaction whole (`specs/Recorded`). A store in format 3 that is opened
//! knows the transactions of its log again (`specs/Begun`); in format 2, and after a snapshot, the history of an opened
//! store begins at its last change.
#![tactic(auto)]

mod recording;
mod store;

pub use store::RecordedStore;
