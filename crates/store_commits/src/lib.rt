//! The commits to the journal of a store. A store is seen as its `Account`, which all replies depend on
//! (`specs/Account.antt`); how events are answered, and what becomes of the account, its device's images and its
//! device's calls, is a run (`specs/Run.antt`). Of a journal and a machine that hold a state: a transaction, the
//! snapshot that makes room for it or is committed in its place, a step of a copied snapshot or the transactions of a
//! batch are committed, or given up if the device failed. Each image that a crash may leave meanwhile carries what was
//! there before or what was being committed. What takes memory is apart from what calls the device.
//!
//! All that is committed is in format 2 or 3, and a change's frame has the number of accepted changes with it. In format
//! 3, whose last bytes ride in slots, the committed bytes are a log (`log_frames`): a snapshot's entries, and after them
//! transactions, each of which ends with a frame that says so.
//!
//! An image of a device holds one state at most (`specs/Images.antt`, `laws`); a snapshot makes the documents of a good
//! state again, with their revisions; `replay` makes the machine that committed bytes of each format hold, and refuses
//! exactly those that hold none.
#![tactic(auto)]

mod batch;
pub mod copying;
mod event;
mod frame_replay;
mod frames;
pub mod laws;
mod log_replay;
mod plan;
mod pump;
mod replacement;
mod replaying;
mod segment;
mod snapshot;
mod snapshot_commit;

pub use batch::{Committed, commit_batch};
pub use event::{Event, Reply};
pub use pump::{CopyState, Pump};
pub use replaying::{ReplayFault, replay, version_of_frames};
pub use snapshot::creations;
pub use snapshot_commit::commit_snapshot;
