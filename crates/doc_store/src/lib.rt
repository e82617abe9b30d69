//! Named JSON documents on a device, kept over crashes.
//!
//! For every device that keeps to the disk model: while `execute`, `transact`, `transact_batch`, `snapshot`, `pump`,
//! `seal` or `run` goes on, each image that a crash may leave at any moment is that of the state after a prefix of the accepted
//! transactions, each whole. Once the call has answered, it is that of the state after all that were done (`Run.antt`). Of
//! every device: each commit makes its known number of calls, and a fault is answered, as `DEVICE`, only if one of them
//! failed (`Batch.antt`).
//!
//! `open` answers exactly the state of the device, in format 1, 2 or 3, and refuses all else. Each image that it leaves
//! was there before or is one of that state. A store in format 1 is then in format 2; one in format 2 or 3 keeps its
//! format, which `set_format` changes. An image has one state at most, and a snapshot makes its documents again with
//! their revisions (`laws`). `lives` opens a disk, stops it, crashes it and opens it again, as often as one likes: each
//! opening finds a prefix of the accepted transactions with all that were done (`specs/Lives.antt`).
//!
//! Accounts, answers and runs, and what commits to the journal, are in `store_commits`; its
//! definitions can be cited as this crate's.
#![tactic(auto)]

mod alone;
mod batch;
mod copied;
mod finding;
mod format;
mod kept;
pub mod laws;
mod life;
mod living;
mod looking;
mod opening;
mod progress;
mod pumping;
mod reading;
mod run;
mod sealing;
mod settling;
mod snapshot;
mod status;
mod store;
mod whole;

pub use doc_machine::{
    Asked, Changes, Command, Machine, Mark, Marking, Node, Nodelist, RecordFault, Refusal,
    Transaction, command_of,
};
pub use format::Format;
pub use life::{Life, Part};
pub use looking::{Looked, look};
pub use opening::Strictness;
pub use status::Status;
pub use store::Store;
pub use store_commits::{Committed, CopyState, Event, Pump, Reply};
pub use store_journal::{Notice, OpenFault};
pub use whole::LivesFault;
