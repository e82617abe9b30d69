//! Frames of format 3, and logs of them. A frame is that of format 2 (`record_text`), but that its first byte, which is
//! zero there, says what it holds: the last change of its transaction, one that others follow, a document of the
//! snapshot that a log begins with, or a mark (`specs/Kinds.antt`). A log is a snapshot's marks and documents, and after
//! them transactions, each of which may end with a mark (`specs/Log.antt`). A frame of a transaction of one change
//! without a mark has the same bytes as in format 2. Frames are distinguished whatever follows, and so are logs (`laws`).
#![tactic(auto)]

mod kind;
pub mod laws;
mod place;
mod read;
mod write;

pub use kind::Kind;
pub use place::Place;
pub use read::{patch_frame_as, read_frame_as};
pub use write::{frame_as, kept_frame, noted_frame};
