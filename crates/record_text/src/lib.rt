//! Commands that change a store, and the frames by which a journal holds them. A command is one JSON object
//! (`object_of`), and its frame a length, a seq and that object's compact text (`frame_of`); a frame of format 1 has no
//! seq (`frame_1_of`). Each command has one spelling: `read_frame` answers a command and a seq exactly when the bytes
//! begin with their frame, and each fault exactly when it applies. `patch_frame` lends the parts of a patch's frame,
//! and leaves its operations to be read by the caller. `read_body` and `patch_parts` do the same of a body alone.
//! Frames of one format are distinguished whatever follows (`laws`).
#![tactic(auto)]

mod body;
mod command;
mod fault;
pub mod laws;
mod lent;
pub mod limits;
mod plain;
mod read;
mod shape;
mod write;

pub use command::Command;
pub use fault::RecordFault;
pub use lent::{PatchFrame, patch_frame};
pub use plain::{patch_parts, plain_tree};
pub use read::{read_body, read_frame, read_frame_1};
pub use shape::{command_from, command_of, command_with};
pub use write::{creation_frame, frame, frame_1};
