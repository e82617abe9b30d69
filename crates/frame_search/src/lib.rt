//! Frames that are looked for in bytes of which some are damaged. A frame is a length, a seq and a body, the compact text
//! of a command's object (`record_text`), and in format 3 its first byte is a kind (`log_frames`). It is at a place of
//! the bytes if from there on they begin with it, and its body is plain (`specs/Places.antt`): it begins with a brace,
//! and no byte of it is a control character's, as none of a compact text is. Such bodies don't overlap but for a few
//! bytes, since a frame begins with a byte of at most 3. So a search reads no byte over and over, whatever the
//! bytes are.
#![tactic(auto)]

mod plain;
mod search;

pub use search::{Found, next_frame};
