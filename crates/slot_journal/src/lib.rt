//! A journal in blocks and slots: format 3. Its committed bytes are in one of two halves, as far as they fill blocks of
//! 4,096, and the last of them in the slots. An append, a switch to the other half and a counted opening are each one
//! commit (`slot_commits`), whose state is known here by the slot that counts, a running checksum and the last bytes.
#![tactic(auto)]

mod appending;
pub mod geometry;
mod known;
mod opening;
mod switching;

pub use appending::append;
pub use known::Known;
pub use opening::{recovered, renew};
pub use switching::{switch, write_copy};
