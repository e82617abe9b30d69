//! The journal of formats 1 and 2: its committed bytes are in one of the two halves of a device, and the commit sector
//! names the half, and says how many bytes count and in which format. All that it names is then durable. An append, a
//! switch to the other half, a counted opening and a migration are each one commit, whose state is known here by the
//! commit sector and the bytes of the last sector. After a crash at any moment each image carries the state from before
//! the commit or that after it, and at Ok that after it alone. What an image carries is determined (`laws`).
//!
//! `layout` is the commit sector's layout (`specs/Layout.antt`): it is read back exactly as it was written, and any other
//! sector is refused. `replace_commit` says what a crash at any moment of its replacement may leave.
#![tactic(auto)]

mod commit_sector;
mod committing;
mod copying;
mod filling;
pub mod geometry;
mod known;
pub mod laws;
pub mod layout;
mod opening;
mod publish;
mod update;
mod write;

pub use commit_sector::Commit;
pub use committing::commit;
pub use copying::write_copy;
pub use filling::{fill, format_empty};
pub use known::HalfKnown;
pub use opening::{load, recovered};
pub use publish::replace_commit;
pub use update::{Base, Update};
