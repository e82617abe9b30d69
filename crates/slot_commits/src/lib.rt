//! Commits on a device in slots and blocks: format 3. A commit is in two copies, each in a slot of its own, under a number
//! above all before it; what fills a block of 4,096 bytes is in the half. Whatever a crash leaves of a commit, torn blocks
//! among it, an image carries what was committed before it or all of it.
#![tactic(auto)]

mod aside;
mod converting;
mod formatting;
mod found;
pub mod laws;
mod loading;
mod opening;
mod pair;
mod reading;
mod writing;

pub use aside::write_aside;
pub use converting::convert;
pub use formatting::format_slots;
pub use found::{Found, LoadFault, Notice, Recovered};
pub use loading::{NUMBER_END, block_start, load};
pub use opening::renew;
pub use pair::{write_pair, write_slot};
pub use reading::{find, looks_made};
pub use writing::commit;
