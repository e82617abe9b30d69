//! The parts of a device that may hold frames of a store, in any format and whatever is damaged. `examine` finds the
//! commits that the device names, and the parts: first the one that a commit counts, with its checksum, and last what single sectors of slots
//! hold. `read_part` reads one, and goes on after a sector that isn't read. Nothing is written.
#![tactic(auto)]

mod checking;
mod findings;
mod part;
mod pieces;

pub use checking::{Check, check_of};
pub use findings::{Findings, SlotCopy, examine};
pub use part::{Part, PartBytes, read_part};
