//! The commit slots of format 3: four slots of 32 sectors, two copies of each of the last two commits. Each sector has a
//! checksum and the number of its commit, so whatever a crash leaves of a slot, it is the new one whole or doesn't count.
#![tactic(auto)]

mod counted;
mod found;
pub mod laws;
mod sealed;
mod slot;
mod spread;

pub use counted::{Counted, counted_in, has_pair, highest_in, holds_copy};
pub use found::{BLOCK_BYTES, SLOT_SECTORS, slot_in, slots_capacity};
pub use sealed::{PIECE_BYTES, begins_slot, has_magic, is_sealed, number_of, place_of, seal};
pub use slot::Slot;
pub use spread::{NUMBERS, SLOT_BYTES, sectors_of_tail, slot_sector};
