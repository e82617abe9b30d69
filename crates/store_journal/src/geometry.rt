//! The parts of a device that holds a store, by its format.
ghost use Rattle.std.specs.Prelude.{◌≡◌, ◌≤◌, ◌↔◌, IsTrue};
ghost use Rattle.store_journal.specs.Layout.{FitsBetween, IsSized, capacity_of};

use commit_slots::{BLOCK_BYTES, slots_capacity};
use half_journal::geometry::half_start;
pub use half_journal::geometry::{MAX_SECTORS, MIN_SECTORS};
pub use slot_journal::geometry::MIN_SECTORS as MIN_SECTORS_RIDING;

/// Whether a device of `sectors` sectors can hold a store, in format 3 if `rides`.
pub fn is_sized(rides: bool, sectors: u64) -> bool
    ensures { IsTrue result ↔ IsSized rides sectors }
{
    let least = if rides {
        MIN_SECTORS_RIDING
    } else {
        MIN_SECTORS
    };
    least <= sectors && sectors <= MAX_SECTORS
}

/// The bytes that a half of such a device holds, in format 3 if `rides`.
pub fn capacity(rides: bool, sectors: u64) -> u64
    requires { sectors ≤ MAX_SECTORS }
    ensures { result ≡ capacity_of rides sectors }
{
    if rides {
        slots_capacity(sectors)
    } else {
        half_journal::geometry::capacity(sectors)
    }
}

/// Whether `used` bytes in half 0 of format 3 end before half 1 of format 2 begins, on a device of `sectors` sectors: so
/// they can be there together.
pub fn fits_between(sectors: u64, used: u64) -> bool
    requires { sectors ≤ MAX_SECTORS }
    ensures { IsTrue result ↔ FitsBetween sectors used }
{
    if !is_sized(true, sectors) || used > capacity(true, sectors) {
        return false;
    }
    128 + 8 * (used / BLOCK_BYTES) <= half_start(sectors, 1)
}
