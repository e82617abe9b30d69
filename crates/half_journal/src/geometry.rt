//! The parts of a device: the commit sector, and then two halves of one size.
ghost use Rattle.std.specs.Prelude.{◌≡◌, ◌≤◌, ◌↔◌, IsTrue};
ghost use Rattle.half_journal.specs.Layout.{IsHalfSized, half_capacity, half_size, half_start};

use sector_device::SECTOR_BYTES;

/// The fewest sectors: one for the commit, and one for each half.
pub const MIN_SECTORS: u64 = 3;

/// The most sectors.
pub const MAX_SECTORS: u64 = 4_294_967_296;

/// Whether a device of `sectors` sectors can hold a store.
pub fn is_sized(sectors: u64) -> bool
    ensures { IsTrue result ↔ IsHalfSized sectors }
{
    MIN_SECTORS <= sectors && sectors <= MAX_SECTORS
}

/// The sectors of each half of a device of `sectors` sectors.
pub fn half_size(sectors: u64) -> u64
    ensures { result ≡ half_size sectors }
{
    sectors.saturating_sub(1) / 2
}

/// The bytes that a half of such a device holds.
pub fn capacity(sectors: u64) -> u64
    requires { sectors ≤ MAX_SECTORS }
    ensures { result ≡ half_capacity sectors }
{
    half_size(sectors) * SECTOR_BYTES
}

/// The first sector of half 0 or 1 of such a device.
pub fn half_start(sectors: u64, half: u32) -> u64
    requires { half ≤ 1 }
    ensures { result ≡ half_start sectors half }
{
    1 + u64::from(half) * half_size(sectors)
}
