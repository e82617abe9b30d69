//! The halves of a device in blocks and slots.
ghost use Rattle.std.specs.Prelude.{◌≡◌, ◌≤◌, ◌^◌};
ghost use Rattle.commit_slots.specs.Slots.{block_start};

/// The fewest sectors: those of the slots, and two blocks for each half.
pub const MIN_SECTORS: u64 = 160;

/// The first sector of half 0 or 1 of a device of `sectors` sectors.
pub fn block_start(sectors: u64, half: u32) -> u64
    requires most { sectors ≤ 2 ^ 32 }
    requires half { half ≤ 1 }
    ensures { result ≡ block_start sectors half }
{
    128 + u64::from(half) * (8 * (sectors.saturating_sub(128) / 16))
}
