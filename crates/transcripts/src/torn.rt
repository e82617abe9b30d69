//! Crashes that tear aligned blocks of 8 sectors.

use crate::fault::Fault;
use sector_device::{Damage, MemDisk, SectorDevice};
use std::alloc::Global;

/// What becomes of a block that is damaged.
const DAMAGED: u64 = 9;

/// A damaged sector, which is none of a store.
const DAMAGE: [u8; 512] = [0xd5; 512];

/// The disk after a crash. `choices` are numbers of blocks, each before what becomes of it: the pick of its sectors, or
/// `DAMAGED`. A block that isn't named takes pick 0.
pub fn crash_blocks(alloc: Global, disk: MemDisk, choices: &[u64]) -> Result<MemDisk, Fault> {
    let mut picks = Vec::new(alloc);
    let mut damage = Vec::new(alloc);
    for at in 0..disk.sectors() {
        let choice = choice_of(choices, at / 8);
        if choice == DAMAGED {
            damage.push(Damage {
                at,
                content: DAMAGE,
            })?;
        }
        picks.push(if choice == DAMAGED { 0 } else { choice })?;
    }
    Ok(disk.crash_torn(&picks, &damage))
}

/// What becomes of a block.
fn choice_of(choices: &[u64], block: u64) -> u64 {
    for (i, number) in choices.iter().enumerate() {
        if i % 2 == 0
            && *number == block
            && let Some(choice) = choices.get(i.saturating_add(1))
        {
            return *choice;
        }
    }
    0
}
