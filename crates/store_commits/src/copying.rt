//! A snapshot that is copied into the other half between changes.
ghost use Rattle.std.specs.Prelude.{◌≡◌, ◌↔◌, ◌≤◌, ◌<◌, ◌+◌, ℕ, IfOk, IfErr, OnErr, OnOk, None, length, take, false, true};
ghost use Rattle.sector_device.specs.Disk.{LeavesOnly};
ghost use Rattle.store_journal.specs.Layout.{capacity_of};
ghost use Rattle.store_journal.specs.Calls.{BeginsWith, Broke};
ghost use Rattle.store_journal.specs.Carries.{Carries, EitherCarried, switched};
ghost use Rattle.store_journal.specs.JournalView.{IsKept, carried_of};
ghost use Rattle.store_journal.specs.Models.{model};
ghost use Rattle.slot_commits.specs.Loads.{number_end};
ghost use Rattle.doc_changes.specs.Refusals.{plain};
ghost use Rattle.doc_changes.specs.State.{Good};
ghost use Rattle.refusals.specs.declared.numbers.TheConstants.{DEVICE};
ghost use Rattle.store_commits.specs.Copying.{HasSpare, IsBegun, count_of, target_with, target_of, view_of, HasStepped, calls_of_step, standing_after};

use crate::creations;
use crate::pump::{CopyState, Pump};
use doc_machine::{Machine, Refusal};
use refusals::numbers::DEVICE;
use sector_device::SectorDevice;
use std::alloc::{AllocError, Global};
use store_journal::Journal;

/// A copy that runs.
#[derive(Drop)]
pub struct Copying {
    /// The snapshot, and the frames of the changes that were accepted since it was made.
    pub target: Vec<u8>,
    /// How many of these bytes the other half holds.
    pub standing: u64,
}

/// Takes the memory by which the target of a copy that runs can grow by `more` bytes.
pub fn reserve(copy: &mut Option<Copying>, more: usize) -> Result<(), AllocError>
    ensures same { target_of copy.new ≡ target_of copy.old }
    ensures room { OnOk result (HasSpare copy.new more) }
{
    if let Some(copying) = copy {
        copying.target.reserve(more)?;
    }
    Ok(())
}

/// Puts bytes after the target of a copy that runs. It takes no memory.
pub fn grow(copy: &mut Option<Copying>, more: &[u8])
    requires { HasSpare copy.old (length more.now) }
    ensures grown { target_of copy.new ≡ target_with more.now (target_of copy.old) }
    ensures spare { (n : ℕ) → HasSpare copy.old (length more.now + n) → HasSpare copy.new n }
{
    if let Some(copying) = copy {
        copying.target.extend_from_slice(more).unwrap();
    }
}

/// Takes the copy that runs, or begins one with a snapshot of the documents, of format 3 if `rides`, which alone takes
/// memory.
pub fn take_or_begin(
    alloc: Global,
    machine: &Machine,
    rides: bool,
    copy: &mut Option<Copying>,
) -> Result<Copying, AllocError>
    ensures ok { IfOk result (λ copying. IsBegun rides machine.now (target_of copy.old) (view_of copying)) }
    ensures err { OnErr result (target_of copy.old ≡ None) }
    ensures taken { target_of copy.new ≡ None }
    ensures good { Good machine.now }
{
    if let Some(copying) = copy.take() {
        machine.know();
        return Ok(copying);
    }
    let target = creations(alloc, &machine.look(), rides)?;
    Ok(Copying {
        target,
        standing: 0,
    })
}

/// Writes at most `most` sectors of the target, 0 as 1, and makes the target count if they were the last. Answers what
/// it did, and the copy if it goes on. It takes no memory.
pub fn step<D: SectorDevice>(
    journal: &mut Journal<D>,
    copying: Copying,
    most: u64,
) -> Result<(Pump, Option<Copying>), Refusal>
    requires version { journal.old.version ≡ 2 }
    requires settled { journal.old.settled ≡ true }
    requires number { journal.old.next < number_end }
    requires works { journal.old.broken ≡ false }
    requires fits { length copying.target.items ≤ capacity_of journal.old.rides journal.old.sectors }
    requires within { copying.standing ≤ length copying.target.items }
    requires copied { (D.disk journal.old.device).honest → BeginsWith (take copying.standing copying.target.items) journal.old.copied }
    ensures ok { IfOk result (λ r. HasStepped (D.disk journal.old.device) (D.disk journal.new.device) journal.old journal.new (view_of copying) most r.0 (target_of r.1)) }
    ensures err { IfErr result (λ refusal. (refusal ≡ plain DEVICE)
        × Broke (D.disk journal.old.device) (D.disk journal.new.device) (calls_of_step journal.old.rides (count_of (view_of copying)) most) journal.old journal.new) }
    ensures any_moment { (D.disk journal.old.device).honest → LeavesOnly (model journal.old.rides (D.disk journal.old.device)) (model journal.old.rides (D.disk journal.new.device))
        (EitherCarried (carried_of journal.old) (switched (carried_of journal.old) copying.target.items)) }
    ensures before_last { (D.disk journal.old.device).honest → standing_after (count_of (view_of copying)) most < length copying.target.items
        → LeavesOnly (model journal.old.rides (D.disk journal.old.device)) (model journal.old.rides (D.disk journal.new.device)) (Carries (carried_of journal.old)) }
    ensures kept { IsKept (D.disk journal.new.device) journal.new }
    ensures honest { (D.disk journal.old.device).honest ↔ (D.disk journal.new.device).honest }
{
    let from = copying.standing;
    let Ok(standing) = journal.copy_step(&copying.target, from, most.max(1)) else {
        return Err(Refusal::plain(DEVICE));
    };
    let written = (standing + 511) / 512 - from / 512;
    if standing < copying.target.len() as u64 {
        let pump = Pump {
            written,
            copy: CopyState::Running,
        };
        return Ok((
            pump,
            Some(Copying {
                standing,
                ..copying
            }),
        ));
    }
    let Ok(()) = journal.switch(&copying.target) else {
        return Err(Refusal::plain(DEVICE));
    };
    let pump = Pump {
        written,
        copy: CopyState::Switched,
    };
    Ok((pump, None))
}
