//! A journal in format 3 that is brought to format 2, in place.
ghost use Rattle.std.specs.Prelude.{◌≡◌, ◌≤◌, ◌<◌, ◌+◌, ◌^◌, ℕ, List, Bool, Option, IfOk, OnOk, OnErr, None, false, true, length, slice_set};
ghost use Rattle.sector_device.specs.Disk.{Image, LeavesOnly, OrTorn, tearing};
ghost use Rattle.sector_device.specs.Charges.{Charges, IsSame};
ghost use Rattle.sector_device.specs.Sectors.{Over, SectorsHold, sectors_of};
ghost use Rattle.half_journal.specs.Known.{Knows as HalfKnows};
ghost use Rattle.half_journal.specs.Layout.{half_capacity, sector_of};
ghost use Rattle.half_journal.specs.States.{CarriesInHalf, state_in as half_state_in};
ghost use Rattle.slot_commits.specs.Asides.{IsAside};
ghost use Rattle.slot_commits.specs.Firsts.{LeavesFirst};
ghost use Rattle.slot_commits.specs.Loads.{number_end};
ghost use Rattle.slot_commits.specs.Pairs.{KeepsOutside, OutsideSome};
ghost use Rattle.slot_commits.specs.States.{Stands, State};
ghost use Rattle.slot_commits.specs.Tears.{tearing_by};
ghost use Rattle.slot_journal.specs.Known.{IsFormed as IsSlotFormed};
ghost use Rattle.store_journal.specs.Carries.{Carried, EitherCarried, half_of, turned};
ghost use Rattle.store_journal.specs.Held.{IsFormed, IsInSlots, IsOf, Tried, bytes_in, numbers_of};
ghost use Rattle.store_journal.specs.Layout.{FitsBetween, capacity_of};
ghost use Rattle.store_journal.specs.Models.{weak};
ghost use Rattle.store_journal.specs.Turning.{HasNoSlots, commit_turned, numbers_turned};
ghost use Rattle.store_journal.specs.Writes.{downgrade_calls};
ghost use Rattle.store_journal.specs.declared.held.Held.TheVariants.{InSlots};

use crate::held::Held;
use commit_slots::Slot;
use half_journal::geometry::half_start;
use half_journal::layout::{FORMAT, encode};
use half_journal::{Commit, HalfKnown};
use sector_device::{DeviceFault, SECTOR_BYTES, SectorDevice, write_run};
use slot_commits::write_aside;
use slot_journal::Known;

/// Brings a journal in format 3 whose half 0 counts to format 2, with `target` as its bytes, in half 1. `Err`: a call of
/// the device failed, and none was made after it.
pub fn downgrade<D: SectorDevice>(
    device: &mut D,
    held: &mut Held,
    target: &[u8],
) -> Result<(), DeviceFault>
    requires formed { IsFormed (D.disk device.old).sectors held.old }
    requires rides { (numbers_of held.old).rides ≡ true }
    requires settled { (numbers_of held.old).settled ≡ true }
    requires half { (numbers_of held.old).half ≡ 0 }
    requires between { FitsBetween (numbers_of held.old).sectors (numbers_of held.old).used }
    requires fits { length target.now ≤ capacity_of false (numbers_of held.old).sectors }
    ensures same { IsSame (D.disk device.old) (D.disk device.new) }
    ensures charges { Charges (D.disk device.old) (D.disk device.new) (downgrade_calls (length target.now)) result }
    ensures formed { IsFormed (D.disk device.new).sectors held.new }
    ensures numbers { OnOk result (numbers_of held.new ≡ numbers_turned (numbers_of held.old) false 0 (length target.now) 0 0) }
    ensures stays { OnErr result (held.new ≡ held.old) }
    ensures tried { (c : Carried) → (D.disk device.old).honest → IsOf (D.disk device.old) held.old c → Tried (D.disk device.old) (D.disk device.new) held.new c (turned false 0 c target.now) result }
    ensures wiped { (D.disk device.old).honest → OnOk result ((image : Image) → (D.disk device.new).left image → HasNoSlots image) }
{
    match held {
        Held::InHalf(_) => unreachable!(),
        Held::InSlots { known, .. } => {
            let half = to_half(device, known, target)?;
            *held = Held::InHalf(half);
            Ok(())
        }
    }
}

// The same, of what is known in format 3: what is then known in format 2.
fn to_half<D: SectorDevice>(
    device: &mut D,
    known: &Known,
    target: &[u8],
) -> Result<HalfKnown, DeviceFault>
    requires formed { IsSlotFormed (D.disk device.old).sectors known.now }
    requires end { known.now.slot.number < number_end }
    requires half { known.now.slot.half ≡ 0 }
    requires between { FitsBetween known.now.slot.sectors known.now.slot.length }
    requires fits { length target.now ≤ half_capacity known.now.slot.sectors }
    ensures same { IsSame (D.disk device.old) (D.disk device.new) }
    ensures charges { Charges (D.disk device.old) (D.disk device.new) (downgrade_calls (length target.now)) result }
    ensures commit { IfOk result (λ half. half.commit ≡ commit_turned known.now.slot (length target.now)) }
    ensures knows { IfOk result (λ half. HalfKnows half (half_state_in (commit_turned known.now.slot (length target.now)) target.now)) }
    ensures any_moment { (c : Carried) → (D.disk device.old).honest → IsInSlots (D.disk device.old) known.now c → LeavesOnly (weak (D.disk device.old)) (weak (D.disk device.new)) (EitherCarried c (turned false 0 c target.now)) }
    ensures done { (c : Carried) → (D.disk device.old).honest → IsInSlots (D.disk device.old) known.now c → OnOk result ((image : Image) → (D.disk device.new).left image → CarriesInHalf (half_of (turned false 0 c target.now)) image) }
    ensures wiped { (D.disk device.old).honest → OnOk result ((image : Image) → (D.disk device.new).left image → HasNoSlots image) }
    ensures stays { (c : Carried) → (D.disk device.old).honest → IsInSlots (D.disk device.old) known.now c → bytes_in (D.disk device.new).seen (InSlots known.now None) ≡ c.bytes }
{
    let Slot {
        seq,
        opens,
        sectors,
        ..
    } = known.slot;
    let commit = Commit {
        format: FORMAT,
        half: 1,
        length: target.len() as u64,
        seq,
        opens,
        sectors,
    };
    settle_aside(device, half_start(sectors, 1), target)?;
    name_half(device, commit)?;
    wipe_slots(device)?;
    Ok(half_journal::recovered(commit, target))
}

// Writes the bytes from that sector on, which is after the slots, and settles them.
fn settle_aside<D: SectorDevice>(
    device: &mut D,
    first: u64,
    bytes: &[u8],
) -> Result<(), DeviceFault>
    requires room { first + sectors_of (length bytes.now) ≤ (D.disk device.old).sectors }
    requires most { (D.disk device.old).sectors ≤ 2 ^ 32 }
    requires behind { 128 ≤ first }
    ensures same { IsSame (D.disk device.old) (D.disk device.new) }
    ensures charges { Charges (D.disk device.old) (D.disk device.new) (sectors_of (length bytes.now) + 1) result }
    ensures stands { (torn : Option (List ℕ → Bool)) (number : ℕ) (c : State) → (D.disk device.old).honest → IsAside (D.disk device.old).sectors c first (sectors_of (length bytes.now))
        → ((image : Image) → (tearing_by torn (D.disk device.old)).left image → Stands number c image)
        → LeavesOnly (tearing_by torn (D.disk device.old)) (tearing_by torn (D.disk device.new)) (Stands number c) }
    ensures sector_0 { (torn : Option (List ℕ → Bool)) → (D.disk device.old).honest → LeavesFirst torn (D.disk device.old) (D.disk device.new) }
    ensures settled { (torn : List ℕ → Bool) → (D.disk device.old).honest → OnOk result ((image : Image) → (D.disk device.new).torn_left torn image → image ≡ (D.disk device.new).seen) }
    ensures written { (D.disk device.old).honest → OnOk result (SectorsHold (D.disk device.new).seen first (sectors_of (length bytes.now)) bytes.now) }
{
    let count = (bytes.len() as u64 + 511) / SECTOR_BYTES;
    write_aside(device, first, count, bytes)?;
    device.sync()
}

// Makes format 2 count: write 0, sync. Meanwhile sector 0 is as before or new, or torn, with others of its block.
fn name_half<D: SectorDevice>(device: &mut D, commit: Commit) -> Result<(), DeviceFault>
    requires { 0 < (D.disk device.old).sectors }
    ensures same { IsSame (D.disk device.old) (D.disk device.new) }
    ensures charges { Charges (D.disk device.old) (D.disk device.new) 2 result }
    ensures any_moment { (torn : List ℕ → Bool) → (D.disk device.old).honest → LeavesOnly (tearing torn (D.disk device.old)) (tearing torn (D.disk device.new))
        (OrTorn torn ((D.disk device.old).torn_left torn) 0 (sector_of commit)) }
    ensures done { (torn : List ℕ → Bool) → (D.disk device.old).honest → OnOk result ((image : Image) → (D.disk device.new).torn_left torn image → image ≡ slice_set (D.disk device.old).seen 0 (sector_of commit)) }
{
    device.write(0, &encode(commit))?;
    device.sync()
}

// Writes zeros over the slots, but for the block of sector 0, and settles them: so no slot is found if sector 0 is damaged
// later.
fn wipe_slots<D: SectorDevice>(device: &mut D) -> Result<(), DeviceFault>
    requires { 128 ≤ (D.disk device.old).sectors }
    ensures same { IsSame (D.disk device.old) (D.disk device.new) }
    ensures charges { Charges (D.disk device.old) (D.disk device.new) 121 result }
    ensures any_moment { (torn : List ℕ → Bool) → (D.disk device.old).honest → LeavesOnly (tearing torn (D.disk device.old)) (tearing torn (D.disk device.new))
        (OutsideSome ((D.disk device.old).torn_left torn) 8 120) }
    ensures wiped { (D.disk device.old).honest → OnOk result ((image : Image) → (D.disk device.new).left image → HasNoSlots image) }
{
    write_run(device, 8, 120, &[], &[])?;
    device.sync()
}
