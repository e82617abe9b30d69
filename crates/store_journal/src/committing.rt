//! The commits of a journal, by its format.
ghost use Rattle.std.specs.Prelude.{◌≡◌, ◌<◌, ◌≤◌, ◌+◌, ◌-◌, ◌^◌, ◌++◌, ℕ, OnOk, OnErr, false, true, length, take};
ghost use Rattle.sector_device.specs.Disk.{Image, LeavesOnly};
ghost use Rattle.sector_device.specs.Charges.{Charges, IsSame};
ghost use Rattle.sector_device.specs.Sectors.{Over, SectorsHold, sectors_of};
ghost use Rattle.half_journal.specs.Writes.{EndsInZeros};
ghost use Rattle.slot_commits.specs.Loads.{number_end};
ghost use Rattle.store_journal.specs.Carries.{Carried, Carries, appended, counted, migrated, replaced};
ghost use Rattle.store_journal.specs.Held.{IsFormed, IsOf, SparesOther, Tried, numbers_after, numbers_of, other_bytes};
ghost use Rattle.half_journal.specs.States.{one_more};
ghost use Rattle.store_journal.specs.Layout.{capacity_of, half_start};
ghost use Rattle.store_journal.specs.Models.{model};
ghost use Rattle.store_journal.specs.Writes.{append_calls, count_calls, switch_calls};

use crate::counting::count_in_slots;
use crate::held::Held;
use half_journal::layout::FORMAT;
use half_journal::{Base, Update};
use sector_device::{DeviceFault, SectorDevice};

/// Puts `bytes` after the committed ones, and raises seq by `adds`. `Err`: a call of the device failed, and none was made
/// after it. The same holds of the calls below.
pub fn append<D: SectorDevice>(
    device: &mut D,
    held: &mut Held,
    bytes: &[u8],
    adds: u64,
) -> Result<(), DeviceFault>
    requires formed { IsFormed (D.disk device.old).sectors held.old }
    requires settled { (numbers_of held.old).settled ≡ true }
    requires fits { (numbers_of held.old).used + length bytes.now ≤ capacity_of (numbers_of held.old).rides (numbers_of held.old).sectors }
    requires seq { (numbers_of held.old).seq + adds < 2 ^ 64 }
    requires number { (numbers_of held.old).next < number_end }
    ensures same { IsSame (D.disk device.old) (D.disk device.new) }
    ensures charges { Charges (D.disk device.old) (D.disk device.new) (append_calls (numbers_of held.old).rides (numbers_of held.old).used (length bytes.now)) result }
    ensures formed { IsFormed (D.disk device.new).sectors held.new }
    ensures numbers { OnOk result (numbers_of held.new ≡ numbers_after (numbers_of held.old) (numbers_of held.old).version (numbers_of held.old).half
        ((numbers_of held.old).used + length bytes.now) ((numbers_of held.old).seq + adds) (numbers_of held.old).opens (numbers_of held.new).blocks) }
    ensures stays { OnErr result (numbers_of held.new ≡ numbers_of held.old) }
    ensures tried { (c : Carried) → (D.disk device.old).honest → IsOf (D.disk device.old) held.old c → Tried (D.disk device.old) (D.disk device.new) held.new c (appended c bytes.now adds) result }
    ensures others { (D.disk device.old).honest → SparesOther held.old (D.disk device.old).seen (D.disk device.new).seen }
    ensures zeros { (c : Carried) → (D.disk device.old).honest → IsOf (D.disk device.old) held.old c → c.rides ≡ false
        → OnOk result ((image : Image) → (D.disk device.new).left image → EndsInZeros c.half (c.bytes ++ bytes.now) (length c.bytes) image) }
{
    match held {
        Held::InHalf(known) => {
            let update = Update {
                base: Base::Kept,
                frames: bytes,
                adds,
                counts_opening: false,
            };
            half_journal::commit(device, known, update)
        }
        Held::InSlots { known, .. } => {
            let opens = known.slot.opens;
            slot_journal::append(device, known, bytes, adds, opens)
        }
    }
}

/// Counts an opening.
pub fn count_open<D: SectorDevice>(device: &mut D, held: &mut Held) -> Result<(), DeviceFault>
    requires formed { IsFormed (D.disk device.old).sectors held.old }
    requires number { (numbers_of held.old).next < number_end }
    ensures same { IsSame (D.disk device.old) (D.disk device.new) }
    ensures charges { Charges (D.disk device.old) (D.disk device.new) (count_calls (numbers_of held.old).rides (numbers_of held.old).settled (numbers_of held.old).used (numbers_of held.old).blocks) result }
    ensures formed { IsFormed (D.disk device.new).sectors held.new }
    ensures numbers { OnOk result (numbers_of held.new ≡ numbers_after (numbers_of held.old) (numbers_of held.old).version (numbers_of held.old).half
        (numbers_of held.old).used (numbers_of held.old).seq (one_more (numbers_of held.old).opens) (numbers_of held.new).blocks) }
    ensures stays { OnErr result (numbers_of held.new ≡ numbers_of held.old) }
    ensures tried { (c : Carried) → (D.disk device.old).honest → IsOf (D.disk device.old) held.old c → Tried (D.disk device.old) (D.disk device.new) held.new c (counted c) result }
    ensures others { (D.disk device.old).honest → (numbers_of held.old).settled ≡ true → SparesOther held.old (D.disk device.old).seen (D.disk device.new).seen }
{
    match held {
        Held::InHalf(known) => {
            // The prover learns the range of seq.
            let _seq = known.commit.seq;
            let update = Update {
                base: Base::Kept,
                frames: &[],
                adds: 0,
                counts_opening: true,
            };
            half_journal::commit(device, known, update)
        }
        Held::InSlots { known, awaits } => count_in_slots(device, known, awaits),
    }
}

/// Makes the other half, which begins with `target`, the one that counts, and raises seq by `adds`.
pub fn switch<D: SectorDevice>(
    device: &mut D,
    held: &mut Held,
    target: &[u8],
    adds: u64,
) -> Result<(), DeviceFault>
    requires formed { IsFormed (D.disk device.old).sectors held.old }
    requires settled { (numbers_of held.old).settled ≡ true }
    requires fits { length target.now ≤ capacity_of (numbers_of held.old).rides (numbers_of held.old).sectors }
    requires seq { (numbers_of held.old).seq + adds < 2 ^ 64 }
    requires number { (numbers_of held.old).next < number_end }
    ensures same { IsSame (D.disk device.old) (D.disk device.new) }
    ensures charges { Charges (D.disk device.old) (D.disk device.new) (switch_calls (numbers_of held.old).rides (length target.now)) result }
    ensures formed { IsFormed (D.disk device.new).sectors held.new }
    ensures numbers { OnOk result (numbers_of held.new ≡ numbers_after (numbers_of held.old) (numbers_of held.old).version (1 - (numbers_of held.old).half)
        (length target.now) ((numbers_of held.old).seq + adds) (numbers_of held.old).opens (numbers_of held.new).blocks) }
    ensures stays { OnErr result (numbers_of held.new ≡ numbers_of held.old) }
    ensures tried { (c : Carried) (n : ℕ) → (D.disk device.old).honest → IsOf (D.disk device.old) held.old c → take (length target.now) (other_bytes (D.disk device.old).seen held.old n) ≡ target.now
        → Tried (D.disk device.old) (D.disk device.new) held.new c (replaced c target.now adds) result }
    ensures others { (D.disk device.old).honest → OnErr result (SparesOther held.old (D.disk device.old).seen (D.disk device.new).seen) }
{
    match held {
        Held::InHalf(known) => {
            let version = known.commit.format;
            let update = Update {
                base: Base::Copied { target, version },
                frames: &[],
                adds,
                counts_opening: false,
            };
            half_journal::commit(device, known, update)
        }
        Held::InSlots { known, .. } => slot_journal::switch(device, known, target, adds),
    }
}

/// Writes `target` into the other half of a journal in format 1 or 2, makes that the one that counts, in format 2, and
/// counts an opening.
pub fn migrate<D: SectorDevice>(
    device: &mut D,
    held: &mut Held,
    target: &[u8],
) -> Result<(), DeviceFault>
    requires plain { (numbers_of held.old).rides ≡ false }
    requires formed { IsFormed (D.disk device.old).sectors held.old }
    requires fits { length target.now ≤ capacity_of false (numbers_of held.old).sectors }
    ensures same { IsSame (D.disk device.old) (D.disk device.new) }
    ensures charges { Charges (D.disk device.old) (D.disk device.new) (sectors_of (length target.now) + 3) result }
    ensures formed { IsFormed (D.disk device.new).sectors held.new }
    ensures numbers { OnOk result (numbers_of held.new ≡ numbers_after (numbers_of held.old) 2 (1 - (numbers_of held.old).half)
        (length target.now) (numbers_of held.old).seq (one_more (numbers_of held.old).opens) 0) }
    ensures stays { OnErr result (numbers_of held.new ≡ numbers_of held.old) }
    ensures tried { (c : Carried) → (D.disk device.old).honest → IsOf (D.disk device.old) held.old c → Tried (D.disk device.old) (D.disk device.new) held.new c (migrated c target.now) result }
{
    match held {
        Held::InHalf(known) => {
            // The prover learns the range of seq.
            let _seq = known.commit.seq;
            let update = Update {
                base: Base::Written {
                    target,
                    version: FORMAT,
                },
                frames: &[],
                adds: 0,
                counts_opening: true,
            };
            half_journal::commit(device, known, update)
        }
        Held::InSlots { .. } => unreachable!(),
    }
}

/// Writes `count` sectors of the half that doesn't count, from its sector `place` on, with the bytes, and zeros after them.
pub fn write_copy<D: SectorDevice>(
    device: &mut D,
    held: &Held,
    place: u64,
    count: u64,
    bytes: &[u8],
) -> Result<(), DeviceFault>
    requires formed { IsFormed (D.disk device.old).sectors held.now }
    requires settled { (numbers_of held.now).settled ≡ true }
    requires room { place + count ≤ sectors_of (capacity_of (numbers_of held.now).rides (numbers_of held.now).sectors) }
    ensures same { IsSame (D.disk device.old) (D.disk device.new) }
    ensures charges { Charges (D.disk device.old) (D.disk device.new) count result }
    ensures carries { (c : Carried) → (D.disk device.old).honest → IsOf (D.disk device.old) held.now c → LeavesOnly (model c.rides (D.disk device.old)) (model c.rides (D.disk device.new)) (Carries c) }
    ensures still { (c : Carried) → (D.disk device.old).honest → IsOf (D.disk device.old) held.now c → IsOf (D.disk device.new) held.now c }
    ensures seen { (D.disk device.old).honest → Over (half_start (numbers_of held.now).rides (numbers_of held.now).sectors (1 - (numbers_of held.now).half) + place) count bytes.now (D.disk device.old).seen (D.disk device.new).seen }
    ensures written { (D.disk device.old).honest → OnOk result (SectorsHold (D.disk device.new).seen (half_start (numbers_of held.now).rides (numbers_of held.now).sectors (1 - (numbers_of held.now).half) + place) count bytes.now) }
{
    match held {
        Held::InHalf(known) => half_journal::write_copy(device, known, place, count, bytes),
        Held::InSlots { known, .. } => slot_journal::write_copy(device, known, place, count, bytes),
    }
}
