//! Laws of commits in slots. Each function does nothing: its contract is the law.
ghost use Rattle.std.specs.Prelude.{◌≡◌, ◌⊎◌, ◌+◌, ◌/◌, ◌<◌, ◌≤◌, List, ℕ, Bool, Option, length};
ghost use Rattle.sector_device.specs.Disk.{Image};
ghost use Rattle.commit_slots.specs.Slots.{Counts};
ghost use Rattle.commit_slots.specs.declared.slot.Slot.{Slot};
ghost use Rattle.slot_commits.specs.Damages.{HoldsCopy, IsDamaged, IsOneBlock, IsTold};
ghost use Rattle.slot_commits.specs.Finds.{IsNotice};
ghost use Rattle.slot_commits.specs.States.{CarriesInSlots, State, Stands};
ghost use Rattle.slot_commits.specs.declared.found.Notice.{Notice};
ghost use Rattle.slot_commits.specs.declared.found.Notice.TheVariants.{CutOff};

/// What an image carries is determined.
pub fn images_carry_one()
    ensures { (image : Image) (one other : State) → CarriesInSlots one image → CarriesInSlots other image → one ≡ other }
{}

/// An image with `Stands` carries that.
pub fn what_stands_is_carried()
    ensures { (number : ℕ) (c : State) (image : Image) → Stands number c image → CarriesInSlots c image }
{}

/// One aligned block of 4,096 bytes of an image with `Stands` is damaged: it carries the same or nothing.
pub fn one_block_is_told()
    ensures { (number block : ℕ) (c d : State) (before image : Image) → Stands number c before → IsDamaged before image → IsOneBlock block before image → IsTold c image
        → CarriesInSlots d image → d ≡ c }
{}

/// If that block is one of the slots, it carries the same.
pub fn slots_survive_one_block()
    ensures { (number block : ℕ) (c : State) (before image : Image) → Stands number c before → IsDamaged before image → IsOneBlock block before image → block < 16
        → CarriesInSlots c image }
{}

/// Whatever is damaged, an image carries something else only if both copies of the last commit are.
pub fn one_copy_is_enough()
    ensures { (number copy : ℕ) (c d : State) (before image : Image) → Stands number c before → IsDamaged before image → IsTold c image → copy ≤ 1 → HoldsCopy number c copy image
        → CarriesInSlots d image → d ≡ c }
{}

/// And if both are, the notice says that a commit was cut off.
pub fn an_earlier_commit_is_noticed()
    ensures { (number copy : ℕ) (c : State) (slot : Slot) (tail : List ℕ) (notice : Notice) (before image : Image) → Stands number c before → IsDamaged before image
        → ((place : ℕ) → place ≤ 1 → HoldsCopy number c place image → ⊥) → Counts slot tail copy image → IsNotice image slot tail notice → notice ≡ CutOff }
{}
