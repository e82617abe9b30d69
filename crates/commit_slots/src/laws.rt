//! Laws of the slots. Each function does nothing: its contract is the law.
ghost use Rattle.std.specs.Prelude.{◌≡◌, ◌⊎◌, ◌+◌, List, ℕ, length};
ghost use Rattle.commit_slots.specs.Slots.{Counts, Image, IsHeld, IsSlotOf, slot_start};
ghost use Rattle.commit_slots.specs.Fresh.{IsCounted, IsFresh, MayTear};
ghost use Rattle.commit_slots.specs.declared.slot.Slot.{Slot};

/// Whatever a crash leaves of a commit that is written under a fresh number, torn sectors among it: the copy that
/// counted before counts, if it stays, or the new commit does, whole.
pub fn mixtures_do_not_count()
    ensures { (old new : Slot) (was tail : List ℕ) (p : ℕ) (before image : Image) → length image ≡ length before → IsSlotOf (length before) new tail → IsFresh new.number before
        → MayTear new tail before image → Counts old was p before → IsHeld old was (slot_start old.number p) image → Counts old was p image ⊎ IsCounted new tail image }
{}

/// The number after it is fresh then.
pub fn numbers_rise()
    ensures { (new : Slot) (tail : List ℕ) (before image : Image) → length image ≡ length before → IsSlotOf (length before) new tail → IsFresh new.number before
        → MayTear new tail before image → IsFresh (new.number + 1) image }
{}

/// The copy that counts is determined.
pub fn one_copy_counts()
    ensures { (image : Image) (one other : Slot) (tail rest : List ℕ) (p q : ℕ) → Counts one tail p image → Counts other rest q image → (one ≡ other) × (tail ≡ rest) × (p ≡ q) }
{}
