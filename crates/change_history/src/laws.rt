//! Laws of the definitions. Each function does nothing: its contract is the law.
ghost use Rattle.std.specs.Prelude.{◌≡◌, ◌<◌, ◌≤◌, ◌++◌, ℕ, List, None, Some};
ghost use Rattle.change_history.specs.Follows.{Follows, IsFirst, IsNewest};
ghost use Rattle.change_history.specs.History.{bytes_of, first_within, newest, since, trimmed, with_each, History, Rises, Told};

/// The newest transactions are kept, as many as have no more bytes than the limit.
pub fn the_newest_are_kept()
    ensures { (limit floor : ℕ) (told : List Told) → IsNewest limit floor told (trimmed limit floor told) }
{}

/// Transactions that come one after another leave what they would leave if they came all at once.
pub fn one_at_a_time_is_all_at_once()
    ensures { (h : History) (more : List Told) → bytes_of h.told ≤ h.limit → with_each h more ≡ trimmed h.limit h.floor (h.told ++ more) }
{}

/// What is answered follows the change, and none between is left out; what follows a change is answered, and its
/// numbers rise from that change on.
pub fn what_follows_is_answered()
    ensures follows { (floor : ℕ) (told : List Told) (from : ℕ) (rest : List Told) → since floor told from ≡ Some rest → Follows floor told from rest }
    ensures answered { (floor : ℕ) (told : List Told) (from : ℕ) (rest : List Told) → Rises floor told → Follows floor told from rest → since floor told from ≡ Some rest }
    ensures rises { (floor : ℕ) (told : List Told) (from : ℕ) (rest : List Told) → Rises floor told → Follows floor told from rest → Rises from rest }
{}

/// That the oldest go changes no answer but those to numbers below the new floor: what follows these is gone.
pub fn what_is_forgotten_is_gone()
    ensures gone { (limit floor : ℕ) (told : List Told) (from : ℕ) → Rises floor told → let h = trimmed limit floor told in from < h.floor → since h.floor h.told from ≡ None }
    ensures same { (limit floor : ℕ) (told : List Told) (from : ℕ) → Rises floor told → let h = trimmed limit floor told in h.floor ≤ from → since h.floor h.told from ≡ since floor told from }
{}

/// All that are kept come after the floor.
pub fn all_follow_the_floor()
    ensures { (floor : ℕ) (told : List Told) → since floor told floor ≡ Some told }
{}

/// At once the first are answered, as many as have no more bytes, and one at least; all, if they have no more.
pub fn the_first_are_told()
    ensures first { (most : ℕ) (told : List Told) → IsFirst most told (first_within most told) }
    ensures all { (most : ℕ) (told : List Told) → bytes_of told ≤ most → first_within most told ≡ told }
{}

/// Who asks again from the last number that was answered gets the rest.
pub fn the_rest_follows_the_first()
    ensures { (floor : ℕ) (told : List Told) (from : ℕ) (first rest : List Told) → Rises floor told → since floor told from ≡ Some (first ++ rest)
        → since floor told (newest from first) ≡ Some rest }
{}
