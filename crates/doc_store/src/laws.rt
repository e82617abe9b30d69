//! Laws of the definitions. Each function does nothing: its contract is the law.
ghost use Rattle.std.specs.Prelude.{◌≡◌, ◌⊎◌, ℕ, List, [], ◌++◌};
ghost use Rattle.sector_device.specs.Disk.{Image};
ghost use Rattle.slot_commits.specs.declared.found.Notice.{Notice};
ghost use Rattle.slot_commits.specs.declared.found.Notice.TheVariants.{CutOff};
ghost use Rattle.store_journal.specs.Damages.{IsNoticedDamage, LostBothCopies, StandsRiding};
ghost use Rattle.doc_changes.specs.State.{State, Good};
ghost use Rattle.doc_store.specs.Promise.{KeepsPromise};
ghost use Rattle.store_commits.specs.Account.{IsStanding, StoreView};
ghost use Rattle.store_commits.specs.Events.{dones_of, hits_of};
ghost use Rattle.store_commits.specs.Run.{Event, Ran};
ghost use Rattle.store_commits.specs.declared.event.Reply.{Reply};
ghost use Rattle.doc_store.specs.Opening.{CopiesOpenAlike};
ghost use Rattle.store_commits.specs.Snapshot.{RemakesAll};
ghost use Rattle.store_commits.specs.Images.{HoldsOne, Stands, StandsForOne};
ghost use Rattle.doc_store.specs.Strict.{IsSaidOf};

use sector_device::SectorDevice;
use store_commits::laws;

/// Bytes of a format and a seq hold one list of documents at most, and an image of a device holds one state at most.
pub fn one_state_stands()
    ensures bytes { HoldsOne }
    ensures images { StandsForOne }
{
    laws::one_state_stands();
}

/// A run that goes on from where a run ended is one run, and one of no events is a run.
pub fn runs_join<D: SectorDevice>()
    ensures none { (x : StoreView D) → IsStanding (D.disk x.device) x.account → Ran D.disk x x [] [] }
    ensures joined { (x y z : StoreView D) (es fs : List Event) (rs qs : List Reply)
        → Ran D.disk x y es rs → Ran D.disk y z fs qs → Ran D.disk x z (es ++ fs) (rs ++ qs) }
{}

/// What a call that made a run keeps of the promise.
pub fn runs_keep_the_promise<D: SectorDevice>()
    ensures none { (x : StoreView D) → IsStanding (D.disk x.device) x.account → KeepsPromise D.disk x x [] [] }
    ensures runs { (x y : StoreView D) (es : List Event) (rs : List Reply) → Ran D.disk x y es rs
        → KeepsPromise D.disk x y (dones_of es rs) (hits_of es rs) }
{}

/// The snapshot of a good state makes its documents from none, in their order and with their revisions.
pub fn snapshots_remake_all()
    ensures { (s : State) → Good s → RemakesAll s }
{
    laws::snapshots_remake_all();
}

/// A copy of a store, whenever it is opened, gives the same documents, with their schemas and revisions, in their order, and
/// the same number of accepted changes, in the format of the copy; and it counts one opening more than the store had.
pub fn copies_open_alike()
    ensures { CopiesOpenAlike }
{
    one_state_stands();
}

/// Damage at rest of a store in format 3: what is found then is the same state, unless both copies of the last commit are
/// lost, and then it is said that a commit was cut off.
pub fn damage_is_told()
    ensures { (number blocks : ℕ) (state other : State) (notice : Notice) (before image : Image) (stands : Stands state before) → StandsRiding number blocks stands.carried before
        → IsNoticedDamage blocks stands.carried before image → Stands other image → IsSaidOf image notice
        → (other ≡ state) ⊎ ((notice ≡ CutOff) × LostBothCopies number blocks stands.carried image) }
{}
