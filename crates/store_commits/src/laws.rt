//! Laws of the definitions. Each function does nothing: its contract is the law.
ghost use Rattle.std.specs.Prelude.{◌≡◌, ◌++◌, ℕ, Bool, List, None, false};
ghost use Rattle.sector_device.specs.Disk.{Image};
ghost use Rattle.store_journal.specs.Carries.{Carried, EitherCarried, migrated};
ghost use Rattle.record_text.specs.Change.{Change};
ghost use Rattle.record_text.specs.Frame.{IsFramed, entry, frame_of};
ghost use Rattle.log_frames.specs.Kinds.{note};
ghost use Rattle.schema_rules.specs.declared.profile.Profile.{Profile};
ghost use Rattle.schema_rules.specs.declared.profile.Profile.TheVariants.{Three, Two};
ghost use Rattle.doc_changes.specs.Marks.{IsMark, Mark};
ghost use Rattle.doc_changes.specs.State.{Document, State, Good};
ghost use Rattle.doc_changes.specs.Step.{after, refusal_of};
ghost use Rattle.store_commits.specs.Snapshot.{RemakesAll, snapshot_bytes};
ghost use Rattle.doc_machine.specs.Transaction.{AreFramed, AreGood, IsNoted, Transaction, after_in, changes_of, refusal_in};
ghost use Rattle.store_commits.specs.Folds.{frames_of, mark_after};
ghost use Rattle.store_commits.specs.Images.{Holds, HoldsOne, Stands, StandsForOne, profile_in, version_of_frames};

use doc_machine::laws::{earlier_profiles_stay, storable_documents_are_framed};
use log_frames::laws::{last_frames_are_those_of_format_2, logs_differ};
use record_text::laws::frame_lists_differ;
use store_journal::laws::images_carry_one;

/// Bytes of a format and a seq hold, in a profile, one list of documents at most and one of marks, and an image of a
/// device holds one state at most.
pub fn one_state_stands()
    ensures bytes { HoldsOne }
    ensures images { StandsForOne }
{
    frame_lists_differ();
    logs_differ();
    images_carry_one();
}

/// A journal can hold each mark that a state may have.
pub fn marks_are_framed()
    ensures { (m : Mark) → IsMark m → IsFramed (note m.key m.value) }
{}

/// The snapshot of a good state makes its documents from none, in their order and with their revisions, and its marks.
pub fn snapshots_remake_all()
    ensures { (s : State) → Good s → RemakesAll s }
{
    storable_documents_are_framed();
}

/// After bytes that hold a state in format 2 or 3, the frame of an accepted change, with its new seq, holds the state
/// after it.
pub fn changes_are_appended()
    ensures { (rides : Bool) (s : State) (bytes : List ℕ) (c : Change) → Good s
        → Holds s.profile (version_of_frames rides 2) s.seq bytes s.documents s.marks → refusal_of s c ≡ None → IsFramed c
        → Holds s.profile (version_of_frames rides 2) (after s c).seq (bytes ++ frame_of (entry (after s c).seq c)) (after s c).documents (after s c).marks }
{
    last_frames_are_those_of_format_2();
}

/// After bytes that hold a state in the format of its profile, the frames of an accepted transaction, with its mark,
/// hold the state after it.
pub fn transactions_are_appended()
    ensures { (rides : Bool) (s : State) (bytes : List ℕ) (t : Transaction) → profile_in rides ≡ s.profile
        → Holds s.profile (version_of_frames rides 2) s.seq bytes s.documents s.marks → refusal_in s t ≡ None
        → AreFramed (changes_of t) → IsNoted (mark_after s.seq t) → AreGood s (changes_of t)
        → Holds (after_in s t).profile (version_of_frames rides 2) (after_in s t).seq
        (bytes ++ frames_of rides s.seq t) (after_in s t).documents (after_in s t).marks }
{}

/// While bytes that hold a state are migrated to its snapshot, each image holds the state: its documents with their
/// revisions, and its seq. It has no marks.
pub fn migrations_stand()
    ensures { (state : State) (was : Carried) → was.seq ≡ state.seq → was.rides ≡ false → state.profile ≡ Two
        → Holds state.profile was.version was.seq was.bytes state.documents state.marks → RemakesAll state
        → (image : Image) → EitherCarried was (migrated was (snapshot_bytes false state.documents state.marks)) image → Stands state image }
{}

/// Bytes that hold documents with schemas of a profile, and marks, hold them with schemas of profile 3.
pub fn holdings_of_earlier_profiles_stay()
    ensures { (profile : Profile) (version seq : ℕ) (bytes : List ℕ) (documents : List Document) (marks : List Mark)
        → Holds profile version seq bytes documents marks → Holds Three version seq bytes documents marks }
{
    earlier_profiles_stay();
}
