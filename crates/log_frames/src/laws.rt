//! Laws of frames and logs. Each function does nothing: its contract is the law.
ghost use Rattle.std.specs.Prelude.{◌≡◌, ◌∷◌, ◌++◌, ◌↔◌, ℕ, List, [], IsTrue, Some, map};
ghost use Rattle.record_text.specs.Frame.{AreEntries, Entry, IsEntry, frame_of, frames_in};
ghost use Rattle.record_text.specs.declared.fault.RecordFault.{RecordFault};
ghost use Rattle.record_text.specs.declared.fault.RecordFault.TheVariants.{Memory};
ghost use Rattle.log_frames.specs.Fault.{IsFaultAs};
ghost use Rattle.log_frames.specs.Kinds.{BeginsAs, Logged, frame_as, frames_as, logged};
ghost use Rattle.log_frames.specs.Log.{HaveChanges, IsLog, Log, Transacted, entries_in, entries_in_frames, entries_of};
ghost use Rattle.log_frames.specs.Log.{log_bytes, logged_each, logged_of, logged_together, notes_in, notes_in_frames};
ghost use Rattle.log_frames.specs.Log.{notes_of, snapshot_log, with_transactions};
ghost use Rattle.log_frames.specs.Places.{Complete, Lead, OfLog, can_end, place_after};
ghost use Rattle.log_frames.specs.declared.kind.Kind.TheVariants.{Kept, Last, More, Noted};
ghost use Rattle.log_frames.specs.declared.place.Place.{Place};
ghost use Rattle.log_frames.specs.declared.place.Place.TheVariants.{Snapshot};

/// The frame of a change that ends its transaction is that of format 2.
pub fn last_frames_are_those_of_format_2()
    ensures one { (e : Entry) → frame_as (logged Last e) ≡ frame_of e }
    ensures each { (es : List Entry) → frames_as (map (logged Last) es) ≡ frames_in 2 es }
{}

/// Frames are distinguished whatever follows them.
pub fn frames_differ()
    ensures { (l m : Logged) (x y : List ℕ) → IsEntry 2 l.entry → IsEntry 2 m.entry
        → frame_as l ++ x ≡ frame_as m ++ y → (l ≡ m) × (x ≡ y) }
{}

/// The bytes determine the frames that they hold back to back.
pub fn frame_lists_differ()
    ensures { (ls ms : List Logged) → AreEntries 2 (entries_in_frames ls) → AreEntries 2 (notes_in_frames ls)
        → AreEntries 2 (entries_in_frames ms) → AreEntries 2 (notes_in_frames ms) → frames_as ls ≡ frames_as ms → ls ≡ ms }
{}

/// The bytes determine the log.
pub fn logs_differ()
    ensures { (log other : Log) → IsLog log → IsLog other → log_bytes log ≡ log_bytes other → log ≡ other }
{}

/// Bytes that begin with a frame have no fault.
pub fn frames_have_no_fault()
    ensures { (bytes : List ℕ) (l : Logged) (n : ℕ) (fault : RecordFault) → BeginsAs bytes l n → IsFaultAs fault bytes
        → fault ≡ Memory }
{}

/// What can be read from place to place, from a log's beginning to its end, are exactly the frames of a log.
pub fn complete_frames_are_those_of_a_log()
    ensures { (ls : List Logged) → Complete Snapshot ls ↔ OfLog ls }
{}

/// Frames are read one after another: after those that lead to a place, exactly those may come that may come there.
pub fn frames_lead_from_place_to_place()
    ensures after { (from to : Place) (ls ms : List Logged) → Lead from ls to → Complete from (ls ++ ms) → Complete to ms }
    ensures before { (from to : Place) (ls ms : List Logged) → Lead from ls to → Complete to ms → Complete from (ls ++ ms) }
    ensures ends { (from to : Place) (ls : List Logged) → Lead from ls to → IsTrue (can_end to) → Complete from ls }
    ensures one { (from mid to : Place) (ls : List Logged) (l : Logged) → Lead from ls mid
        → place_after mid l.kind ≡ Some to → Lead from (ls ++ l ∷ []) to }
{}

/// The entries of a log, and the marks among them, are those of its frames.
pub fn frames_of_a_log_hold_its_entries()
    ensures entries { (log : Log) → entries_in_frames (logged_of log) ≡ entries_of log }
    ensures notes { (log : Log) → notes_in_frames (logged_of log) ≡ notes_of log }
{}

/// Transactions are added to a log as their frames are to its bytes.
pub fn logs_grow_by_transactions()
    ensures bytes { (log : Log) (ts : List Transacted)
        → log_bytes (with_transactions log ts) ≡ log_bytes log ++ frames_as (logged_each ts) }
    ensures entries { (log : Log) (ts : List Transacted)
        → entries_of (with_transactions log ts) ≡ entries_of log ++ entries_in ts }
    ensures notes { (log : Log) (ts : List Transacted)
        → notes_of (with_transactions log ts) ≡ notes_of log ++ notes_in ts }
    ensures still { (log : Log) (ts : List Transacted) → IsLog log → AreEntries 2 (entries_in ts)
        → AreEntries 2 (notes_in ts) → HaveChanges ts → IsLog (with_transactions log ts) }
{}

/// A log of a snapshot alone has the frames of its marks and of its documents.
pub fn snapshots_are_logs()
    ensures bytes { (notes es : List Entry)
        → log_bytes (snapshot_log notes es) ≡ frames_as (map (logged Noted) notes) ++ frames_as (map (logged Kept) es) }
    ensures entries { (notes es : List Entry) → entries_of (snapshot_log notes es) ≡ es }
    ensures notes { (notes es : List Entry) → notes_of (snapshot_log notes es) ≡ notes }
    ensures still { (notes es : List Entry) → AreEntries 2 notes → AreEntries 2 es → IsLog (snapshot_log notes es) }
{}

/// Only the last frame of a transaction without a mark says that it is the last.
pub fn transactions_end_with_their_last_change()
    ensures { (es : List Entry) (e : Entry)
        → logged_together (es ++ e ∷ []) ≡ map (logged More) es ++ logged Last e ∷ [] }
{}
