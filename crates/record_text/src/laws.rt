//! Laws of the definitions. Each function does nothing: its contract is the law.
ghost use Rattle.std.specs.Prelude.{◌≡◌, ◌++◌, ℕ, List};
ghost use Rattle.record_text.specs.Change.{Change, object_of};
ghost use Rattle.record_text.specs.Fault.{IsReadFault, IsReadFault_1};
ghost use Rattle.record_text.specs.Frame.{AreDated, AreEntries, BeginsWith, BeginsWith_1, Entry, IsEntry, IsFramed};
ghost use Rattle.record_text.specs.Frame.{frame_of, frame_1_of, frames_in};
ghost use Rattle.record_text.specs.Parts.{HasSmallParts};
ghost use Rattle.record_text.specs.declared.fault.RecordFault.{RecordFault};
ghost use Rattle.record_text.specs.declared.fault.RecordFault.TheVariants.{Memory};

/// Frames of one format are distinguished whatever follows them.
pub fn frames_differ()
    ensures format_2 { (e f : Entry) (x y : List ℕ) → IsEntry 2 e → IsEntry 2 f
        → frame_of e ++ x ≡ frame_of f ++ y → (e ≡ f) × (x ≡ y) }
    ensures format_1 { (c d : Change) (x y : List ℕ) → IsFramed c → IsFramed d
        → frame_1_of c ++ x ≡ frame_1_of d ++ y → (c ≡ d) × (x ≡ y) }
{}

/// The bytes determine the entries whose frames of one format they hold back to back, in format 1 entries of one seq.
pub fn frame_lists_differ()
    ensures { (version seq : ℕ) (es fs : List Entry) → AreEntries version es → AreEntries version fs
        → (version ≡ 1 → AreDated seq es) → (version ≡ 1 → AreDated seq fs)
        → frames_in version es ≡ frames_in version fs → es ≡ fs }
{}

/// A change has an object of its own.
pub fn objects_differ()
    ensures { (c d : Change) → object_of c ≡ object_of d → c ≡ d }
{}

/// Bytes that begin with a frame have no fault.
pub fn frames_have_no_fault()
    ensures format_2 { (bytes : List ℕ) (e : Entry) (n : ℕ) (fault : RecordFault) → BeginsWith bytes e n
        → IsReadFault fault bytes → fault ≡ Memory }
    ensures format_1 { (bytes : List ℕ) (c : Change) (n : ℕ) (fault : RecordFault) → BeginsWith_1 bytes c n
        → IsReadFault_1 fault bytes → fault ≡ Memory }
{}

/// A frame holds each change whose parts are small.
pub fn changes_of_small_parts_are_framed()
    ensures { (c : Change) → HasSmallParts c → IsFramed c }
{}
