//! Laws of the definitions. Each function does nothing: its contract is the law.

ghost use Rattle.std.specs.Prelude.{◌≡◌, ◌≤◌, ◌<◌, ◌+◌, ◌↔◌, ◌∷◌, Some, None, false, length, option_and_then, List, ℕ};
ghost use Rattle.json.specs.Print.{quoted};
ghost use Rattle.doc_edits.specs.Size.{size, comma_beside, comma_beside_members};
ghost use Rattle.doc_edits.specs.Edit as edit;
ghost use Rattle.doc_edits.specs.Edit.{Tokens, ends_in_dash};
ghost use Rattle.doc_edits.specs.declared.limits.TheConstants.{DOCUMENT_HEIGHT};
ghost use Rattle.doc_pointer.specs.Place.{child_named, resolve};
ghost use Rattle.doc_tree.specs.Doc.{Doc, height, Members, Elements, object, list, put, get_member, get_element};
ghost use Rattle.doc_tree.specs.Sound.{IsSound};

/// What was added is at its place, unless the place is the one after an array's last element (RFC 6902, section 4.1).
pub fn added_value_is_there()
    ensures { (path : Tokens) (v d e : Doc) → ends_in_dash path ≡ false → edit.add path v d ≡ Some e
        → resolve path e ≡ Some v }
{}

/// A replacement does what a removal and then an addition at the same place do (RFC 6902, section
/// 4.3).
pub fn replacement_is_removal_then_addition()
    ensures { (t : List ℕ) (ts : Tokens) (v d e : Doc) → IsSound d → edit.replace (t ∷ ts) v d ≡ Some e
        → option_and_then (edit.add (t ∷ ts) v) (edit.remove (t ∷ ts) d) ≡ Some e }
{}

/// An addition passes the limit of height exactly when the place's depth and the value's height do.
pub fn addition_is_deep()
    ensures { (path : Tokens) (v d e : Doc) → edit.add path v d ≡ Some e → height d ≤ DOCUMENT_HEIGHT
        → (DOCUMENT_HEIGHT < height e ↔ DOCUMENT_HEIGHT < length path + height v) }
{}

/// So does a replacement.
pub fn replacement_is_deep()
    ensures { (path : Tokens) (v d e : Doc) → edit.replace path v d ≡ Some e → height d ≤ DOCUMENT_HEIGHT
        → (DOCUMENT_HEIGHT < height e ↔ DOCUMENT_HEIGHT < length path + height v) }
{}

/// A removal makes no document higher.
pub fn removal_is_not_higher()
    ensures { (path : Tokens) (d e : Doc) → edit.remove path d ≡ Some e → height e ≤ height d }
{}

/// What a change of a child adds to its text and takes from it is what it adds to and takes from
/// the whole.
pub fn text_grows_as_the_child()
    ensures { (t : List ℕ) (v d old : Doc) → child_named t d ≡ Some old
        → (size (edit.with_child t v d) + size old ≡ size d + size v) × (size old ≤ size d) }
{}

/// A new member adds its name, a colon, its value, and a comma if there are others.
pub fn new_member_adds()
    ensures { (k : List ℕ) (v : Doc) (ms : Members) → get_member k ms ≡ None
        → size (object (put k v ms))
        ≡ size (object ms) + (length (quoted k) + 1) + size v + comma_beside_members ms }
{}

/// A member that goes takes its name, a colon, its value, and a comma if others stay.
pub fn removed_member_takes()
    ensures { (k : List ℕ) (old : Doc) (ms : Members) → get_member k ms ≡ Some old
        → size (object (edit.cut k ms)) + (length (quoted k) + 1) + size old + comma_beside_members (edit.cut k ms)
        ≡ size (object ms) }
{}

/// A new element adds its text, and a comma if there are others.
pub fn new_item_adds()
    ensures { (i : ℕ) (v : Doc) (ds es : Elements) → edit.insert_element i v ds ≡ Some es
        → size (list es) ≡ size (list ds) + size v + comma_beside ds }
{}

/// An element that goes takes its text, and a comma if others stay.
pub fn removed_item_takes()
    ensures { (i : ℕ) (old : Doc) (ds es : Elements) → edit.remove_element i ds ≡ Some es → get_element i ds ≡ Some old
        → size (list es) + size old + comma_beside es ≡ size (list ds) }
{}
