//! Laws of the definitions. Each function does nothing: its contract is the law.

ghost use Rattle.std.specs.Prelude.{◌≡◌, ◌↔◌, ℕ, List, ◌++◌, option_and_then, codes, Some, None};
ghost use Rattle.doc_pointer.specs.Place.{child_named, resolve};
ghost use Rattle.doc_pointer.specs.Reading.{pointer_of};
ghost use Rattle.doc_pointer.specs.Text.{pointer_text};
ghost use Rattle.doc_tree.specs.Doc.{Doc, Elements, list};

/// Two lists of tokens never share a text.
pub fn texts_differ()
    ensures { (ks ls : List (List ℕ)) → pointer_text ks ≡ pointer_text ls → ks ≡ ls }
{}

/// What `pointer_of` reads is what `pointer_text` writes. If it reads nothing, no list of tokens has the text.
pub fn reads_what_is_written()
    ensures { (text : List ℕ) (ks : List (List ℕ)) → (pointer_of text ≡ Some ks) ↔ (pointer_text ks ≡ text) }
{}

/// A pointer goes on from the value that its first tokens lead to.
pub fn resolves_step_by_step()
    ensures { (ks ls : List (List ℕ)) (d : Doc) → resolve (ks ++ ls) d ≡ option_and_then (resolve ls) (resolve ks d) }
{}

/// `-` names no element that is there (RFC 6901, section 4).
pub fn dash_names_no_element()
    ensures { (ds : Elements) → child_named (codes "-") (list ds) ≡ None }
{}
