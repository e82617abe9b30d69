//! Laws of the definitions. Each function does nothing: its contract is the law.

ghost use Rattle.std.specs.Prelude.{◌≡◌, Ok, true, List};
ghost use Rattle.doc_edits.specs.Edit.{Tokens};
ghost use Rattle.doc_edits.specs.Operation.{Operation};
ghost use Rattle.doc_patch.specs.Patch.{patch};
ghost use Rattle.doc_patch.specs.Touched.{leave};
ghost use Rattle.doc_patch.specs.Within.{KeepsBut, holds_all};
ghost use Rattle.doc_pointer.specs.Place.{resolve};
ghost use Rattle.doc_tree.specs.Doc.{Doc};

pub use doc_edits::laws::{
    added_value_is_there, addition_is_deep, new_item_adds, new_member_adds, removal_is_not_higher,
    removed_item_takes, removed_member_takes, replacement_is_deep,
    replacement_is_removal_then_addition, text_grows_as_the_child,
};

/// What no operation touches stays: a place that leads past the object or array which holds the
/// place of an addition, a removal, a move or a copy, and is apart from that of a replacement.
pub fn untouched_places_stay()
    ensures { (os : List Operation) (ks : Tokens) (d e : Doc) → leave os ks ≡ true → patch os d ≡ Ok e
        → resolve ks e ≡ resolve ks d }
{}

/// A patch changes a document only below a place that holds all that its operations reach.
pub fn patches_keep_all_but_one_place()
    ensures { (os : List Operation) (ts : Tokens) (d e : Doc) → holds_all ts os ≡ true → patch os d ≡ Ok e
        → KeepsBut ts d e }
{}
