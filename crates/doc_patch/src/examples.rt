//! Examples: the answers of the definitions for small documents. Each function does nothing: its contract is the
//! example.

ghost use Rattle.std.specs.Prelude.{◌≡◌, [], ◌∷◌, Ok, Err, codes};
ghost use Rattle.doc_patch.specs.Examples.{first, add_and_test, added_and_tested, second, both_ends, second_after, too_far, third, third_after, into_itself};
ghost use Rattle.doc_edits.specs.Operation as op;
ghost use Rattle.doc_patch.specs.Patch.{patch, fault_at};
ghost use Rattle.doc_patch.specs.Reading.{operations_of, fault_of};
ghost use Rattle.refusals.specs.declared.numbers.TheConstants.{PATCH_SHAPE, PATCH_MISSING, PATCH_INTO_ITSELF, PATCH_TEST, PATCH_ROOT};

/// A failed test refuses the addition before it too, and is named.
pub fn a_failed_test_refuses_the_patch()
    ensures read { operations_of add_and_test ≡ Ok added_and_tested }
    ensures refused { patch added_and_tested first ≡ Err (fault_at PATCH_TEST 1) }
{}

/// An array takes elements from its beginning to its end, and none past it.
pub fn an_array_takes_elements_up_to_its_end()
    ensures both { patch both_ends second ≡ Ok second_after }
    ensures refused { patch too_far second_after ≡ Err (fault_at PATCH_MISSING 0) }
{}

/// A value is not moved into itself, but onto itself; the root is copied into the document, and
/// never removed.
pub fn a_value_and_its_own_places()
    ensures into_itself { operations_of into_itself ≡ Err (fault_at PATCH_INTO_ITSELF 0) }
    ensures same { patch (op.move (codes "a" ∷ []) (codes "a" ∷ []) ∷ []) third ≡ Ok third }
    ensures root { patch (op.remove [] ∷ []) third ≡ Err (fault_at PATCH_ROOT 0) }
    ensures copy { patch (op.copy [] (codes "x" ∷ []) ∷ []) third ≡ Ok third_after }
{}

/// A document that is no array is no patch.
pub fn an_object_is_no_patch()
    ensures { operations_of third ≡ Err (fault_of PATCH_SHAPE) }
{}
