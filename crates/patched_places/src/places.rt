//! The places at which a patch changed a document, or the element that it put between others or took from there.
ghost use Rattle.std.specs.Prelude.{◌≡◌, ◌++◌, [], ◌∷◌, None, Ok, IfNone, IfOk, IfSome, map};
ghost use Rattle.doc_tree.specs.Doc.{Doc, index};
ghost use Rattle.doc_tree.specs.Place.{place_of};
ghost use Rattle.doc_tree.specs.TreeView.{view};
ghost use Rattle.doc_patch.specs.Meaning.{operations};
ghost use Rattle.doc_patch.specs.Patch.{patch};
ghost use Rattle.doc_patch.specs.Within.{Unchanging};
ghost use Rattle.doc_edits.specs.Change.{tokens_of};
ghost use Rattle.patched_places.specs.Along.{end_places, places_along};
ghost use Rattle.patched_places.specs.Changed.{IsChangedAt};
ghost use Rattle.schema_changes.specs.Agree.{AgreeButShifted};

use crate::changed::changed_places;
use crate::shift::{Shift, shift_of};
use crate::steps::with_steps;
use doc_patch::Patch;
use doc_tree::{Step, Tree};
use std::alloc::{AllocError, Global};

/// What a patch changed, in steps through the document that it made.
#[derive(Drop)]
pub enum Changed {
    /// At and below each of these places, one after another.
    Places(Vec<Vec<Step>>),
    /// An element came to the end of these steps, or went from there, between others.
    Shift(Vec<Step>),
}

/// What the patch changed in the document. `None` if no operation changes anything.
pub fn changed_at(
    changes: &Patch,
    made: &Tree,
    alloc: Global,
) -> Result<Option<Changed>, AllocError>
    ensures some { IfOk result (λ found. IfSome found (λ c. (before : Doc) → patch (operations changes.now) before ≡ Ok (view made.now) → IsChangedAt c before (view made.now))) }
    ensures none { IfOk result (λ found. IfNone found (Unchanging (operations changes.now))) }
{
    if let Some(shift) = only_shift(changes, made) {
        return Ok(Some(Changed::Shift(shift_steps(shift, made, alloc)?)));
    }
    match changed_places(changes, made, alloc)? {
        Some(places) => Ok(Some(Changed::Places(places))),
        None => Ok(None),
    }
}

// The list that the one operation which changes anything shifts.
fn only_shift<'t>(changes: &'t Patch, made: &Tree) -> Option<Shift<'t>>
    ensures { IfSome result (λ s. (before : Doc) → patch (operations changes.now) before ≡ Ok (view made.now)
        → AgreeButShifted (places_along (end_places None) (tokens_of s.holder.now) (view made.now) ++ index s.index ∷ []) before (view made.now)) }
{
    let operation = changes.only_change()?;
    shift_of(operation, made)
}

/// The steps to the list, and to the index in it.
pub(crate) fn shift_steps(shift: Shift, made: &Tree, alloc: Global) -> Result<Vec<Step>, AllocError>
    ensures { IfOk result (λ v. map place_of v.items ≡ places_along (end_places None) (tokens_of shift.entry.holder.now) (view made.now) ++ index shift.entry.index ∷ []) }
{
    let mut steps = with_steps(Vec::new(alloc), shift.holder, None, made, alloc)?;
    steps.push(Step::Index(shift.index))?;
    Ok(steps)
}
