//! The steps to the place, or the places, below which a patch changed a document.
ghost use Rattle.std.specs.Prelude.{◌≡◌, Ok, IfNone, IfOk, IfSome, Some, map};
ghost use Rattle.doc_tree.specs.Doc.{Doc};
ghost use Rattle.doc_tree.specs.Place.{place_of};
ghost use Rattle.doc_tree.specs.TreeView.{view};
ghost use Rattle.doc_patch.specs.Meaning.{operations};
ghost use Rattle.doc_patch.specs.Patch.{patch};
ghost use Rattle.doc_patch.specs.Within.{Unchanging};
ghost use Rattle.doc_edits.specs.Change.{tokens_of};
ghost use Rattle.patched_places.specs.Along.{end_places, places_along};
ghost use Rattle.patched_places.specs.Moved.{moved_places};
ghost use Rattle.schema_changes.specs.Agree.{AgreeOff, AgreeOffEach};

use crate::ends::{End, Moved, end_of, ends_of_move};
use crate::steps::with_steps;
use doc_patch::Patch;
use doc_tree::{Step, Tree};
use std::alloc::{AllocError, Global};

/// The steps that lead, in the document which the patch made, to the place at and below which it differs from the one
/// before: none if that is the root. `None` if no operation changes anything. If one operation alone changes something,
/// and what it brings or takes leaves each other child at its place, that is the child's place; else it is what holds
/// all that they reach.
pub fn changed_steps(
    changes: &Patch,
    made: &Tree,
    alloc: Global,
) -> Result<Option<Vec<Step>>, AllocError>
    ensures some { IfOk result (λ found. IfSome found (λ steps. (before : Doc) → patch (operations changes.now) before ≡ Ok (view made.now)
        → AgreeOff (map place_of steps.items) before (view made.now))) }
    ensures none { IfOk result (λ found. IfNone found (Unchanging (operations changes.now))) }
{
    match changed_place(changes) {
        Some((place, end)) => {
            let steps = with_steps(Vec::new(alloc), place, end, made, alloc)?;
            Ok(Some(steps))
        }
        None => Ok(None),
    }
}

/// The steps to several places, in the document which the patch made: one after another, it changed the document at and
/// below each. `None` if no operation changes anything. They are both ends of a move, if neither holds the other and what
/// came left the way to what went; or else the one place of `changed_steps`.
pub fn changed_places(
    changes: &Patch,
    made: &Tree,
    alloc: Global,
) -> Result<Option<Vec<Vec<Step>>>, AllocError>
    ensures some { IfOk result (λ found. IfSome found (λ places. (before : Doc) → patch (operations changes.now) before ≡ Ok (view made.now)
        → AgreeOffEach (map (λ p. map place_of p.items) places.items) before (view made.now))) }
    ensures none { IfOk result (λ found. IfNone found (Unchanging (operations changes.now))) }
{
    if let Some(moved) = only_move(changes, made) {
        return Ok(Some(both_places(moved, made, alloc)?));
    }
    match changed_steps(changes, made, alloc)? {
        Some(steps) => {
            let mut places = Vec::new(alloc);
            places.push(steps)?;
            Ok(Some(places))
        }
        None => Ok(None),
    }
}

// The ends of the move which alone changes anything.
fn only_move<'t>(changes: &'t Patch, made: &Tree) -> Option<Moved<'t>>
    ensures { IfSome result (λ m. (before : Doc) → patch (operations changes.now) before ≡ Ok (view made.now) → AgreeOffEach (moved_places m (view made.now)) before (view made.now)) }
{
    let operation = changes.only_change()?;
    ends_of_move(operation, made)
}

/// The steps to what went, and to what came.
pub(crate) fn both_places(
    moved: Moved,
    made: &Tree,
    alloc: Global,
) -> Result<Vec<Vec<Step>>, AllocError>
    ensures { IfOk result (λ places. map (λ p. map place_of p.items) places.items ≡ moved_places moved.entry (view made.now)) }
{
    let gone = with_steps(Vec::new(alloc), moved.from, Some(moved.gone), made, alloc)?;
    let came = with_steps(Vec::new(alloc), moved.path, Some(moved.came), made, alloc)?;
    let mut places = Vec::new(alloc);
    places.push(gone)?;
    places.push(came)?;
    Ok(places)
}

// The tokens that lead to what the patch changes, and the child at their end, if that alone comes or goes there.
fn changed_place(changes: &Patch) -> Option<(&[String], Option<End<'_>>)>
    ensures some { IfSome result (λ p. (before made : Doc) → patch (operations changes.now) before ≡ Ok made
        → AgreeOff (places_along (end_places p.1) (tokens_of p.0.now) made) before made) }
    ensures none { IfNone result (Unchanging (operations changes.now)) }
{
    match changes.reach() {
        Some(reached) => match only_end(changes) {
            Some((holder, end)) => Some((holder, Some(end))),
            None => Some((reached, None)),
        },
        None => None,
    }
}

// The tokens of what holds the child that the one operation which changes anything brings or takes, and that child.
fn only_end(changes: &Patch) -> Option<(&[String], End<'_>)>
    ensures { IfSome result (λ p. (before made : Doc) → patch (operations changes.now) before ≡ Ok made
        → AgreeOff (places_along (end_places (Some p.1)) (tokens_of p.0.now) made) before made) }
{
    let operation = changes.only_change()?;
    end_of(operation)
}
