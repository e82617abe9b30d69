//! The places at which one operation changed a document.
ghost use Rattle.std.specs.Prelude.{◌≡◌, Ok, IfNone, IfOk, IfSome, Some, map};
ghost use Rattle.doc_tree.specs.Doc.{Doc};
ghost use Rattle.doc_tree.specs.Place.{place_of};
ghost use Rattle.doc_tree.specs.TreeView.{view};
ghost use Rattle.doc_edits.specs.Change.{tokens_of};
ghost use Rattle.doc_edits.specs.Meaning.{meaning};
ghost use Rattle.doc_edits.specs.Operation.{change};
ghost use Rattle.patched_places.specs.Along.{end_places, places_along};
ghost use Rattle.patched_places.specs.Changed.{IsChangedAt};
ghost use Rattle.schema_changes.specs.Agree.{AgreeOff, AgreeOffEach};

use crate::changed::both_places;
use crate::ends::{End, end_of, ends_of_move};
use crate::places::{Changed, shift_steps};
use crate::shift::shift_of;
use crate::steps::with_steps;
use doc_edits::Operation;
use doc_patch::reach_of;
use doc_tree::{Step, Tree};
use std::alloc::{AllocError, Global};

/// What the operation changed in the document that it made. `None` if it changes nothing.
pub fn changed_by(
    operation: &Operation,
    made: &Tree,
    alloc: Global,
) -> Result<Option<Changed>, AllocError>
    ensures some { IfOk result (λ found. IfSome found (λ c. (before : Doc) → change (meaning operation.now) before ≡ Ok (view made.now) → IsChangedAt c before (view made.now))) }
    ensures none { IfOk result (λ found. IfNone found ((before : Doc) → change (meaning operation.now) before ≡ Ok (view made.now) → before ≡ view made.now)) }
{
    if let Some(shift) = shift_of(operation, made) {
        return Ok(Some(Changed::Shift(shift_steps(shift, made, alloc)?)));
    }
    if let Some(moved) = ends_of_move(operation, made) {
        return Ok(Some(Changed::Places(both_places(moved, made, alloc)?)));
    }
    match place_of_change(operation) {
        Some((place, end)) => Ok(Some(Changed::Places(one_place(place, end, made, alloc)?))),
        None => Ok(None),
    }
}

// The tokens that lead to what the operation changes, and the child at their end, if that alone comes or goes there.
fn place_of_change(operation: &Operation) -> Option<(&[String], Option<End<'_>>)>
    ensures some { IfSome result (λ p. (before made : Doc) → change (meaning operation.now) before ≡ Ok made
        → AgreeOff (places_along (end_places p.1) (tokens_of p.0.now) made) before made) }
    ensures none { IfNone result ((before made : Doc) → change (meaning operation.now) before ≡ Ok made → before ≡ made) }
{
    match end_of(operation) {
        Some((holder, end)) => Some((holder, Some(end))),
        None => match reach_of(operation) {
            Some(place) => Some((place, None)),
            None => None,
        },
    }
}

// The steps that lead there, as the only place.
fn one_place(
    tokens: &[String],
    end: Option<End>,
    made: &Tree,
    alloc: Global,
) -> Result<Vec<Vec<Step>>, AllocError>
    ensures { IfOk result (λ places. (before : Doc) → AgreeOff (places_along (end_places end.entry) (tokens_of tokens.now) (view made.now)) before (view made.now)
        → AgreeOffEach (map (λ p. map place_of p.items) places.items) before (view made.now)) }
{
    let steps = with_steps(Vec::new(alloc), tokens, end, made, alloc)?;
    let mut places = Vec::new(alloc);
    places.push(steps)?;
    Ok(places)
}
