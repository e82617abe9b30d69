//! The knowledge of a document on the way through a patch.
ghost use Rattle.std.specs.Prelude.{◌≡◌, IfOk, Ok, map, true};
ghost use Rattle.doc_tree.specs.Doc.{Doc};
ghost use Rattle.doc_tree.specs.Place.{place_of};
ghost use Rattle.doc_tree.specs.TreeView.{view};
ghost use Rattle.doc_edits.specs.Meaning.{meaning};
ghost use Rattle.doc_edits.specs.Operation.{change};
ghost use Rattle.doc_patch.specs.Meaning.{operations};
ghost use Rattle.doc_patch.specs.Patch.{patch};
ghost use Rattle.doc_schema.specs.Judge.{Judges};
ghost use Rattle.schema_changes.specs.Agree.{AgreeButShifted, AgreeOffEach};
ghost use Rattle.judged_patches.specs.Known.{AgreesWithValid, IsKnownOf, locations};

use crate::judging::{accepts_changes, accepts_patched, accepts_shift};
use doc_edits::Operation;
use doc_patch::Patch;
use doc_schema::Schema;
use doc_tree::{Step, Tree};
use patched_places::{Changed, changed_by};
use std::alloc::{AllocError, Global};

// The most places along which a document is judged. Rules that join the answers of others may judge all of it along each.
const MOST_PLACES: usize = 8;

/// What is known of the document that some operations of a patch made of a valid one.
#[derive(Drop)]
pub(crate) enum Known {
    /// It agrees off these places with a document that is valid. If there is none, it is valid.
    Places(Vec<Vec<Step>>),
    /// Nothing.
    Nothing,
}

/// The same before an operation. One that may move other elements of a list is judged alone, so what changed before it is
/// judged first.
pub(crate) fn before(
    known: Known,
    schema: &Schema,
    operation: &Operation,
    document: &Tree,
    alloc: Global,
) -> Known
    ensures { IsKnownOf known (view schema.now) (view document.now) → IsKnownOf result (view schema.now) (view document.now) }
{
    match known {
        Known::Nothing => Known::Nothing,
        Known::Places(places) => {
            if places.is_empty() || !may_shift(operation) {
                return Known::Places(places);
            }
            match accepts_changes(schema, document, &places, alloc) {
                Ok(true) => Known::Places(Vec::new(alloc)),
                _ => Known::Nothing,
            }
        }
    }
}

/// The same after an operation, of the document that it made.
pub(crate) fn after(
    known: Known,
    schema: &Schema,
    operation: &Operation,
    made: &Tree,
    alloc: Global,
) -> Known
    ensures { (old : Doc) → IsKnownOf known (view schema.now) old → change (meaning operation.now) old ≡ Ok (view made.now)
        → IsKnownOf result (view schema.now) (view made.now) }
{
    match known {
        Known::Nothing => Known::Nothing,
        Known::Places(places) => match changed_by(operation, made, alloc) {
            Ok(None) => Known::Places(places),
            Ok(Some(Changed::Places(more))) => joined(places, more),
            Ok(Some(Changed::Shift(steps))) => shifted(places, schema, made, &steps, alloc),
            Err(_) => Known::Nothing,
        },
    }
}

/// Whether what the whole patch made of a valid document is valid.
pub(crate) fn is_valid(
    known: Known,
    schema: &Schema,
    changes: &Patch,
    made: &Tree,
    alloc: Global,
) -> Result<bool, AllocError>
    ensures { (old : Doc) → Judges (view schema.now) old true → patch (operations changes.now) old ≡ Ok (view made.now)
        → IsKnownOf known (view schema.now) (view made.now) → IfOk result (Judges (view schema.now) (view made.now)) }
{
    match known {
        Known::Nothing => accepts_patched(schema, changes, made, alloc),
        Known::Places(places) => accepts_changes(schema, made, &places, alloc),
    }
}

// Places that changed one after another.
fn joined(places: Vec<Vec<Step>>, more: Vec<Vec<Step>>) -> Known
    ensures { (schema old made : Doc) → AgreesWithValid (locations places.items) schema old → AgreeOffEach (locations more.items) old made
        → IsKnownOf result schema made }
{
    let mut places = places;
    let mut more = more;
    if more.len() > MOST_PLACES || places.len() > MOST_PLACES - more.len() {
        return Known::Nothing;
    }
    match places.append(&mut more) {
        Ok(()) => Known::Places(places),
        Err(_) => Known::Nothing,
    }
}

// A valid document, if there are no places, in which an element came to the end of the steps, or went from there.
fn shifted(
    places: Vec<Vec<Step>>,
    schema: &Schema,
    made: &Tree,
    steps: &[Step],
    alloc: Global,
) -> Known
    ensures { (old : Doc) → AgreesWithValid (locations places.items) (view schema.now) old → AgreeButShifted (map place_of steps.now) old (view made.now)
        → IsKnownOf result (view schema.now) (view made.now) }
{
    if !places.is_empty() {
        return Known::Nothing;
    }
    match accepts_shift(schema, made, steps, alloc) {
        Ok(true) => Known::Places(places),
        _ => Known::Nothing,
    }
}

// Whether the operation may put an element between others, or take one from there: its place ends in an index.
fn may_shift(operation: &Operation) -> bool {
    match operation {
        Operation::Add { path, .. } => ends_in_index(path.tokens()),
        Operation::Copy { path, .. } => ends_in_index(path.tokens()),
        Operation::Remove { path } => ends_in_index(path.tokens()),
        _ => false,
    }
}

fn ends_in_index(tokens: &[String]) -> bool {
    match tokens.split_last() {
        Some((last, _)) => match last.as_bytes().first() {
            Some(byte) => byte.is_ascii_digit(),
            None => false,
        },
        None => false,
    }
}
