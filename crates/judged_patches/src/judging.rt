//! The validity of documents under schemas, patterns and all, and of what a patch made of a valid one.
ghost use Rattle.std.specs.Prelude.{◌≡◌, [], IfOk, IsOk, Ok, map, true};
ghost use Rattle.doc_tree.specs.Doc.{Doc};
ghost use Rattle.doc_tree.specs.Place.{place_of};
ghost use Rattle.doc_tree.specs.TreeView.{view};
ghost use Rattle.doc_patch.specs.Meaning.{operations};
ghost use Rattle.doc_patch.specs.Patch.{patch};
ghost use Rattle.doc_schema.specs.Judge.{Judges};
ghost use Rattle.schema_changes.specs.Agree.{AgreeButShifted, AgreeOffEach};
ghost use Rattle.schema_rules.specs.PatternTexts.{pattern_texts};

use doc_patch::Patch;
use doc_schema::Schema;
use doc_tree::{Step, Tree};
use patched_places::{Changed, changed_at};
use std::alloc::{AllocError, Global};

/// Whether the document is valid under the schema. Memory is taken for the searches for the schema's patterns alone.
pub fn accepts(schema: &Schema, doc: &Tree, alloc: Global) -> Result<bool, AllocError>
    ensures judged { IfOk result (Judges (view schema.now) (view doc.now)) }
    ensures memory { pattern_texts (view schema.now) ≡ [] → IsOk result }
{
    match schema.accepts(doc) {
        Some(valid) => Ok(valid),
        None => accepts_by_trial(schema, doc, alloc),
    }
}

/// Whether what the patch made of a document that is valid under the schema is valid too: judged at the places that the
/// patch changed, if there are any, or as a whole if there is no memory for the way there. An error means that there
/// was no memory for the searches for the schema's patterns.
pub fn accepts_patched(
    schema: &Schema,
    changes: &Patch,
    made: &Tree,
    alloc: Global,
) -> Result<bool, AllocError>
    ensures judged { (before : Doc) → Judges (view schema.now) before true → patch (operations changes.now) before ≡ Ok (view made.now)
        → IfOk result (Judges (view schema.now) (view made.now)) }
    ensures memory { pattern_texts (view schema.now) ≡ [] → IsOk result }
{
    match changed_at(changes, made, alloc) {
        Ok(Some(Changed::Places(places))) => accepts_changes(schema, made, &places, alloc),
        Ok(Some(Changed::Shift(steps))) => accepts_shift(schema, made, &steps, alloc),
        Ok(None) => Ok(true),
        Err(_) => accepts(schema, made, alloc),
    }
}

/// Whether a document that agrees with a valid one off all of these locations is valid. An error means the same.
pub(crate) fn accepts_changes(
    schema: &Schema,
    doc: &Tree,
    places: &[Vec<Step>],
    alloc: Global,
) -> Result<bool, AllocError>
    ensures judged { (valid : Doc) → Judges (view schema.now) valid true → AgreeOffEach (map (λ p. map place_of p.items) places.now) valid (view doc.now)
        → IfOk result (Judges (view schema.now) (view doc.now)) }
    ensures memory { pattern_texts (view schema.now) ≡ [] → IsOk result }
{
    if places.is_empty() {
        return Ok(true);
    }
    match schema.accepts_changes(doc, places) {
        Some(valid) => Ok(valid),
        None => accepts_changes_by_trial(schema, doc, places, alloc),
    }
}

/// The same if an element came to the end of these steps, or went from there.
pub(crate) fn accepts_shift(
    schema: &Schema,
    doc: &Tree,
    path: &[Step],
    alloc: Global,
) -> Result<bool, AllocError>
    ensures judged { (valid : Doc) → Judges (view schema.now) valid true → AgreeButShifted (map place_of path.now) valid (view doc.now)
        → IfOk result (Judges (view schema.now) (view doc.now)) }
    ensures memory { pattern_texts (view schema.now) ≡ [] → IsOk result }
{
    match schema.accepts_shift(doc, path) {
        Some(valid) => Ok(valid),
        None => accepts_shift_by_trial(schema, doc, path, alloc),
    }
}

// Whether the document is valid, with the searches for the schema's patterns. It is kept out of line: a schema without
// patterns is not to pay for its frame, which is hundreds of KB.
#[inline(never)]
fn accepts_by_trial(schema: &Schema, doc: &Tree, alloc: Global) -> Result<bool, AllocError>
    ensures { IfOk result (Judges (view schema.now) (view doc.now)) }
{
    let mut trial = schema.trial(alloc)?;
    Ok(trial.accepts(doc))
}

// The same of a change.
#[inline(never)]
fn accepts_changes_by_trial(
    schema: &Schema,
    doc: &Tree,
    places: &[Vec<Step>],
    alloc: Global,
) -> Result<bool, AllocError>
    ensures { (valid : Doc) → Judges (view schema.now) valid true → AgreeOffEach (map (λ p. map place_of p.items) places.now) valid (view doc.now)
        → IfOk result (Judges (view schema.now) (view doc.now)) }
{
    let mut trial = schema.trial(alloc)?;
    Ok(trial.accepts_changes(doc, places))
}

// The same of a list in which an element came or went.
#[inline(never)]
fn accepts_shift_by_trial(
    schema: &Schema,
    doc: &Tree,
    path: &[Step],
    alloc: Global,
) -> Result<bool, AllocError>
    ensures { (valid : Doc) → Judges (view schema.now) valid true → AgreeButShifted (map place_of path.now) valid (view doc.now)
        → IfOk result (Judges (view schema.now) (view doc.now)) }
{
    let mut trial = schema.trial(alloc)?;
    Ok(trial.accepts_shift(doc, path))
}
