//! Schemas, and whether documents are valid under them, also after patches. A machine keeps each schema as it was read.
ghost use Rattle.std.specs.Prelude.{◌≡◌, ◌⊎◌, [], None, Err, Ok, Some, IfErr, IfOk, MatchResult, OnErr, not, true};
ghost use Rattle.std.specs.Result.{result_err};
ghost use Rattle.doc_patch.specs.Held.{held};
ghost use Rattle.doc_patch.specs.Meaning.{operations};
ghost use Rattle.doc_patch.specs.Measured.{Reverses};
ghost use Rattle.doc_patch.specs.Patch.{patch};
ghost use Rattle.doc_schema.specs.Judge.{Judges};
ghost use Rattle.doc_tree.specs.TreeView.{view};
ghost use Rattle.refusals.specs.declared.numbers.TheConstants.{INVALID, MEMORY};
ghost use Rattle.schema_rules.specs.PatternTexts.{pattern_texts};
ghost use Rattle.doc_changes.specs.Patched.{or_refused};
ghost use Rattle.doc_changes.specs.Patching.{RefusesOutcome};
ghost use Rattle.doc_changes.specs.Refusals.{plain, refused_if};
ghost use Rattle.doc_changes.specs.Schema.{IsAccepted, is_true, schema_refusal};
ghost use Rattle.doc_changes.specs.Step.{invalid_refusal};

use crate::Refusal;
use doc_patch::{Document, Patch, Reversal};
use doc_schema::laws::first_faults_are_found;
use doc_schema::{Profile, Schema};
use doc_tree::Tree;
use judged_patches::{accepts, apply_judged};
use refusals::numbers::INVALID;
use std::alloc::Global;

/// The schema that comes with a change, or why it is refused in the profile.
pub(crate) fn read_schema(alloc: Global, profile: Profile, source: &Tree) -> Result<Schema, Refusal>
    ensures { MatchResult result (λ s. (view s ≡ view source.now) × IsAccepted profile (view source.now))
        (λ r. (r ≡ plain MEMORY) ⊎ (schema_refusal profile (view source.now) ≡ Some r)) }
{
    first_faults_are_found();
    Ok(Schema::read_in(profile, alloc, source)?)
}

/// Whether the document is valid. Memory is taken for the searches for the schema's patterns alone.
pub(crate) fn check_valid(alloc: Global, schema: &Schema, doc: &Tree) -> Result<(), Refusal>
    ensures judged { MatchResult result (λ _. invalid_refusal (view schema.now) (view doc.now) ≡ None)
        (λ r. (r ≡ plain MEMORY) ⊎ (invalid_refusal (view schema.now) (view doc.now) ≡ Some r)) }
    ensures memory { pattern_texts (view schema.now) ≡ [] → result_err result ≡ invalid_refusal (view schema.now) (view doc.now) }
{
    if is_true(schema) {
        return Ok(());
    }
    if !accepts(schema, doc, alloc)? {
        return Err(Refusal::plain(INVALID));
    }
    Ok(())
}

/// Makes of a valid document what the operations say, and answers what takes them back. Refuses as the patch, or what it
/// made as a document that isn't valid, and then leaves the document as it was.
pub(crate) fn apply_valid(
    alloc: Global,
    schema: &Schema,
    changes: &Patch,
    document: &mut Document,
) -> Result<Reversal, Refusal>
    requires { Judges (view schema.now) document.old true }
    ensures made { IfOk result (λ _. patch (operations changes.now) document.old ≡ Ok document.new) }
    ensures valid { IfOk result (λ _. invalid_refusal (view schema.now) document.new ≡ None) }
    ensures back { IfOk result (λ r. Reverses r document.new document.old) }
    ensures held { IfOk result (λ r. r.held ≡ held (operations changes.now) document.old) }
    ensures refused { IfErr result (RefusesOutcome (view schema.now) (or_refused (patch (operations changes.now) document.old))) }
    ensures unchanged { OnErr result (document.new ≡ document.old) }
{
    let (reversal, valid) = apply_and_judge(alloc, schema, changes, document)?;
    if !valid {
        document.take_back(reversal);
        return Err(Refusal::plain(INVALID));
    }
    Ok(reversal)
}

/// The same for good: after a refusal nothing is said of the document.
pub(crate) fn apply_valid_for_good(
    alloc: Global,
    schema: &Schema,
    changes: &Patch,
    document: &mut Document,
) -> Result<(), Refusal>
    requires { Judges (view schema.now) document.old true }
    ensures made { IfOk result (λ _. patch (operations changes.now) document.old ≡ Ok document.new) }
    ensures valid { IfOk result (λ _. invalid_refusal (view schema.now) document.new ≡ None) }
    ensures refused { IfErr result (RefusesOutcome (view schema.now) (or_refused (patch (operations changes.now) document.old))) }
{
    if is_true(schema) {
        return Ok(document.apply_for_good(alloc, changes)?);
    }
    drop(apply_valid(alloc, schema, changes, document)?);
    Ok(())
}

// Makes of a valid document what the operations say, and answers whether it is valid then. Under the schema `true`
// nothing is judged.
fn apply_and_judge(
    alloc: Global,
    schema: &Schema,
    changes: &Patch,
    document: &mut Document,
) -> Result<(Reversal, bool), Refusal>
    requires { Judges (view schema.now) document.old true }
    ensures made { IfOk result (λ _. patch (operations changes.now) document.old ≡ Ok document.new) }
    ensures judged { IfOk result (λ r. invalid_refusal (view schema.now) document.new ≡ refused_if (not r.1) INVALID) }
    ensures back { IfOk result (λ r. Reverses r.0 document.new document.old) }
    ensures held { IfOk result (λ r. r.0.held ≡ held (operations changes.now) document.old) }
    ensures refused { IfErr result (λ r. (or_refused (patch (operations changes.now) document.old) ≡ Err r) ⊎ (r ≡ plain MEMORY)) }
    ensures unchanged { OnErr result (document.new ≡ document.old) }
{
    if is_true(schema) {
        let reversal = document.apply(alloc, changes)?;
        return Ok((reversal, true));
    }
    Ok(apply_judged(schema, changes, document, alloc)?)
}

// Whether the schema is `true`, under which every document is valid.
fn is_true(schema: &Schema) -> bool
    ensures { result ≡ is_true (view schema.now) }
{
    match schema.source() {
        Tree::Bool(value) => *value,
        _ => false,
    }
}
