//! A patch that is made of a valid document and judged on the way.
ghost use Rattle.std.specs.Prelude.{◌≡◌, [], List, Ok, IfOk, MatchResult, OnErr, true};
ghost use Rattle.doc_tree.specs.Doc.{Doc};
ghost use Rattle.doc_tree.specs.TreeView.{view};
ghost use Rattle.doc_edits.specs.Operation as pure;
ghost use Rattle.doc_patch.specs.Fault.{IsFaultOf};
ghost use Rattle.doc_patch.specs.Held.{held};
ghost use Rattle.doc_patch.specs.Meaning.{meanings, operations};
ghost use Rattle.doc_patch.specs.Measured.{Reverses};
ghost use Rattle.doc_patch.specs.Patch.{patch};
ghost use Rattle.doc_patch.specs.Progress.{IsUnderWay};
ghost use Rattle.doc_schema.specs.Judge.{Judges};
ghost use Rattle.judged_patches.specs.Known.{IsKnownOf};

use crate::known::{Known, after, before, is_valid};
use doc_edits::Operation;
use doc_patch::{Document, Patch, PatchFault, Progress, Reversal};
use doc_schema::Schema;
use std::alloc::Global;

// The most operations that are judged one by one: they cost at most what each costs alone, and under some schemas that is
// a judgement of the whole document. What more of them made is judged once.
const MOST_OPERATIONS: usize = 8;

/// Makes of a valid document what the operations say, and answers what takes them back, and whether it is valid then.
///
/// Refuses as `Document::apply` does, also if there was no memory for the searches for the schema's patterns, and then
/// leaves the document as it was.
pub fn apply_judged(
    schema: &Schema,
    changes: &Patch,
    document: &mut Document,
    alloc: Global,
) -> Result<(Reversal, bool), PatchFault>
    requires { Judges (view schema.now) document.old true }
    ensures made { let made = patch (operations changes.now) document.old in
        MatchResult result (λ _. made ≡ Ok document.new) (IsFaultOf made) }
    ensures back { IfOk result (λ r. Reverses r.0 document.new document.old) }
    ensures held { IfOk result (λ r. r.0.held ≡ held (operations changes.now) document.old) }
    ensures judged { IfOk result (λ r. Judges (view schema.now) document.new r.1) }
    ensures unchanged { OnErr result (document.new ≡ document.old) }
{
    let (reversal, known) = make(schema, changes, document, alloc)?;
    match is_valid(known, schema, changes, document.tree(), alloc) {
        Ok(valid) => Ok((reversal, valid)),
        Err(refused) => {
            document.take_back(reversal);
            Err(PatchFault::from(refused))
        }
    }
}

// Makes the patch, and answers what is known of what it made.
fn make(
    schema: &Schema,
    changes: &Patch,
    document: &mut Document,
    alloc: Global,
) -> Result<(Reversal, Known), PatchFault>
    requires { Judges (view schema.now) document.old true }
    ensures made { let made = patch (operations changes.now) document.old in
        MatchResult result (λ _. made ≡ Ok document.new) (IsFaultOf made) }
    ensures back { IfOk result (λ r. Reverses r.0 document.new document.old) }
    ensures held { IfOk result (λ r. r.0.held ≡ held (operations changes.now) document.old) }
    ensures known { IfOk result (λ r. IsKnownOf r.1 (view schema.now) document.new) }
    ensures unchanged { OnErr result (document.new ≡ document.old) }
{
    let operations = changes.operations();
    if operations.len() > MOST_OPERATIONS {
        let reversal = document.apply(alloc, changes)?;
        return Ok((reversal, Known::Nothing));
    }
    let progress = document.begin(alloc);
    let known = Known::Places(Vec::new(alloc));
    let (progress, known) = make_each(schema, operations, document, progress, known, alloc)?;
    Ok((document.finish(progress), known))
}

// Makes the operations that are left, one after another.
fn make_each<'p>(
    schema: &Schema,
    operations: &'p [Operation],
    document: &mut Document,
    progress: Progress<'p>,
    known: Known,
    alloc: Global,
) -> Result<(Progress<'p>, Known), PatchFault>
    requires { (os : List pure.Operation) × (start : Doc) × IsUnderWay progress (meanings operations.now) os start document.old }
    ensures made { (os : List pure.Operation) (start : Doc) → IsUnderWay progress.entry (meanings operations.now) os start document.old
        → MatchResult result (λ r. IsUnderWay r.0 [] os start document.new) (λ fault. IsFaultOf (patch os start) fault × (document.new ≡ start)) }
    ensures known { IsKnownOf known (view schema.now) document.old → IfOk result (λ r. IsKnownOf r.1 (view schema.now) document.new) }
{
    match operations.split_first() {
        None => Ok((progress, known)),
        Some((operation, others)) => {
            let known = before(known, schema, operation, document.tree(), alloc);
            let progress = document.apply_next(alloc, operation, progress)?;
            let known = after(known, schema, operation, document.tree(), alloc);
            make_each(schema, others, document, progress, known, alloc)
        }
    }
}
