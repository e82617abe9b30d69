//! Patches that are judged and made in the place of the document, and taken back there.
ghost use Rattle.std.specs.List.{AllByRecursion};
ghost use Rattle.std.specs.Prelude.{◌≡◌, ◌+◌, ◌<◌, ◌≤◌, ◌⊎◌, ℕ, List, Option, None, Err, Ok, IfErr, IfOk, MatchResult, OnErr, map, string_bytes, true};
ghost use Rattle.indexmap.specs.IndexMap.{spare};
ghost use Rattle.doc_patch.specs.Held.{held};
ghost use Rattle.doc_patch.specs.Meaning.{operations};
ghost use Rattle.doc_patch.specs.Measured.{CanReverse, Reverses};
ghost use Rattle.doc_patch.specs.Patch as pure;
ghost use Rattle.doc_patch.specs.Reading.{operations_of};
ghost use Rattle.doc_schema.specs.Judge.{Judges};
ghost use Rattle.schema_rules.specs.declared.profile.Profile.{Profile};
ghost use Rattle.doc_tree.specs.Doc.{Doc};
ghost use Rattle.doc_tree.specs.Sound.{IsSound};
ghost use Rattle.doc_tree.specs.TreeView.{view};
ghost use Rattle.doc_changes.specs.Held.{held_by};
ghost use Rattle.doc_changes.specs.Judged.{RefusesIn};
ghost use Rattle.doc_changes.specs.Marks.{Mark};
ghost use Rattle.doc_changes.specs.Patched.{or_refused, patched};
ghost use Rattle.doc_changes.specs.Patching.{MakesForGood, Patches, PatchesForGood, RefusesMade, RefusesPatch, StandsAt};
ghost use Rattle.doc_changes.specs.State.{Good, IsStorable, changed};
ghost use Rattle.doc_changes.specs.Undo.{CanReverseAt, IsMade, IsMadeForGood, reversed_doc};
ghost use Rattle.doc_changes.specs.StateView.{document_of, kept_state, named};
ghost use Rattle.doc_changes.specs.Refusals.{plain};
ghost use Rattle.record_text.specs.Change as commands;
ghost use Rattle.refusals.specs.declared.numbers.TheConstants.{MEMORY};

use crate::Refusal;
use crate::checks::{check_name, check_revision};
use crate::rules::{apply_valid, apply_valid_for_good};
use crate::stored::Stored;
use crate::undo::Undo;
use doc_patch::{Patch, Reversal};
use doc_tree::Tree;
use indexmap::IndexMap;
use refusals::numbers::NO_DOCUMENT;
use std::alloc::Global;

/// Judges a patch and makes it, with that revision for its document. A refusal changes nothing.
pub(crate) fn patch(
    alloc: Global,
    documents: &mut IndexMap<String, Stored>,
    name: String,
    ops: &Tree,
    if_rev: Option<u64>,
    revision: u64,
) -> Result<Undo, Refusal>
    requires { AllByRecursion IsStorable (map document_of documents.old.entries) }
    ensures made { (profile : Profile) → IfOk result (λ undo. IsMade profile (map document_of documents.old.entries) (commands.patch (string_bytes name) (view ops.now) if_rev) revision undo (map document_of documents.new.entries)) }
    ensures refused { (profile : Profile) → IfErr result (RefusesIn profile (map document_of documents.old.entries) (commands.patch (string_bytes name) (view ops.now) if_rev)) }
    ensures unchanged { OnErr result (map document_of documents.new.entries ≡ map document_of documents.old.entries) }
    ensures spare { spare documents.old < spare documents.new + 2 }
{
    let index = index_of(documents, name.as_str())?;
    let stored = documents.get_index_mut(index).unwrap();
    let before = stored.revision;
    match patch_stored(alloc, stored, ops, if_rev, revision) {
        Ok(reversal) => Ok(Undo::Patched {
            name,
            reversal,
            revision: before,
        }),
        Err(refusal) => Err(refusal),
    }
}

/// The same for good: nothing is kept to take it back, and after a refusal nothing is said of the documents.
pub(crate) fn patch_for_good(
    alloc: Global,
    documents: &mut IndexMap<String, Stored>,
    name: String,
    ops: &Tree,
    if_rev: Option<u64>,
    revision: u64,
) -> Result<(), Refusal>
    requires { AllByRecursion IsStorable (map document_of documents.old.entries) }
    ensures made { (profile : Profile) → IfOk result (λ _. IsMadeForGood profile (map document_of documents.old.entries)
        (commands.patch (string_bytes name) (view ops.now) if_rev) revision (map document_of documents.new.entries)) }
    ensures refused { (profile : Profile) → IfErr result (RefusesIn profile (map document_of documents.old.entries) (commands.patch (string_bytes name) (view ops.now) if_rev)) }
{
    let index = index_of(documents, name.as_str())?;
    let stored = documents.get_index_mut(index).unwrap();
    patch_stored_for_good(alloc, stored, ops, if_rev, revision)
}

/// Judges a patch that was read already and asks for no revision, and makes it for good, with that revision for its
/// document. It is the patch of each document `ops` that spells its operations, and refused as that is. After a refusal
/// nothing is said of the documents.
pub fn patch_read_for_good(
    alloc: Global,
    documents: &mut IndexMap<String, Stored>,
    name: &str,
    changes: &Patch,
    revision: u64,
) -> Result<(), Refusal>
    requires { AllByRecursion IsStorable (map document_of documents.old.entries) }
    ensures made { (profile : Profile) (ops : Doc) → operations_of ops ≡ Ok (operations changes.now) → IsSound ops
        → IfOk result (λ _. IsMadeForGood profile (map document_of documents.old.entries) (commands.patch name.now ops None) revision
        (map document_of documents.new.entries)) }
    ensures refused { (profile : Profile) (ops : Doc) → operations_of ops ≡ Ok (operations changes.now)
        → IfErr result (RefusesIn profile (map document_of documents.old.entries) (commands.patch name.now ops None)) }
    ensures good { (marks : List Mark) (profile : Profile) (seq : ℕ) → revision ≤ seq → Good (kept_state documents.old.entries marks seq profile)
        → IfOk result (λ _. Good (kept_state documents.new.entries marks seq profile)) }
{
    let index = index_of(documents, name)?;
    let stored = documents.get_index_mut(index).unwrap();
    perform_for_good(alloc, stored, changes, revision)
}

/// Judges a patch that was read already and asks for no revision, and makes it, with that revision for its document. It is
/// the patch of each document `ops` that spells its operations, and refused as that is. A refusal changes nothing.
pub fn patch_read(
    alloc: Global,
    documents: &mut IndexMap<String, Stored>,
    name: String,
    changes: &Patch,
    revision: u64,
) -> Result<Undo, Refusal>
    requires { AllByRecursion IsStorable (map document_of documents.old.entries) }
    ensures made { (profile : Profile) (ops : Doc) → operations_of ops ≡ Ok (operations changes.now) → IsSound ops
        → IfOk result (λ undo. IsMade profile (map document_of documents.old.entries) (commands.patch (string_bytes name) ops None) revision undo (map document_of documents.new.entries)) }
    ensures refused { (profile : Profile) (ops : Doc) → operations_of ops ≡ Ok (operations changes.now)
        → IfErr result (RefusesIn profile (map document_of documents.old.entries) (commands.patch (string_bytes name) ops None)) }
    ensures unchanged { OnErr result (map document_of documents.new.entries ≡ map document_of documents.old.entries) }
    ensures spare { spare documents.old < spare documents.new + 2 }
{
    let index = index_of(documents, name.as_str())?;
    let stored = documents.get_index_mut(index).unwrap();
    let before = stored.revision;
    match perform(alloc, stored, changes, revision) {
        Ok(reversal) => Ok(Undo::Patched {
            name,
            reversal,
            revision: before,
        }),
        Err(refusal) => Err(refusal),
    }
}

/// Takes a patch back, with that revision for its document. It takes no memory.
pub(crate) fn take_back(
    documents: &mut IndexMap<String, Stored>,
    name: String,
    reversal: Reversal,
    revision: u64,
)
    requires { CanReverseAt (string_bytes name) reversal (map document_of documents.old.entries) }
    ensures before { map document_of documents.new.entries ≡ changed (reversed_doc reversal revision) (string_bytes name) (map document_of documents.old.entries) }
    ensures spare { spare documents.old < spare documents.new + 2 }
{
    let index = documents.get_index_of(name.as_str()).unwrap();
    let stored = documents.get_index_mut(index).unwrap();
    reverse(stored, reversal, revision);
}

// Takes a patch of what is kept back, with that revision.
fn reverse(stored: &mut Stored, reversal: Reversal, revision: u64)
    requires { CanReverse reversal stored.old.doc }
    ensures { (name : List ℕ) → named name stored.new ≡ reversed_doc reversal revision (named name stored.old) }
{
    stored.doc.take_back(reversal);
    stored.revision = revision;
}

// The index of the document that a patch changes.
fn index_of(documents: &IndexMap<String, Stored>, name: &str) -> Result<usize, Refusal>
    ensures found { IfOk result (StandsAt name.now documents.now.entries) }
    ensures refused { IfErr result (λ r. (profile : Profile) (ops : Doc) (if_rev : Option ℕ)
        → RefusesIn profile (map document_of documents.now.entries) (commands.patch name.now ops if_rev) r) }
{
    check_name(name)?;
    match documents.get_index_of(name) {
        Some(index) => Ok(index),
        None => Err(Refusal::plain(NO_DOCUMENT)),
    }
}

// Judges a patch of what is kept and valid, and makes it.
fn patch_stored(
    alloc: Global,
    stored: &mut Stored,
    ops: &Tree,
    if_rev: Option<u64>,
    revision: u64,
) -> Result<Reversal, Refusal>
    requires { Judges (view stored.old.schema) stored.old.doc true }
    ensures made { IfOk result (λ r. Patches (view ops.now) if_rev revision stored.old stored.new r) }
    ensures refused { IfErr result (RefusesPatch (view ops.now) if_rev stored.old) }
    ensures unchanged { OnErr result ((name : List ℕ) → named name stored.new ≡ named name stored.old) }
{
    check_revision(if_rev, stored.revision)?;
    let changes = Patch::read(alloc, ops)?;
    perform(alloc, stored, &changes, revision)
}

// Judges the operations of a patch of what is kept and valid, and makes them.
fn perform(
    alloc: Global,
    stored: &mut Stored,
    changes: &Patch,
    revision: u64,
) -> Result<Reversal, Refusal>
    requires { Judges (view stored.old.schema) stored.old.doc true }
    ensures made { IfOk result (λ _. MakesForGood (or_refused (pure.patch (operations changes.now) stored.old.doc)) revision stored.old stored.new) }
    ensures back { IfOk result (λ r. Reverses r stored.new.doc stored.old.doc) }
    ensures held { IfOk result (λ r. r.held ≡ held (operations changes.now) stored.old.doc) }
    ensures refused { IfErr result (RefusesMade (or_refused (pure.patch (operations changes.now) stored.old.doc)) stored.old) }
    ensures unchanged { OnErr result ((name : List ℕ) → named name stored.new ≡ named name stored.old) }
{
    let reversal = apply_valid(alloc, stored.schema.get(), changes, &mut stored.doc)?;
    let _made = stored.doc.tree();
    stored.revision = revision;
    Ok(reversal)
}

// The same for good.
fn patch_stored_for_good(
    alloc: Global,
    stored: &mut Stored,
    ops: &Tree,
    if_rev: Option<u64>,
    revision: u64,
) -> Result<(), Refusal>
    requires { Judges (view stored.old.schema) stored.old.doc true }
    ensures made { IfOk result (λ _. PatchesForGood (view ops.now) if_rev revision stored.old stored.new) }
    ensures refused { IfErr result (RefusesPatch (view ops.now) if_rev stored.old) }
{
    check_revision(if_rev, stored.revision)?;
    let changes = Patch::read(alloc, ops)?;
    perform_for_good(alloc, stored, &changes, revision)
}

// Judges the operations of a patch of what is kept and valid, and makes them for good.
fn perform_for_good(
    alloc: Global,
    stored: &mut Stored,
    changes: &Patch,
    revision: u64,
) -> Result<(), Refusal>
    requires { Judges (view stored.old.schema) stored.old.doc true }
    ensures made { IfOk result (λ _. MakesForGood (or_refused (pure.patch (operations changes.now) stored.old.doc)) revision stored.old stored.new) }
    ensures refused { IfErr result (RefusesMade (or_refused (pure.patch (operations changes.now) stored.old.doc)) stored.old) }
{
    apply_valid_for_good(alloc, stored.schema.get(), changes, &mut stored.doc)?;
    let _made = stored.doc.tree();
    stored.revision = revision;
    Ok(())
}
