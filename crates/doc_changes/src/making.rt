//! The one way in which documents change in memory, and are changed back.
ghost use Rattle.std.specs.List.{AllByRecursion};
ghost use Rattle.std.specs.Prelude.{◌≡◌, ◌+◌, ◌<◌, ◌++◌, ◌∷◌, [], ℕ, List, is_some, map, true, None, string_bytes, IfErr, IfOk, OnErr};
ghost use Rattle.indexmap.specs.IndexMap.{spare};
ghost use Rattle.record_text.specs.Change.{change_of};
ghost use Rattle.doc_changes.specs.Held.{held_of};
ghost use Rattle.schema_rules.specs.declared.profile.Profile.{Profile};
ghost use Rattle.doc_changes.specs.Judged.{IsReady, RefusesIn};
ghost use Rattle.doc_changes.specs.State.{AreDistinct, IsStorable, changed, find, without};
ghost use Rattle.doc_changes.specs.Step.{documents_after};
ghost use Rattle.doc_changes.specs.Undo.{documents_before, with_rules, IsMade, IsMadeForGood, IsThere, TakesBack};
ghost use Rattle.doc_changes.specs.StateView.{document_of, named};

use crate::Refusal;
use crate::judged::Judged;
use crate::patching::{patch, patch_for_good, take_back};
use crate::shared::SharedSchema;
use crate::stored::Stored;
use crate::undo::Undo;
use doc_patch::Document;
use indexmap::IndexMap;
use record_text::Command;
use std::alloc::Global;
use std::mem;

/// Makes a change, of which all but a patch was judged, with that revision for what it changes, and answers what
/// takes it back. A refusal changes nothing.
pub fn make(
    alloc: Global,
    documents: &mut IndexMap<String, Stored>,
    command: Command,
    judged: Judged,
    revision: u64,
) -> Result<Undo, Refusal>
    requires room { 0 < spare documents.old }
    requires ready { (profile : Profile) × IsReady profile (map document_of documents.old.entries) (change_of command) judged }
    requires storable { AllByRecursion IsStorable (map document_of documents.old.entries) }
    ensures made { (profile : Profile) → IsReady profile (map document_of documents.old.entries) (change_of command) judged
        → IfOk result (λ undo. IsMade profile (map document_of documents.old.entries) (change_of command) revision undo (map document_of documents.new.entries)) }
    ensures refused { (profile : Profile) → IfErr result (RefusesIn profile (map document_of documents.old.entries) (change_of command)) }
    ensures unchanged { OnErr result (map document_of documents.new.entries ≡ map document_of documents.old.entries) }
    ensures spare { spare documents.old < spare documents.new + 2 }
{
    match command {
        Command::Create { name, doc, .. } => {
            let schema = judged.rules.unwrap();
            let doc = Document::new(doc).unwrap();
            let stored = Stored {
                schema,
                doc,
                revision,
            };
            Ok(add(documents, name, stored))
        }
        Command::Patch { name, ops, if_rev } => {
            patch(alloc, documents, name, &ops, if_rev, revision)
        }
        Command::Schema { name, .. } => {
            let rules = judged.rules.unwrap();
            Ok(change(documents, name, rules, revision))
        }
        Command::Delete { name } => Ok(remove(documents, name.as_str())),
    }
}

/// The same for good: nothing is kept to take it back, and after a refusal nothing is said of the documents.
pub fn make_for_good(
    alloc: Global,
    documents: &mut IndexMap<String, Stored>,
    command: Command,
    judged: Judged,
    revision: u64,
) -> Result<(), Refusal>
    requires room { 0 < spare documents.old }
    requires ready { (profile : Profile) × IsReady profile (map document_of documents.old.entries) (change_of command) judged }
    requires storable { AllByRecursion IsStorable (map document_of documents.old.entries) }
    ensures made { (profile : Profile) → IsReady profile (map document_of documents.old.entries) (change_of command) judged
        → IfOk result (λ _. IsMadeForGood profile (map document_of documents.old.entries) (change_of command) revision
        (map document_of documents.new.entries)) }
    ensures refused { (profile : Profile) → IfErr result (RefusesIn profile (map document_of documents.old.entries) (change_of command)) }
{
    match command {
        Command::Patch { name, ops, if_rev } => {
            patch_for_good(alloc, documents, name, &ops, if_rev, revision)
        }
        command => {
            drop(make(alloc, documents, command, judged, revision)?);
            Ok(())
        }
    }
}

/// Takes a change back. It takes no memory.
pub fn unmake(documents: &mut IndexMap<String, Stored>, undo: Undo)
    requires room { 0 < spare documents.old }
    requires there { IsThere undo (map document_of documents.old.entries) }
    requires distinct { AreDistinct (documents_before undo (map document_of documents.old.entries)) }
    ensures before { map document_of documents.new.entries ≡ documents_before undo (map document_of documents.old.entries) }
    ensures spare { spare documents.old < spare documents.new + 2 }
{
    match undo {
        Undo::Added => {
            let _last = documents.pop();
        }
        Undo::Patched {
            name,
            reversal,
            revision,
        } => take_back(documents, name, reversal, revision),
        Undo::Ruled {
            name,
            rules,
            revision,
        } => {
            let _undo = change(documents, name, rules, revision);
        }
        Undo::Removed {
            index,
            name,
            stored,
        } => {
            let _old = documents.shift_insert(index, name, stored).unwrap();
        }
    }
}

// Puts a new document last.
fn add(documents: &mut IndexMap<String, Stored>, name: String, stored: Stored) -> Undo
    requires room { 0 < spare documents.old }
    requires new { find (string_bytes name) (map document_of documents.old.entries) ≡ None }
    ensures after { map document_of documents.new.entries ≡ map document_of documents.old.entries ++ document_of (name, stored) ∷ [] }
    ensures undo { TakesBack result (map document_of documents.old.entries) (map document_of documents.new.entries) }
    ensures held { held_of result ≡ 0 }
    ensures spare { spare documents.old < spare documents.new + 2 }
{
    let _old = documents.insert(name, stored).unwrap();
    Undo::Added
}

// Puts a schema in the place of the one of the document of that name.
fn change(
    documents: &mut IndexMap<String, Stored>,
    name: String,
    rules: SharedSchema,
    revision: u64,
) -> Undo
    requires found { is_some (find (string_bytes name) (map document_of documents.old.entries)) ≡ true }
    ensures after { map document_of documents.new.entries ≡ changed (with_rules rules revision) (string_bytes name) (map document_of documents.old.entries) }
    ensures undo { TakesBack result (map document_of documents.old.entries) (map document_of documents.new.entries) }
    ensures held { held_of result ≡ 0 }
    ensures spare { spare documents.old < spare documents.new + 2 }
{
    let index = documents.get_index_of(name.as_str()).unwrap();
    let stored = documents.get_index_mut(index).unwrap();
    let before = stored.revision;
    let rules = replace(stored, rules, revision);
    Undo::Ruled {
        name,
        rules,
        revision: before,
    }
}

// Puts a schema in the place of the one that is kept, and answers that.
fn replace(stored: &mut Stored, rules: SharedSchema, revision: u64) -> SharedSchema
    ensures made { (name : List ℕ) → named name stored.new ≡ with_rules rules revision (named name stored.old) }
    ensures back { (name : List ℕ) → with_rules result stored.old.revision (named name stored.new) ≡ named name stored.old }
{
    stored.revision = revision;
    mem::replace(&mut stored.schema, rules)
}

// Takes the document of that name out.
fn remove(documents: &mut IndexMap<String, Stored>, name: &str) -> Undo
    requires found { is_some (find name.now (map document_of documents.old.entries)) ≡ true }
    ensures after { map document_of documents.new.entries ≡ without name.now (map document_of documents.old.entries) }
    ensures undo { TakesBack result (map document_of documents.old.entries) (map document_of documents.new.entries) }
    ensures held { held_of result ≡ 0 }
    ensures spare { spare documents.old < spare documents.new + 2 }
{
    let index = documents.get_index_of(name).unwrap();
    let (name, stored) = documents.shift_remove_index(index).unwrap();
    Undo::Removed {
        index,
        name,
        stored,
    }
}
