//! A patch is a list of operations, applied all or none.

ghost use Rattle.std.specs.Prelude.{◌≡◌, Ok, IfOk, MatchResult, is_some, true};
ghost use Rattle.std.specs.Option.{ForSome};
ghost use Rattle.doc_patch.specs.Fault.{IsFaultOf};
ghost use Rattle.doc_edits.specs.SizeChange.{IsMeasured};
ghost use Rattle.doc_patch.specs.Held.{Counts};
ghost use Rattle.doc_patch.specs.Keeping.{IsWhole, kept};
ghost use Rattle.doc_patch.specs.Meaning.{operations};
ghost use Rattle.doc_patch.specs.Patch.{patch};
ghost use Rattle.doc_patch.specs.Undo.{steps_back};
ghost use Rattle.doc_tree.specs.Sound.{IsSound};
ghost use Rattle.doc_tree.specs.TreeView.{view};

use crate::fault::PatchFault;
use crate::log::Log;
use doc_edits::{DocumentSize, Operation};
use doc_tree::Tree;
use std::alloc::Global;

/// A JSON patch (RFC 6902). Clauses see it as its `operations`.
#[derive(Drop)]
pub struct Patch {
    pub(crate) operations: Vec<Operation>,
}

impl Patch {
    /// What the operations make of the document, one after the other; the document itself never
    /// changes.
    ///
    /// The first operation that is refused refuses the patch, and is named. Its number is `PATCH_MISSING`, `PATCH_TEST`
    /// or `PATCH_ROOT` as the operation says, else `DEPTH`, else `TOO_LARGE`, if it leaves the document over `limits`.
    /// `MEMORY` if there was none, and then no operation is named.
    pub fn apply(&self, alloc: Global, tree: &Tree) -> Result<Tree, PatchFault>
        ensures made { let made = patch (operations self.now) (view tree.now) in
            MatchResult result (λ t. made ≡ Ok (view t)) (IsFaultOf made) }
        ensures sound { IfOk result (λ t. IsSound (view t)) }
    {
        let mut working = tree.copy(alloc)?;
        self.apply_unkept(alloc, &mut working, None)?;
        Ok(working)
    }

    // Makes of the document what the operations say, and keeps nothing. After a refusal nothing is said of the document.
    fn apply_unkept(
        &self,
        alloc: Global,
        tree: &mut Tree,
        before: Option<DocumentSize>,
    ) -> Result<Option<DocumentSize>, PatchFault>
        requires { ForSome before (λ m. IsMeasured m (view tree.old)) }
        ensures made { let made = patch (operations self.now) (view tree.old) in
            MatchResult result (λ _. made ≡ Ok (view tree.new)) (IsFaultOf made) }
        ensures measured { IfOk result (λ after. ForSome after (λ m. IsMeasured m (view tree.new))) }
        ensures known { IfOk result (λ after. is_some before ≡ true → is_some after ≡ true) }
        ensures sound { IsSound (view tree.old) → IfOk result (λ _. IsSound (view tree.new)) }
    {
        let mut measure = before;
        let mut known = None;
        for (index, operation) in self.operations.iter().enumerate() {
            match operation.apply(alloc, tree, measure, known) {
                Ok(after) => {
                    measure = Some(after.measure);
                    known = after.known;
                }
                Err(fault) => return Err(PatchFault::of(fault, index as u64)),
            }
        }
        Ok(measure)
    }

    /// Makes of a document that is measured what the operations say, and answers its measure after it. Nothing is kept
    /// to take it back: after a refusal nothing is said of the document.
    pub(crate) fn apply_for_good(
        &self,
        alloc: Global,
        tree: &mut Tree,
        before: DocumentSize,
    ) -> Result<DocumentSize, PatchFault>
        requires { IsMeasured before (view tree.old) }
        ensures made { let made = patch (operations self.now) (view tree.old) in
            MatchResult result (λ _. made ≡ Ok (view tree.new)) (IsFaultOf made) }
        ensures measured { IfOk result (λ after. IsMeasured after (view tree.new)) }
        ensures sound { IsSound (view tree.old) → IfOk result (λ _. IsSound (view tree.new)) }
    {
        let after = self.apply_unkept(alloc, tree, Some(before))?;
        Ok(after.unwrap())
    }

    /// Makes of a document that is measured what the operations say, and answers its measure after it; the log keeps
    /// what takes back those before the first that is refused.
    pub(crate) fn apply_each(
        &self,
        alloc: Global,
        tree: &mut Tree,
        log: &mut Log,
        before: DocumentSize,
    ) -> Result<DocumentSize, PatchFault>
        requires measured { IsMeasured before (view tree.old) }
        requires sound { IsSound (view tree.old) }
        requires whole { IsWhole log.old }
        ensures made { let made = patch (operations self.now) (view tree.old) in
            MatchResult result (λ _. made ≡ Ok (view tree.new)) (IsFaultOf made) }
        ensures counted { IfOk result (λ _. Counts log.old (operations self.now) (view tree.old) log.new) }
        ensures measured { IfOk result (λ after. IsMeasured after (view tree.new)) }
        ensures back { steps_back (kept log.new) (view tree.new) ≡ steps_back (kept log.old) (view tree.old) }
        ensures sound { IfOk result (λ _. IsSound (view tree.new)) }
    {
        let mut measure = before;
        let mut known = None;
        for (index, operation) in self.operations.iter().enumerate() {
            match log.apply(alloc, tree, operation, measure, known) {
                Ok(after) => {
                    measure = after.measure;
                    known = after.known;
                }
                Err(refused) => return Err(PatchFault::of(refused, index as u64)),
            }
        }
        Ok(measure)
    }
}
