//! Patches that are made operation by operation, so that the document is seen after each.

ghost use Rattle.std.specs.Prelude.{◌≡◌, ◌≤◌, ◌∷◌, [], List, Ok, IfOk, MatchResult, length};
ghost use Rattle.doc_edits.specs.Meaning.{meaning};
ghost use Rattle.doc_edits.specs.Operation as pure;
ghost use Rattle.doc_edits.specs.Operation.{change};
ghost use Rattle.doc_patch.specs.Fault.{IsFaultOf};
ghost use Rattle.doc_patch.specs.Held.{held};
ghost use Rattle.doc_patch.specs.Measured.{Reverses};
ghost use Rattle.doc_patch.specs.Patch.{patch};
ghost use Rattle.doc_patch.specs.Progress.{IsUnderWay};
ghost use Rattle.doc_tree.specs.Doc.{Doc};

use crate::document::{Document, Reversal};
use crate::fault::PatchFault;
use crate::limits::DOCUMENT_HEIGHT;
use crate::log::Log;
use crate::patch::Patch;
use crate::undo::Undo;
use doc_edits::{DocumentSize, KnownPlace, Operation};
use std::alloc::Global;

/// How far a patch of a `Document` was made, and what takes that back.
#[derive(Drop)]
pub struct Progress<'p> {
    pub(crate) log: Log,
    /// The bytes of the text before the patch.
    pub(crate) len: u64,
    /// How many operations were made.
    pub(crate) made: u64,
    /// What is known of the value that the last of them put at a place.
    pub(crate) known: Option<KnownPlace<'p>>,
}

impl Patch {
    /// The operations, in order.
    pub fn operations(&self) -> &[Operation]
        ensures { result.now ≡ self.now.operations.items }
    {
        &self.operations
    }
}

impl Document {
    /// Begins a patch. Nothing is made yet.
    pub fn begin<'p>(&self, alloc: Global) -> Progress<'p>
        ensures { (os : List pure.Operation) → length os ≤ 0xffff_ffff_ffff_ffff → IsUnderWay result os os self.now self.now }
    {
        Progress {
            log: Log::new(alloc),
            len: self.len,
            made: 0,
            known: None,
        }
    }

    /// Makes of the document what the next operation of a patch says. It costs what `apply` does.
    ///
    /// Refuses as the whole patch is refused by `Patch::apply`, and then leaves the document as it was before the patch.
    pub fn apply_next<'p>(
        &mut self,
        alloc: Global,
        operation: &'p Operation,
        progress: Progress<'p>,
    ) -> Result<Progress<'p>, PatchFault>
        requires { (left os : List pure.Operation) × (before : Doc) × IsUnderWay progress (meaning operation.now ∷ left) os before self.old }
        ensures made { IfOk result (λ _. change (meaning operation.now) self.old ≡ Ok self.new) }
        ensures under_way { (left os : List pure.Operation) (before : Doc) → IsUnderWay progress.entry (meaning operation.now ∷ left) os before self.old
            → MatchResult result (λ p. IsUnderWay p left os before self.new) (λ fault. IsFaultOf (patch os before) fault × (self.new ≡ before)) }
    {
        let Progress {
            mut log,
            len,
            made,
            known,
        } = progress;
        let before = DocumentSize {
            len: self.len,
            most: DOCUMENT_HEIGHT,
        };
        match log.apply(alloc, &mut self.tree, operation, before, known) {
            Ok(after) => {
                self.len = after.measure.len;
                Ok(Progress {
                    log,
                    len,
                    made: made + 1,
                    known: after.known,
                })
            }
            Err(refused) => {
                Undo { steps: log.steps }.take_back(&mut self.tree);
                self.len = len;
                Err(PatchFault::of(refused, made))
            }
        }
    }

    /// What takes back a patch of which all operations were made.
    pub fn finish(&self, progress: Progress) -> Reversal
        requires { (os : List pure.Operation) × (before : Doc) × IsUnderWay progress [] os before self.now }
        ensures { (os : List pure.Operation) (before : Doc) → IsUnderWay progress.entry [] os before self.now
            → (patch os before ≡ Ok self.now) × Reverses result self.now before × (result.held ≡ held os before) }
    {
        let Progress { log, len, .. } = progress;
        let held = log.held(len);
        Reversal {
            undo: Undo { steps: log.steps },
            len,
            held,
        }
    }
}
