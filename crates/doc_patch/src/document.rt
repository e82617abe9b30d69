//! A document within the limits, with the length of its text, so that no change need walk over the whole.

ghost use Rattle.std.specs.Prelude.{◌≡◌, Ok, IfOk, MatchResult, OnErr};
ghost use Rattle.doc_patch.specs.Fault.{IsFaultOf};
ghost use Rattle.doc_patch.specs.Held.{held};
ghost use Rattle.doc_patch.specs.Meaning.{operations};
ghost use Rattle.doc_patch.specs.Measured.{CanReverse, IsWithin, Reverses};
ghost use Rattle.doc_patch.specs.Patch.{patch};
ghost use Rattle.doc_edits.specs.Size.{size};
ghost use Rattle.doc_tree.specs.Doc.{null};
ghost use Rattle.doc_tree.specs.Sound.{IsSound};
ghost use Rattle.doc_tree.specs.TreeView.{view};

use crate::fault::PatchFault;
use crate::limits::{DOCUMENT_BYTES, DOCUMENT_HEIGHT};
use crate::log::Log;
use crate::patch::Patch;
use crate::undo::Undo;
use doc_edits::DocumentSize;
use doc_tree::Tree;
use std::alloc::Global;
use std::marker::Model;

// The bytes of the text of null.
const NULL_LEN: u64 = 4;

/// A document within the limits. Clauses see it as the document that its tree represents.
#[derive(Drop)]
pub struct Document {
    pub(crate) tree: Tree,
    pub(crate) len: u64,
}

/// Takes a patch of a `Document` back. It has the memory for that already.
#[derive(Drop)]
pub struct Reversal {
    pub(crate) undo: Undo,
    /// The bytes of the text before the patch.
    pub(crate) len: u64,
    /// The bytes of text that memory holds for the patch, beyond the document and the patch's own values.
    pub held: u64,
}

impl Model for Document {
    ghost use Rattle.doc_tree.specs.Doc.{Doc};
    ghost use Rattle.doc_patch.specs.CodedDoc.{coded_doc};
    ghost use Rattle.doc_patch.specs.Measured.{IsDocument, document_of};

    ghost Value = { Doc };

    ghost coded = { coded_doc };

    ghost view = { document_of };

    ghost invariant = { IsDocument };
}

impl Document {
    /// The document of that tree, by a walk over it, or the tree again, if it is over `limits`.
    pub fn new(tree: Tree) -> Result<Document, Tree>
        ensures { MatchResult result (λ d. d ≡ view tree) (λ back. (view back ≡ view tree) × (IsWithin (view tree) → ⊥)) }
    {
        if tree.height() > DOCUMENT_HEIGHT {
            return Err(tree);
        }
        match tree.text_len_within(DOCUMENT_BYTES) {
            Some(len) => Ok(Document { tree, len }),
            None => Err(tree),
        }
    }

    /// The tree, to read.
    pub fn tree(&self) -> &Tree
        ensures value { view result.now ≡ self.now }
        ensures sound { IsSound self.now }
    {
        &self.tree
    }

    /// The bytes of its compact text. Nothing is walked over.
    pub fn len(&self) -> u64
        ensures { result ≡ size self.now }
    {
        self.len
    }

    /// Makes of the document what the operations say, and answers what takes them back. It costs what the operations
    /// add and take, and the places on their way.
    ///
    /// Refuses as `Patch::apply` does, and then leaves the document as it was.
    pub fn apply(&mut self, alloc: Global, changes: &Patch) -> Result<Reversal, PatchFault>
        ensures made { let made = patch (operations changes.now) self.old in
            MatchResult result (λ _. made ≡ Ok self.new) (IsFaultOf made) }
        ensures back { IfOk result (λ r. Reverses r self.new self.old) }
        ensures held { IfOk result (λ r. r.held ≡ held (operations changes.now) self.old) }
        ensures unchanged { OnErr result (self.new ≡ self.old) }
        ensures sound { IsSound self.new }
    {
        let before = DocumentSize {
            len: self.len,
            most: DOCUMENT_HEIGHT,
        };
        let mut log = Log::new(alloc);
        match changes.apply_each(alloc, &mut self.tree, &mut log, before) {
            Ok(after) => {
                self.len = after.len;
                let held = log.held(before.len);
                Ok(Reversal {
                    undo: Undo { steps: log.steps },
                    len: before.len,
                    held,
                })
            }
            Err(fault) => {
                Undo { steps: log.steps }.take_back(&mut self.tree);
                Err(fault)
            }
        }
    }

    /// The same for good: nothing is kept to take it back, and a refusal leaves the document null.
    pub fn apply_for_good(&mut self, alloc: Global, changes: &Patch) -> Result<(), PatchFault>
        ensures made { let made = patch (operations changes.now) self.old in
            MatchResult result (λ _. made ≡ Ok self.new) (λ fault. IsFaultOf made fault × (self.new ≡ null)) }
        ensures sound { IsSound self.new }
    {
        let before = DocumentSize {
            len: self.len,
            most: DOCUMENT_HEIGHT,
        };
        match changes.apply_for_good(alloc, &mut self.tree, before) {
            Ok(after) => {
                self.len = after.len;
                Ok(())
            }
            Err(fault) => {
                self.tree = Tree::Null;
                self.len = NULL_LEN;
                Err(fault)
            }
        }
    }

    /// Makes of the document what it was before the patch, word for word. It takes no memory.
    pub fn take_back(&mut self, reversal: Reversal)
        requires { CanReverse reversal self.old }
        ensures { Reverses reversal self.old self.new }
    {
        let Reversal { undo, len, .. } = reversal;
        undo.take_back(&mut self.tree);
        self.len = len;
    }
}
