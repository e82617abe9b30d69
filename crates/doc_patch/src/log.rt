//! Operations that are applied in place, with what takes them back.

ghost use Rattle.std.specs.Prelude.{◌≡◌, ◌↔◌, ◌⊎◌, ◌<◌, ◌≤◌, ◌+◌, [], min, IfOk, IsTrue, OnOk, false, if◌then◌else◌, nat_lt, true};
ghost use Rattle.std.specs.Option.{ForSome};
ghost use Rattle.std.specs.Vec.{vec_capacity, vec_len};
ghost use Rattle.doc_edits.specs.SizeChange.{IsKnown, IsMeasured};
ghost use Rattle.doc_edits.specs.After.{LeavesMeasured};
ghost use Rattle.doc_patch.specs.Held.{CountsOne, HoldsMore};
ghost use Rattle.doc_patch.specs.Keeping.{IsWhole, kept};
ghost use Rattle.doc_edits.specs.Keeping.{TakesBack};
ghost use Rattle.doc_edits.specs.Meaning.{meaning};
ghost use Rattle.doc_edits.specs.Operation.{op};
ghost use Rattle.doc_patch.specs.Undo.{steps_back};
ghost use Rattle.doc_patch.specs.declared.limits.TheConstants.{DOCUMENT_BYTES};
ghost use Rattle.doc_tree.specs.Doc.{Doc};
ghost use Rattle.doc_tree.specs.Sound.{IsSound};
ghost use Rattle.doc_tree.specs.TreeView.{view};

use crate::held::{MeasuredCopy, copied, siblings};
use crate::limits::DOCUMENT_BYTES;
use doc_edits::limits::check_limits;
use doc_edits::{
    After, Back, DocumentSize, Kept, KnownPlace, Operation, OperationFault, perform_kept, whole,
};
use doc_tree::Tree;
use std::alloc::{AllocError, Global};

/// The steps that take back what was applied until now.
#[derive(Drop)]
pub struct Log {
    pub steps: Vec<Back>,
    /// One of them holds the whole document, and nothing more need be kept.
    pub is_whole: bool,
    /// The bytes of the values that the operations copied.
    pub copied: u64,
    /// How many members and elements there were beside those that the operations took: for as many a step keeps room.
    pub siblings: u64,
}

// For how many members and elements room is kept: 28 MB of addresses, which nothing touches.
const MOST_ROOM: u64 = 500_000;

impl Log {
    /// Nothing was applied yet.
    pub fn new(alloc: Global) -> Log
        ensures empty { kept result ≡ [] }
        ensures whole { IsWhole result }
        ensures copied { result.copied ≡ 0 }
        ensures siblings { result.siblings ≡ 0 }
    {
        Log {
            steps: Vec::new(alloc),
            is_whole: false,
            copied: 0,
            siblings: 0,
        }
    }

    /// Makes of the document what the operation says, as `Operation::apply`, and keeps what takes it back. That holds
    /// after a refusal too: what the steps answer is the same before and after. The whole document is kept from the first
    /// operation on that finds more copied than the document is long, or more than 500,000 siblings, and then no more steps.
    pub fn apply<'a>(
        &mut self,
        alloc: Global,
        tree: &mut Tree,
        operation: &'a Operation,
        before: DocumentSize,
        known: Option<KnownPlace<'a>>,
    ) -> Result<After<'a>, OperationFault>
        requires measured { IsMeasured before (view tree.old) }
        requires known { ForSome known (λ k. IsKnown k (view tree.old)) }
        requires sound { IsSound (view tree.old) }
        requires whole { IsWhole self.old }
        ensures made { LeavesMeasured (op (meaning operation.now) (view tree.old)) (view tree.new) result }
        ensures counted { IfOk result (λ _. CountsOne self.old (meaning operation.now) (view tree.old) self.new) }
        ensures is_whole { IfOk result (λ _. IsTrue self.new.is_whole ↔ (IsTrue self.old.is_whole ⊎ HoldsMore self.old before.len)) }
        ensures steps { IsTrue self.old.is_whole → self.new.steps ≡ self.old.steps }
        ensures sound { IfOk result (λ _. IsSound (view tree.new)) }
        ensures back { steps_back (kept self.new) (view tree.new) ≡ steps_back (kept self.old) (view tree.old) }
        ensures whole { IsWhole self.new }
    {
        if self.holds_more_than(before) {
            self.keep_whole(alloc, tree)?;
        }
        let MeasuredCopy { len, known } = copied(tree, operation, known);
        self.copied = self.copied.saturating_add(len);
        self.siblings = self.siblings.saturating_add(siblings(tree, operation));
        if self.is_whole {
            operation.apply(alloc, tree, Some(before), known)
        } else {
            self.apply_kept(alloc, tree, operation, before, known)
        }
    }

    // Whether the values that were copied are longer than the document, or the rooms more than `MOST_ROOM`: then the whole
    // of it is less to keep than more of them. The other values that steps hold were there before, or came with the patch.
    fn holds_more_than(&self, document: DocumentSize) -> bool
        ensures { IsTrue result ↔ HoldsMore self.now document.len }
    {
        self.siblings > MOST_ROOM || self.copied > document.len
    }

    // Keeps the whole document, unless it is kept already.
    fn keep_whole(&mut self, alloc: Global, tree: &Tree) -> Result<(), AllocError>
        requires { IsWhole self.old }
        ensures back { steps_back (kept self.new) (view tree.now) ≡ steps_back (kept self.old) (view tree.now) }
        ensures whole { IsWhole self.new }
        ensures kept { OnOk result (self.new.is_whole ≡ true) }
        ensures already { IsTrue self.old.is_whole → self.new ≡ self.old }
        ensures copied { self.new.copied ≡ self.old.copied }
        ensures siblings { self.new.siblings ≡ self.old.siblings }
    {
        if !self.is_whole {
            let step = whole(alloc, tree)?;
            self.steps.push(step)?;
            self.is_whole = true;
        }
        Ok(())
    }

    // Makes an operation, and keeps the step that takes it back.
    fn apply_kept<'a>(
        &mut self,
        alloc: Global,
        tree: &mut Tree,
        operation: &'a Operation,
        before: DocumentSize,
        known: Option<KnownPlace<'a>>,
    ) -> Result<After<'a>, OperationFault>
        requires measured { IsMeasured before (view tree.old) }
        requires known { ForSome known (λ k. IsKnown k (view tree.old)) }
        requires sound { IsSound (view tree.old) }
        requires whole { self.old.is_whole ≡ false }
        ensures made { LeavesMeasured (op (meaning operation.now) (view tree.old)) (view tree.new) result }
        ensures sound { IsSound (view tree.old) → IfOk result (λ _. IsSound (view tree.new)) }
        ensures back { steps_back (kept self.new) (view tree.new) ≡ steps_back (kept self.old) (view tree.old) }
        ensures whole { self.new.is_whole ≡ false }
        ensures copied { self.new.copied ≡ self.old.copied }
        ensures siblings { self.new.siblings ≡ self.old.siblings }
    {
        self.steps.reserve(1)?;
        let Kept {
            growth,
            known,
            back,
        } = perform_kept(alloc, tree, operation, before.most, known)?;
        self.keep(back);
        let measure = check_limits(tree, Some(before), growth)?;
        Ok(After { measure, known })
    }

    /// The bytes of text that memory holds for a patch whose document had a text of that length.
    pub fn held(&self, len: u64) -> u64
        requires { len ≤ DOCUMENT_BYTES }
        ensures { result ≡ min self.now.copied 1_048_576 + (if nat_lt 500_000 self.now.siblings then len else 0) }
    {
        let whole = if self.siblings > MOST_ROOM { len } else { 0 };
        self.copied.min(DOCUMENT_BYTES) + whole
    }

    // Keeps one more step, if there is one.
    fn keep(&mut self, back: Option<Back>)
        requires room { vec_len self.old.steps < vec_capacity self.old.steps }
        ensures back { (d e : Doc) → TakesBack back d e
            → steps_back (kept self.new) e ≡ steps_back (kept self.old) d }
        ensures whole { self.new.is_whole ≡ self.old.is_whole }
        ensures copied { self.new.copied ≡ self.old.copied }
        ensures siblings { self.new.siblings ≡ self.old.siblings }
    {
        if let Some(step) = back {
            self.steps.push(step).unwrap();
        }
    }
}
