//! The steps that take a patch back that was applied in place.

ghost use Rattle.std.specs.Prelude.{◌≡◌, Some, is_some, true};
ghost use Rattle.doc_edits.specs.Change.{tokens_of};
ghost use Rattle.doc_edits.specs.Edit as edit;
ghost use Rattle.doc_edits.specs.Back.{step_back, step_of};
ghost use Rattle.doc_patch.specs.Undo.{taken_back};
ghost use Rattle.doc_tree.specs.TreeView.{view};

use doc_edits::{Back, take_step_back};
use doc_tree::Tree;

/// Takes a patch back. It has the memory for that already.
#[derive(Drop)]
pub struct Undo {
    pub(crate) steps: Vec<Back>,
}

impl Undo {
    /// Makes of the document what it was before the patch, word for word. It takes no memory.
    pub fn take_back(self, tree: &mut Tree)
        requires { is_some (taken_back self (view tree.old)) ≡ true }
        ensures { taken_back self (view tree.old) ≡ Some (view tree.new) }
    {
        let alloc = *self.steps.allocator();
        let Undo { mut steps } = self;
        while let Some(step) = steps.pop() {
            take_step_back(alloc, tree, step);
        }
    }
}
