//! The compact text of a document.
ghost use Rattle.std.specs.Prelude.{◌≡◌, IfOk, IsUtf8};
ghost use Rattle.doc_tree.specs.Sound.{IsSound};
ghost use Rattle.doc_tree.specs.Text.{text_of};
ghost use Rattle.doc_tree.specs.TreeView.{view};

use crate::tree::Tree;
use std::alloc::{AllocError, Global};

impl Tree {
    /// The compact text that `serde_json` writes: no blank, and members in byte order of their names.
    /// The one error is that memory was refused.
    pub fn text(&self, alloc: Global) -> Result<Vec<u8>, AllocError>
        ensures text { IfOk result (λ b. b.items ≡ text_of (view self.now)) }
        ensures utf8 { IfOk result (λ b. IsUtf8 b.items) }
        ensures sound { IfOk result (λ _. IsSound (view self.now)) }
    {
        let mut text = Vec::new(alloc);
        self.put_text(&mut text)?;
        Ok(text)
    }
}
