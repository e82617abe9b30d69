//! The reading of a document from bytes.
ghost use Rattle.std.specs.Prelude.{◌≡◌, ◌≤◌, IfOk, IfErr};
ghost use Rattle.doc_tree.specs.Doc.{height};
ghost use Rattle.doc_tree.specs.Fault.{IsFaultOf};
ghost use Rattle.doc_tree.specs.Read.{read_of, document};
ghost use Rattle.doc_tree.specs.Sound.{IsSound};
ghost use Rattle.doc_tree.specs.TreeView.{view};

use crate::convert::tree_of;
use crate::fault::TreeFault;
use crate::tree::Tree;
use refusals::numbers::{MEMORY, NOT_JSON};
use serde_json::{Category, Value};
use std::alloc::Global;

impl Tree {
    /// The document that the bytes are, as `serde_json` reads them (RFC 8259).
    ///
    /// Refuses with `NOT_JSON` if `serde_json` doesn't read the bytes, else with `NUMBER` if some number is no whole
    /// number from -2^63 to 2^63-1. `MEMORY` may come in place of any answer.
    pub fn read(alloc: Global, bytes: &[u8]) -> Result<Tree, TreeFault>
        ensures ok { IfOk result (λ t. read_of bytes.now ≡ document (view t)) }
        ensures sound { IfOk result (λ t. IsSound (view t)) }
        ensures shallow { IfOk result (λ t. height (view t) ≤ 127) }
        ensures err { IfErr result (λ e. IsFaultOf e (read_of bytes.now)) }
    {
        match Value::from_slice(alloc, bytes) {
            Ok(value) => tree_of(alloc, value, None),
            Err(e) => match e.classify() {
                Category::Memory => Err(TreeFault { number: MEMORY }),
                _ => Err(TreeFault { number: NOT_JSON }),
            },
        }
    }
}
