//! The one operation of a patch that changes anything.

ghost use Rattle.std.specs.Prelude.{◌≡◌, ◌≢◌, Ok, IfNone, IfSome, count_by};
ghost use Rattle.doc_edits.specs.Meaning.{meaning};
ghost use Rattle.doc_edits.specs.Operation.{change};
ghost use Rattle.doc_patch.specs.Meaning.{operations};
ghost use Rattle.doc_patch.specs.Only.{may_change};
ghost use Rattle.doc_patch.specs.Patch.{patch};
ghost use Rattle.doc_tree.specs.Doc.{Doc};

use crate::patch::Patch;
use doc_edits::Operation;

impl Patch {
    /// The one operation that changes anything, if all others are tests. `None` if there are more, or none.
    pub fn only_change(&self) -> Option<&Operation>
        ensures some { IfSome result (λ o. (d e : Doc) → patch (operations self.now) d ≡ Ok e → change (meaning o.now) d ≡ Ok e) }
        ensures none { IfNone result (count_by may_change (operations self.now) ≢ 1) }
    {
        let mut found = None;
        for operation in &self.operations {
            if may_change(operation) {
                if found.is_some() {
                    return None;
                }
                found = Some(operation);
            }
        }
        found
    }
}

// Whether the operation may change something: all but a test may.
fn may_change(operation: &Operation) -> bool
    ensures { result ≡ may_change (meaning operation.now) }
{
    match operation {
        Operation::Test { .. } => false,
        _ => true,
    }
}
