//! The limits of a document: its height, and the length of its text.

ghost use Rattle.std.specs.Option.{ForSome};
ghost use Rattle.doc_edits.specs.SizeChange.{IsGrownFrom, Measures};
ghost use Rattle.doc_edits.specs.Limits.{within_limits};
ghost use Rattle.doc_tree.specs.TreeView.{view};

use crate::fault::OperationFault;
use crate::size_change::{DocumentSize, SizeChange};
use doc_tree::Tree;
use refusals::numbers::{DEPTH, TOO_LARGE};

/// Bytes of a document's compact text at most, after each operation.
pub const DOCUMENT_BYTES: u64 = 1_048_576;

/// How deep arrays and objects of a document nest at most, after each operation.
pub const DOCUMENT_HEIGHT: u64 = 64;

/// The document's measure, if it is within the limits; else `DEPTH` if it is too high, and `TOO_LARGE` if its text is
/// too long. `before` is the measure before the last operation, if the document was within the limits then, and
/// `growth` is what came and went with it. The document is walked over only if `before` is unknown.
pub fn check_limits(
    tree: &Tree,
    before: Option<DocumentSize>,
    growth: SizeChange,
) -> Result<DocumentSize, OperationFault>
    requires { ForSome before (λ m. IsGrownFrom m growth (view tree.now)) }
    ensures { Measures (within_limits (view tree.now)) (view tree.now) result }
{
    match before {
        Some(before) => check_growth(tree, before, growth),
        None => measure(tree),
    }
}

// Judges the limits from what the last operation changed.
fn check_growth(
    tree: &Tree,
    before: DocumentSize,
    growth: SizeChange,
) -> Result<DocumentSize, OperationFault>
    requires { IsGrownFrom before growth (view tree.now) }
    ensures { Measures (within_limits (view tree.now)) (view tree.now) result }
{
    if growth.reach > DOCUMENT_HEIGHT {
        return Err(OperationFault { number: DEPTH });
    }
    let Some(gained) = growth.gained else {
        return Err(OperationFault { number: TOO_LARGE });
    };
    let len = before
        .len
        .saturating_add(gained)
        .saturating_sub(growth.lost);
    if len > DOCUMENT_BYTES {
        return Err(OperationFault { number: TOO_LARGE });
    }
    let most = before.most.max(growth.reach);
    Ok(DocumentSize { len, most })
}

// Judges the limits by a walk over the document.
fn measure(tree: &Tree) -> Result<DocumentSize, OperationFault>
    ensures { Measures (within_limits (view tree.now)) (view tree.now) result }
{
    let most = tree.height();
    if most > DOCUMENT_HEIGHT {
        return Err(OperationFault { number: DEPTH });
    }
    match tree.text_len_within(DOCUMENT_BYTES) {
        Some(len) => Ok(DocumentSize { len, most }),
        None => Err(OperationFault { number: TOO_LARGE }),
    }
}
