//! The lines by which documents are loaded again.
ghost use Rattle.std.specs.Prelude.{◌≡◌, IfOk};
ghost use Rattle.doc_changes.specs.State.{Good};
ghost use Rattle.store_salvage.specs.Lines.{lines_of_documents};

use doc_machine::Documents;
use doc_machine::laws::storable_documents_are_framed;
use record_text::creation_frame;
use std::alloc::{AllocError, Global};

/// For each document, in the order of creation, the line of the command that makes it under its schema. No document is
/// copied. `Err`: memory was refused.
pub fn lines(alloc: Global, look: &Documents<'_>) -> Result<Vec<u8>, AllocError>
    ensures lines { IfOk result (λ lines. lines.items ≡ lines_of_documents look.now.documents) }
    ensures good { Good look.now }
{
    // A frame has room for each document that a store holds.
    storable_documents_are_framed();
    let mut lines = Vec::new(alloc);
    for place in 0..look.len() {
        let lent = look.at(place);
        let frame = creation_frame(alloc, lent.name, lent.schema, lent.doc, lent.revision)?;
        lines.extend_from_slice(&frame[12..])?;
        lines.push(b'\n')?;
    }
    Ok(lines)
}
