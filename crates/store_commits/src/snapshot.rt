//! The bytes of a snapshot.
ghost use Rattle.std.specs.Prelude.{◌≡◌, ◌≤◌, IfOk, length, map};
ghost use Rattle.std.specs.List.{AllByRecursion};
ghost use Rattle.record_text.specs.Frame.{body_of};
ghost use Rattle.doc_changes.specs.Marks.{IsMark};
ghost use Rattle.doc_changes.specs.MarkView.{mark_in};
ghost use Rattle.doc_changes.specs.State.{Good};
ghost use Rattle.doc_changes.specs.StateView.{lent_of};
ghost use Rattle.store_commits.specs.Snapshot.{creation_of, mark_bytes, snapshot_bytes, snapshot_frame};

use crate::laws::marks_are_framed;
use doc_machine::laws::storable_documents_are_framed;
use doc_machine::{Documents, Lent, Mark};
use log_frames::{kept_frame, noted_frame};
use record_text::creation_frame;
use std::alloc::{AllocError, Global};

/// The frames of all marks, the one that was set first is the first, and then those of the creations of all documents, in
/// their order, each with its present schema and its document's revision: the bytes of the snapshot, in format 3 if
/// `rides`, else in format 2, which has no marks. No document is copied.
pub fn creations(alloc: Global, look: &Documents<'_>, rides: bool) -> Result<Vec<u8>, AllocError>
    ensures frames { IfOk result (λ frames. frames.items ≡ snapshot_bytes rides look.now.documents look.now.marks) }
    ensures good { Good look.now }
{
    // A frame has room for each document that a store holds.
    storable_documents_are_framed();
    let documents = look.len();
    let mut frames = mark_frames(alloc, look.marks().as_slice(), rides)?;
    for place in 0..documents {
        let lent = look.at(place);
        let frame = snapshot_frame(alloc, &lent, rides)?;
        frames.extend_from_slice(&frame)?;
    }
    Ok(frames)
}

// The frames of marks, in their order. Format 2 has none.
fn mark_frames(alloc: Global, marks: &[Mark], rides: bool) -> Result<Vec<u8>, AllocError>
    requires { AllByRecursion IsMark (map mark_in marks.now) }
    ensures { IfOk result (λ frames. frames.items ≡ mark_bytes rides (map mark_in marks.now)) }
{
    marks_are_framed();
    let mut frames = Vec::new(alloc);
    if !rides {
        return Ok(frames);
    }
    for mark in marks {
        let frame = noted_frame(alloc, &mark.key, &mark.value, mark.seq)?;
        frames.extend_from_slice(&frame)?;
    }
    Ok(frames)
}

// The frame of the creation of a document.
fn snapshot_frame(alloc: Global, lent: &Lent<'_>, rides: bool) -> Result<Vec<u8>, AllocError>
    requires { length (body_of (creation_of (lent_of lent.now)).change) ≤ 4194304 }
    ensures { IfOk result (λ frame. frame.items ≡ snapshot_frame rides (lent_of lent.now)) }
{
    if rides {
        kept_frame(alloc, lent.name, lent.schema, lent.doc, lent.revision)
    } else {
        creation_frame(alloc, lent.name, lent.schema, lent.doc, lent.revision)
    }
}
