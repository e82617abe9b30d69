//! The frame of a patch in parts that are lent: whoever replays it reads its operations straight to a patch.
ghost use Rattle.std.specs.Prelude.{◌≡◌, ◌≤◌, ◌+◌, None, IfSome};
ghost use Rattle.doc_tree.specs.Doc.{Doc, height};
ghost use Rattle.doc_tree.specs.Sound.{IsSound};
ghost use Rattle.doc_tree.specs.Text.{text_of};
ghost use Rattle.record_text.specs.Change.{patch};
ghost use Rattle.record_text.specs.Fault.{HasBody, stated_len, stated_seq};
ghost use Rattle.record_text.specs.Frame.{BeginsWith, entry};

use crate::plain::patch_parts;
use crate::read::{body_within, seq_within};

/// A frame of a patch that asks for no revision, in parts.
#[derive(Drop)]
pub struct PatchFrame<'b> {
    /// The name of the document.
    pub name: &'b str,
    /// The bytes in the place of the operations. They aren't read.
    pub ops: &'b [u8],
    /// The frame's seq.
    pub seq: u64,
    /// The frame's length in bytes.
    pub len: usize,
}

/// The parts of the frame of format 2 that the bytes begin with, if its change is a patch that asks for no revision.
/// Its operations aren't read: the bytes begin with that frame if `ops` is the compact text of a document at most 126
/// high. It takes no memory.
///
/// `None` says nothing: the bytes begin with no frame, or with one of another change, or the name holds an
/// escape.
pub fn patch_frame(bytes: &[u8]) -> Option<PatchFrame<'_>>
    ensures begins { IfSome result (λ f. (ops : Doc) → f.ops.now ≡ text_of ops → IsSound ops → height ops ≤ 126
        → BeginsWith bytes.now (entry f.seq (patch f.name.now ops None)) f.len) }
    ensures seq { IfSome result (λ f. f.seq ≡ stated_seq bytes.now) }
    ensures len { IfSome result (λ f. HasBody 12 bytes.now × (f.len ≡ 12 + stated_len bytes.now)) }
{
    let Ok(seq) = seq_within(bytes) else {
        return None;
    };
    let Ok(body) = body_within(bytes, 12) else {
        return None;
    };
    let (name, ops) = patch_parts(body)?;
    Some(PatchFrame {
        name,
        ops,
        seq,
        len: 12 + body.len(),
    })
}
