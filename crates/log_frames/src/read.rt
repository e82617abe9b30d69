//! The reading of the command whose frame some bytes begin with.
ghost use Rattle.std.specs.Prelude.{◌≡◌, ◌≢◌, ◌<◌, ◌≤◌, ◌+◌, ◌/◌, ◌%◌, ◌^◌, ◌⊎◌, ℕ, None};
ghost use Rattle.std.specs.Prelude.{IfErr, IfOk, IfSome, MatchResult};
ghost use Rattle.doc_tree.specs.Doc.{Doc, height};
ghost use Rattle.doc_tree.specs.Sound.{IsSound};
ghost use Rattle.doc_tree.specs.Text.{text_of};
ghost use Rattle.record_text.specs.Change.{change_of, patch};
ghost use Rattle.record_text.specs.Fault.{stated_seq};
ghost use Rattle.record_text.specs.Frame.{entry};
ghost use Rattle.record_text.specs.declared.fault.RecordFault.TheVariants.{Long, Memory};
ghost use Rattle.log_frames.specs.Fault.{AreStated, HasBodyAs, IsFaultAs, IsHeadFaultAs, stated_code, stated_length};
ghost use Rattle.log_frames.specs.Kinds.{BeginsAs, Logged, code_of, logged};

use crate::kind::Kind;
use record_text::limits::BODY_LIMIT;
use record_text::{Command, PatchFrame, RecordFault, patch_parts, read_body};
use std::alloc::Global;

// One more than the highest length that 3 bytes state.
const LENGTHS: u32 = 1 << 24;

/// What the frame holds that the bytes begin with, its command, its seq, and its length in bytes.
///
/// `Short` if there are fewer than 12 bytes; `Long` if the first byte is no kind's, or the length that the next three
/// state is over `BODY_LIMIT`; `Short` if fewer bytes follow than they state; `Text` if these aren't the compact text of
/// a document at most 127 high, each in its one spelling; `Shape` if that document is no command's object; in this
/// order. `Memory` may come in place of any answer.
pub fn read_frame_as(
    alloc: Global,
    bytes: &[u8],
) -> Result<(Kind, Command, u64, usize), RecordFault>
    ensures ok { IfOk result (λ r. BeginsAs bytes.now (logged r.0 (entry r.2 (change_of r.1))) r.3) }
    ensures err { IfErr result (λ e. IsFaultAs e bytes.now) }
    ensures read { (l : Logged) (n : ℕ) → BeginsAs bytes.now l n
        → MatchResult result (λ r. (logged r.0 (entry r.2 (change_of r.1)) ≡ l) × (r.3 ≡ n)) (λ f. f ≡ Memory) }
{
    let parts = parts_within(bytes)?;
    let command = read_body(alloc, parts.body)?;
    Ok((parts.kind, command, parts.seq, 12 + parts.body.len()))
}

/// What the frame holds that the bytes begin with, and its parts, if its change is a patch that asks for no revision. Its
/// operations aren't read: the bytes begin with that frame if `ops` is the compact text of a document at most 126 high.
/// It takes no memory.
///
/// `None` says nothing: the bytes begin with no frame, or with one of another change, or the name holds an escape.
pub fn patch_frame_as(bytes: &[u8]) -> Option<(Kind, PatchFrame<'_>)>
    ensures begins { IfSome result (λ r. (ops : Doc) → r.1.ops.now ≡ text_of ops → IsSound ops → height ops ≤ 126
        → BeginsAs bytes.now (logged r.0 (entry r.1.seq (patch r.1.name.now ops None))) r.1.len) }
    ensures head { IfSome result (λ r. HasBodyAs bytes.now × (code_of r.0 ≡ stated_code bytes.now)
        × (r.1.seq ≡ stated_seq bytes.now) × (r.1.len ≡ 12 + stated_length bytes.now)) }
{
    let Ok(parts) = parts_within(bytes) else {
        return None;
    };
    let (name, ops) = patch_parts(parts.body)?;
    let frame = PatchFrame {
        name,
        ops,
        seq: parts.seq,
        len: 12 + parts.body.len(),
    };
    Some((parts.kind, frame))
}

// The parts of a frame. Its body isn't read.
#[derive(Clone, Copy, Drop)]
struct Parts<'b> {
    kind: Kind,
    seq: u64,
    body: &'b [u8],
}

// The parts of the frame that the bytes begin with.
fn parts_within(bytes: &[u8]) -> Result<Parts<'_>, RecordFault>
    ensures { MatchResult result (λ p. AreStated p.kind p.seq p.body.now bytes.now)
        (λ e. (e ≢ Memory) × IsHeadFaultAs e bytes.now) }
{
    let Some((first, rest)) = bytes.split_first_chunk::<4>() else {
        return Err(RecordFault::Short);
    };
    let Some((seq, rest)) = rest.split_first_chunk::<8>() else {
        return Err(RecordFault::Short);
    };
    let (kind, len) = kind_and_length(u32::from_be_bytes(*first))?;
    if rest.len() < len {
        return Err(RecordFault::Short);
    }
    Ok(Parts {
        kind,
        seq: u64::from_be_bytes(*seq),
        body: &rest[..len],
    })
}

// The kind and the length that the first four bytes state together.
fn kind_and_length(stated: u32) -> Result<(Kind, usize), RecordFault>
    ensures { MatchResult result
        (λ r. (code_of r.0 ≡ stated / 2 ^ 24) × (r.1 ≡ stated % 2 ^ 24) × (r.1 ≤ 4194304))
        (λ e. (e ≡ Long) × ((3 < stated / 2 ^ 24) ⊎ (4194304 < stated % 2 ^ 24))) }
{
    let len = (stated % LENGTHS) as usize;
    match Kind::of_code((stated / LENGTHS) as u8) {
        Some(kind) if len <= BODY_LIMIT => Ok((kind, len)),
        _ => Err(RecordFault::Long),
    }
}
