//! The frames of transactions, cut by the lengths that they state.
ghost use Rattle.std.specs.Prelude.{◌≡◌, ◌+◌, ◌++◌, ◌<◌, ◌^◌, List, ℕ, length, IfSome, IsSomeAnd, MatchOption};
ghost use Rattle.log_frames.specs.Kinds.{Logged, code_of, frame_as};
ghost use Rattle.record_text.specs.Frame.{IsFramed, body_of};

use log_frames::Kind;

// One more than the highest length that 3 bytes state.
const LENGTHS: u32 = 1 << 24;

/// A frame, which lends its body.
#[derive(Clone, Copy, Drop)]
pub struct Frame<'b> {
    /// What it holds.
    pub kind: Kind,
    /// The number of its change, or, if it holds a mark, of the last change of its transaction.
    pub seq: u64,
    /// The text of its change.
    pub body: &'b [u8],
}

/// The frame that the bytes begin with, and the bytes after it. Its body isn't read.
///
/// `None` if they begin with no frame.
pub fn first_frame(bytes: &[u8]) -> Option<(Frame<'_>, &[u8])>
    ensures begins { (l : Logged) (rest : List ℕ) → IsFramed l.entry.change → l.entry.seq < 2 ^ 64 → bytes.now ≡ frame_as l ++ rest
        → IsSomeAnd result (λ r. (r.0.kind ≡ l.kind) × (r.0.seq ≡ l.entry.seq) × (r.0.body.now ≡ body_of l.entry.change) × (r.1.now ≡ rest)) }
    ensures length { IfSome result (λ r. length bytes.now ≡ 12 + length r.0.body.now + length r.1.now) }
{
    let (head, rest) = bytes.split_first_chunk::<4>()?;
    let (seq, rest) = rest.split_first_chunk::<8>()?;
    let stated = u32::from_be_bytes(*head);
    let kind = kind_of((stated / LENGTHS) as u8)?;
    let length = (stated % LENGTHS) as usize;
    if rest.len() < length {
        return None;
    }
    let (body, behind) = rest.split_at(length);
    let frame = Frame {
        kind,
        seq: u64::from_be_bytes(*seq),
        body,
    };
    Some((frame, behind))
}

// The kind whose code the byte is.
fn kind_of(code: u8) -> Option<Kind>
    ensures { MatchOption result (3 < code) (λ kind. code_of kind ≡ code) }
{
    match code {
        0 => Some(Kind::Last),
        1 => Some(Kind::More),
        2 => Some(Kind::Kept),
        3 => Some(Kind::Noted),
        _ => None,
    }
}
