//! The frames of the pieces of slots: changes that may be missing elsewhere.
ghost use Rattle.std.specs.Prelude.{◌≡◌, IfOk};

use frame_search::next_frame;
use std::alloc::{AllocError, Global};
use store_parts::Part;

/// A frame of a piece of a slot.
#[derive(Clone, Copy, Debug, PartialEq, Eq)]
pub struct Spare {
    /// The place of the piece among the parts.
    pub part: usize,
    /// The place of the frame's first byte in it.
    pub at: usize,
    pub seq: u64,
    /// The number of the commit.
    pub number: u64,
}

/// The frames of changes in the pieces of commits with a number over that one, in the order of their seqs, and of one seq
/// that of the highest number first. `Err`: memory was refused.
pub fn spare_frames(
    alloc: Global,
    parts: &[Part],
    over: Option<u64>,
) -> Result<Vec<Spare>, AllocError> {
    let mut frames = Vec::new(alloc);
    for place in 0..parts.len() {
        if let Some(number) = piece_number(&parts[place], over) {
            frames = with_frames(alloc, frames, &parts[place].tail, place, number)?;
        }
    }
    Ok(frames)
}

// The number of a piece's commit, if it is over that one.
fn piece_number(part: &Part, over: Option<u64>) -> Option<u64> {
    match (part.counted, part.number, over) {
        (false, Some(number), None) => Some(number),
        (false, Some(number), Some(over)) if over < number => Some(number),
        _ => None,
    }
}

// The frames, and those of the changes in a piece.
fn with_frames(
    alloc: Global,
    frames: Vec<Spare>,
    bytes: &[u8],
    part: usize,
    number: u64,
) -> Result<Vec<Spare>, AllocError> {
    let mut frames = frames;
    let mut from = 0;
    while from < bytes.len() {
        let Some(found) = next_frame(alloc, bytes, 3, from)? else {
            return Ok(frames);
        };
        if !found.kind.is_noted() {
            let frame = Spare {
                part,
                at: found.at,
                seq: found.seq,
                number,
            };
            frames = with_frame(frames, frame)?;
        }
        from = found.at + found.len;
    }
    Ok(frames)
}

// The frames, and that one in its order.
fn with_frame(frames: Vec<Spare>, frame: Spare) -> Result<Vec<Spare>, AllocError> {
    let mut frames = frames;
    let mut place = frames.len();
    while 0 < place && comes_before(frame, frames[place - 1]) {
        place -= 1;
    }
    frames.insert(place, frame)?;
    Ok(frames)
}

// Whether one frame comes before another.
fn comes_before(one: Spare, other: Spare) -> bool {
    one.seq < other.seq || one.seq == other.seq && other.number < one.number
}
