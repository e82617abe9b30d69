//! The lines of the frames among bytes.
ghost use Rattle.std.specs.Prelude.{◌≡◌, ◌≤◌, ◌<◌, ◌+◌, ◌++◌, IfOk, drop, length, take};
ghost use Rattle.frame_search.specs.Places.{IsFrameFormat, head_of};
ghost use Rattle.damaged_files.specs.Frames.{AreFramesFrom, IsFramesText, check_at, frame_head, frame_text, head_at};

use crate::damage::Spot;
use crate::head::{Back, Front, Head};
use crate::place::{Place, place_of};
use frame_search::{Found, next_frame};
use log_frames::Kind;
use std::alloc::{AllocError, Global};
use std::io::Write;
use store_parts::{Check, Part};

/// The lines of the frames of that format in the bytes of a part, from that place of them on.
pub(crate) fn frames_text(
    alloc: Global,
    part: &Part,
    bytes: &[u8],
    version: u32,
    check: Check,
    begin: usize,
) -> Result<Vec<u8>, AllocError>
    requires { IsFrameFormat version }
    ensures { IfOk result (λ text. IsFramesText version part.now bytes.now check begin text.items) }
{
    let mut text = Vec::new(alloc);
    let mut from = begin;
    while from < bytes.len() {
        let Some(found) = next_frame(alloc, bytes, version, from)? else {
            return Ok(text);
        };
        let Found {
            at,
            len,
            kind,
            seq,
            command,
        } = found;
        drop(command);
        text = with_frame(
            text,
            part,
            bytes,
            version,
            check,
            FramePlace { at, len, kind, seq },
        )?;
        from = at + len;
    }
    Ok(text)
}

// How many bytes of a frame come before its body.
fn head_of(version: u32) -> usize
    ensures { result ≡ head_of version }
{
    if version == 1 { 4 } else { 12 }
}

// A frame among bytes: the place of its first byte, its length, its kind and its seq.
#[derive(Clone, Copy)]
struct FramePlace {
    at: usize,
    len: usize,
    kind: Kind,
    seq: u64,
}

// The text, and after it the line of a frame among the bytes.
fn with_frame(
    text: Vec<u8>,
    part: &Part,
    bytes: &[u8],
    version: u32,
    check: Check,
    place: FramePlace,
) -> Result<Vec<u8>, AllocError>
    requires headed { head_of version ≤ place.len }
    requires within { place.at + place.len ≤ length bytes.now }
    ensures { IfOk result (λ longer. longer.items ≡ text.items ++ frame_text part.now check place.at place.kind place.seq (drop (head_of version) (take place.len (drop place.at bytes.now)))) }
{
    let frame = &bytes[place.at..place.at + place.len];
    let mut text = with_head(text, part, check, place)?;
    text.extend_from_slice(&frame[head_of(version)..])?;
    text.extend_from_slice(b"}\n")?;
    Ok(text)
}

// The text, and after it the line of a frame up to its body.
fn with_head(
    text: Vec<u8>,
    part: &Part,
    check: Check,
    frame: FramePlace,
) -> Result<Vec<u8>, AllocError>
    ensures { IfOk result (λ longer. longer.items ≡ text.items ++ frame_head part.now check frame.at frame.kind frame.seq) }
{
    let mut text = text;
    let head = head_at(part, check, frame);
    match write!(text, "{head}") {
        Ok(()) => Ok(text),
        Err(_) => Err(AllocError),
    }
}

// What is known of the checksum of a frame: each sector of a slot has its own.
fn check_at(part: &Part, check: Check, at: usize) -> Check
    ensures { result ≡ check_at part.now check at }
{
    if (at as u64) < part.len {
        check
    } else {
        Check::Held
    }
}

// The head of a frame's line.
fn head_at(part: &Part, check: Check, frame: FramePlace) -> Head
    ensures { result ≡ head_at part.now check frame.at frame.kind frame.seq }
{
    let Place { sector, byte } = place_of(part, frame.at as u64);
    Head {
        front: Front {
            byte,
            check: check_at(part, check, frame.at),
            counted: part.counted,
        },
        back: Back {
            half: part.half,
            spot: Spot {
                sector,
                seq: frame.seq,
            },
        },
        kind: frame.kind,
    }
}
