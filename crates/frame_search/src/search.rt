//! The search for the next frame.
ghost use Rattle.std.specs.Prelude.{◌≡◌, ◌≤◌, ◌<◌, ℕ, IfOk, IfSome, MatchOption, MatchResult, length};
ghost use Rattle.record_text.specs.Change.{change_of};
ghost use Rattle.record_text.specs.Frame.{entry};
ghost use Rattle.record_text.specs.declared.fault.RecordFault.TheVariants.{Memory};
ghost use Rattle.log_frames.specs.Kinds.{Logged, logged};
ghost use Rattle.frame_search.specs.Places.{Begins, IsFirstFrom, IsFrameFormat, StandsAt, logged_in, place_in};

use crate::plain::is_plain;
use log_frames::{Kind, read_frame_as};
use record_text::{Command, RecordFault, read_frame, read_frame_1};
use std::alloc::{AllocError, Global};

/// A frame that was found.
#[derive(Drop)]
pub struct Found {
    /// The place of its first byte.
    pub at: usize,
    /// Its length in bytes.
    pub len: usize,
    /// What it holds; `Last` in formats 1 and 2, which don't say.
    pub kind: Kind,
    /// Its seq; 0 in format 1, which has none.
    pub seq: u64,
    /// Its command; of a mark, the creation that spells it.
    pub command: Command,
}

/// The first frame of that format in the bytes at `from` or after it. `Err`: memory was refused.
pub fn next_frame(
    alloc: Global,
    bytes: &[u8],
    version: u32,
    from: usize,
) -> Result<Option<Found>, AllocError>
    requires { IsFrameFormat version }
    ensures found { IfOk result (λ found. IfSome found (λ f. (from ≤ f.at) × StandsAt version bytes.now f.at (logged_in f) f.len)) }
    ensures first { IfOk result (λ found. IsFirstFrom version bytes.now from (place_in found (length bytes.now))) }
{
    let mut at = from;
    while at < bytes.len() {
        if let Some(found) = frame_at(alloc, bytes, version, at)? {
            return Ok(Some(found));
        }
        at += 1;
    }
    Ok(None)
}

// The frame at that place.
fn frame_at(
    alloc: Global,
    bytes: &[u8],
    version: u32,
    at: usize,
) -> Result<Option<Found>, AllocError>
    requires format { IsFrameFormat version }
    requires inside { at < length bytes.now }
    ensures { IfOk result (λ found. MatchOption found ((l : Logged) (n : ℕ) → StandsAt version bytes.now at l n → ⊥)
        (λ f. (f.at ≡ at) × StandsAt version bytes.now at (logged_in f) f.len)) }
{
    let rest = &bytes[at..];
    if !is_plain(rest, version) {
        return Ok(None);
    }
    match entry_at(alloc, rest, version) {
        Ok((kind, command, seq, len)) => Ok(Some(Found {
            at,
            len,
            kind,
            seq,
            command,
        })),
        Err(RecordFault::Memory) => Err(AllocError),
        Err(_) => Ok(None),
    }
}

// What the frame of that format holds that the bytes begin with, and its length.
fn entry_at(
    alloc: Global,
    bytes: &[u8],
    version: u32,
) -> Result<(Kind, Command, u64, usize), RecordFault>
    requires { IsFrameFormat version }
    ensures ok { IfOk result (λ r. Begins version bytes.now (logged r.0 (entry r.2 (change_of r.1))) r.3) }
    ensures read { (l : Logged) (n : ℕ) → Begins version bytes.now l n
        → MatchResult result (λ r. (logged r.0 (entry r.2 (change_of r.1)) ≡ l) × (r.3 ≡ n)) (λ f. f ≡ Memory) }
{
    if version == 3 {
        return read_frame_as(alloc, bytes);
    }
    if version == 1 {
        return entry_in_1(alloc, bytes);
    }
    entry_in_2(alloc, bytes)
}

// The same in format 1.
fn entry_in_1(alloc: Global, bytes: &[u8]) -> Result<(Kind, Command, u64, usize), RecordFault>
    ensures ok { IfOk result (λ r. Begins 1 bytes.now (logged r.0 (entry r.2 (change_of r.1))) r.3) }
    ensures read { (l : Logged) (n : ℕ) → Begins 1 bytes.now l n
        → MatchResult result (λ r. (logged r.0 (entry r.2 (change_of r.1)) ≡ l) × (r.3 ≡ n)) (λ f. f ≡ Memory) }
{
    let (command, len) = read_frame_1(alloc, bytes)?;
    Ok((Kind::Last, command, 0, len))
}

// The same in format 2.
fn entry_in_2(alloc: Global, bytes: &[u8]) -> Result<(Kind, Command, u64, usize), RecordFault>
    ensures ok { IfOk result (λ r. Begins 2 bytes.now (logged r.0 (entry r.2 (change_of r.1))) r.3) }
    ensures read { (l : Logged) (n : ℕ) → Begins 2 bytes.now l n
        → MatchResult result (λ r. (logged r.0 (entry r.2 (change_of r.1)) ≡ l) × (r.3 ≡ n)) (λ f. f ≡ Memory) }
{
    let (command, seq, len) = read_frame(alloc, bytes)?;
    Ok((Kind::Last, command, seq, len))
}
