//! The history of a store that was opened, from the bytes of its log.
ghost use Rattle.std.specs.Prelude.{◌≡◌, ◌+◌, ◌<◌, ◌++◌, ◌∷◌, [], ℕ, List, length, if◌then◌else◌, IfOk, MatchOption, OnSome};
ghost use Rattle.std.specs.Option.{option_map};
ghost use Rattle.log_frames.specs.Kinds.{frames_as, is_noted};
ghost use Rattle.log_frames.specs.Log.{IsLog, Log, Transacted, log_bytes, logged_each, logged_transacted};
ghost use Rattle.told_transactions.specs.Begun.{AreLogged, BeginsWithBytes, IsFilled, IsNumbered};

use crate::frame::{Frame, first_frame};
use change_history::{Frames, History, Told};
use log_frames::Kind;
use std::alloc::{AllocError, Global};

/// The history of at most `limit` bytes of a log that ends with the change of number `last`. It has the transactions of
/// the log, if their changes are numbered one after another up to `last`; else none, and begins there.
pub fn history_of_log(
    alloc: Global,
    limit: u64,
    last: u64,
    bytes: &[u8],
) -> Result<History, AllocError>
    requires { (log : Log) × IsLog log × (log_bytes log ≡ bytes.now) }
    ensures { IfOk result (λ history. BeginsWithBytes limit last bytes.now history.history) }
{
    let Some(history) = filled(alloc, limit, after_snapshot(bytes))? else {
        return Ok(History::new(alloc, limit, last));
    };
    if history.newest() == last {
        Ok(history)
    } else {
        Ok(History::new(alloc, limit, last))
    }
}

// The bytes of a log after its snapshot.
fn after_snapshot(bytes: &[u8]) -> &[u8]
    ensures { (log : Log) → IsLog log → log_bytes log ≡ bytes.now → result.now ≡ frames_as (logged_each log.transactions) }
{
    let mut rest = bytes;
    'frames: while let Some((frame, behind)) = first_frame(rest) {
        match frame.kind {
            Kind::Kept | Kind::Noted => rest = behind,
            Kind::Last | Kind::More => return rest,
        }
    }
    rest
}

// The history of the transactions whose frames these are. `None` if there is none, or their changes aren't numbered one
// after another.
fn filled(alloc: Global, limit: u64, bytes: &[u8]) -> Result<Option<History>, AllocError>
    requires { (ts : List Transacted) × AreLogged ts × (frames_as (logged_each ts) ≡ bytes.now) }
    ensures { (ts : List Transacted) → AreLogged ts → frames_as (logged_each ts) ≡ bytes.now → IfOk result (λ filled. IsFilled limit ts (option_map (λ h. h.history) filled)) }
{
    let Some(floor) = number_before(bytes) else {
        return Ok(None);
    };
    let mut history = History::new(alloc, limit, floor);
    let mut rest = bytes;
    'transactions: while !rest.is_empty() {
        let Some((last, length)) = transaction_at(rest, history.newest()) else {
            return Ok(None);
        };
        let (first, behind) = rest.split_at(length);
        let frames = copied(alloc, first)?;
        history.reserve(1)?;
        history.push(Told {
            last,
            frames: Frames::own(frames),
        });
        rest = behind;
    }
    Ok(Some(history))
}

// The number before that of the first frame.
fn number_before(bytes: &[u8]) -> Option<u64>
    ensures number { (t : Transacted) (more : List Transacted) → AreLogged (t ∷ more) → frames_as (logged_each (t ∷ more)) ≡ bytes.now
        → MatchOption result ((floor : ℕ) → IsNumbered floor t → ⊥) (λ before. (floor : ℕ) → IsNumbered floor t → before ≡ floor) }
    ensures some { OnSome result (0 < length bytes.now) }
{
    let (frame, _) = first_frame(bytes)?;
    frame.seq.checked_sub(1)
}

// The number of the last change of the first transaction, and how many bytes its frames have. `None` if its changes aren't
// numbered one after another from over `before` on, or its mark has another number than the last of them.
fn transaction_at(bytes: &[u8], before: u64) -> Option<(u64, usize)>
    ensures { (t : Transacted) (rest : List ℕ) → AreLogged (t ∷ []) → bytes.now ≡ frames_as (logged_transacted t) ++ rest
        → MatchOption result (IsNumbered before t → ⊥)
        (λ r. IsNumbered before t × (r.0 ≡ before + length t.changes) × (r.1 ≡ length (frames_as (logged_transacted t)))) }
{
    let mut last = before;
    let mut rest = bytes;
    'frames: while let Some((frame, behind)) = first_frame(rest) {
        let Some(next) = number_after(last, &frame) else {
            return None;
        };
        last = next;
        rest = behind;
        match frame.kind {
            Kind::Last | Kind::Noted => return Some((last, bytes.len() - rest.len())),
            Kind::More | Kind::Kept => {}
        }
    }
    None
}

// The number of the last change, with that of this frame. `None` if it hasn't the number that comes next.
fn number_after(last: u64, frame: &Frame<'_>) -> Option<u64>
    ensures { let next = if is_noted frame.now.kind then last else last + 1 in MatchOption result (frame.now.seq ≡ next → ⊥) (λ n. (n ≡ next) × (frame.now.seq ≡ next)) }
{
    let before = if frame.kind.is_noted() {
        frame.seq
    } else {
        frame.seq.checked_sub(1)?
    };
    if before == last {
        Some(frame.seq)
    } else {
        None
    }
}

// The same bytes in memory of their own.
fn copied(alloc: Global, bytes: &[u8]) -> Result<Vec<u8>, AllocError>
    ensures { IfOk result (λ copy. copy.items ≡ bytes.now) }
{
    let mut copy = Vec::with_capacity(alloc, bytes.len())?;
    copy.extend_from_slice(bytes)?;
    Ok(copy)
}
