//! The reading of the command whose frame some bytes begin with.
ghost use Rattle.std.specs.Prelude.{◌≡◌, ◌≢◌, ◌<◌, ◌≤◌, ℕ, IfOk, IfErr, MatchResult, length};
ghost use Rattle.doc_tree.specs.TreeView.{view};
ghost use Rattle.record_text.specs.Change.{Change, change_of, object_of};
ghost use Rattle.record_text.specs.Fault.{IsBodyFault, IsHeadFault, IsReadFault, IsReadFault_1, IsTextFault, IsTextOf, HasBody};
ghost use Rattle.record_text.specs.Fault.{stated_body, stated_len, stated_seq};
ghost use Rattle.record_text.specs.Frame.{BeginsWith, BeginsWith_1, Entry, entry};
ghost use Rattle.record_text.specs.declared.fault.RecordFault.TheVariants.{Memory, Short};

use crate::command::Command;
use crate::fault::RecordFault;
use crate::limits::BODY_LIMIT;
use crate::plain::{plain_patch, plain_tree};
use crate::shape::command_from;
use doc_tree::Tree;
use refusals::numbers::MEMORY;
use std::alloc::Global;

/// The command whose frame the bytes begin with in format 2, the frame's seq, and its length in bytes.
///
/// `Short` if there are fewer than 12 bytes; `Long` if the length that they state is over `BODY_LIMIT`; `Short` if
/// fewer bytes follow than it states; `Text` if these aren't the compact text of a document at most 127 high, each in
/// its one spelling; `Shape` if that document is no command's object; in this order. `Memory` may come in place of any
/// answer.
pub fn read_frame(alloc: Global, bytes: &[u8]) -> Result<(Command, u64, usize), RecordFault>
    ensures ok { IfOk result (λ r. BeginsWith bytes.now (entry r.1 (change_of r.0)) r.2) }
    ensures err { IfErr result (λ e. IsReadFault e bytes.now) }
    ensures read { (e : Entry) (n : ℕ) → BeginsWith bytes.now e n
        → MatchResult result (λ r. (entry r.1 (change_of r.0) ≡ e) × (r.2 ≡ n)) (λ f. f ≡ Memory) }
{
    let seq = seq_within(bytes)?;
    let body = body_within(bytes, 12)?;
    let command = read_body(alloc, body)?;
    Ok((command, seq, 12 + body.len()))
}

/// The command whose frame the bytes begin with in format 1, and the frame's length in bytes.
///
/// The faults are those of `read_frame`, except that 4 bytes come before the body, and `Shape` is also answered for a
/// command that asks for a revision.
pub fn read_frame_1(alloc: Global, bytes: &[u8]) -> Result<(Command, usize), RecordFault>
    ensures ok { IfOk result (λ r. BeginsWith_1 bytes.now (change_of r.0) r.1) }
    ensures err { IfErr result (λ e. IsReadFault_1 e bytes.now) }
    ensures read { (c : Change) (n : ℕ) → BeginsWith_1 bytes.now c n
        → MatchResult result (λ r. (change_of r.0 ≡ c) × (r.1 ≡ n)) (λ e. e ≡ Memory) }
{
    let body = body_within(bytes, 4)?;
    let command = read_body(alloc, body)?;
    if !command.asks_none() {
        return Err(RecordFault::Shape);
    }
    Ok((command, 4 + body.len()))
}

/// The seq between the length and the body of format 2.
pub(crate) fn seq_within(bytes: &[u8]) -> Result<u64, RecordFault>
    ensures { MatchResult result (λ seq. (12 ≤ length bytes.now) × (seq ≡ stated_seq bytes.now))
        (λ e. (e ≡ Short) × (length bytes.now < 12)) }
{
    let Some((_, rest)) = bytes.split_first_chunk::<4>() else {
        return Err(RecordFault::Short);
    };
    let Some((seq, _)) = rest.split_first_chunk::<8>() else {
        return Err(RecordFault::Short);
    };
    Ok(u64::from_be_bytes(*seq))
}

/// The body after a head of `head` bytes, the first four of which say how long it is.
pub(crate) fn body_within(bytes: &[u8], head: usize) -> Result<&[u8], RecordFault>
    requires { 4 ≤ head }
    ensures { MatchResult result
        (λ body. HasBody head bytes.now × (body.now ≡ stated_body head bytes.now)
        × (length body.now ≡ stated_len bytes.now))
        (λ e. (e ≢ Memory) × IsHeadFault head e bytes.now) }
{
    let Some(rest) = bytes.get(head..) else {
        return Err(RecordFault::Short);
    };
    let Some((len, _)) = bytes.split_first_chunk::<4>() else {
        return Err(RecordFault::Short);
    };
    let len = u32::from_be_bytes(*len) as usize;
    if len > BODY_LIMIT {
        return Err(RecordFault::Long);
    }
    if rest.len() < len {
        return Err(RecordFault::Short);
    }
    Ok(&rest[..len])
}

/// The command whose object a body is the compact text of.
///
/// `Text` if the body isn't the compact text of a document at most 127 high, in its one spelling; `Shape` if that
/// document is no command's object; in this order. `Memory` may come in place of any answer.
pub fn read_body(alloc: Global, body: &[u8]) -> Result<Command, RecordFault>
    ensures { MatchResult result (λ c. IsTextOf body.now (object_of (change_of c))) (λ e. IsBodyFault e body.now) }
{
    if let Some(command) = plain_patch(alloc, body) {
        return Ok(command);
    }
    let tree = spelled_tree(alloc, body)?;
    command_from(tree).ok_or(RecordFault::Shape)
}

// The tree whose compact text the bytes are: what is read is written again, since other spellings are
// read too.
fn spelled_tree(alloc: Global, bytes: &[u8]) -> Result<Tree, RecordFault>
    ensures { MatchResult result (λ t. IsTextOf bytes.now (view t)) (λ e. IsTextFault e bytes.now) }
{
    if let Some(tree) = plain_tree(alloc, bytes) {
        return Ok(tree);
    }
    let tree = match Tree::read(alloc, bytes) {
        Ok(tree) => tree,
        Err(fault) if fault.number == MEMORY => return Err(RecordFault::Memory),
        Err(_) => return Err(RecordFault::Text),
    };
    let text = tree.text(alloc)?;
    if text.as_slice() != bytes {
        return Err(RecordFault::Text);
    }
    Ok(tree)
}
