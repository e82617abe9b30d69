//! The reply line with the transactions after a change, written from their frames.
ghost use Rattle.std.specs.Prelude.{◌≡◌, ◌⊎◌, ◌++◌, ◌∷◌, [], ◌<◌, ◌≤◌, false, ℕ, List, Option, string_bytes, length, IfOk, MatchOption, MatchResult};
ghost use Rattle.std.specs.Option.{option_map};
ghost use Rattle.std.specs.VecDeque.Iter.{deque_iter_rest};
ghost use Rattle.serde_json.specs.Written.{comma_if};
ghost use Rattle.doc_tree.specs.Doc.{text};
ghost use Rattle.doc_tree.specs.Text.{elements_text, text_of};
ghost use Rattle.doc_tree.specs.TreeView.{view};
ghost use Rattle.log_frames.specs.Kinds.{Logged, frames_as, note};
ghost use Rattle.record_text.specs.Frame.{body_of};
ghost use Rattle.refusals.specs.declared.numbers.TheConstants.{MEMORY, REPLY_LONG};
ghost use Rattle.doc_changes.specs.Marks.{IsMark, Mark};
ghost use Rattle.doc_changes.specs.Refusals.{plain};
ghost use Rattle.doc_machine.specs.Transaction.{IsNoted, Transaction};
ghost use Rattle.protocol.specs.Changes.{AreToldFrom, changes_reply, gone_reply, transaction_object, transaction_objects};
ghost use Rattle.protocol.specs.Frames.{CanBeRead, changes_before, note_in, note_of};
ghost use Rattle.protocol.specs.Reply.{line_of};
ghost use Rattle.protocol.specs.Request.{objects_of};
ghost use Rattle.protocol.specs.Written.{identity_text, mark_text};
ghost use Rattle.protocol.specs.declared.limits.TheConstants.{REPLY_BYTES};

use crate::limits::REPLY_BYTES;
use crate::mark_lines::{with_number, with_quoted};
use crate::nodes::with_bytes;
use change_history::Told;
use doc_machine::Refusal;
use doc_tree::Tree;
use record_text::{Command, read_body};
use refusals::numbers::REPLY_LONG;
use std::alloc::{AllocError, Global};
use std::collections::vec_deque::Iter;
use told_transactions::first_frame;

/// The line of the reply with these transactions, which come after the change of number `from`. `seq` is the number
/// of the store's last change, and `identity` the text of its identity, if it has one.
///
/// Refuses with `REPLY_LONG` if its text would be over the limit.
pub fn changes_line(
    alloc: Global,
    told: Iter<'_, Told>,
    from: u64,
    seq: u64,
    identity: Option<&str>,
) -> Result<Vec<u8>, Refusal>
    requires { (ts : List Transaction) × AreToldFrom from (deque_iter_rest told) ts }
    ensures { (ts : List Transaction) → AreToldFrom from (deque_iter_rest told.entry) ts
        → let reply = changes_reply (option_map (λ id. id.now) identity.entry) seq from ts in MatchResult result
        (λ line. (line.items ≡ line_of reply) × (length (text_of reply) ≤ REPLY_BYTES))
        (λ r. ((r ≡ plain REPLY_LONG) × (REPLY_BYTES < length (text_of reply))) ⊎ (r ≡ plain MEMORY)) }
{
    let whole = whole_line(alloc, told, from, seq, identity)?;
    // The line feed is no part of the text.
    if whole.len() as u64 > REPLY_BYTES + 1 {
        return Err(Refusal::plain(REPLY_LONG));
    }
    Ok(whole)
}

/// The line of the reply that says that what was asked for is gone: only the transactions after the change of number
/// `from` are known.
pub fn gone_line(alloc: Global, from: u64, seq: u64) -> Result<Vec<u8>, AllocError>
    ensures { IfOk result (λ line. line.items ≡ line_of (gone_reply seq from)) }
{
    let opened = begun(alloc, b"{\"from\":")?;
    let numbered = with_number(opened, from)?;
    let parted = with_bytes(numbered, b",\"gone\":true,\"ok\":true,\"seq\":")?;
    let counted = with_number(parted, seq)?;
    with_bytes(counted, b"}\n")
}

// A line that begins with these bytes.
fn begun(alloc: Global, bytes: &[u8]) -> Result<Vec<u8>, AllocError>
    ensures { IfOk result (λ line. line.items ≡ bytes.now) }
{
    with_bytes(Vec::new(alloc), bytes)
}

// The line, whatever its length.
fn whole_line(
    alloc: Global,
    told: Iter<'_, Told>,
    from: u64,
    seq: u64,
    identity: Option<&str>,
) -> Result<Vec<u8>, AllocError>
    requires { (ts : List Transaction) × AreToldFrom from (deque_iter_rest told) ts }
    ensures { (ts : List Transaction) → AreToldFrom from (deque_iter_rest told.entry) ts
        → IfOk result (λ line. line.items ≡ line_of (changes_reply (option_map (λ id. id.now) identity.entry) seq from ts)) }
{
    let opened = begun(alloc, b"{\"changes\":[")?;
    let listed = with_transactions(alloc, opened, told, from)?;
    let named = with_identity(listed, identity)?;
    let parted = with_bytes(named, b",\"ok\":true,\"seq\":")?;
    let counted = with_number(parted, seq)?;
    with_bytes(counted, b"}\n")
}

// The line with the store's identity, if it has one.
fn with_identity(line: Vec<u8>, identity: Option<&str>) -> Result<Vec<u8>, AllocError>
    ensures { IfOk result (λ longer. longer.items ≡ line.items ++ identity_text (option_map (λ id. id.now) identity.entry)) }
{
    match identity {
        Some(identity) => with_quoted(with_bytes(line, b",\"identity\":")?, identity),
        None => Ok(line),
    }
}

// The line with the list of these transactions, of which the first comes after the change of number `from`.
fn with_transactions(
    alloc: Global,
    line: Vec<u8>,
    told: Iter<'_, Told>,
    from: u64,
) -> Result<Vec<u8>, AllocError>
    requires { (ts : List Transaction) × AreToldFrom from (deque_iter_rest told) ts }
    ensures { (ts : List Transaction) → AreToldFrom from (deque_iter_rest told.entry) ts
        → IfOk result (λ longer. longer.items ≡ line.items ++ elements_text false (transaction_objects from ts)) }
{
    let mut longer = line;
    let mut before = from;
    let mut later = false;
    for transaction in told {
        let parted = with_comma(longer, later)?;
        longer = with_transaction(alloc, parted, transaction, before)?;
        before = transaction.last;
        later = true;
    }
    with_bytes(longer, b"]")
}

// The line with a comma, if an element comes before.
fn with_comma(line: Vec<u8>, later: bool) -> Result<Vec<u8>, AllocError>
    ensures { IfOk result (λ longer. longer.items ≡ line.items ++ comma_if later) }
{
    if later {
        with_bytes(line, b",")
    } else {
        Ok(line)
    }
}

// The line with a transaction that comes after the change of number `before`.
fn with_transaction(
    alloc: Global,
    line: Vec<u8>,
    transaction: &Told,
    before: u64,
) -> Result<Vec<u8>, AllocError>
    requires { (t : Transaction) × AreToldFrom before (transaction.now ∷ []) (t ∷ []) }
    ensures { (t : Transaction) → AreToldFrom before (transaction.now ∷ []) (t ∷ [])
        → IfOk result (λ longer. longer.items ≡ line.items ++ text_of (transaction_object before t)) }
{
    let last = transaction.last;
    let opened = with_bytes(line, b"{\"changes\":[")?;
    let (changed, mark) = with_changes(opened, transaction.frames.as_slice())?;
    let named = with_bytes(changed, b",\"first\":")?;
    let first = with_number(named, before + 1)?;
    let parted = with_bytes(first, b",\"last\":")?;
    let ended = with_number(parted, last)?;
    let marked = with_mark(alloc, ended, mark)?;
    with_bytes(marked, b"}")
}

// The line with the list of the changes of which these are the frames, and the body of the mark that comes after them, if
// there is one.
fn with_changes(line: Vec<u8>, frames: &[u8]) -> Result<(Vec<u8>, Option<&[u8]>), AllocError>
    ensures { (ls : List Logged) → CanBeRead ls → frames.now ≡ frames_as ls
        → IfOk result (λ r. (r.0.items ≡ line.items ++ elements_text false (objects_of (changes_before ls))) × (option_map (λ b. b.now) r.1 ≡ note_in ls)) }
{
    let mut longer = line;
    let mut rest = frames;
    let mut later = false;
    'frames: while let Some((frame, behind)) = first_frame(rest) {
        if frame.kind.is_noted() {
            let ended = with_bytes(longer, b"]")?;
            return Ok((ended, Some(frame.body)));
        }
        let parted = with_comma(longer, later)?;
        longer = with_bytes(parted, frame.body)?;
        later = true;
        rest = behind;
    }
    let closed = with_bytes(longer, b"]")?;
    Ok((closed, None))
}

// The line with the mark that this body spells, if there is one.
fn with_mark(alloc: Global, line: Vec<u8>, body: Option<&[u8]>) -> Result<Vec<u8>, AllocError>
    requires { (m : Option Mark) × IsNoted m × (option_map (λ b. b.now) body ≡ note_of m) }
    ensures { (m : Option Mark) → IsNoted m → option_map (λ b. b.now) body.entry ≡ note_of m
        → IfOk result (λ longer. longer.items ≡ line.items ++ mark_text m) }
{
    let Some(body) = body else {
        return Ok(line);
    };
    let (key, value) = key_and_value(alloc, body)?;
    let named = with_bytes(line, b",\"mark\":{\"key\":")?;
    let keyed = with_quoted(named, key.as_str())?;
    let parted = with_bytes(keyed, b",\"value\":")?;
    let valued = with_quoted(parted, value.as_str())?;
    with_bytes(valued, b"}")
}

// The key and the value of the mark that this body spells.
fn key_and_value(alloc: Global, body: &[u8]) -> Result<(String, String), AllocError>
    requires { (m : Mark) × IsMark m × (body.now ≡ body_of (note m.key m.value)) }
    ensures { (m : Mark) → IsMark m → body.now ≡ body_of (note m.key m.value)
        → IfOk result (λ r. (string_bytes r.0 ≡ m.key) × (string_bytes r.1 ≡ m.value)) }
{
    let Ok(command) = read_body(alloc, body) else {
        return Err(AllocError);
    };
    let Command::Create {
        name: key,
        schema: _,
        doc,
    } = command
    else {
        unreachable!();
    };
    let Some(value) = text_in(doc) else {
        unreachable!();
    };
    Ok((key, value))
}

// The text that the document is.
fn text_in(doc: Tree) -> Option<String>
    ensures { MatchOption result ((value : List ℕ) → view doc ≡ text value → ⊥) (λ value. view doc ≡ text (string_bytes value)) }
{
    match doc {
        Tree::Text(value) => Some(value),
        _ => None,
    }
}
