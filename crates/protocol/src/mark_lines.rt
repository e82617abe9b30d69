//! Reply lines with a mark.
ghost use Rattle.std.specs.Prelude.{◌≡◌, ◌++◌, IfOk, decimal, option_map};
ghost use Rattle.doc_changes.specs.MarkView.{mark_in};
ghost use Rattle.json.specs.Print.{quoted};
ghost use Rattle.protocol.specs.Reply.{line_of, mark_reply, other_mark_reply};
ghost use Rattle.protocol.specs.Written.{seq_text, told_text, value_text};

use crate::nodes::with_bytes;
use doc_machine::Mark;
use doc_tree::put_quoted;
use itoa::Buffer;
use std::alloc::{AllocError, Global};

/// The line of the reply that shows a mark, if it is there.
pub fn mark_line(alloc: Global, mark: Option<&Mark>) -> Result<Vec<u8>, AllocError>
    ensures { IfOk result (λ line. line.items ≡ line_of (mark_reply (option_map (λ m. mark_in m.now) mark.entry))) }
{
    told(alloc, b"{\"mark\":", mark, b",\"ok\":true")
}

/// The line of the reply to changes that were refused, since they ask for another mark than the present one, which is
/// this, if it is there.
pub fn other_mark_line(alloc: Global, present: Option<&Mark>) -> Result<Vec<u8>, AllocError>
    ensures { IfOk result (λ line. line.items ≡ line_of (other_mark_reply (option_map (λ m. mark_in m.now) present.entry))) }
{
    told(
        alloc,
        b"{\"error\":\"mark\",\"mark\":",
        present,
        b",\"number\":25,\"ok\":false",
    )
}

// A line with the value of a mark after its first part and the mark's number after its second.
fn told(
    alloc: Global,
    begun: &[u8],
    mark: Option<&Mark>,
    behind: &[u8],
) -> Result<Vec<u8>, AllocError>
    ensures { IfOk result (λ line. line.items ≡ told_text begun.now (option_map (λ m. mark_in m.now) mark.entry) behind.now) }
{
    let opened = with_bytes(Vec::new(alloc), begun)?;
    let valued = with_value(opened, mark)?;
    let parted = with_bytes(valued, behind)?;
    let numbered = with_seq(parted, mark)?;
    with_bytes(numbered, b"}\n")
}

// The line with the value of the mark, or null if there is none.
fn with_value(line: Vec<u8>, mark: Option<&Mark>) -> Result<Vec<u8>, AllocError>
    ensures { IfOk result (λ longer. longer.items ≡ line.items ++ value_text (option_map (λ m. mark_in m.now) mark.entry)) }
{
    match mark {
        Some(mark) => with_quoted(line, mark.value.as_str()),
        None => with_bytes(line, b"null"),
    }
}

// The line with the number of the mark, if there is one.
fn with_seq(line: Vec<u8>, mark: Option<&Mark>) -> Result<Vec<u8>, AllocError>
    ensures { IfOk result (λ longer. longer.items ≡ line.items ++ seq_text (option_map (λ m. mark_in m.now) mark.entry)) }
{
    match mark {
        Some(mark) => with_number(with_bytes(line, b",\"seq\":")?, mark.seq),
        None => Ok(line),
    }
}

pub(crate) fn with_quoted(line: Vec<u8>, text: &str) -> Result<Vec<u8>, AllocError>
    ensures { IfOk result (λ longer. longer.items ≡ line.items ++ quoted text.now) }
{
    let mut longer = line;
    put_quoted(text, &mut longer)?;
    Ok(longer)
}

pub(crate) fn with_number(line: Vec<u8>, number: u64) -> Result<Vec<u8>, AllocError>
    ensures { IfOk result (λ longer. longer.items ≡ line.items ++ decimal number) }
{
    let mut digits = Buffer::new();
    with_bytes(line, digits.format(number).as_bytes())
}
