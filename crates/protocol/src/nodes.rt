//! The reply line of a query, written row after row.
ghost use Rattle.std.specs.Prelude.{◌≡◌, ◌⊎◌, ◌<◌, ◌≤◌, ◌++◌, codes, length, nat_lt, IfOk, MatchResult};
ghost use Rattle.serde_json.specs.Written.{comma_if};
ghost use Rattle.doc_tree.specs.Text.{text_of};
ghost use Rattle.refusals.specs.declared.numbers.TheConstants.{MEMORY, REPLY_LONG};
ghost use Rattle.doc_changes.specs.Refusals.{plain};
ghost use Rattle.path_eval.specs.NodeView.{listed_of};
ghost use Rattle.protocol.specs.Reply.{line_of, nodes_reply};
ghost use Rattle.protocol.specs.Rows.{AddsRow};
ghost use Rattle.protocol.specs.declared.limits.TheConstants.{REPLY_BYTES};

use crate::limits::REPLY_BYTES;
use crate::rows::row_text;
use doc_machine::{Nodelist, Refusal};
use refusals::numbers::REPLY_LONG;
use std::alloc::{AllocError, Global};

/// The line of a reply that shows nodes.
///
/// Refuses with `REPLY_LONG` if its text would be over the limit. A node's path is made when its row is written, and no
/// row is written after the one that passes the limit.
pub fn nodes_line(alloc: Global, nodes: &Nodelist<'_>) -> Result<Vec<u8>, Refusal>
    ensures { let reply = nodes_reply (listed_of nodes.now) in MatchResult result
        (λ line. (line.items ≡ line_of reply) × (length (text_of reply) ≤ REPLY_BYTES))
        (λ r. ((r ≡ plain REPLY_LONG) × (REPLY_BYTES < length (text_of reply))) ⊎ (r ≡ plain MEMORY)) }
{
    let begun = line_begun(alloc)?;
    let mut line = begun;
    for number in 0..nodes.len() {
        let longer = with_row(alloc, line, nodes, number)?;
        if longer.len() as u64 > REPLY_BYTES {
            return Err(Refusal::plain(REPLY_LONG));
        }
        line = longer;
    }
    let whole = with_bytes(line, b"],\"ok\":true}\n")?;
    // The line feed is no part of the text.
    if whole.len() as u64 > REPLY_BYTES + 1 {
        return Err(Refusal::plain(REPLY_LONG));
    }
    Ok(whole)
}

/// The text before the rows.
fn line_begun(alloc: Global) -> Result<Vec<u8>, AllocError>
    ensures { IfOk result (λ line. line.items ≡ codes "{\"nodes\":[") }
{
    let mut line = Vec::new(alloc);
    line.extend_from_slice(b"{\"nodes\":[")?;
    Ok(line)
}

/// The line with the row of that number after it.
fn with_row(
    alloc: Global,
    line: Vec<u8>,
    nodes: &Nodelist<'_>,
    number: usize,
) -> Result<Vec<u8>, AllocError>
    requires { number < length (listed_of nodes.now) }
    ensures { IfOk result (λ longer. AddsRow (listed_of nodes.now) number line.items longer.items) }
{
    let row = row_text(alloc, nodes, number)?;
    let parted = with_bytes(line, comma(number).as_bytes())?;
    let longer = with_bytes(parted, row.as_slice())?;
    Ok(longer)
}

/// The text before the row of that number.
fn comma(number: usize) -> &'static str
    ensures { result.now ≡ comma_if (nat_lt 0 number) }
{
    if number > 0 { "," } else { "" }
}

/// The line with these bytes after it.
pub(crate) fn with_bytes(line: Vec<u8>, bytes: &[u8]) -> Result<Vec<u8>, AllocError>
    ensures { IfOk result (λ longer. longer.items ≡ line.items ++ bytes.now) }
{
    let mut longer = line;
    longer.extend_from_slice(bytes)?;
    Ok(longer)
}
