//! The requests of lines.
ghost use Rattle.std.specs.Prelude.{◌≡◌, ◌≤◌, length, codes, IfErr, IfOk};
ghost use Rattle.doc_tree.specs.Cursor.{IsNext, ahead};
ghost use Rattle.doc_tree.specs.Doc.{object};
ghost use Rattle.doc_tree.specs.Fault.{IsFaultOf};
ghost use Rattle.doc_tree.specs.Read.{document, read_of};
ghost use Rattle.doc_tree.specs.TreeView.{view};
ghost use Rattle.protocol.specs.Read.{AsksWith, IsRequest, IsUnmarkedRequest, ReadsRequest};

use crate::limits::{CHANGES_BYTES, LINE_BYTES, PUMP_SECTORS};
use crate::marked::{marked, take_out};
use crate::several::several;
use doc_machine::{Refusal, SpelledPatch, Transaction};
use doc_tree::{MemberCursor, Tree, TreeFault};
use record_text::{command_with, plain_tree};
use refusals::numbers::COMMAND;
use std::alloc::{AllocError, Global};

/// A request, with what it takes from its line in memory of its own.
#[derive(Drop)]
pub enum Request {
    /// A change, or several that are made together.
    Change(Transaction),
    /// The value at a place of a document. Whether the path is a pointer isn't judged yet.
    Get { name: String, path: String },
    /// The schema of a document.
    GetSchema { name: String },
    /// The revision of a document.
    Rev { name: String },
    /// The mark of a key.
    Mark { key: String },
    /// What a query selects in a document. Whether the path is a query isn't judged yet.
    Query { name: String, path: String },
    /// The transactions after the change of number `from`, as many as have at most `max` bytes of frames, and one at least.
    Changes { from: u64, max: u64 },
    /// The names of all documents.
    List,
    /// The status of the store.
    Status,
    /// The documents written anew, without the changes that led to them.
    Snapshot,
    /// A step of a snapshot that is copied, of at most `max` sectors.
    Pump { max: u64 },
    /// What was committed last, in all slots of a store in format 3.
    Seal,
}

/// Reads a line that is within the limit.
///
/// Refuses with `NOT_JSON` or `NUMBER` what is no document, else with `COMMAND` what is the object
/// of no request. `MEMORY` may come in place of any answer.
pub fn read_request(alloc: Global, line: &[u8]) -> Result<Request, Refusal>
    requires { length line.now ≤ LINE_BYTES }
    ensures { ReadsRequest line.now result }
{
    // Most changes are such patches, and are read with no tree.
    if let Some(patch) = SpelledPatch::read(alloc, line) {
        return Ok(Request::Change(Transaction::Spelled(patch)));
    }
    match document_in(alloc, line) {
        Ok(tree) => request_in(alloc, tree)?.ok_or(Refusal::plain(COMMAND)),
        Err(fault) => Err(Refusal::plain(fault.number)),
    }
}

// The document that the line is. A line that is a compact text is read quickly, and `Tree::read` answers any other.
fn document_in(alloc: Global, line: &[u8]) -> Result<Tree, TreeFault>
    ensures ok { IfOk result (λ t. read_of line.now ≡ document (view t)) }
    ensures err { IfErr result (λ e. IsFaultOf e (read_of line.now)) }
{
    match plain_tree(alloc, line) {
        Some(tree) => Ok(tree),
        None => Tree::read(alloc, line),
    }
}

// The request whose object it is, with the tree's own parts. Only the list of a transaction's changes takes memory.
fn request_in(alloc: Global, tree: Tree) -> Result<Option<Request>, AllocError>
    ensures { IfOk result (IsRequest (view tree)) }
{
    let Tree::Object(mut members) = tree else {
        return Ok(None);
    };
    match take_out(&mut members, "mark") {
        Some(mark) => marked(alloc, mark, members),
        None => unmarked(alloc, Tree::Object(members)),
    }
}

// The request that speaks of no mark with its changes and whose object it is.
fn unmarked(alloc: Global, tree: Tree) -> Result<Option<Request>, AllocError>
    ensures { IfOk result (IsUnmarkedRequest (view tree)) }
{
    let Some(members) = MemberCursor::of(tree) else {
        return Ok(None);
    };
    if members.is_at("changes") {
        transaction(alloc, members)
    } else {
        Ok(alone(members))
    }
}

// The transaction whose object has these members, of which the first is its changes.
fn transaction(alloc: Global, members: MemberCursor) -> Result<Option<Request>, AllocError>
    requires { IsNext (codes "changes") (ahead members) }
    ensures { IfOk result (IsUnmarkedRequest (object (ahead members))) }
{
    match several(alloc, members)? {
        Some(commands) => Ok(Some(Request::Change(Transaction::Several(commands)))),
        None => Ok(None),
    }
}

// The request whose object has these members, and no changes in it.
fn alone(members: MemberCursor) -> Option<Request>
    requires { IsNext (codes "changes") (ahead members) → ⊥ }
    ensures { IsUnmarkedRequest (object (ahead members)) result }
{
    let (word, others) = members.take_text("cmd")?;
    match word.as_str() {
        "get" => get(others),
        "get-schema" => get_schema(others),
        "rev" => rev(others),
        "mark" => mark(others),
        "query" => query(others),
        "changes" => changes(others),
        "list" => list(others),
        "status" => status(others),
        "snapshot" => snapshot(others),
        "pump" => pump(others),
        "seal" => seal(others),
        word => {
            let command = command_with(word, others)?;
            Some(Request::Change(Transaction::Single(command)))
        }
    }
}

fn get(others: MemberCursor) -> Option<Request>
    ensures { AsksWith (codes "get") (ahead others) result }
{
    let (name, rest) = others.take_text("name")?;
    let (path, rest) = rest.take_text("path")?;
    rest.end()?;
    Some(Request::Get { name, path })
}

fn get_schema(others: MemberCursor) -> Option<Request>
    ensures { AsksWith (codes "get-schema") (ahead others) result }
{
    let (name, rest) = others.take_text("name")?;
    rest.end()?;
    Some(Request::GetSchema { name })
}

fn rev(others: MemberCursor) -> Option<Request>
    ensures { AsksWith (codes "rev") (ahead others) result }
{
    let (name, rest) = others.take_text("name")?;
    rest.end()?;
    Some(Request::Rev { name })
}

fn mark(others: MemberCursor) -> Option<Request>
    ensures { AsksWith (codes "mark") (ahead others) result }
{
    let (key, rest) = others.take_text("key")?;
    rest.end()?;
    Some(Request::Mark { key })
}

fn query(others: MemberCursor) -> Option<Request>
    ensures { AsksWith (codes "query") (ahead others) result }
{
    let (name, rest) = others.take_text("name")?;
    let (path, rest) = rest.take_text("path")?;
    rest.end()?;
    Some(Request::Query { name, path })
}

fn changes(others: MemberCursor) -> Option<Request>
    ensures { AsksWith (codes "changes") (ahead others) result }
{
    let (from, rest) = others.take_number("from")?;
    let (max, rest) = rest.take_number("max")?;
    rest.end()?;
    if 1 <= max && max <= CHANGES_BYTES {
        Some(Request::Changes { from, max })
    } else {
        None
    }
}

fn list(others: MemberCursor) -> Option<Request>
    ensures { AsksWith (codes "list") (ahead others) result }
{
    others.end()?;
    Some(Request::List)
}

fn status(others: MemberCursor) -> Option<Request>
    ensures { AsksWith (codes "status") (ahead others) result }
{
    others.end()?;
    Some(Request::Status)
}

fn snapshot(others: MemberCursor) -> Option<Request>
    ensures { AsksWith (codes "snapshot") (ahead others) result }
{
    others.end()?;
    Some(Request::Snapshot)
}

fn pump(others: MemberCursor) -> Option<Request>
    ensures { AsksWith (codes "pump") (ahead others) result }
{
    let (max, rest) = others.take_number("max")?;
    rest.end()?;
    if 1 <= max && max <= PUMP_SECTORS {
        Some(Request::Pump { max })
    } else {
        None
    }
}

fn seal(others: MemberCursor) -> Option<Request>
    ensures { AsksWith (codes "seal") (ahead others) result }
{
    others.end()?;
    Some(Request::Seal)
}
