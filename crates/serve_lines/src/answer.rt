//! The answer to a line by itself: one that is no change.
ghost use Rattle.std.specs.Prelude.{◌≡◌, ◌⊎◌, ℕ, List, [], IfOk, Ok, Err, MatchResult, option_map};
ghost use Rattle.doc_tree.specs.Doc.{Doc};
ghost use Rattle.doc_changes.specs.Refusals.{plain};
ghost use Rattle.protocol.specs.Read.{asked_by, IsNoChange, ReadsRequest};
ghost use Rattle.protocol.specs.Says.{Says};
ghost use Rattle.serve_lines.specs.LineReplies.{AnswersRequest, IsAnsweredAlone, IsWithinIfMemory, LineIsAnswered};
ghost use Rattle.protocol.specs.Request as asked;
ghost use Rattle.protocol.specs.Reply.{line_of, refusal_reply};
ghost use Rattle.path_eval.specs.NodeView.{listed_of};
ghost use Rattle.path_parse.specs.SyntaxView.{query_view};
ghost use Rattle.doc_machine.specs.Queries.{nodes_at};
ghost use Rattle.status_lines.specs.Status.{id_of, shown_id};
ghost use Rattle.serve_lines.specs.Session.{selected_reply, told_reply};
ghost use Rattle.doc_machine.specs.Transaction.{Transaction};
ghost use Rattle.protocol.specs.Changes.{AreToldFrom};
ghost use Rattle.recorded_store.specs.Recorded.{recorded_of};
ghost use Rattle.std.specs.VecDeque.Iter.{deque_iter_rest};

use crate::options::Options;
use change_history::Told;
use doc_machine::{Documents, Nodelist, Refusal};
use doc_pointer::Pointer;
use doc_store::Status;
use path_eval::lent_nodes;
use path_parse::Query;
use protocol::{
    Reply, Request, changes_line, gone_line, mark_line, names_line, nodes_line, value_line,
};
use recorded_store::RecordedStore;
use refusals::numbers::MEMORY;
use sector_device::SectorDevice;
use status_lines::{id_text, status_line};
use std::alloc::{AllocError, Global};
use std::collections::vec_deque::Iter;

/// The answer to a line, by what it was read as: what it asks for, which is no change, or why it asks for nothing.
pub(crate) fn answer<D: SectorDevice>(
    alloc: Global,
    store: &mut RecordedStore<D>,
    asked: Result<Request, Refusal>,
) -> Reply
    requires { IfOk asked (λ request. IsNoChange (asked_by request)) }
    ensures { (options : Options) (line : List ℕ) → ReadsRequest line asked → IsWithinIfMemory line asked
        → (reply : Doc) × Says result reply × LineIsAnswered D.disk options store.old line reply store.new }
{
    match asked {
        Ok(request) => reply_to(alloc, store, request),
        Err(refusal) => Reply::Refused(refusal),
    }
}

fn reply_to<D: SectorDevice>(alloc: Global, store: &mut RecordedStore<D>, request: Request) -> Reply
    requires { IsNoChange (asked_by request) }
    ensures { (reply : Doc) × Says result reply × IsAnsweredAlone D.disk store.old (asked_by request) reply store.new }
{
    match request {
        Request::Change(_) => unreachable!(),
        Request::Get { name, path } => get(alloc, store, name.as_str(), path.as_str()),
        Request::GetSchema { name } => get_schema(alloc, store, name.as_str()),
        Request::Rev { name } => rev(store, name.as_str()),
        Request::Mark { key } => mark(alloc, store, key.as_str()),
        Request::Query { name, path } => query(alloc, store, name.as_str(), path.as_str()),
        Request::Changes { from, max } => changes(alloc, store, from, max),
        Request::List => list(alloc, store),
        Request::Status => status(alloc, store),
        Request::Snapshot => snapshot(store),
        Request::Pump { max } => pump(store, max),
        Request::Seal => seal(store),
    }
}

fn snapshot<D: SectorDevice>(store: &mut RecordedStore<D>) -> Reply
    ensures { (reply : Doc) × Says result reply × IsAnsweredAlone D.disk store.old asked.snapshot reply store.new }
{
    match store.snapshot() {
        Ok(used) => Reply::Snapshot(used),
        Err(refusal) => Reply::Refused(refusal),
    }
}

fn pump<D: SectorDevice>(store: &mut RecordedStore<D>, most: u64) -> Reply
    ensures { (reply : Doc) × Says result reply × IsAnsweredAlone D.disk store.old (asked.pump most) reply store.new }
{
    match store.pump(most) {
        Ok(pump) => Reply::Pumped(pump),
        Err(refusal) => Reply::Refused(refusal),
    }
}

fn seal<D: SectorDevice>(store: &mut RecordedStore<D>) -> Reply
    ensures { (reply : Doc) × Says result reply × IsAnsweredAlone D.disk store.old asked.seal reply store.new }
{
    match store.seal() {
        Ok(()) => Reply::Sealed,
        Err(refusal) => Reply::Refused(refusal),
    }
}

fn get<D: SectorDevice>(alloc: Global, store: &RecordedStore<D>, name: &str, path: &str) -> Reply
    ensures { (reply : Doc) × Says result reply × AnswersRequest (recorded_of store.now) (asked.get name.now path.now) [] [] reply (recorded_of store.now) }
{
    let pointer = match Pointer::read(alloc, path) {
        Ok(pointer) => pointer,
        Err(fault) => return Reply::Refused(Refusal::plain(fault.number)),
    };
    match store.store().get(name, &pointer) {
        Ok(value) => shown(value_line(alloc, value)),
        Err(refusal) => Reply::Refused(refusal),
    }
}

fn get_schema<D: SectorDevice>(alloc: Global, store: &RecordedStore<D>, name: &str) -> Reply
    ensures { (reply : Doc) × Says result reply × AnswersRequest (recorded_of store.now) (asked.get_schema name.now) [] [] reply (recorded_of store.now) }
{
    match store.store().schema_of(name) {
        Ok(schema) => shown(value_line(alloc, schema)),
        Err(refusal) => Reply::Refused(refusal),
    }
}

fn rev<D: SectorDevice>(store: &RecordedStore<D>, name: &str) -> Reply
    ensures { (reply : Doc) × Says result reply × AnswersRequest (recorded_of store.now) (asked.rev name.now) [] [] reply (recorded_of store.now) }
{
    match store.store().revision(name) {
        Ok(revision) => Reply::Revision(revision),
        Err(refusal) => Reply::Refused(refusal),
    }
}

fn mark<D: SectorDevice>(alloc: Global, store: &RecordedStore<D>, key: &str) -> Reply
    ensures { (reply : Doc) × Says result reply × AnswersRequest (recorded_of store.now) (asked.mark key.now) [] [] reply (recorded_of store.now) }
{
    match store.store().mark(key) {
        Ok(present) => shown(mark_line(alloc, present)),
        Err(refusal) => Reply::Refused(refusal),
    }
}

fn query<D: SectorDevice>(alloc: Global, store: &RecordedStore<D>, name: &str, path: &str) -> Reply
    ensures { (reply : Doc) × Says result reply × AnswersRequest (recorded_of store.now) (asked.query name.now path.now) [] [] reply (recorded_of store.now) }
{
    let query = match Query::read(alloc, path) {
        Ok(query) => query,
        Err(fault) => return Reply::Refused(Refusal::plain(fault.number)),
    };
    match select(alloc, &store.store().look(), name, &query) {
        Ok(nodes) => selected(alloc, &nodes),
        Err(refusal) => Reply::Refused(refusal),
    }
}

// The nodes that a query selects in the document of that name.
fn select<'s>(
    alloc: Global,
    look: &Documents<'s>,
    name: &str,
    query: &Query,
) -> Result<Nodelist<'s>, Refusal>
    ensures { let nodes = nodes_at look.now name.now (query_view query.now) in
        MatchResult result (λ found. nodes ≡ Ok (listed_of found)) (λ refusal. (nodes ≡ Err refusal) ⊎ (refusal ≡ plain MEMORY)) }
{
    match lent_nodes(alloc, query, look.document(name)?.doc.tree()) {
        Ok(found) => Ok(found),
        Err(fault) => Err(Refusal::plain(fault.number)),
    }
}

// The nodes, or that they are too many bytes.
fn selected(alloc: Global, nodes: &Nodelist<'_>) -> Reply
    ensures { Says result (selected_reply (Ok (listed_of nodes.now))) ⊎ Says result (refusal_reply (plain MEMORY)) }
{
    match nodes_line(alloc, nodes) {
        Ok(line) => Reply::Line(line),
        Err(refusal) => Reply::Refused(refusal),
    }
}

fn changes<D: SectorDevice>(alloc: Global, store: &RecordedStore<D>, from: u64, most: u64) -> Reply
    ensures { (reply : Doc) × Says result reply × AnswersRequest (recorded_of store.now) (asked.changes from most) [] [] reply (recorded_of store.now) }
{
    let status = store.store().status();
    match store.since(from, most) {
        Some(told) => told_changes(alloc, told, from, &status),
        None => shown(gone_line(alloc, store.floor(), status.seq)),
    }
}

// These transactions, which come after the change of number `from`, or that they are too many bytes.
fn told_changes(alloc: Global, told: Iter<'_, Told>, from: u64, status: &Status) -> Reply
    requires { (ts : List Transaction) × AreToldFrom from (deque_iter_rest told) ts }
    ensures { (ts : List Transaction) → AreToldFrom from (deque_iter_rest told.entry) ts
        → Says result (told_reply (id_of status.now) status.now.seq from ts) ⊎ Says result (refusal_reply (plain MEMORY)) }
{
    let Ok(text) = id_text(alloc, status) else {
        return Reply::Refused(Refusal::plain(MEMORY));
    };
    let identity = identity_in(status, text.as_str());
    match changes_line(alloc, told, from, status.seq, identity) {
        Ok(line) => Reply::Line(line),
        Err(refusal) => Reply::Refused(refusal),
    }
}

// The text of the identity, if the status has one.
fn identity_in<'t>(status: &Status, text: &'t str) -> Option<&'t str>
    ensures { option_map (λ id. id.now) result ≡ shown_id status.now text.now }
{
    match status.identity {
        Some(_) => Some(text),
        None => None,
    }
}

fn list<D: SectorDevice>(alloc: Global, store: &RecordedStore<D>) -> Reply
    ensures { (reply : Doc) × Says result reply × AnswersRequest (recorded_of store.now) asked.list [] [] reply (recorded_of store.now) }
{
    match store.store().list() {
        Ok(names) => shown(names_line(alloc, names.as_slice())),
        Err(refusal) => Reply::Refused(refusal),
    }
}

fn status<D: SectorDevice>(alloc: Global, store: &RecordedStore<D>) -> Reply
    ensures { (reply : Doc) × Says result reply × AnswersRequest (recorded_of store.now) asked.status [] [] reply (recorded_of store.now) }
{
    let status = store.store().status();
    shown(status_line(alloc, &status))
}

// A line, or that memory ran out for it.
fn shown(line: Result<Vec<u8>, AllocError>) -> Reply
    ensures { (reply : Doc) → IfOk line (λ v. v.items ≡ line_of reply) → Says result reply ⊎ Says result (refusal_reply (plain MEMORY)) }
{
    match line {
        Ok(line) => Reply::Line(line),
        Err(_) => Reply::Refused(Refusal::plain(MEMORY)),
    }
}
