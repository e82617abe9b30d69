//! The store's replies to transactions, as those of a session.
ghost use Rattle.std.specs.Prelude.{◌≡◌, ◌⊎◌, ◌≤◌, ◌<◌, ◌+◌, ◌++◌, ◌∷◌, List, [], length, map, IfOk};
ghost use Rattle.std.specs.VecDeque.{deque_capacity, deque_len};
ghost use Rattle.doc_tree.specs.Doc.{Doc};
ghost use Rattle.doc_changes.specs.Marks.{mark_of};
ghost use Rattle.doc_changes.specs.Refusals.{plain};
ghost use Rattle.doc_machine.specs.Transaction.{transaction_of};
ghost use Rattle.refusals.specs.declared.numbers.TheConstants as numbers;
ghost use Rattle.protocol.specs.Reply.{other_mark_reply, refusal_reply};
ghost use Rattle.protocol.specs.Says.{Says};
ghost use Rattle.protocol.specs.declared.reply.Reply.{Reply as Shown};
ghost use Rattle.serve_lines.specs.LineReplies.{AllSay, key_in, shown_as};
ghost use Rattle.serve_lines.specs.Session.{AreTold, IsTold, asks_another_mark, key_of};

use doc_machine::{Refusal, Transaction};
use doc_store::Store;
use protocol::{Reply, other_mark_line};
use refusals::numbers::{MARK, MEMORY};
use sector_device::SectorDevice;
use std::alloc::{AllocError, Global};
use std::collections::VecDeque;

/// The keys of the marks that transactions set, in memory of their own.
pub(crate) fn keys_of(
    alloc: Global,
    transactions: &[Transaction],
) -> Result<Vec<Option<String>>, AllocError>
    ensures { IfOk result (λ keys. map key_in keys.items ≡ map key_of (map transaction_of transactions.now)) }
{
    let mut keys = Vec::with_capacity(alloc, transactions.len())?;
    for transaction in transactions {
        keys.push(key_of(alloc, transaction)?)?;
    }
    Ok(keys)
}

// The key of the mark that a transaction sets, if it sets one.
fn key_of(alloc: Global, transaction: &Transaction) -> Result<Option<String>, AllocError>
    ensures { IfOk result (λ key. key_in key ≡ key_of (transaction_of transaction.now)) }
{
    match transaction {
        Transaction::Marked(marking, _) => Ok(Some(String::from_str(alloc, marking.key.as_str())?)),
        _ => Ok(None),
    }
}

/// Lets the replies to a batch be ready. `keys` are those of its transactions' marks, and `store` is as the batch left it.
pub(crate) fn say<D: SectorDevice>(
    alloc: Global,
    store: &Store<D>,
    ready: &mut VecDeque<Reply>,
    said: &[doc_store::Reply],
    keys: &[Option<String>],
)
    requires each { length keys.now ≡ length said.now }
    requires room { deque_len ready.old + length said.now ≤ deque_capacity ready.old }
    ensures said { (added : List Shown) × (replies : List Doc) × (ready.new.items ≡ ready.old.items ++ added) × AllSay added replies
        × AreTold store.now.account.state (map key_in keys.now) said.now replies }
    ensures len { deque_len ready.new ≡ deque_len ready.old + length said.now }
    ensures room { deque_capacity ready.old ≤ deque_capacity ready.new }
{
    for place in 0..said.len() {
        push(ready, told(alloc, store, &said[place], &keys[place]));
    }
}

// The reply to a transaction, of whose mark this is the key.
fn told<D: SectorDevice>(
    alloc: Global,
    store: &Store<D>,
    said: &doc_store::Reply,
    key: &Option<String>,
) -> Reply
    ensures { (reply : Doc) × Says result reply × IsTold store.now.account.state (key_in key.now) said.now reply }
{
    match key {
        Some(key) => told_of(alloc, store, *said, key.as_str()),
        None => shown(*said),
    }
}

// The reply to a transaction that sets the mark of that key.
fn told_of<D: SectorDevice>(
    alloc: Global,
    store: &Store<D>,
    said: doc_store::Reply,
    key: &str,
) -> Reply
    ensures { (reply : Doc) × Says result reply × IsTold store.now.account.state (Some key.now) said reply }
{
    if asks_another_mark(said) {
        present_mark(alloc, store, key)
    } else {
        shown(said)
    }
}

// Whether a transaction was refused, since it asks for another mark than the present one.
fn asks_another_mark(said: doc_store::Reply) -> bool
    ensures { result ≡ asks_another_mark said }
{
    match said {
        doc_store::Reply::Refused(refusal) => refusal.number == MARK,
        _ => false,
    }
}

// The refusal of a mark with the present one of its key, or that memory ran out for it.
fn present_mark<D: SectorDevice>(alloc: Global, store: &Store<D>, key: &str) -> Reply
    ensures { Says result (other_mark_reply (mark_of key.now store.now.account.state.marks)) ⊎ Says result (refusal_reply (plain numbers.MEMORY)) }
{
    match other_mark_line(alloc, store.look().marks().get(key)) {
        Ok(line) => Reply::Line(line),
        Err(_) => Reply::Refused(Refusal::plain(MEMORY)),
    }
}

// A reply of the store, as a session's.
fn shown(reply: doc_store::Reply) -> Reply
    ensures { result ≡ shown_as reply }
{
    match reply {
        doc_store::Reply::Done(seq) => Reply::Changed(seq),
        doc_store::Reply::Snapped(used) => Reply::Snapshot(used),
        doc_store::Reply::Pumped(pump) => Reply::Pumped(pump),
        doc_store::Reply::Sealed => Reply::Sealed,
        doc_store::Reply::Refused(refusal) => Reply::Refused(refusal),
    }
}

/// Makes a reply ready after the others, without memory.
pub(crate) fn push(ready: &mut VecDeque<Reply>, reply: Reply)
    requires room { deque_len ready.old < deque_capacity ready.old }
    ensures pushed { ready.new.items ≡ ready.old.items ++ reply ∷ [] }
    ensures len { deque_len ready.new ≡ deque_len ready.old + 1 }
    ensures room { deque_capacity ready.old ≤ deque_capacity ready.new }
{
    ready.push_back(reply).unwrap();
}
