//! Transactions that are made as one batch, what follows them, and their replies.
ghost use Rattle.std.specs.Prelude.{◌≡◌, ◌≤◌, ◌<◌, ◌+◌, ◌++◌, ◌∷◌, List, [], length, map, replicate, IfOk, IfErr, true, false};
ghost use Rattle.std.specs.List.{list_any};
ghost use Rattle.std.specs.Vec.{vec_capacity, vec_len};
ghost use Rattle.std.specs.VecDeque.{deque_capacity, deque_len};
ghost use Rattle.doc_tree.specs.Doc.{Doc};
ghost use Rattle.doc_machine.specs.Transaction.{transaction_of};
ghost use Rattle.store_commits.specs.Batch.{changes};
ghost use Rattle.store_commits.specs.Events.{is_done};
ghost use Rattle.recorded_store.specs.Recorded.{Records, recorded_of};
ghost use Rattle.doc_changes.specs.Refusals.{plain};
ghost use Rattle.store_commits.specs.Run.{Batched};
ghost use Rattle.protocol.specs.declared.reply.Reply.{Reply as Shown};
ghost use Rattle.protocol.specs.declared.reply.Reply.TheVariants.{Refused};
ghost use Rattle.serve_lines.specs.LineReplies.{AllSay, EndsBatch, FollowsBatch, MakesCopyStep, key_in};
ghost use Rattle.serve_lines.specs.Session.{WantsStep, key_of, most_of};

use crate::options::Options;
use crate::replies::{keys_of, push, say};
use doc_machine::{Refusal, Transaction};
use doc_store::Store;
use protocol::Reply;
use recorded_store::RecordedStore;
use refusals::numbers::MEMORY;
use sector_device::SectorDevice;
use std::alloc::Global;
use std::collections::VecDeque;
use std::mem;

/// Makes the transactions that wait as one batch, if any do, with the step of a copy after it if one is wanted. Nothing
/// waits then, and their replies are ready: if memory is refused, that reply to each of them.
pub(crate) fn commit<D: SectorDevice>(
    alloc: Global,
    store: &mut RecordedStore<D>,
    options: &Options,
    waiting: &mut Vec<Transaction>,
    ready: &mut VecDeque<Reply>,
)
    requires room { vec_len waiting.old + deque_len ready.old ≤ deque_capacity ready.old }
    ensures batch { (added : List Shown) × (replies : List Doc) × (ready.new.items ≡ ready.old.items ++ added) × AllSay added replies
        × EndsBatch D.disk options.now store.old (map transaction_of waiting.old.items) replies store.new }
    ensures none { (waiting.new.items ≡ []) × (vec_len waiting.new ≡ 0) }
    ensures places { vec_capacity waiting.old ≤ vec_capacity waiting.new }
    ensures len { deque_len ready.new ≡ deque_len ready.old + vec_len waiting.old }
    ensures room { deque_capacity ready.old ≤ deque_capacity ready.new }
{
    let many = waiting.len();
    if many == 0 {
        return;
    }
    match change_all(alloc, store, waiting) {
        Ok((said, keys)) => {
            say(
                alloc,
                store.store(),
                ready,
                said.as_slice(),
                keys.as_slice(),
            );
            follow(store, options, said.as_slice());
        }
        Err(_) => refuse(ready, many, MEMORY),
    }
}

// Makes the transactions that wait as one batch, and nothing waits then. The store's replies to them and the keys of their
// marks, or that memory is refused, and nothing was done.
fn change_all<D: SectorDevice>(
    alloc: Global,
    store: &mut RecordedStore<D>,
    waiting: &mut Vec<Transaction>,
) -> Result<(Vec<doc_store::Reply>, Vec<Option<String>>), Refusal>
    ensures made { IfOk result (λ done. Batched D.disk store.old.store store.new.store (map transaction_of waiting.old.items) done.0.items) }
    ensures recorded { IfOk result (λ done. Records (recorded_of store.old) (changes (map transaction_of waiting.old.items)) done.0.items (recorded_of store.new)) }
    ensures keys { IfOk result (λ done. map key_in done.1.items ≡ map key_of (map transaction_of waiting.old.items)) }
    ensures err { IfErr result (λ _. store.new ≡ store.old) }
    ensures none { (waiting.new.items ≡ []) × (vec_len waiting.new ≡ 0) }
    ensures places { vec_capacity waiting.old ≤ vec_capacity waiting.new }
{
    let Ok(places) = Vec::with_capacity(alloc, waiting.capacity()) else {
        waiting.clear();
        return Err(Refusal::plain(MEMORY));
    };
    let transactions = mem::replace(waiting, places);
    let keys = keys_of(alloc, transactions.as_slice())?;
    let said = store.transact_batch(transactions)?;
    Ok((said, keys))
}

// Makes a step of a copy after these replies, if a change was done and one is wanted.
fn follow<D: SectorDevice>(
    store: &mut RecordedStore<D>,
    options: &Options,
    said: &[doc_store::Reply],
)
    ensures { FollowsBatch D.disk options.now said.now store.old store.new }
{
    if has_done(said) {
        go_on(store, options);
    }
}

// Whether a change was done.
fn has_done(said: &[doc_store::Reply]) -> bool
    ensures { result ≡ list_any is_done said.now }
{
    said.iter().any(|reply| is_done(*reply))
}

fn is_done(reply: doc_store::Reply) -> bool
    ensures { result ≡ is_done reply }
{
    match reply {
        doc_store::Reply::Done(_) => true,
        _ => false,
    }
}

// Makes a step of a copy after changes that were done, if one is wanted. Its answer isn't shown.
fn go_on<D: SectorDevice>(store: &mut RecordedStore<D>, options: &Options)
    ensures { MakesCopyStep D.disk options.now store.old store.new }
{
    if wants_step(store.store(), options) {
        let _ = store.pump(options.pump);
    }
}

// Whether steps are asked for, and a copy runs or twice the used bytes are over a half.
fn wants_step<D: SectorDevice>(store: &Store<D>, options: &Options) -> bool
    ensures yes { result ≡ true → WantsStep options.now store.now.account }
    ensures no { result ≡ false → WantsStep options.now store.now.account → ⊥ }
{
    let status = store.status();
    0 < options.pump && (store.is_copying() || status.capacity / 2 < status.used)
}

// Makes the refusal with that number ready as the reply to `many` transactions.
fn refuse(ready: &mut VecDeque<Reply>, many: usize, number: u16)
    requires room { deque_len ready.old + many ≤ deque_capacity ready.old }
    ensures refused { ready.new.items ≡ ready.old.items ++ replicate many (Refused (plain number)) }
    ensures len { deque_len ready.new ≡ deque_len ready.old + many }
    ensures room { deque_capacity ready.old ≤ deque_capacity ready.new }
{
    for _ in 0..many {
        push(ready, Reply::Refused(Refusal::plain(number)));
    }
}

/// Lets a transaction wait with the others, without memory.
pub(crate) fn hold(waiting: &mut Vec<Transaction>, transaction: Transaction)
    requires room { vec_len waiting.old < vec_capacity waiting.old }
    ensures held { waiting.new.items ≡ waiting.old.items ++ transaction ∷ [] }
    ensures len { vec_len waiting.new ≡ vec_len waiting.old + 1 }
    ensures room { vec_capacity waiting.old ≤ vec_capacity waiting.new }
{
    waiting.push(transaction).unwrap();
}

/// Whether `many` transactions, one at least, make a batch full.
pub(crate) fn is_full(options: &Options, many: usize) -> bool
    requires some { 0 < many }
    ensures yes { result ≡ true → most_of options.now ≤ many }
    ensures no { result ≡ false → many < most_of options.now }
{
    options.batch <= many as u64
}
