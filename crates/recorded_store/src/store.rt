//! A store, and the history of what it did.
ghost use Rattle.std.specs.Prelude.{◌≡◌, ◌≢◌, ◌⊎◌, [], ◌∷◌, IfErr, IfOk, IfSome, List, OnSome, map};
ghost use Rattle.std.specs.Option.{option_map};
ghost use Rattle.std.specs.VecDeque.Iter.{deque_iter_rest};
ghost use Rattle.change_history.specs.History.{first_within, since, Rises};
ghost use Rattle.change_history.specs.Tells.{TellsInOrder};
ghost use Rattle.refusals.specs.declared.numbers.TheConstants.{DEVICE, FULL, MEMORY};
ghost use Rattle.doc_changes.specs.Refusals.{plain};
ghost use Rattle.doc_changes.specs.State.{Good};
ghost use Rattle.doc_machine.specs.Transaction.{transaction_of};
ghost use Rattle.store_commits.specs.Account.{IsStanding};
ghost use Rattle.store_commits.specs.Batch.{changes};
ghost use Rattle.store_commits.specs.Copying.{PumpAnswers};
ghost use Rattle.store_commits.specs.Run.{Batched, Ran, pump, reply_of, seal, snapshot};
ghost use Rattle.store_commits.specs.Sealing.{SealAnswers};
ghost use Rattle.store_commits.specs.Snapshot.{SnapshotAnswers};
ghost use Rattle.store_commits.specs.declared.event.Reply.TheVariants.{Pumped, Sealed, Snapped};
ghost use Rattle.told_transactions.specs.Begun.{Begins, HoldsLog};
ghost use Rattle.told_transactions.specs.Told.{AreFrom, none_from};
ghost use Rattle.recorded_store.specs.Recorded.{IsRecord, Records, recorded_of};

use crate::recording::record;
use change_history::{History, Told};
use doc_machine::{Refusal, Transaction};
use doc_store::{Format, Pump, Reply, Store};
use sector_device::SectorDevice;
use std::alloc::{AllocError, Global};
use std::collections::vec_deque::Iter;
use std::marker::Model;
use told_transactions::history_of_log;

/// A store, and its newest transactions. What changes it goes through here, so that none is left out; it is read by what
/// `store` lends.
#[derive(Drop)]
pub struct RecordedStore<D: SectorDevice> {
    store: Store<D>,
    history: History,
}

impl<D: SectorDevice> Model for RecordedStore<D> {
    ghost use Rattle.recorded_store.specs.CodedRecorded.{coded_recorded};
    ghost use Rattle.recorded_store.specs.Recorded.{IsRecord, RecordedView};

    ghost Value = { RecordedView D };

    ghost coded = { coded_recorded D.code };

    ghost view = { λ s. record { store = s.store; history = s.history.history } };

    ghost invariant = { λ s. IsRecord (record { account = s.store.account; history = s.history.history }) };
}

impl<D: SectorDevice> RecordedStore<D> {
    /// The store, with no transaction yet: the first that it will know comes after its last change. It will keep at most
    /// `limit` bytes of frames. It takes no memory.
    pub fn new(alloc: Global, store: Store<D>, limit: u64) -> RecordedStore<D>
        ensures store { result.store ≡ store }
        ensures history { result.history ≡ none_from limit store.account.state.seq }
    {
        let history = History::new(alloc, limit, store.status().seq);
        RecordedStore { store, history }
    }

    /// A store that was opened, with the transactions of the bytes that its opening read, as far as they have at most
    /// `limit` bytes: those of its log in format 3, and none in format 2. It has none either if memory is refused for them.
    pub fn of_opened(alloc: Global, store: Store<D>, bytes: &[u8], limit: u64) -> RecordedStore<D>
        requires { HoldsLog store.account bytes.now }
        ensures store { result.store ≡ store }
        ensures history { Begins store.account.rides limit store.account.state.seq bytes.now result.history ⊎ (result.history ≡ none_from limit store.account.state.seq) }
    {
        match history_of(alloc, &store, bytes, limit) {
            Ok(history) => RecordedStore { store, history },
            Err(_) => RecordedStore::new(alloc, store, limit),
        }
    }

    /// Makes transactions, as `Store::transact_batch` does; those that are done are recorded.
    pub fn transact_batch(&mut self, transactions: Vec<Transaction>) -> Result<Vec<Reply>, Refusal>
        ensures batched { IfOk result (λ replies. Batched D.disk self.old.store self.new.store (map transaction_of transactions.items) replies.items) }
        ensures recorded { IfOk result (λ replies. Records (recorded_of self.old) (changes (map transaction_of transactions.items)) replies.items (recorded_of self.new)) }
        ensures memory { IfErr result (λ refusal. (refusal ≡ plain MEMORY) × (self.new ≡ self.old)) }
        ensures standing { IsStanding (D.disk self.new.device) self.new.account }
        ensures good { Good self.new.account.state }
    {
        self.store.know();
        // Before the device is called, so that all that is done is recorded.
        self.history.reserve(transactions.len())?;
        let committed = self.store.commit(transactions)?;
        Ok(record(&mut self.history, committed))
    }

    /// Makes a snapshot, as `Store::snapshot` does. The history keeps what it has.
    pub fn snapshot(&mut self) -> Result<u64, Refusal>
        ensures answer { SnapshotAnswers self.old.account result self.new.account }
        ensures ran { Ran D.disk self.old.store self.new.store (snapshot ∷ []) (reply_of Snapped result ∷ []) }
        ensures history { self.new.history ≡ self.old.history }
        ensures standing { IsStanding (D.disk self.new.device) self.new.account }
        ensures unchanged { IfErr result (λ refusal. refusal.number ≢ DEVICE → refusal.number ≢ FULL → self.new ≡ self.old) }
        ensures good { Good self.new.account.state }
    {
        self.store.snapshot()
    }

    /// Makes a step of a copy, as `Store::pump` does. The history keeps what it has.
    pub fn pump(&mut self, most: u64) -> Result<Pump, Refusal>
        ensures answer { PumpAnswers self.old.account most result self.new.account }
        ensures ran { Ran D.disk self.old.store self.new.store (pump most ∷ []) (reply_of Pumped result ∷ []) }
        ensures history { self.new.history ≡ self.old.history }
        ensures standing { IsStanding (D.disk self.new.device) self.new.account }
        ensures good { Good self.new.account.state }
    {
        self.store.pump(most)
    }

    /// Seals what is committed, as `Store::seal` does. The history keeps what it has.
    pub fn seal(&mut self) -> Result<(), Refusal>
        ensures answer { SealAnswers self.old.account result self.new.account }
        ensures ran { Ran D.disk self.old.store self.new.store (seal ∷ []) (reply_of (λ done. Sealed) result ∷ []) }
        ensures history { self.new.history ≡ self.old.history }
        ensures standing { IsStanding (D.disk self.new.device) self.new.account }
        ensures good { Good self.new.account.state }
    {
        self.store.seal()
    }

    /// The store, to read.
    pub fn store(&self) -> &Store<D>
        ensures { result.now ≡ self.now.store }
    {
        &self.store
    }

    /// The number of the change after which all transactions are known.
    pub fn floor(&self) -> u64
        ensures { result ≡ self.now.history.floor }
    {
        self.history.floor()
    }

    /// The transactions after the change of number `from`, in order and each whole: as many of the first as have at most
    /// `most` bytes of frames together, and one at least, if there is one.
    ///
    /// `None` if no known transaction ends with that change, and it isn't the floor.
    pub fn since(&self, from: u64, most: u64) -> Option<Iter<'_, Told>>
        ensures told { option_map deque_iter_rest result ≡ option_map (first_within most) (since self.now.history.floor self.now.history.told from) }
        ensures runs { OnSome result TellsInOrder }
        ensures transactions { IfSome result (λ told. AreFrom self.now.account.rides from (deque_iter_rest told)) }
        ensures rises { IfSome result (λ told. Rises from (deque_iter_rest told)) }
    {
        // By this call the prover knows that the numbers rise.
        let _ = self.history.floor();
        self.history.since(from, most)
    }

    /// The store, without its history.
    pub fn into_store(self) -> Store<D>
        ensures { result ≡ self.store }
    {
        let RecordedStore { store, history: _ } = self;
        store
    }
}

// The history of a store that was opened.
fn history_of<D: SectorDevice>(
    alloc: Global,
    store: &Store<D>,
    bytes: &[u8],
    limit: u64,
) -> Result<History, AllocError>
    requires { HoldsLog store.now.account bytes.now }
    ensures { IfOk result (λ history. Begins store.now.account.rides limit store.now.account.state.seq bytes.now history.history) }
{
    let last = store.status().seq;
    match store.format() {
        Format::Three => history_of_log(alloc, limit, last, bytes),
        Format::Two => Ok(History::new(alloc, limit, last)),
    }
}
