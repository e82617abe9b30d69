//! The replies of a store to the events of a life.
ghost use Rattle.std.specs.Prelude.{◌≡◌, ℕ, ◌+◌, ◌<◌, ◌≤◌, ◌++◌, ◌∷◌, [], List, map, length, vec_len, vec_capacity, IfOk};
ghost use Rattle.doc_machine.specs.Transaction.{transaction_of};
ghost use Rattle.store_commits.specs.Account.{IsStanding, StoreView, IsStandingAs};
ghost use Rattle.doc_changes.specs.State.{Good};
ghost use Rattle.store_commits.specs.Run.{Ran, change};
ghost use Rattle.store_commits.specs.Run.{snapshot as a_snapshot};
ghost use Rattle.store_commits.specs.Run.{pump as a_pump};
ghost use Rattle.store_commits.specs.Run.{seal as a_seal};
ghost use Rattle.store_commits.specs.Run.{Event as RunEvent};
ghost use Rattle.doc_store.specs.Lives.{TellsNothing};
ghost use Rattle.doc_store.specs.Ending.{Grows, Told, HasPlaces};
ghost use Rattle.store_commits.specs.Events.{event_of};

use crate::life::Part;
use crate::store::Store;
use doc_machine::{Refusal, Transaction};
use refusals::numbers::{DEVICE, MEMORY};
use sector_device::SectorDevice;
use std::alloc::{AllocError, Global};
use store_commits::{Event, Reply};

impl Part {
    /// The part of a life that was not opened, with room for `events` events.
    pub(crate) fn new(alloc: Global, events: usize) -> Result<Part, AllocError>
        ensures nothing { IfOk result TellsNothing }
        ensures room { IfOk result (HasPlaces events) }
    {
        Ok(Part {
            opened: false,
            replies: Vec::with_capacity(alloc, events)?,
            accepted: Vec::with_capacity(alloc, events)?,
            acknowledged: 0,
            kept: 0,
            disk_faults: 0,
        })
    }

    /// Asks all events, one after another.
    pub(crate) fn ask_all<D: SectorDevice>(
        &mut self,
        alloc: Global,
        store: &mut Store<D>,
        events: Vec<Event>,
    )
        requires nothing { TellsNothing self.old }
        requires room { HasPlaces (length events.items) self.old }
        ensures told { Told D.disk store.old store.new (map event_of events.items) self.new }
        ensures standing { IsStanding (D.disk store.new.device) store.new.account }
    {
        store.know();
        for event in events {
            self.ask(alloc, store, event);
        }
    }

    // Asks one event.
    fn ask<D: SectorDevice>(&mut self, alloc: Global, store: &mut Store<D>, event: Event)
        requires room { HasPlaces 1 self.old }
        requires standing { IsStanding (D.disk store.old.device) store.old.account }
        ensures told { (start : StoreView D) (events : List RunEvent) → Told D.disk start store.old events self.old
            → Told D.disk start store.new (events ++ event_of event ∷ []) self.new }
        ensures room { (n : ℕ) → HasPlaces (n + 1) self.old → HasPlaces n self.new }
        ensures standing { IsStanding (D.disk store.new.device) store.new.account }
    {
        let reply = self.answer(alloc, store, event);
        store.know();
        self.replies.push(reply).unwrap();
    }

    // The reply to an event, which the part doesn't have yet. If the event is a transaction that is accepted, the part
    // has that.
    fn answer<D: SectorDevice>(
        &mut self,
        alloc: Global,
        store: &mut Store<D>,
        event: Event,
    ) -> Reply
        requires room { HasPlaces 1 self.old }
        requires standing { IsStanding (D.disk store.old.device) store.old.account }
        ensures ran { Ran D.disk store.old store.new (event_of event ∷ []) (result ∷ []) }
        ensures grows { Grows (event_of event) result self.old self.new }
        ensures standing { IsStanding (D.disk store.new.device) store.new.account }
    {
        match event {
            Event::Run(transaction) => self.change(alloc, store, transaction),
            Event::Snapshot => snapshot(store),
            Event::Pump(max) => pump(store, max),
            Event::Seal => seal(store),
        }
    }

    // Asks for a transaction. It is copied first, for the part if it is accepted.
    fn change<D: SectorDevice>(
        &mut self,
        alloc: Global,
        store: &mut Store<D>,
        transaction: Transaction,
    ) -> Reply
        requires room { HasPlaces 1 self.old }
        requires standing { IsStanding (D.disk store.old.device) store.old.account }
        ensures ran { Ran D.disk store.old store.new (change (transaction_of transaction) ∷ []) (result ∷ []) }
        ensures grows { Grows (change (transaction_of transaction)) result self.old self.new }
        ensures standing { IsStanding (D.disk store.new.device) store.new.account }
    {
        let Ok(copy) = transaction.copy(alloc) else {
            return Reply::Refused(Refusal::plain(MEMORY));
        };
        match store.change(transaction) {
            Ok(seq) => {
                self.accepted.push(copy).unwrap();
                self.acknowledged += 1;
                Reply::Done(seq)
            }
            Err(refusal) => {
                if refusal.number == DEVICE {
                    self.accepted.push(copy).unwrap();
                }
                Reply::Refused(refusal)
            }
        }
    }
}

// Asks for a snapshot.
fn snapshot<D: SectorDevice>(store: &mut Store<D>) -> Reply
    ensures ran { Ran D.disk store.old store.new (a_snapshot ∷ []) (result ∷ []) }
    ensures standing { IsStanding (D.disk store.new.device) store.new.account }
{
    match store.snapshot() {
        Ok(used) => Reply::Snapped(used),
        Err(refusal) => Reply::Refused(refusal),
    }
}

// Asks for a step of a copy.
fn pump<D: SectorDevice>(store: &mut Store<D>, max: u64) -> Reply
    ensures ran { Ran D.disk store.old store.new (a_pump max ∷ []) (result ∷ []) }
    ensures standing { IsStanding (D.disk store.new.device) store.new.account }
{
    match store.pump(max) {
        Ok(pump) => Reply::Pumped(pump),
        Err(refusal) => Reply::Refused(refusal),
    }
}

// Asks for a seal.
fn seal<D: SectorDevice>(store: &mut Store<D>) -> Reply
    ensures ran { Ran D.disk store.old store.new (a_seal ∷ []) (result ∷ []) }
    ensures standing { IsStanding (D.disk store.new.device) store.new.account }
{
    match store.seal() {
        Ok(()) => Reply::Sealed,
        Err(refusal) => Reply::Refused(refusal),
    }
}

impl<D: SectorDevice> Store<D> {
    /// For the prover alone: who calls it knows from there on what the device holds, and in how many bytes of which
    /// half.
    pub fn know(&self)
        ensures standing { IsStanding (D.disk self.now.device) self.now.account }
        ensures good { Good self.now.account.state }
        ensures stands_as { IsStandingAs (D.disk self.now.device) self.now.account }
    {
        self.journal.know();
    }
}
