//! Events, one after another.
ghost use Rattle.std.specs.Prelude.{◌≡◌, [], ◌∷◌, IfOk, IfErr, map};
ghost use Rattle.doc_changes.specs.Refusals.{plain};
ghost use Rattle.doc_changes.specs.State.{Good};
ghost use Rattle.refusals.specs.declared.numbers.TheConstants.{MEMORY};
ghost use Rattle.store_commits.specs.Account.{IsStanding};
ghost use Rattle.store_commits.specs.Events.{event_of};
ghost use Rattle.store_commits.specs.Run.{Ran};

use crate::store::Store;
use doc_machine::Refusal;
use sector_device::SectorDevice;
use store_commits::{Event, Reply};

impl<D: SectorDevice> Store<D> {
    /// Does these events in order, and answers one reply to each. The only refusal is `MEMORY`, before the
    /// first of them.
    pub fn run(&mut self, events: Vec<Event>) -> Result<Vec<Reply>, Refusal>
        ensures ran { IfOk result (λ replies. Ran D.disk self.old self.new (map event_of events.items) replies.items) }
        ensures memory { IfErr result (λ refusal. (refusal ≡ plain MEMORY) × (self.new ≡ self.old)) }
        ensures standing { IsStanding (D.disk self.new.device) self.new.account }
        ensures good { Good self.new.account.state }
    {
        self.know();
        let mut replies = Vec::with_capacity(self.alloc, events.len())?;
        for event in events {
            let reply = self.answer(event);
            replies.push(reply).unwrap();
        }
        Ok(replies)
    }

    // Does one event.
    fn answer(&mut self, event: Event) -> Reply
        ensures ran { Ran D.disk self.old self.new (event_of event ∷ []) (result ∷ []) }
        ensures standing { IsStanding (D.disk self.new.device) self.new.account }
        ensures good { Good self.new.account.state }
    {
        match event {
            Event::Run(transaction) => match self.change(transaction) {
                Ok(seq) => Reply::Done(seq),
                Err(refusal) => Reply::Refused(refusal),
            },
            Event::Snapshot => match self.snapshot() {
                Ok(used) => Reply::Snapped(used),
                Err(refusal) => Reply::Refused(refusal),
            },
            Event::Pump(max) => match self.pump(max) {
                Ok(pump) => Reply::Pumped(pump),
                Err(refusal) => Reply::Refused(refusal),
            },
            Event::Seal => match self.seal() {
                Ok(()) => Reply::Sealed,
                Err(refusal) => Reply::Refused(refusal),
            },
        }
    }
}
