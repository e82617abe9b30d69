//! Transactions that are committed together.
ghost use Rattle.std.specs.Prelude.{◌≡◌, IfOk, IfErr, OnErr, map};
ghost use Rattle.record_text.specs.Change.{change_of};
ghost use Rattle.doc_machine.specs.Transaction.{single, transaction_of};
ghost use Rattle.refusals.specs.declared.numbers.TheConstants.{MEMORY};
ghost use Rattle.doc_changes.specs.Refusals.{plain};
ghost use Rattle.doc_changes.specs.State.{Good};
ghost use Rattle.store_commits.specs.Account.{IsStanding};
ghost use Rattle.store_commits.specs.Given.{GivesBack};
ghost use Rattle.store_commits.specs.Run.{Batched};

use crate::alone::singles;
use crate::store::Store;
use doc_machine::{Refusal, Transaction};
use record_text::Command;
use sector_device::SectorDevice;
use std::alloc::AllocError;
use store_commits::{Committed, Reply, commit_batch};

impl<D: SectorDevice> Store<D> {
    /// Makes transactions by as few commits as their room allows, and answers one reply to each, as `transact` answers
    /// it. Each is judged after the accepted ones before it, and its own changes are all made, or none; those that are
    /// accepted wait for one commit. One whose frames don't fit after the used bytes beside those that wait commits
    /// them first, and then goes on by itself, as `transact` does.
    ///
    /// `DEVICE` to all that waited if the device failed in their commit. What was answered before stays, also refusals
    /// of transactions that were judged for that commit, and all others are `BROKEN`. So are all of a broken store.
    ///
    /// The `Err` is `MEMORY`, before the device is called: nothing was done.
    pub fn transact_batch(&mut self, transactions: Vec<Transaction>) -> Result<Vec<Reply>, Refusal>
        ensures batched { IfOk result (λ replies. Batched D.disk self.old self.new (map transaction_of transactions.items) replies.items) }
        ensures memory { IfErr result (λ refusal. (refusal ≡ plain MEMORY) × (self.new ≡ self.old)) }
        ensures standing { IsStanding (D.disk self.new.device) self.new.account }
        ensures good { Good self.new.account.state }
    {
        Ok(self.make(transactions)?.replies)
    }

    /// Makes transactions, as `transact_batch` does, and gives back the frames of each that was done, whole and in order.
    /// In format 3 they have the kinds that those of a log have, and end with that of its mark.
    pub fn commit(&mut self, transactions: Vec<Transaction>) -> Result<Committed, Refusal>
        ensures batched { IfOk result (λ committed. Batched D.disk self.old self.new (map transaction_of transactions.items) committed.replies.items) }
        ensures frames { IfOk result (GivesBack self.old.account (map transaction_of transactions.items)) }
        ensures memory { IfErr result (λ refusal. (refusal ≡ plain MEMORY) × (self.new ≡ self.old)) }
        ensures standing { IsStanding (D.disk self.new.device) self.new.account }
        ensures good { Good self.new.account.state }
    {
        Ok(self.make(transactions)?)
    }

    // Makes transactions.
    fn make(&mut self, transactions: Vec<Transaction>) -> Result<Committed, AllocError>
        ensures batched { IfOk result (λ committed. Batched D.disk self.old self.new (map transaction_of transactions.items) committed.replies.items) }
        ensures frames { IfOk result (GivesBack self.old.account (map transaction_of transactions.items)) }
        ensures memory { OnErr result (self.new ≡ self.old) }
        ensures standing { IsStanding (D.disk self.new.device) self.new.account }
        ensures good { Good self.new.account.state }
    {
        commit_batch(
            self.alloc,
            &mut self.journal,
            &mut self.machine,
            &mut self.copy,
            transactions,
        )
    }

    /// Makes changes, each as a transaction of its own, as `transact_batch` does.
    pub fn execute_batch(&mut self, commands: Vec<Command>) -> Result<Vec<Reply>, Refusal>
        ensures batched { IfOk result (λ replies. Batched D.disk self.old self.new (map (λ c. single (change_of c)) commands.items) replies.items) }
        ensures memory { IfErr result (λ refusal. (refusal ≡ plain MEMORY) × (self.new ≡ self.old)) }
        ensures standing { IsStanding (D.disk self.new.device) self.new.account }
        ensures good { Good self.new.account.state }
    {
        self.know();
        let transactions = singles(self.alloc, commands)?;
        self.transact_batch(transactions)
    }
}
