//! Transactions that are judged and committed together, and what is answered then.
ghost use Rattle.std.specs.Prelude.{◌≡◌, ◌+◌, ◌≤◌, ◌++◌, IfOk, OnErr, length, map};
ghost use Rattle.std.specs.Vec.{vec_capacity, vec_len};
ghost use Rattle.doc_machine.specs.Transaction.{transaction_of};
ghost use Rattle.doc_changes.specs.Refusals.{plain};
ghost use Rattle.refusals.specs.declared.numbers.TheConstants.{BROKEN};
ghost use Rattle.store_commits.specs.Copying.{target_of};
ghost use Rattle.store_commits.specs.Given.{GivesBack};
ghost use Rattle.store_commits.specs.Inside.{IsStored, store_view};
ghost use Rattle.store_commits.specs.Run.{Batched};
ghost use Rattle.store_commits.specs.declared.event.Reply.TheVariants.{Refused};

use crate::copying::Copying;
use crate::event::Reply;
use crate::plan::prepare;
use crate::segment::commit_all;
use doc_machine::{Machine, Refusal, Transaction, Trial};
use refusals::numbers::BROKEN;
use sector_device::SectorDevice;
use std::alloc::{AllocError, Global};
use std::mem;
use store_journal::Journal;

/// What became of transactions.
#[derive(Drop)]
pub struct Committed {
    /// One reply to each, in order.
    pub replies: Vec<Reply>,
    /// Of each that was done the frames of its changes and of its mark, back to back, in order; also if a snapshot of the
    /// documents after it was committed in their place.
    pub frames: Vec<Vec<u8>>,
}

/// Makes transactions of a machine that the journal holds, by as few commits as their room allows. Answers one reply to
/// each, and gives back the frames of those that were done. An `Err` means that memory ran out, or the numbers of
/// commits, before the device is called.
pub fn commit_batch<D: SectorDevice>(
    alloc: Global,
    journal: &mut Journal<D>,
    machine: &mut Machine,
    copy: &mut Option<Copying>,
    transactions: Vec<Transaction>,
) -> Result<Committed, AllocError>
    requires { IsStored (D.disk journal.old.device) journal.old machine.old (target_of copy.old) }
    ensures stored { IsStored (D.disk journal.new.device) journal.new machine.new (target_of copy.new) }
    ensures batched { IfOk result (λ committed. Batched D.disk (store_view journal.old machine.old (target_of copy.old))
        (store_view journal.new machine.new (target_of copy.new)) (map transaction_of transactions.items) committed.replies.items) }
    ensures frames { IfOk result (GivesBack (store_view journal.old machine.old (target_of copy.old)).account (map transaction_of transactions.items)) }
    ensures memory { OnErr result (store_view journal.new machine.new (target_of copy.new) ≡ store_view journal.old machine.old (target_of copy.old)) }
{
    let replies = Vec::with_capacity(alloc, transactions.len())?;
    let frames = Vec::with_capacity(alloc, transactions.len())?;
    let mut committed = Committed { replies, frames };
    if journal.is_broken() {
        say_broken(&mut committed.replies, transactions);
        return Ok(committed);
    }
    let mut trial = Trial::begin(mem::replace(machine, Machine::new(alloc)));
    match prepare(alloc, journal, copy, &mut trial, transactions) {
        Err(refused) => {
            trial.keep(0);
            *machine = trial.end();
            Err(refused)
        }
        Ok(segments) => {
            *machine = commit_all(journal, copy, trial, segments, &mut committed);
            Ok(committed)
        }
    }
}

// Says of each transaction that the store is broken.
fn say_broken(said: &mut Vec<Reply>, transactions: Vec<Transaction>)
    requires room { vec_len said.old + length transactions.items ≤ vec_capacity said.old }
    ensures { said.new.items ≡ said.old.items ++ map (λ _. Refused (plain BROKEN)) transactions.items }
{
    for _ in transactions {
        said.push(Reply::Refused(Refusal::plain(BROKEN))).unwrap();
    }
}
