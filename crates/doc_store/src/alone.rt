//! Changes as transactions, and a transaction by itself as a batch of one.
ghost use Rattle.std.specs.Prelude.{◌≡◌, ℕ, [], ◌∷◌, map, IfOk, Result};
ghost use Rattle.record_text.specs.Change.{change_of};
ghost use Rattle.doc_machine.specs.Transaction.{single, transaction_of};
ghost use Rattle.doc_changes.specs.declared.refusal.Refusal.{Refusal as ARefusal};
ghost use Rattle.store_commits.specs.Run.{reply_of};
ghost use Rattle.store_commits.specs.declared.event.Reply.TheVariants.{Done};

use doc_machine::{Refusal, Transaction};
use record_text::Command;
use std::alloc::{AllocError, Global};
use store_commits::Reply;

/// Each change as a transaction.
pub(crate) fn singles(alloc: Global, commands: Vec<Command>) -> Result<Vec<Transaction>, AllocError>
    ensures { IfOk result (λ transactions. map transaction_of transactions.items ≡ map (λ c. single (change_of c)) commands.items) }
{
    let mut transactions = Vec::with_capacity(alloc, commands.len())?;
    for command in commands {
        transactions.push(Transaction::Single(command))?;
    }
    Ok(transactions)
}

/// The transaction alone.
pub(crate) fn alone(alloc: Global, transaction: Transaction) -> Result<Vec<Transaction>, AllocError>
    ensures { IfOk result (λ transactions. transactions.items ≡ transaction ∷ []) }
{
    let mut transactions = Vec::with_capacity(alloc, 1)?;
    transactions.push(transaction)?;
    Ok(transactions)
}

/// The one answer to a transaction.
pub(crate) fn only_answer(replies: Vec<Reply>) -> Result<u64, Refusal>
    requires { (outcome : Result ℕ ARefusal) × (replies.items ≡ reply_of Done outcome ∷ []) }
    ensures { (outcome : Result ℕ ARefusal) → replies.items ≡ reply_of Done outcome ∷ [] → result ≡ outcome }
{
    let mut replies = replies;
    match replies.pop() {
        Some(Reply::Done(seq)) => Ok(seq),
        Some(Reply::Refused(refusal)) => Err(refusal),
        _ => unreachable!(),
    }
}
