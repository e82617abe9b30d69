//! A transaction: one change, or several that are made together, and the mark that is set with them.
ghost use Rattle.std.specs.Prelude.{◌≡◌, IfOk, map};
ghost use Rattle.record_text.specs.Change.{change_of};

use crate::marking::Marking;
use crate::spelled::SpelledPatch;
use record_text::Command;
use std::alloc::{AllocError, Global};

/// Changes that are made together: all of them, or none.
#[derive(Drop)]
pub enum Transaction {
    /// One change, which is refused as it is by itself.
    Single(Command),
    /// 1 to `TRANSACTION_CHANGES` changes, of which a refusal names the one that was refused.
    Several(Vec<Command>),
    /// The same with a mark, which is set with the changes or not at all, and with what it must be before.
    Marked(Marking, Changes),
    /// One change, a patch that asks for no revision, in its text.
    Spelled(SpelledPatch),
}

/// The changes beside a mark.
#[derive(Drop)]
pub enum Changes {
    /// One change, which is refused as it is by itself.
    Alone(Command),
    /// 1 to `TRANSACTION_CHANGES` changes, of which a refusal names the one that was refused.
    Together(Vec<Command>),
}

impl Transaction {
    ghost use Rattle.std.specs.Prelude.{◌≡◌, IfOk, length};
    ghost use Rattle.doc_machine.specs.Transaction.{changes_of, transaction_of};

    /// The same transaction, in memory of its own.
    pub fn copy(&self, alloc: Global) -> Result<Transaction, AllocError>
        ensures { IfOk result (λ copy. transaction_of copy ≡ transaction_of self.now) }
    {
        match self {
            Transaction::Single(command) => Ok(Transaction::Single(command.copy(alloc)?)),
            Transaction::Several(commands) => Ok(Transaction::Several(copy_all(alloc, commands)?)),
            Transaction::Marked(marking, changes) => Ok(Transaction::Marked(
                marking.copy(alloc)?,
                changes.copy(alloc)?,
            )),
            Transaction::Spelled(patch) => Ok(Transaction::Spelled(patch.copy(alloc)?)),
        }
    }

    /// How many changes it has.
    pub fn len(&self) -> usize
        ensures { result ≡ length (changes_of (transaction_of self.now)) }
    {
        match self {
            Transaction::Single(_) => 1,
            Transaction::Several(commands) => commands.len(),
            Transaction::Marked(_, changes) => changes.len(),
            Transaction::Spelled(_) => 1,
        }
    }
}

impl Changes {
    ghost use Rattle.std.specs.Prelude.{◌≡◌, IfOk, length};
    ghost use Rattle.doc_machine.specs.Transaction.{all_of, pure_changes};

    // The same changes, in memory of their own.
    fn copy(&self, alloc: Global) -> Result<Changes, AllocError>
        ensures { IfOk result (λ copy. pure_changes copy ≡ pure_changes self.now) }
    {
        match self {
            Changes::Alone(command) => Ok(Changes::Alone(command.copy(alloc)?)),
            Changes::Together(commands) => Ok(Changes::Together(copy_all(alloc, commands)?)),
        }
    }

    // How many they are.
    fn len(&self) -> usize
        ensures { result ≡ length (all_of (pure_changes self.now)) }
    {
        match self {
            Changes::Alone(_) => 1,
            Changes::Together(commands) => commands.len(),
        }
    }
}

fn copy_all(alloc: Global, commands: &[Command]) -> Result<Vec<Command>, AllocError>
    ensures { IfOk result (λ copies. map change_of copies.items ≡ map change_of commands.now) }
{
    let mut copies = Vec::with_capacity(alloc, commands.len())?;
    for command in commands {
        copies.push(command.copy(alloc)?)?;
    }
    Ok(copies)
}
