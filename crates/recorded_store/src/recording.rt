//! The transactions of a batch, as a history takes them.
ghost use Rattle.std.specs.Prelude.{◌≡◌, ◌+◌, ◌≤◌, length};
ghost use Rattle.change_history.specs.History.{newest, with_each};
ghost use Rattle.store_commits.specs.Given.{bytes_each};
ghost use Rattle.recorded_store.specs.Numbers.{Rise, numbers_in, told_with};

use change_history::{BatchFrames, History, Told};
use doc_store::{Committed, Reply};

/// Gives the history each transaction that was done. Their frames share a block of memory; if none is left for it, each
/// keeps its own.
pub(crate) fn record(history: &mut History, committed: Committed) -> Vec<Reply>
    requires each { length (numbers_in committed.replies.items) ≡ length (bytes_each committed.frames.items) }
    requires rise { Rise (newest history.old.history.floor history.old.history.told) (numbers_in committed.replies.items) }
    requires room { length history.old.history.told + length (bytes_each committed.frames.items) ≤ history.old.capacity }
    ensures replies { result.items ≡ committed.replies.items }
    ensures told { history.new.history ≡ with_each history.old.history (told_with (numbers_in committed.replies.items) (bytes_each committed.frames.items)) }
{
    let Committed { replies, frames } = committed;
    let mut given = BatchFrames::new(frames);
    for reply in replies.iter() {
        let Reply::Done(last) = *reply else {
            continue;
        };
        let Some(frames) = given.next() else {
            unreachable!();
        };
        history.push(Told { last, frames });
    }
    replies
}
