//! A session over a reader and a writer.
ghost use Rattle.std.specs.Prelude.{◌≡◌, [], ◌<◌, ◌≤◌, ◌*◌, ℕ, List, length, take, IfOk, IfErr, IsErrOf, IsOk};
ghost use Rattle.std.specs.Io.KnownBytes.{Appends, Consumes, IsAtEnd, Keeps};
ghost use Rattle.std.specs.Vec.{vec_len};
ghost use Rattle.doc_changes.specs.State.{Good};
ghost use Rattle.doc_tree.specs.Doc.{Doc};
ghost use Rattle.store_commits.specs.Account.{IsStanding};
ghost use Rattle.store_commits.specs.Events.{Event, dones_of, hits_of};
ghost use Rattle.store_commits.specs.declared.event.Reply.{Reply};
ghost use Rattle.doc_store.specs.Promise.{KeepsPromise};
ghost use Rattle.protocol.specs.Lines.{answered, ended, lines_of};
ghost use Rattle.protocol.specs.Reply.{reply_lines};
ghost use Rattle.serve_lines.specs.Kept.{IsKept};
ghost use Rattle.serve_lines.specs.Serve.{BreaksOff, IsSession, Pauses, Serves};
ghost use Rattle.protocol.specs.declared.serve_fault.ServeFault.TheVariants.{Reader, Writer, Turns, Memory};

use crate::options::Options;
use crate::progress::Progress;
use crate::writing::Unwritten;
use doc_store::laws::runs_keep_the_promise;
use protocol::ServeFault;
use recorded_store::RecordedStore;
use sector_device::SectorDevice;
use std::alloc::Global;
use std::io::{Read, Write};

/// Bytes that a call of the reader is asked for.
const PIECE: usize = 65_536;

/// What a session did.
#[derive(Clone, Copy, Debug, PartialEq, Eq)]
pub struct Served {
    /// Reply lines that were written, which stops at 2^64 - 1.
    pub lines: u64,
    /// Whether the store is broken at the end: its device failed, in this session or before.
    pub broken: bool,
}

/// Reads lines to the end of the input, and writes one reply line to each that isn't blank, and
/// nothing else.
///
/// Lines end with LF; a last line without one is answered. Replies are written before the next call of the reader, of
/// which there are `turns` at most. Successive changes are made as one batch, of `batch` at most, and answered then:
/// one that isn't full when more input is awaited waits for it. A line for which memory is refused is answered with
/// that refusal and skipped, after the batch before it; if memory is refused to a batch, each of its lines is. After
/// each batch of which a change was done a step of a copy is made, before its replies are written, if the options ask
/// for one; it has no reply line. Once the store is broken, changes, snapshots and steps are refused, and questions are
/// answered from what was last committed.
pub fn serve<D: SectorDevice, R: Read, W: Write>(
    alloc: Global,
    store: &mut RecordedStore<D>,
    reader: &mut R,
    writer: &mut W,
    options: &Options,
) -> Result<Served, ServeFault>
    // However it ends: the lines that were answered as done asked, in their order, for the transactions that no crash loses; of
    // each the reply is its number, and a question is answered by the state after those before it. Unless the writer failed,
    // the lines of these replies are all that was written; if no fault ended it, no line is without one.
    ensures kept { (k : IsKept D.disk store.old store.new (R.remaining reader.old) (R.remaining reader.new))
        × (IsOk result → (k.later ≡ []) × IsAtEnd (R.remaining reader.new))
        × ((IsErrOf result Writer → ⊥) → Appends (W.contents writer.old) (W.contents writer.new) (reply_lines k.replies)) }

    // All that was read is all there was, and what was written is the reply lines of a session over its lines.
    ensures session { IfOk result (λ served. (read : List ℕ) × Consumes (R.remaining reader.old) (R.remaining reader.new) read × IsAtEnd (R.remaining reader.new)
        × Serves D.disk options.now store.old (lines_of read) (W.contents writer.old) store.new (W.contents writer.new) served.lines
        × (length read < 65_536 * options.now.turns)) }
    ensures broken { IfOk result (λ served. served.broken ≡ store.new.account.broken) }

    // However it ends, what is stored is good, and the device of a store that works holds it.
    ensures good { Good store.new.account.state }
    ensures standing { IsStanding (D.disk store.new.device) store.new.account }

    // However it ends, what the store was asked and answered keeps the promise. That are the events and the replies of any
    // session that it may have been by the other clauses.
    ensures promise { (events : List Event) × (said : List Reply) × KeepsPromise D.disk store.old.store store.new.store (dones_of events said) (hits_of events said) }
    ensures promised { (lines : List (List ℕ)) (replies : List Doc) (was : IsSession D.disk options.now store.old lines replies store.new)
        → KeepsPromise D.disk store.old.store store.new.store (dones_of was.events was.said) (hits_of was.events was.said) }

    // The reader failed or the turns ran out: each line that a line feed ended is answered, and its reply is written, but
    // for the changes that wait for others, which aren't done. A turn gave a byte at least, and 65,536 at most.
    ensures reader { IsErrOf result Reader → (read : List ℕ) × Consumes (R.remaining reader.old) (R.remaining reader.new) read
        × Pauses D.disk options.now store.old (answered (ended read)) (W.contents writer.old) store.new (W.contents writer.new) }
    ensures turns { IsErrOf result Turns → (read : List ℕ) × Consumes (R.remaining reader.old) (R.remaining reader.new) read
        × Pauses D.disk options.now store.old (answered (ended read)) (W.contents writer.old) store.new (W.contents writer.new)
        × (options.now.turns ≤ length read) × (length read ≤ 65_536 * options.now.turns) }

    // The writer failed: the store went by a session over the first of the lines that had ended, by a line feed or by the
    // end of the input, and nothing is said of what was written.
    ensures writer { IsErrOf result Writer → (read : List ℕ) × Consumes (R.remaining reader.old) (R.remaining reader.new) read
        × BreaksOff D.disk options.now store.old read (R.remaining reader.new) store.new }

    // Memory was refused: nothing was read, written or changed.
    ensures memory { IsErrOf result Memory → (store.new ≡ store.old) × (reader.new ≡ reader.old) × (writer.new ≡ writer.old) }
{
    runs_keep_the_promise::<D>();
    let ended = answer_all(alloc, store, reader, writer, options);
    let broken = is_broken(store);
    match ended {
        Ok(lines) => Ok(Served { lines, broken }),
        Err(fault) => Err(fault),
    }
}

// Whether the store is broken. Who calls this also knows that what is stored is good, and what the device holds.
fn is_broken<D: SectorDevice>(store: &RecordedStore<D>) -> bool
    ensures broken { result ≡ store.now.account.broken }
    ensures good { Good store.now.account.state }
    ensures standing { IsStanding (D.disk store.now.device) store.now.account }
{
    store.store().status().broken
}

// The same, but for what the store is seen as at the end: the number of all replies.
fn answer_all<D: SectorDevice, R: Read, W: Write>(
    alloc: Global,
    store: &mut RecordedStore<D>,
    reader: &mut R,
    writer: &mut W,
    options: &Options,
) -> Result<u64, ServeFault>
    ensures ok { IfOk result (λ count. (read : List ℕ) × Consumes (R.remaining reader.old) (R.remaining reader.new) read × IsAtEnd (R.remaining reader.new)
        × Serves D.disk options.now store.old (lines_of read) (W.contents writer.old) store.new (W.contents writer.new) count
        × (length read < 65_536 * options.now.turns)) }
    ensures reader { IsErrOf result Reader → (read : List ℕ) × Consumes (R.remaining reader.old) (R.remaining reader.new) read
        × Pauses D.disk options.now store.old (answered (ended read)) (W.contents writer.old) store.new (W.contents writer.new) }
    ensures turns { IsErrOf result Turns → (read : List ℕ) × Consumes (R.remaining reader.old) (R.remaining reader.new) read
        × Pauses D.disk options.now store.old (answered (ended read)) (W.contents writer.old) store.new (W.contents writer.new)
        × (options.now.turns ≤ length read) × (length read ≤ 65_536 * options.now.turns) }
    ensures writer { IsErrOf result Writer → (read : List ℕ) × Consumes (R.remaining reader.old) (R.remaining reader.new) read
        × BreaksOff D.disk options.now store.old read (R.remaining reader.new) store.new }
    ensures memory { IsErrOf result Memory → (store.new ≡ store.old) × (reader.new ≡ reader.old) × (writer.new ≡ writer.old) }
{
    store.store().know();
    let Ok(mut progress) = Progress::new(alloc, options) else {
        return Err(ServeFault::Memory);
    };
    let Ok(mut piece) = vec![in alloc; 0u8; PIECE] else {
        return Err(ServeFault::Memory);
    };
    for _ in 0..options.turns {
        let count = read_piece(reader, &mut piece, &progress)?;
        if count == 0 {
            return Ok(progress.finish(alloc, store, writer)?);
        }
        progress.turn(alloc, store, writer, &piece[..count])?;
    }
    Err(ServeFault::Turns)
}

// One call of the reader, before which nothing waits: how many bytes it gave, none only at its end.
fn read_piece<R: Read>(
    reader: &mut R,
    piece: &mut Vec<u8>,
    _progress: &Progress,
) -> Result<usize, ServeFault>
    requires room { 0 < vec_len piece.old }
    requires nothing_waits { _progress.now.outbox.bytes.items ≡ [] }
    ensures ok { IfOk result (λ n. (n ≤ vec_len piece.new) × Consumes (R.remaining reader.old) (R.remaining reader.new) (take n piece.new.items)
        × (n ≡ 0 → IsAtEnd (R.remaining reader.new))) }
    ensures len { vec_len piece.new ≡ vec_len piece.old }
    ensures err { IfErr result (λ e. (e ≡ Reader) × Keeps (R.remaining reader.old) (R.remaining reader.new)) }
{
    match reader.read(piece.as_mut_slice()) {
        Ok(count) => Ok(count),
        Err(_) => Err(ServeFault::Reader),
    }
}

impl From<Unwritten> for ServeFault {
    ghost from_gives = { λ _ e. e ≡ Writer };

    fn from(_unwritten: Unwritten) -> ServeFault {
        ServeFault::Writer
    }
}
