//! A session that ends with a seal.

ghost use Rattle.std.specs.Prelude.{◌≡◌, ◌≢◌, ◌↔◌, ℕ, [], List, IfOk, IsErrOf, IsOk, IsTrue, false};
ghost use Rattle.std.specs.Io.KnownBytes.{Appends, Consumes, IsAtEnd};
ghost use Rattle.store_commits.specs.Account.{IsStanding, StoreView};
ghost use Rattle.recorded_store.specs.Recorded.{RecordedView};
ghost use Rattle.protocol.specs.Lines.{answered, ended, lines_of};
ghost use Rattle.protocol.specs.Reply.{reply_lines};
ghost use Rattle.serve_lines.specs.Kept.{IsKept};
ghost use Rattle.serve_lines.specs.Serve.{BreaksOff, Pauses, Serves};
ghost use Rattle.protocol.specs.declared.serve_fault.ServeFault.TheVariants.{Reader, Writer, Turns, Memory};
ghost use Rattle.file_programs.specs.Files.{RanSomeEvents};
ghost use Rattle.jpstore.specs.Seals.{IsSealedAtEnd};

use doc_store::Status;
use doc_store::laws::runs_join;
use recorded_store::RecordedStore;
use sector_device::SectorDevice;
use serve_lines::{Options, ServeFault, Served, serve};
use std::alloc::Global;
use std::io::{Read, Write};

/// Serves lines to the end of the input, and then seals a store that works and has accepted changes. If a fault ends the
/// session it is as it was then.
pub fn serve_and_seal<D: SectorDevice, I: Read, O: Write>(
    alloc: Global,
    store: &mut RecordedStore<D>,
    reader: &mut I,
    writer: &mut O,
    options: &Options,
) -> Result<Served, ServeFault>
    ensures kept { (k : IsKept D.disk store.old store.new (I.remaining reader.old) (I.remaining reader.new))
        × (IsOk result → (k.later ≡ []) × IsAtEnd (I.remaining reader.new))
        × ((IsErrOf result Writer → ⊥) → Appends (O.contents writer.old) (O.contents writer.new) (reply_lines k.replies)) }
    ensures session { IfOk result (λ served. (read : List ℕ) × Consumes (I.remaining reader.old) (I.remaining reader.new) read × IsAtEnd (I.remaining reader.new)
        × ((mid : RecordedView D) × Serves D.disk options.now store.old (lines_of read) (O.contents writer.old) mid (O.contents writer.new) served.lines
        × IsSealedAtEnd D.disk store.old.store mid.store store.new.store)) }
    ensures broken { IfOk result (λ served. served.broken ≡ store.new.account.broken) }
    ensures reader { IsErrOf result Reader → (read : List ℕ) × Consumes (I.remaining reader.old) (I.remaining reader.new) read
        × Pauses D.disk options.now store.old (answered (ended read)) (O.contents writer.old) store.new (O.contents writer.new) }
    ensures turns { IsErrOf result Turns → (read : List ℕ) × Consumes (I.remaining reader.old) (I.remaining reader.new) read
        × Pauses D.disk options.now store.old (answered (ended read)) (O.contents writer.old) store.new (O.contents writer.new) }
    ensures writer { IsErrOf result Writer → (read : List ℕ) × Consumes (I.remaining reader.old) (I.remaining reader.new) read
        × BreaksOff D.disk options.now store.old read (I.remaining reader.new) store.new }
    ensures memory { IsErrOf result Memory → (store.new ≡ store.old) × (reader.new ≡ reader.old) × (writer.new ≡ writer.old) }
    ensures went { RanSomeEvents D.disk store.old.store store.new.store }
    ensures standing { IsStanding (D.disk store.new.device) store.new.account }
{
    runs_join::<D>();
    let seq = store.store().status().seq;
    match serve(alloc, store, reader, writer, options) {
        Ok(served) => {
            let broken = seal_if_changed(store, seq);
            Ok(Served {
                lines: served.lines,
                broken,
            })
        }
        Err(fault) => Err(fault),
    }
}

// Seals a store that works and has accepted changes since it had this number of them, and answers whether it is broken
// then.
fn seal_if_changed<D: SectorDevice>(store: &mut RecordedStore<D>, seq: u64) -> bool
    ensures sealed { (old : StoreView D) → old.account.state.seq ≡ seq → IsSealedAtEnd D.disk old store.old.store store.new.store }
    ensures broken { result ≡ store.new.account.broken }
    ensures standing { IsStanding (D.disk store.new.device) store.new.account }
{
    runs_join::<D>();
    if has_changed(&store.store().status(), seq) {
        let _ = store.seal();
    }
    store.store().status().broken
}

// Whether a store of this status works and has another number of accepted changes.
fn has_changed(status: &Status, seq: u64) -> bool
    ensures { IsTrue result ↔ ((status.now.broken ≡ false) × (status.now.seq ≢ seq)) }
{
    !status.broken && status.seq != seq
}
