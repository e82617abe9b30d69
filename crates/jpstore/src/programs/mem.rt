//! `mem --sectors N [--format N] [--history BYTES]`

ghost use Rattle.std.specs.Prelude.{◌≡◌, IfOk, OnErr, Ok};
ghost use Rattle.jpstore.specs.Memory.{IsServedInMemory, new_account};

use crate::serving::{options_of, serve_store};
use doc_store::Store;
use doc_store::laws::one_state_stands;
use file_programs::Fault;
use recorded_store::RecordedStore;
use sector_device::MemDisk;
use std::alloc::Global;
use std::io::{Read, Write};
use store_journal::laws::images_carry_one;

/// A store in memory at the end of a program.
#[derive(Drop)]
pub struct ClosedInMemory {
    /// The store, as it is then.
    pub store: Store<MemDisk>,
    /// How the program ended.
    pub ended: Result<(), Fault>,
}

/// Serves lines over an empty store on a disk in memory, in format 3 or, for any other number, 2, each change by itself, and hands it out as it is at the end. Of its newest
/// transactions at most `history` bytes are kept.
pub fn serve_memory<I: Read, O: Write>(
    alloc: Global,
    sectors: u64,
    format: u64,
    history: u64,
    reader: &mut I,
    writer: &mut O,
) -> Result<ClosedInMemory, Fault>
    ensures served { IfOk result (λ closed. closed.ended ≡ Ok tt
        → IsServedInMemory sectors format history (I.remaining reader.old) (I.remaining reader.new) (O.contents writer.old) (O.contents writer.new) closed.store) }
    ensures unread { OnErr result (reader.new ≡ reader.old) }
    ensures unwritten { OnErr result (writer.new ≡ writer.old) }
{
    let store = new_store(alloc, sectors, format == 3)?;
    let mut recorded = RecordedStore::new(alloc, store, history);
    let ended = serve_store(alloc, &mut recorded, reader, writer, &options_of(1, 0));
    Ok(ClosedInMemory {
        store: recorded.into_store(),
        ended,
    })
}

// An empty store on a disk of `sectors` sectors in memory, in format 3 if small commits ride.
fn new_store(alloc: Global, sectors: u64, rides: bool) -> Result<Store<MemDisk>, Fault>
    ensures { IfOk result (λ store. store.account ≡ new_account rides sectors) }
{
    // A formatted disk carries no bytes: it holds no documents and nothing else.
    images_carry_one();
    one_state_stands();
    let mut disk = MemDisk::new(alloc, sectors)?;
    store_journal::format_in(&mut disk, rides, 0)?;
    Ok(Store::open(alloc, disk)?)
}
