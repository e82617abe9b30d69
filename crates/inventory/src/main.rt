//! An inventory that keeps its shelves in a store: how a program embeds the crates.
//!
//! The store is in the file `inventory` of the folder that the program runs in, and is made if there is none. The
//! program uses it in both ways: by calls, for what it does itself, and by lines, for what its clients send.
#![tactic(auto)]

mod calls;
mod fault;
mod lines;
mod opening;

use doc_store::Store;
use fault::Fault;
use file_device::FileDevice;
use recorded_store::RecordedStore;
use std::io::{self, Write};
use std::process::ExitCode;

fn main(rt: HostRuntime) -> ExitCode {
    match keep_inventory(&rt) {
        Ok(()) => ExitCode::from(0),
        Err(fault) => {
            let _ = eprintln!(rt; "inventory: {fault}");
            ExitCode::from(1)
        }
    }
}

fn keep_inventory(rt: &HostRuntime) -> Result<(), Fault> {
    let store = opening::open_or_make(rt, rt.alloc(), "inventory", 64)?;
    keep(rt, store)
}

/// Takes in what came, says how much to order, and answers a client's line.
fn keep(rt: &HostRuntime, store: Store<FileDevice>) -> Result<(), Fault> {
    let mut store = store;
    let alloc = rt.alloc();
    let mut out = io::writer(rt);
    calls::take_in(alloc, &mut store, "shelf-1")?;
    let low = calls::count_low(alloc, &store, "shelf-1")?;
    writeln!(out, "{low} to order")?;
    // No client of it asks for the changes of others, so none are kept.
    let mut recorded = RecordedStore::new(alloc, store, 0);
    lines::answer(
        alloc,
        &mut recorded,
        b"{\"cmd\":\"get\",\"name\":\"shelf-1\",\"path\":\"/nuts\"}\n",
        &mut out,
    )
}
