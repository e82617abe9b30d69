//! The program's use of its store by lines, as a service does with what a client sends.

use crate::fault::Fault;
use recorded_store::RecordedStore;
use sector_device::SectorDevice;
use serve_lines::{Options, ReplyRoom, Session};
use std::alloc::Global;
use std::io::Write;

/// Answers each line of a piece of input. What is written of a change is on the device already.
pub fn answer<D: SectorDevice, W: Write>(
    alloc: Global,
    store: &mut RecordedStore<D>,
    input: &[u8],
    out: &mut W,
) -> Result<(), Fault> {
    let options = Options {
        batch: 1,
        pump: 0,
        turns: u64::MAX,
    };
    let mut session = Session::new(alloc, &options)?;
    let mut room = ReplyRoom::new(alloc)?;
    let mut rest = input;
    // A line has a byte at least, its line feed.
    for _ in 0..input.len() {
        let Some((reply, behind)) = session.next_reply(alloc, store, rest) else {
            break;
        };
        out.write_all(room.line(&reply))?;
        rest = behind;
    }
    Ok(())
}
