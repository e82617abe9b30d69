//! The store in a file.

use crate::fault::Fault;
use doc_store::Store;
use file_device::{Blocks, Cause, FileDevice, FileFault, Held, Rights, SystemFault};
use std::alloc::Global;
use std::fs::File;
use std::rt::Files;
use store_journal::format;

/// Opens the store in a file, or makes one of `sectors` sectors of 512 bytes if there is no such file.
pub fn open_or_make<R: Files<File = File>>(
    rt: &R,
    alloc: Global,
    path: &str,
    sectors: u64,
) -> Result<Store<FileDevice>, Fault> {
    let rights = Rights::Mode(0o600);
    let device = match FileDevice::create(
        rt,
        alloc,
        path,
        sectors,
        Blocks::Allocated,
        rights,
        &mut (),
    ) {
        Ok(mut made) => {
            format(&mut made)?;
            made
        }
        Err(
            FileFault::File(
                SystemFault {
                    cause: Cause::Exists,
                    ..
                },
            ),
        ) => FileDevice::open(rt, alloc, path, Held::any(alloc))?,
        Err(fault) => return Err(Fault::from(fault)),
    };
    Ok(Store::open(alloc, device)?)
}
