//! Devices of sectors of 512 bytes, and what a crash may leave on them. Every device keeps to one disk model: what
//! reads give, which images a crash now, or at some moment since, may leave, how many calls failed, and how many
//! still pass. A disk in memory keeps to it with each of its calls on record, and of contents with no more than a crash
//! needs, and can be crashed with any choice of what survives; a fuse fails from some call on, as if the power went; a
//! third device fails one call alone. Bytes are read and written over sectors one after another, by as many calls as is
//! said. What is proved over the trait holds for each of these devices, and for a real one as far as it keeps to the
//! model.
//!
//! What the calls of a device made of it is read off a history of them, which has no bytes and which contracts alone
//! read: one for a disk in memory and for a file.
#![tactic(auto)]

mod call;
mod damage;
mod device;
mod fail_once;
mod fuse;
mod history;
mod memory;
mod read;
mod run;
mod unsettled;

pub use call::DeviceCall;
pub use damage::Damage;
pub use device::{DeviceFault, SECTOR_BYTES, SectorDevice};
pub use fail_once::FailOnce;
pub use fuse::Fuse;
pub use history::{Held, History};
pub use memory::MemDisk;
pub use read::{ReadFault, read_bytes, read_first};
pub use run::{put, sector_at, write_run};
