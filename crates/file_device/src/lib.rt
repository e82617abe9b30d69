//! A file of the operating system as a device of sectors of 512 bytes. Writes of neighbouring sectors wait in memory,
//! until a sync, a read, a write elsewhere or the drop hands them to the system by one call; a read fetches a run of
//! sectors. `sync` hands over, and is then the system's sync of that file. No two openings have a file at one time,
//! unless both only read it, and no file takes the number of a standard stream. A new file is written full of zeros before it is used, unless it is
//! sparse, and has its rights before its first byte.
//!
//! Each call is noted in a history that only contracts read, a write when it is taken, and the file keeps to the disk
//! model as that history says: the number of sectors never changes, each call that fails is counted once and no other
//! is, no limit of calls is set, and what reads give and what a crash leaves is what the calls make of what the file
//! held. Premises are that the system makes each call as it is noted, that reads give what the sector holds (the device
//! is honest as long as they do), that a crash leaves one of the history's images, and that no other program writes the
//! file.
#![tactic(auto)]

mod fault;
mod file;
mod fill;
mod rights;
mod system;

pub use fault::{Cause, FileFault, SystemFault};
pub use file::FileDevice;
pub use fill::{Blocks, Progress};
pub use rights::{Rights, Standing};
pub use sector_device::{Held, History};
