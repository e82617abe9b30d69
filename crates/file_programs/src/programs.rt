//! The programs. Each ends at its first fault.

mod check;
mod copy;
mod deep;
mod dump;
mod format;
mod salvage;
mod upgrade;

pub use check::{check_file, repair_file};
pub use copy::{Ended, NewCopy, copy_file};
pub use deep::{Examined, check_deep};
pub use dump::{Dumped, dump_file};
pub use format::{NewFile, format_file};
pub use salvage::{Left, SalvagedFile, salvage_file};
pub use upgrade::upgrade_file;
