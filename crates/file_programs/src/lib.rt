//! The programs over a store in a file that serve no lines: they make it, check it, copy it, bring it to another format,
//! or read what is left of it. Each writes its reply line and ends at its first fault.
#![tactic(auto)]

mod fault;
mod identity;
pub mod laws;
mod lines;
mod notices;
mod opening;
mod programs;

pub use fault::{Fault, complain};
pub use lines::show_line;
pub use notices::{note, strictness_of};
pub use opening::{Closed, Unopened, open_and_read, open_store, open_strictly};
pub use programs::{
    Dumped, Ended, Examined, Left, NewCopy, NewFile, SalvagedFile, check_deep, check_file,
    copy_file, dump_file, format_file, repair_file, salvage_file, upgrade_file,
};
