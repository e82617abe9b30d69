//! The reasons why the program ended before it was done.

use doc_machine::Refusal;
use doc_tree::TreeFault;
use file_device::FileFault;
use path_parse::QueryFault;
use sector_device::SectorDevice;
use std::alloc::{AllocError, AllocFailed};
use std::io;
use store_journal::{FormatFault, OpenFault};
use thiserror::Error;

/// The reasons why the program ended before it was done.
#[derive(Clone, Copy, Debug, PartialEq, Eq, Error)]
pub enum Fault {
    /// Memory was refused.
    #[error("memory")]
    Memory,
    /// The file can't be made or opened, or another program has it.
    #[error("file")]
    File,
    /// The output failed.
    #[error("output")]
    Output,
    /// The store refused what was asked.
    #[error("{name} ({number})", name = .0.name(), number = .0.number)]
    Refused(Refusal),
}

impl From<AllocError> for Fault {
    fn from(_refused: AllocError) -> Fault {
        Fault::Memory
    }
}

impl<T: Drop> From<AllocFailed<T>> for Fault {
    fn from(_refused: AllocFailed<T>) -> Fault {
        Fault::Memory
    }
}

impl From<io::Error> for Fault {
    fn from(_failed: io::Error) -> Fault {
        Fault::Output
    }
}

impl From<FileFault> for Fault {
    fn from(fault: FileFault) -> Fault {
        match fault {
            FileFault::Memory => Fault::Memory,
            _ => Fault::File,
        }
    }
}

impl From<Refusal> for Fault {
    fn from(refusal: Refusal) -> Fault {
        Fault::Refused(refusal)
    }
}

impl From<TreeFault> for Fault {
    fn from(fault: TreeFault) -> Fault {
        Fault::Refused(Refusal::plain(fault.number))
    }
}

impl From<QueryFault> for Fault {
    fn from(fault: QueryFault) -> Fault {
        Fault::Refused(Refusal::plain(fault.number))
    }
}

impl From<FormatFault> for Fault {
    fn from(fault: FormatFault) -> Fault {
        Fault::Refused(Refusal::plain(fault.number))
    }
}

impl<D: SectorDevice + Drop> From<OpenFault<D>> for Fault {
    fn from(fault: OpenFault<D>) -> Fault {
        Fault::Refused(Refusal::plain(fault.number))
    }
}
