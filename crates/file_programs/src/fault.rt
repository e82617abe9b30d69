//! The reasons why a program ended before it was done.

ghost use Rattle.std.specs.Prelude.{◌≡◌, OnOk};
ghost use Rattle.std.specs.Io.KnownBytes.{Appends};
ghost use Rattle.file_programs.specs.Faults.{line_of_fault, words_of_session};

use damaged_files::ShowFault;
use doc_machine::Refusal;
use file_device::{FileFault, SystemFault};
use protocol::ServeFault;
use refusals::numbers::MEMORY;
use sector_device::SectorDevice;
use std::alloc::AllocError;
use std::fmt::{self, Display, Formatter};
use std::io::Write;
use store_journal::{FormatFault, OpenFault};

/// Why a program ended before it was done.
#[derive(Clone, Copy, Debug, PartialEq, Eq)]
pub enum Fault {
    /// FILE can't be made or opened.
    File(SystemFault),
    /// NEW of `copy` can't be made.
    New(SystemFault),
    /// Another program has the file.
    InUse,
    /// There is no room for all of a new file.
    NoSpace,
    /// The system gave no random bytes for the identity of a store in format 3.
    Identity,
    /// Memory was refused, outside a session.
    Memory,
    /// A device was refused, or failed.
    Refused(Refusal),
    /// A line can't be written, outside a session.
    Writer,
    /// A session ended before its input did.
    Session(ServeFault),
    /// A store that was only read is damaged, as its lines say.
    Damage,
}

// Its words.
impl Display for Fault {
    ghost use Rattle.std.specs.Prelude.{Some};
    ghost use Rattle.file_programs.specs.Faults.{words_of};

    ghost output = { λ fault. Some (words_of fault) };

    fn fmt<W: fmt::Write>(&self, f: &mut Formatter<W>) -> fmt::Result {
        match self {
            Fault::File(_) | Fault::New(_) => f.write_str("file"),
            Fault::InUse => f.write_str("in-use"),
            Fault::NoSpace => f.write_str("no-space"),
            Fault::Identity => f.write_str("identity"),
            Fault::Memory => f.write_str("memory"),
            Fault::Refused(refusal) => {
                let (name, number) = (refusal.name(), refusal.number);
                write!(f, "{name} ({number})")
            }
            Fault::Writer => f.write_str("writer"),
            Fault::Session(fault) => f.write_str(words_of_session(*fault)),
            Fault::Damage => f.write_str("damage"),
        }
    }
}

// The words of a session's fault.
fn words_of_session(fault: ServeFault) -> &'static str
    ensures { result.now ≡ words_of_session fault }
{
    match fault {
        ServeFault::Reader => "reader",
        ServeFault::Writer => "writer",
        ServeFault::Turns => "turns",
        ServeFault::Memory => "memory",
    }
}

impl Fault {
    ghost use Rattle.file_programs.specs.Files.{fault_of};
    ghost use Rattle.file_programs.specs.Faults.{told_of_new};

    /// The fault of a new file that isn't made beside the one that is opened.
    pub fn of_new(fault: FileFault) -> Fault
        ensures { result ≡ told_of_new fault }
    {
        match fault {
            FileFault::File(fault) => Fault::New(fault),
            other => Fault::from(other),
        }
    }

    /// The fault of a refusal with that number: `MEMORY` is the same fault wherever it comes.
    pub fn refused(number: u16) -> Fault
        ensures { result ≡ fault_of number }
    {
        match number {
            MEMORY => Fault::Memory,
            _ => Fault::Refused(Refusal::plain(number)),
        }
    }
}

impl From<AllocError> for Fault {
    fn from(_refused: AllocError) -> Fault {
        Fault::Memory
    }
}

impl From<FileFault> for Fault {
    ghost use Rattle.file_programs.specs.Faults.{told_of_file};

    ghost from_gives = { λ fault told. told ≡ told_of_file fault };

    fn from(fault: FileFault) -> Fault {
        match fault {
            FileFault::File(fault) => Fault::File(fault),
            FileFault::InUse => Fault::InUse,
            FileFault::NoSpace => Fault::NoSpace,
            FileFault::Memory => Fault::Memory,
        }
    }
}

impl From<ShowFault> for Fault {
    ghost use Rattle.file_programs.specs.Faults.{told_of_show};

    ghost from_gives = { λ fault told. told ≡ told_of_show fault };

    fn from(fault: ShowFault) -> Fault {
        match fault {
            ShowFault::Memory => Fault::Memory,
            ShowFault::Writer => Fault::Writer,
        }
    }
}

impl From<FormatFault> for Fault {
    ghost use Rattle.file_programs.specs.Files.{fault_of};

    ghost from_gives = { λ fault told. told ≡ fault_of fault.number };

    fn from(fault: FormatFault) -> Fault {
        Fault::refused(fault.number)
    }
}

impl<D: SectorDevice + Drop> From<OpenFault<D>> for Fault {
    ghost use Rattle.file_programs.specs.Files.{fault_of};

    ghost from_gives = { λ fault told. told ≡ fault_of fault.number };

    fn from(fault: OpenFault<D>) -> Fault {
        Fault::refused(fault.number)
    }
}

/// Says a fault on standard error.
pub fn complain<E: Write>(errors: &mut E, fault: Fault) -> Result<(), Fault>
    ensures { OnOk result (Appends (E.contents errors.old) (E.contents errors.new) (line_of_fault fault)) }
{
    match writeln!(errors, "jpstore: {fault}") {
        Ok(()) => Ok(()),
        Err(_) => Err(Fault::Writer),
    }
}
