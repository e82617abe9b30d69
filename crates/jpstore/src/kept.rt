//! The things that a program kept of its files, and its exit.

ghost use Rattle.std.specs.Prelude.{◌≡◌};
ghost use Rattle.jpstore.specs.Calls.{end_of, end_of_made, end_of_opened, is_noted};
ghost use Rattle.file_programs.specs.Reads.{end_of_condition, end_of_framed, end_of_left, end_of_salvaged, end_of_shown, end_of_told};

use crate::programs::ClosedInMemory;
use damaged_files::{Condition, Salvaged, ShowFault, Told};
use file_device::{FileDevice, FileFault};
use file_programs::{Closed, Dumped, Ended, Examined, Fault, Left, SalvagedFile, Unopened};
use refusals::numbers::NOT_A_STORE;
use store_parts::Findings;

/// What a program kept, by the call that asked for it: the device or the store, as it then is, or why there is none.
#[derive(Drop)]
pub enum Kept {
    /// `format` or `new`: the device of the new file.
    Formatted(Result<FileDevice, Fault>),
    /// `serve`
    Served(Result<Closed, Unopened>),
    /// `check`
    Checked(Result<Closed, Unopened>),
    /// `repair`
    Repaired(Result<Closed, Unopened>),
    /// `copy`: the store, and the device of the copy.
    Copied(Result<Ended, Unopened>),
    /// `upgrade`
    Upgraded(Result<Closed, Unopened>),
    /// `mem`
    InMemory(Result<ClosedInMemory, Fault>),
    /// `check --deep`
    Examined(Result<Examined, Unopened>),
    /// `salvage`
    Salvaged(Result<SalvagedFile, FileFault>),
    /// `dump --read-only`
    Dumped(Result<Dumped, Unopened>),
}

/// How the program exits.
#[derive(Clone, Copy)]
pub struct Exit {
    /// The exit status.
    pub status: u8,
    /// Whether all that is to be said on standard error was written.
    pub said: bool,
}

/// What the words made.
#[derive(Drop)]
pub struct Performed {
    pub exit: Exit,
    /// What was kept, if the words are a call.
    pub kept: Option<Kept>,
}

impl Kept {
    /// How the program ended.
    pub fn ended(&self) -> Result<(), Fault>
        ensures { result ≡ end_of self.now }
    {
        match self {
            Kept::Formatted(made) => end_of_made(made),
            Kept::Served(opened)
            | Kept::Checked(opened)
            | Kept::Repaired(opened)
            | Kept::Upgraded(opened) => end_of_opened(opened),
            Kept::Copied(Ok(ended)) => end_of_made(&ended.copied),
            Kept::Copied(Err(unopened)) => Err(unopened.told()),
            Kept::InMemory(Ok(closed)) => closed.ended,
            Kept::InMemory(Err(fault)) => Err(*fault),
            Kept::Examined(Ok(examined)) => end_of_told(&examined.told),
            Kept::Salvaged(Ok(salvaged)) => end_of_left(&salvaged.left),
            Kept::Salvaged(Err(fault)) => Err(Fault::from(*fault)),
            Kept::Dumped(Ok(dumped)) => end_of_shown(dumped.shown),
            Kept::Examined(Err(unopened)) | Kept::Dumped(Err(unopened)) => Err(unopened.told()),
        }
    }

    /// Lets the files go. Each kind has a function for that, since a function that drops many stores takes minutes to prove.
    pub fn let_go(self) {
        match self {
            Kept::Formatted(made) => let_made_go(made),
            Kept::Served(opened)
            | Kept::Checked(opened)
            | Kept::Repaired(opened)
            | Kept::Upgraded(opened) => let_opened_go(opened),
            Kept::Copied(copied) => let_copied_go(copied),
            Kept::InMemory(memory) => let_memory_go(memory),
            Kept::Examined(examined) => let_examined_go(examined),
            Kept::Salvaged(salvaged) => let_salvaged_go(salvaged),
            Kept::Dumped(dumped) => let_dumped_go(dumped),
        }
    }

    /// Whether all was written that is said of the slots at an opening.
    pub fn is_noted(&self) -> bool
        ensures { result ≡ is_noted self.now }
    {
        match self {
            Kept::Served(Ok(closed)) | Kept::Upgraded(Ok(closed)) => closed.noted,
            Kept::Copied(Ok(ended)) => ended.noted,
            Kept::Dumped(Ok(dumped)) => dumped.noted,
            _ => true,
        }
    }
}

fn let_made_go(_made: Result<FileDevice, Fault>) {}

fn let_opened_go(_opened: Result<Closed, Unopened>) {}

fn let_copied_go(_copied: Result<Ended, Unopened>) {}

fn let_memory_go(_memory: Result<ClosedInMemory, Fault>) {}

fn let_examined_go(_examined: Result<Examined, Unopened>) {}

fn let_salvaged_go(_salvaged: Result<SalvagedFile, FileFault>) {}

fn let_dumped_go(_dumped: Result<Dumped, Unopened>) {}

// How a program ended that makes a file.
fn end_of_made(made: &Result<FileDevice, Fault>) -> Result<(), Fault>
    ensures { result ≡ end_of_made made.now }
{
    match made {
        Ok(_) => Ok(()),
        Err(fault) => Err(*fault),
    }
}

// How a program ended that opens a store.
fn end_of_opened(opened: &Result<Closed, Unopened>) -> Result<(), Fault>
    ensures { result ≡ end_of_opened opened.now }
{
    match opened {
        Ok(closed) => closed.ended,
        Err(unopened) => Err(unopened.told()),
    }
}

// How a program ended that reported this of the damages.
fn end_of_told(told: &Result<Told, ShowFault>) -> Result<(), Fault>
    ensures { result ≡ end_of_told told.now }
{
    match told {
        Ok(told) => end_of_condition(told.condition),
        Err(fault) => Err(Fault::from(*fault)),
    }
}

// How one ended that showed this of a file.
fn end_of_left(left: &Left) -> Result<(), Fault>
    ensures { result ≡ end_of_left left.now }
{
    match left {
        Left::Documents(shown) => end_of_salvaged(shown),
        Left::Frames(shown) => end_of_framed(shown),
    }
}

// How one ended that salvaged this, or nothing of what can be no store.
fn end_of_salvaged(shown: &Result<Option<Salvaged>, ShowFault>) -> Result<(), Fault>
    ensures { result ≡ end_of_salvaged shown.now }
{
    match shown {
        Ok(Some(salvaged)) => end_of_condition(salvaged.condition),
        Ok(None) => Err(Fault::refused(NOT_A_STORE)),
        Err(fault) => Err(Fault::from(*fault)),
    }
}

// How one ended that showed the frames of this, or none of what can be no store.
fn end_of_framed(shown: &Result<Option<Findings>, ShowFault>) -> Result<(), Fault>
    ensures { result ≡ end_of_framed shown.now }
{
    match shown {
        Ok(Some(_)) => Ok(()),
        Ok(None) => Err(Fault::refused(NOT_A_STORE)),
        Err(fault) => Err(Fault::from(*fault)),
    }
}

// How one ended that showed documents.
fn end_of_shown(shown: Result<(), ShowFault>) -> Result<(), Fault>
    ensures { result ≡ end_of_shown shown }
{
    match shown {
        Ok(()) => Ok(()),
        Err(fault) => Err(Fault::from(fault)),
    }
}

// How one ended that found a store so.
fn end_of_condition(condition: Condition) -> Result<(), Fault>
    ensures { result ≡ end_of_condition condition }
{
    match condition {
        Condition::Whole => Ok(()),
        Condition::Damaged => Err(Fault::Damage),
    }
}
