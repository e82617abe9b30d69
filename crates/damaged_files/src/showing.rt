//! Text that is shown, and how that ends.
ghost use Rattle.std.specs.Prelude.{◌≡◌};
ghost use Rattle.damaged_files.specs.Shown.{Shows};

use std::alloc::AllocError;
use std::io::Write;

/// Whether anything of a store is damaged.
#[derive(Clone, Copy, Debug, PartialEq, Eq)]
pub enum Condition {
    Whole,
    Damaged,
}

/// Why not all was shown.
#[derive(Clone, Copy, Debug, PartialEq, Eq)]
pub enum ShowFault {
    /// Memory was refused.
    Memory,
    /// The writer failed.
    Writer,
}

impl From<AllocError> for ShowFault {
    ghost use Rattle.damaged_files.specs.declared.showing.ShowFault.TheVariants.{Memory};

    ghost from_gives = { λ refused fault. fault ≡ Memory };

    fn from(_refused: AllocError) -> ShowFault {
        ShowFault::Memory
    }
}

/// Shows a text.
pub(crate) fn show<O: Write>(writer: &mut O, text: &[u8]) -> Result<(), ShowFault>
    ensures { Shows result text.now (O.contents writer.old) (O.contents writer.new) }
{
    match writer.write_all(text) {
        Ok(()) => Ok(()),
        Err(_) => Err(ShowFault::Writer),
    }
}
