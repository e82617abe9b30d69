//! Laws of the definitions. Each function does nothing: its contract is the law.
ghost use Rattle.std.specs.Prelude.{ℕ, List};
ghost use Rattle.protocol.specs.Reply.{change_reply};
ghost use Rattle.serve_lines.specs.Kept.{Known, LineTells};
ghost use Rattle.serve_lines.specs.Serve.{OneNeverWaits};

use sector_device::SectorDevice;

/// If a batch takes one change, none waits.
pub fn batches_of_one<D: SectorDevice>()
    ensures { OneNeverWaits D.disk }
{}

/// What is said of a line whose transaction wasn't made is never that one was done, whatever the number.
pub fn no_other_line_is_told_as_done()
    ensures { (s : Known) (line : List ℕ) (seq : ℕ) → LineTells s line (change_reply seq) → ⊥ }
{}
