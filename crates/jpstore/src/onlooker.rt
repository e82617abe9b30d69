//! An onlooker of a call.

ghost use Rattle.std.specs.Prelude.{◌≡◌, Option, Some, None, option_map};
ghost use Rattle.jpstore.specs.declared.kept.Performed.{Performed};
ghost use Rattle.sector_device.specs.declared.history.Held.{Held};
ghost use Rattle.std.specs.declared.snapshot.Snapshot.{Snapshot};

use crate::kept::Performed;
use file_device::{Held, Progress};
use std::alloc::Global;
use std::mem;
use std::snapshot::Snapshot;

/// Who looks on at a call: it names what a file holds that the words name, and is handed what was made of it. So a
/// contract speaks of that file, and of the very store or device that the call had.
pub trait Onlooker: Progress {
    ghost holds: { Self → Snapshot Held };

    ghost seen: { Self → Option Performed };

    /// What the file holds.
    fn held(&mut self) -> Snapshot<Held>
        ensures { result ≡ holds self.old };

    /// Takes what the words made.
    fn see(&mut self, performed: Performed)
        ensures { seen self.new ≡ Some performed };
}

/// An onlooker for the program itself, over one who looks on at the writing of a new file.
#[derive(Drop)]
pub struct Watch<P> {
    alloc: Global,
    progress: P,
    held: Snapshot<Held>,
    performed: Option<Snapshot<Performed>>,
}

impl<P: Progress> Watch<P> {
    /// No code knows what the file holds: it may be anything.
    pub fn new(alloc: Global, progress: P) -> Watch<P> {
        Watch {
            alloc,
            progress,
            held: Held::any(alloc),
            performed: None,
        }
    }
}

impl<P: Progress> Progress for Watch<P> {
    fn reached(&mut self, written: u64, length: u64) {
        self.progress.reached(written, length);
    }
}

impl<P: Progress> Onlooker for Watch<P> {
    ghost use Rattle.std.specs.Prelude.{◌≡◌, Some, option_map};

    ghost holds = { λ watch. watch.held };

    ghost seen = { λ watch. option_map (λ performed. performed.value) watch.performed };

    fn held(&mut self) -> Snapshot<Held> {
        mem::replace(&mut self.held, Held::any(self.alloc))
    }

    // The program itself lets it go, and knows it for its contract alone.
    fn see(&mut self, performed: Performed) {
        self.performed = Some(Snapshot::of(&performed));
        if let Some(kept) = performed.kept {
            kept.let_go();
        }
    }
}
