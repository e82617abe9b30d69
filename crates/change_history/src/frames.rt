//! The frames of a transaction.
ghost use Rattle.std.specs.Prelude.{◌≡◌, length};

use crate::part::Part;
use std::marker::Model;

/// The frames of a transaction, as bytes. Contracts see the bytes, and not which transactions share the memory.
#[derive(Drop)]
pub struct Frames {
    held: Held,
}

// The memory of the bytes.
#[derive(Drop)]
enum Held {
    // Theirs alone.
    Own(Vec<u8>),
    // A block that transactions of a batch share.
    Shared(Part),
}

impl Model for Frames {
    ghost use Rattle.std.specs.Prelude.{List, ℕ};
    ghost use Rattle.change_history.specs.Frames.{bytes_held};

    ghost Value = { List ℕ };

    ghost view = { λ f. bytes_held f.held };
}

impl Frames {
    /// These bytes, in memory of their own. It takes no memory.
    pub fn own(bytes: Vec<u8>) -> Frames
        ensures { result ≡ bytes.items }
    {
        Frames {
            held: Held::Own(bytes),
        }
    }

    // These bytes of a block.
    pub(crate) fn shared(part: Part) -> Frames
        ensures { result ≡ part }
    {
        Frames {
            held: Held::Shared(part),
        }
    }

    /// The bytes.
    pub fn as_slice(&self) -> &[u8]
        ensures value { result.now ≡ self.now }
        ensures len { length result.now ≡ length self.now }
    {
        match &self.held {
            Held::Own(bytes) => bytes.as_slice(),
            Held::Shared(part) => part.as_slice(),
        }
    }

    /// How many bytes they are.
    pub fn len(&self) -> usize
        ensures { result ≡ length self.now }
    {
        match &self.held {
            Held::Own(bytes) => bytes.len(),
            Held::Shared(part) => part.len(),
        }
    }
}
