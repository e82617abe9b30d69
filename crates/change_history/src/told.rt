//! A transaction as a history keeps it.
ghost use Rattle.std.specs.Prelude.{◌≡◌, length};

use crate::frames::Frames;
use std::marker::Model;

/// A transaction: what it changed, as frames.
#[derive(Drop)]
pub struct Told {
    /// The number of its last change.
    pub last: u64,
    /// The frames of its changes, in order and back to back.
    pub frames: Frames,
}

impl Model for Told {
    ghost use Rattle.change_history.specs.History.{Told};

    ghost Value = { Told };

    ghost view = { λ t. record { last = t.last; frames = t.frames } };
}

impl Told {
    /// How many bytes its frames have.
    pub fn bytes(&self) -> u64
        ensures { result ≡ length self.now.frames }
    {
        self.frames.len() as u64
    }
}
