//! A part of a block of memory that several share.
ghost use Rattle.std.specs.Prelude.{◌≡◌, ◌-◌, ◌≤◌, IfOk, drop, length, take};
ghost use Rattle.std.specs.Arc.{arc_value};

use std::alloc::{AllocError, Global};
use std::marker::Model;
use std::sync::Arc;

/// A part of a block. Contracts see its bytes, and not which parts share the block.
#[derive(Drop)]
pub(crate) struct Part {
    block: Arc<Vec<u8>, Global>,
    from: usize,
    to: usize,
}

impl Model for Part {
    ghost use Rattle.std.specs.Prelude.{◌-◌, ◌≤◌, List, ℕ, drop, length, take};
    ghost use Rattle.std.specs.Arc.{arc_value};

    ghost Value = { List ℕ };

    ghost view = { λ p. take (p.to - p.from) (drop p.from (arc_value p.block).items) };

    ghost invariant = { λ p. (p.from ≤ p.to) × (p.to ≤ length (arc_value p.block).items) };
}

impl Part {
    /// The bytes of the block from one index to another. Refused only if more parts share the block than can be counted.
    pub(crate) fn of(
        block: &Arc<Vec<u8>, Global>,
        from: usize,
        to: usize,
    ) -> Result<Part, AllocError>
        requires order { from ≤ to }
        requires within { to ≤ length (arc_value block.now).items }
        ensures { IfOk result (λ part. part ≡ take (to - from) (drop from (arc_value block.now).items)) }
    {
        Ok(Part {
            block: Arc::try_clone(block)?,
            from,
            to,
        })
    }

    /// The bytes.
    pub(crate) fn as_slice(&self) -> &[u8]
        ensures { result.now ≡ self.now }
    {
        &self.block.as_slice()[self.from..self.to]
    }

    /// How many they are.
    pub(crate) fn len(&self) -> usize
        ensures { result ≡ length self.now }
    {
        self.to - self.from
    }
}
