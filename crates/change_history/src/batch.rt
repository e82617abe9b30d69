//! The frames of a batch's transactions, in one block of memory.
ghost use Rattle.std.specs.Prelude.{◌≡◌, ◌-◌, ◌^◌, IfOk, length, min};
ghost use Rattle.std.specs.Arc.{arc_value};
ghost use Rattle.std.specs.Iterator.{YieldsFirst, item_count};
ghost use Rattle.change_history.specs.Frames.{bytes_all, bytes_each};

use crate::frames::Frames;
use crate::part::Part;
use std::alloc::{AllocError, Global};
use std::marker::Model;
use std::sync::Arc;
use std::vec::IntoIter;

/// The frames of the transactions of a batch, in order. They share one block of memory, so that what lives long isn't
/// spread among what doesn't. If memory for it is refused, each transaction keeps its own; so does one that is alone.
#[derive(Drop)]
pub struct BatchFrames {
    /// Those that are left, each in its own memory.
    left: IntoIter<Vec<u8>>,
    /// The bytes of all.
    block: Option<Arc<Vec<u8>, Global>>,
    /// The index in the block of the first that is left.
    from: usize,
}

impl Model for BatchFrames {
    ghost use Rattle.std.specs.Prelude.{List, ℕ};
    ghost use Rattle.std.specs.Vec.Iter.{into_iter_items};
    ghost use Rattle.change_history.specs.Frames.{bytes_each, EndsWith};

    ghost Value = { List (List ℕ) };

    ghost view = { λ b. bytes_each (into_iter_items b.left) };

    ghost invariant = { λ b. EndsWith b.block b.from (into_iter_items b.left) };
}

impl BatchFrames {
    /// Those of a batch. What the caller gets doesn't depend on the memory that is left.
    pub fn new(each: Vec<Vec<u8>>) -> BatchFrames
        ensures { result ≡ bytes_each each.items }
    {
        let block = if each.len() > 1 {
            joined(*each.allocator(), each.as_slice()).ok()
        } else {
            None
        };
        BatchFrames {
            left: each.into_iter(),
            block,
            from: 0,
        }
    }
}

impl Iterator for BatchFrames {
    type Item = Frames;

    ghost next_gives = { YieldsFirst (λ left. left) };

    ghost remaining = { item_count (λ left. left) };

    fn next(&mut self) -> Option<Frames> {
        let own = self.left.next()?;
        let Some(block) = &self.block else {
            return Some(Frames::own(own));
        };
        let from = self.from;
        self.from += own.len();
        match Part::of(block, from, self.from) {
            Ok(part) => Some(Frames::shared(part)),
            Err(_) => Some(Frames::own(own)),
        }
    }
}

// The bytes of all, one after another, in a block that has room for no more.
fn joined(alloc: Global, each: &[Vec<u8>]) -> Result<Arc<Vec<u8>, Global>, AllocError>
    ensures { IfOk result (λ block. (arc_value block).items ≡ bytes_all each.now) }
{
    let mut bytes = Vec::with_capacity(alloc, bytes_in(each))?;
    for one in each {
        bytes.extend_from_slice(one.as_slice())?;
    }
    Ok(Arc::new(alloc, bytes)?)
}

// How many bytes all have, or the largest number, of which no memory has as many.
fn bytes_in(each: &[Vec<u8>]) -> usize
    ensures { result ≡ min (length (bytes_all each.now)) (2 ^ 64 - 1) }
{
    let mut bytes: usize = 0;
    for one in each {
        bytes = bytes.saturating_add(one.len());
    }
    bytes
}
