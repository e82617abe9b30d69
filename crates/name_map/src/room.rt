//! Room for entries, taken before it is needed.
ghost use Rattle.std.specs.Prelude.{◌≡◌, ◌≤◌, [], IfOk, vec_capacity};

use crate::name::Name;
use std::alloc::{AllocError, Global};
use std::marker::Model;

/// Room for entries of a map. Contracts see it as for how many.
#[derive(Drop)]
pub struct Room<V> {
    list: Vec<(Name, V)>,
}

impl<V> Model for Room<V> {
    ghost use Rattle.std.specs.Prelude.{ℕ, ◌≡◌, [], vec_capacity};

    ghost Value = { ℕ };

    ghost view = { λ r. vec_capacity r.list };

    ghost invariant = { λ r. r.list.items ≡ [] };
}

impl<V> Room<V> {
    pub(crate) fn with(alloc: Global, len: usize) -> Result<Room<V>, AllocError>
        ensures { IfOk result (λ room. len ≤ room) }
    {
        Ok(Room {
            list: Vec::with_capacity(alloc, len)?,
        })
    }

    /// For how many entries it is.
    pub fn len(&self) -> usize
        ensures { result ≡ self.now }
    {
        self.list.capacity()
    }

    pub(crate) fn into_list(self) -> Vec<(Name, V)>
        ensures items { result.items ≡ [] }
        ensures capacity { vec_capacity result ≡ self }
    {
        self.list
    }
}
