//! The entries in order, lent.
ghost use Rattle.std.specs.Prelude.{◌≡◌, length};
ghost use Rattle.std.specs.Iterator.{at_most};
ghost use Rattle.std.specs.Map.Iter.{TakesFirst, deref_pair};

use crate::name::Name;
use std::marker::Model;
use std::slice;

/// The entries of a map in order, each as its name and its value.
#[derive(Drop)]
pub struct Iter<'a, V> {
    left: slice::Iter<'a, (Name, V)>,
}

impl<'a, V> Model for Iter<'a, V> {
    ghost use Rattle.std.specs.Prelude.{List, String};
    ghost use Rattle.std.specs.Slice.Iter.{iter_rest};
    ghost use Rattle.std.specs.declared.alloc.Global.{Global};

    ghost Value = { List (String Global × V) };

    ghost view = { λ i. iter_rest i.left };
}

impl<'a, V> Iter<'a, V> {
    pub(crate) fn new(entries: &'a [(Name, V)]) -> Iter<'a, V>
        ensures { result ≡ entries.now }
    {
        Iter {
            left: entries.iter(),
        }
    }
}

impl<'a, V> Iterator for Iter<'a, V> {
    type Item = (&'a String, &'a V);

    ghost next_gives = { TakesFirst deref_pair };

    ghost remaining = { λ s. at_most (length s) };

    #[inline]
    fn next(&mut self) -> Option<(&'a String, &'a V)> {
        let entry = self.left.next()?;
        Some((entry.0.as_string(), &entry.1))
    }
}

/// The same, with each name as it is shared.
#[derive(Drop)]
pub struct Named<'a, V> {
    left: slice::Iter<'a, (Name, V)>,
}

impl<'a, V> Model for Named<'a, V> {
    ghost use Rattle.std.specs.Prelude.{List, String};
    ghost use Rattle.std.specs.Slice.Iter.{iter_rest};
    ghost use Rattle.std.specs.declared.alloc.Global.{Global};

    ghost Value = { List (String Global × V) };

    ghost view = { λ i. iter_rest i.left };
}

impl<'a, V> Named<'a, V> {
    pub(crate) fn new(entries: &'a [(Name, V)]) -> Named<'a, V>
        ensures { result ≡ entries.now }
    {
        Named {
            left: entries.iter(),
        }
    }
}

impl<'a, V> Iterator for Named<'a, V> {
    type Item = (&'a Name, &'a V);

    ghost next_gives = { TakesFirst deref_pair };

    ghost remaining = { λ s. at_most (length s) };

    #[inline]
    fn next(&mut self) -> Option<(&'a Name, &'a V)> {
        let entry = self.left.next()?;
        Some((&entry.0, &entry.1))
    }
}
