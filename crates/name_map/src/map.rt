//! The map, and what is found and changed in it by a name.
ghost use Rattle.std.specs.Prelude.{◌≡◌, ◌↔◌, ◌<◌, ◌≤◌, ◌+◌, ◌-◌, ◌^◌, [], ◌∷◌, ◌++◌, length, is_some, IfOk, IfErr, IfSome, IfNone, IsTrue, IsOk, OnOk, OnErr, OnSome, Some, None, MatchOption, option_map, if◌then◌else◌, string_bytes, String, slice_get, IsSome};
ghost use Rattle.std.specs.Option.{option_copied, option_copied_mut};
ghost use Rattle.std.specs.Borrow.{sem};
ghost use Rattle.std.specs.List.Sorted.{IsSearchInRange};
ghost use Rattle.std.specs.Map.{lookup};
ghost use Rattle.std.specs.Map.Iter.{ShowsInOrder, ShowsValuesInOrder, deref_pair};
ghost use Rattle.std.specs.declared.alloc.Global.{Global};
ghost use Rattle.std.specs.Ordering.{nat_cmp};
ghost use Rattle.std.specs.Cmp.Lexicographic.{slice_cmp};
ghost use Rattle.std.specs.declared.cmp.Ordering.TheVariants.{Equal};
ghost use Rattle.name_map.specs.Entries.{entry_named, seek, named, put, without, IsLast, IsOrdered};

use crate::iter::{Iter, Named};
use crate::name::Name;
use crate::room::Room;
use std::alloc::{AllocError, AllocFailed, Global};
use std::cmp::Ordering;
use std::marker::Model;
use std::mem;

/// A map from names to values, in the order of the names' bytes.
#[derive(Drop)]
pub struct NameMap<V> {
    list: Vec<(Name, V)>,
}

impl<V> Model for NameMap<V> {
    ghost use Rattle.std.specs.Prelude.{string_cmp, vec_capacity};
    ghost use Rattle.std.specs.List.Sorted.{IsStrictlySortedBy};
    ghost use Rattle.std.specs.Map.{keys_of};
    ghost use Rattle.name_map.specs.Entries.{Entries, entries_code};

    ghost Value = { Entries V };

    ghost coded = { entries_code V.code };

    ghost view = { λ m. record { entries = m.list.items; capacity = vec_capacity m.list } };

    ghost invariant = { λ m. IsStrictlySortedBy string_cmp (keys_of m.list.items) };
}

impl<V> NameMap<V> {
    ghost use Rattle.name_map.specs.Lends.{lends_value};

    /// A map with no entry. It takes no memory.
    pub fn new(alloc: Global) -> NameMap<V>
        ensures empty { result.entries ≡ [] }
    {
        NameMap {
            list: Vec::new(alloc),
        }
    }

    /// A map with no entry, and room for that many.
    pub fn with_capacity(alloc: Global, capacity: usize) -> Result<NameMap<V>, AllocError>
        ensures empty { IfOk result (λ m. m.entries ≡ []) }
        ensures room { IfOk result (λ m. m.capacity ≡ capacity) }
    {
        Ok(NameMap {
            list: Vec::with_capacity(alloc, capacity)?,
        })
    }

    /// How many entries it has.
    pub fn len(&self) -> usize
        ensures len { result ≡ length self.now.entries }
        ensures small { result < 2 ^ 63 }
        ensures ordered { IsOrdered self.now }
    {
        self.list.len()
    }

    /// Whether it has none.
    pub fn is_empty(&self) -> bool
        ensures { IsTrue result ↔ (length self.now.entries ≡ 0) }
    {
        self.len() == 0
    }

    /// The entries in order.
    pub fn iter(&self) -> Iter<'_, V>
        ensures rest { result ≡ self.now.entries }
        ensures runs { ShowsInOrder (deref_pair {K = String Global} {X = V}) }
        ensures values_run { ShowsValuesInOrder (deref_pair {K = String Global} {X = V}) }
        ensures ordered { IsOrdered self.now }
    {
        Iter::new(self.list.as_slice())
    }

    /// The same with the names as they are shared.
    pub fn named(&self) -> Named<'_, V>
        ensures rest { result ≡ self.now.entries }
        ensures runs { ShowsInOrder (deref_pair {K = String Global} {X = V}) }
        ensures values_run { ShowsValuesInOrder (deref_pair {K = String Global} {X = V}) }
        ensures ordered { IsOrdered self.now }
    {
        Named::new(self.list.as_slice())
    }

    // The place of the entry of that name, or else the one at which it would go in.
    fn place(&self, name: &str) -> Result<usize, usize>
        ensures place { result ≡ seek (named name.now) self.now.entries }
        ensures bound { IsSearchInRange result (length self.now.entries) }
        ensures ordered { IsOrdered self.now }
    {
        self.list.binary_search_by(
            |entry: &(Name, V)| -> Ordering
                ensures { result ≡ slice_cmp nat_cmp (string_bytes entry.now.0) name.entry.now }
            { entry.0.as_str().cmp(name) },
        )
    }

    // The same, which is looked for at that index first.
    fn place_near(&self, near: usize, name: &str) -> Result<usize, usize>
        ensures place { result ≡ seek (named name.now) self.now.entries }
        ensures bound { IsSearchInRange result (length self.now.entries) }
        ensures ordered { IsOrdered self.now }
    {
        match self.list.get(near) {
            Some(entry) => if entry.0.as_str() == name {
                return Ok(near);
            },
            None => {}
        }
        self.place(name)
    }

    /// The value of the name.
    pub fn get(&self, name: &str) -> Option<&V>
        ensures value { option_copied result ≡ entry_named name.now self.now }
    {
        match self.place(name) {
            Ok(at) => Some(&self.list[at].1),
            Err(_) => None,
        }
    }

    /// The name, as it is kept, and the value.
    pub fn get_key_value(&self, name: &str) -> Option<(&String, &V)>
        ensures same_key { IfSome result (λ p. slice_cmp nat_cmp name.now (string_bytes p.0.now) ≡ Equal) }
        ensures value { option_map (λ p. p.1.now) result ≡ entry_named name.now self.now }
    {
        match self.place(name) {
            Ok(at) => {
                let entry = &self.list[at];
                Some((entry.0.as_string(), &entry.1))
            }
            Err(_) => None,
        }
    }

    /// The entry of the name, which is looked for at that index first.
    pub fn entry_near(&self, near: usize, name: &str) -> Option<(&Name, &V)>
        ensures name { IfSome result (λ p. string_bytes p.0.now ≡ name.now) }
        ensures value { option_map (λ p. p.1.now) result ≡ entry_named name.now self.now }
    {
        match self.place_near(near, name) {
            Ok(at) => {
                let entry = &self.list[at];
                Some((&entry.0, &entry.1))
            }
            Err(_) => None,
        }
    }

    /// The value of the name, to be changed in place.
    pub fn get_mut(&mut self, name: &str) -> Option<&mut V>
        ensures* writes_back { sem 𝓛 (lends_value V.row self.entry name.now result) }
        ensures value { option_copied_mut result ≡ entry_named name.now self.old }
    {
        match self.place(name) {
            Ok(at) => {
                let entry = &mut self.list[at];
                Some(&mut entry.1)
            }
            Err(_) => None,
        }
    }

    /// Sets the value of a name, and answers the one before. Only a new name takes memory, and only if there is no room.
    pub fn insert(&mut self, name: Name, value: V) -> Result<Option<V>, AllocFailed<(Name, V)>>
        ensures old { IfOk result (λ old. old ≡ entry_named (string_bytes name) self.old) }
        ensures entries { OnOk result (self.new.entries ≡ put self.old name value) }
        ensures value_returned { IfErr result (λ y. y.value ≡ (name, value)) }
        ensures err { OnErr result (self.new.entries ≡ self.old.entries) }
        ensures succeeds { length self.old.entries < self.old.capacity → IsOk result }
    {
        match self.place(name.as_str()) {
            Ok(at) => {
                let entry = &mut self.list[at];
                Ok(Some(mem::replace(&mut entry.1, value)))
            }
            Err(at) => {
                self.list.insert(at, (name, value))?;
                Ok(None)
            }
        }
    }

    // Whether the name comes after all others.
    fn is_last(&self, name: &str) -> bool
        ensures { IsTrue result ↔ IsLast name.now self.now }
    {
        match self.list.last() {
            Some(last) => last.0.as_str() < name,
            None => true,
        }
    }

    /// Adds an entry after the others. `None` if the name doesn't come after theirs, or memory is refused.
    pub fn add_last(&mut self, name: Name, value: V) -> Option<()>
    where
        V: Drop,
        ensures some { OnSome result (self.new.entries ≡ self.old.entries ++ (name, value) ∷ []) }
        ensures last { OnSome result (IsLast (string_bytes name) self.old) }
        ensures ordered { IsOrdered self.new }
        ensures none { IfNone result (self.new.entries ≡ self.old.entries) }
    {
        if !self.is_last(name.as_str()) {
            return None;
        }
        self.list.push((name, value)).ok()
    }

    /// Gives back the room that it doesn't need, if memory allows.
    pub fn shrink(&mut self)
        ensures entries { self.new.entries ≡ self.old.entries }
    {
        self.list.shrink_to_fit();
    }

    /// Removes the entry of that name, and answers its value. It takes no memory.
    pub fn remove(&mut self, name: &str) -> Option<V>
        ensures value { result ≡ entry_named name.now self.old }
        ensures entries { self.new.entries ≡ without name.now self.old }
        ensures unchanged { IfNone result (self.new.entries ≡ self.old.entries) }
    {
        match self.place(name) {
            Ok(at) => {
                let (_, value) = self.list.remove(at);
                Some(value)
            }
            Err(_) => None,
        }
    }

    /// Removes the entry of that name, and answers it. `put_back` with it makes the map what it was.
    pub fn take(&mut self, name: &str) -> Option<(Name, V)>
        ensures value { option_map (λ e. e.1) result ≡ entry_named name.now self.old }
        ensures entries { self.new.entries ≡ without name.now self.old }
        ensures back { IfSome result (λ e. put self.new e.0 e.1 ≡ self.old.entries) }
        ensures absent { IfSome result (λ e. entry_named (string_bytes e.0) self.new ≡ None) }
        ensures len { IfSome result (λ _. length self.new.entries + 1 ≡ length self.old.entries) }
    {
        match self.place(name) {
            Ok(at) => Some(self.list.remove(at)),
            Err(_) => None,
        }
    }

    /// The first entry.
    pub fn first_key_value(&self) -> Option<(&String, &V)>
        ensures variant { IsSome result ↔ (0 < length self.now.entries) }
        ensures first { IfSome result (λ p. slice_get self.now.entries 0 ≡ Some (p.0.now, p.1.now)) }
    {
        match self.list.first() {
            Some(entry) => Some((entry.0.as_string(), &entry.1)),
            None => None,
        }
    }

    /// The value of the last entry.
    pub fn last_value(&self) -> Option<&V>
        ensures { option_copied result ≡ option_map (λ e. e.1) (slice_get self.now.entries (length self.now.entries - 1)) }
    {
        match self.list.last() {
            Some(entry) => Some(&entry.1),
            None => None,
        }
    }

    /// Removes the first entry, and answers it.
    pub fn pop_first(&mut self) -> Option<(Name, V)>
        ensures variant { IsSome result ↔ (0 < length self.old.entries) }
        ensures removal { IfSome result (λ p. self.old.entries ≡ p ∷ self.new.entries) }
        ensures unchanged { IfNone result (self.new.entries ≡ self.old.entries) }
    {
        if self.list.is_empty() {
            None
        } else {
            Some(self.list.remove(0))
        }
    }

    /// Room for as many entries as it has, with which one that is removed can be put back later.
    pub fn room(&self, alloc: Global) -> Result<Room<V>, AllocError>
        ensures { IfOk result (λ room. length self.now.entries ≤ room) }
    {
        Room::with(alloc, self.list.len())
    }

    /// Puts an entry of a new name in: it needs no memory, since all entries move to the room that is given if it has none.
    pub fn put_back(&mut self, room: Room<V>, name: Name, value: V)
    where
        V: Drop,
        requires room { length self.old.entries < room }
        requires absent { entry_named (string_bytes name) self.old ≡ None }
        ensures entries { self.new.entries ≡ put self.old name value }
    {
        match self.place(name.as_str()) {
            Ok(_) => {}
            Err(at) => {
                if self.list.len() < self.list.capacity() {
                    self.list.insert(at, (name, value)).unwrap();
                } else {
                    let mut list = room.into_list();
                    list.append(&mut self.list).unwrap();
                    list.insert(at, (name, value)).unwrap();
                    self.list = list;
                }
            }
        }
    }
}
