//! The marks in memory, in the order in which they were set.
ghost use Rattle.std.specs.Prelude.{◌≡◌, ◌≤◌, ◌<◌, ℕ, List, [], None, Some, IfOk, MatchOption, OnErr, OnOk, length, map};
ghost use Rattle.std.specs.Vec.{vec_capacity, vec_len};
ghost use Rattle.doc_changes.specs.Marks.{mark_of, with_mark};
ghost use Rattle.doc_changes.specs.MarkView.{AreSet, IsSet, TakesMarkBack, all_before, mark_in, marks_before};
ghost use Rattle.doc_changes.specs.MarkPlaces.{GoesAt, IsMore, SetsBy, place_from};

use crate::limits::MARKS;
use crate::mark::Mark;
use std::alloc::{AllocError, Global};
use std::marker::Model;

/// Marks of different keys. To look for one walks over all of them, at most `MARKS`.
#[derive(Drop)]
pub struct Marks {
    held: Vec<Mark>,
}

/// What takes back the mark that was set last.
#[derive(Drop)]
pub enum Unset {
    /// No mark went for it.
    Added,
    /// This one went, which was at that place: the one of its key, or else the one that was set first.
    Replaced { index: usize, gone: Mark },
}

impl Model for Marks {
    ghost use Rattle.std.specs.Prelude.{List};
    ghost use Rattle.std.specs.Coded.{coded_list};
    ghost use Rattle.doc_changes.specs.Marks as pure;
    ghost use Rattle.doc_changes.specs.CodedState.{coded_mark};

    ghost Value = { List pure.Mark };

    ghost coded = { coded_list coded_mark };

    ghost use Rattle.doc_changes.specs.MarkView.{marks_seen};

    ghost view = { marks_seen };
}

impl Marks {
    /// No marks.
    pub fn new(alloc: Global) -> Marks
        ensures { result ≡ [] }
    {
        Marks {
            held: Vec::new(alloc),
        }
    }

    /// The mark of that key, if it was set and isn't gone.
    pub fn get(&self, key: &str) -> Option<&Mark>
        ensures { MatchOption result (mark_of key.now self.now ≡ None) (λ mark. mark_of key.now self.now ≡ Some (mark_in mark.now)) }
    {
        match find(self.held.as_slice(), key) {
            Some(index) => Some(&self.held[index]),
            None => None,
        }
    }

    /// All of them, in the order in which they were set.
    pub fn as_slice(&self) -> &[Mark]
        ensures { map mark_in result.now ≡ self.now }
    {
        self.held.as_slice()
    }

    /// Sets a mark, and answers what takes it back. Of more than `MARKS` the one that was set first goes. An `Err` changes
    /// nothing.
    pub fn set(&mut self, mark: Mark) -> Result<Unset, AllocError>
        requires { length self.old ≤ 1_024 }
        ensures set { OnOk result (self.new ≡ with_mark (mark_in mark) self.old) }
        ensures back { IfOk result (λ unset. TakesMarkBack unset self.old self.new) }
        ensures unchanged { OnErr result (self.new ≡ self.old) }
    {
        self.held.reserve(1)?;
        let unset = take_out(&mut self.held, mark.key.as_str());
        self.held.push(mark).unwrap();
        Ok(unset)
    }

    /// Takes back the mark that was set last. It takes no memory.
    pub fn unset(&mut self, unset: Unset)
        requires { IsSet unset self.old }
        ensures { self.new ≡ marks_before unset self.old }
    {
        let _last = self.held.pop();
        if let Unset::Replaced { index, gone } = unset {
            self.held.insert(index, gone).unwrap();
        }
    }

    /// Takes back several marks, of which the newest is last. It takes no memory.
    pub fn unset_all(&mut self, unsets: Vec<Unset>)
        requires { AreSet unsets.items self.old }
        ensures { self.new ≡ all_before unsets.items self.old }
    {
        let mut left = unsets;
        while let Some(last) = left.pop() {
            self.unset(last);
        }
    }

    /// Forgets all of them.
    pub fn clear(&mut self)
        ensures { self.new ≡ [] }
    {
        self.held.clear();
    }
}

// Takes out the mark that goes if that key is set.
fn take_out(held: &mut Vec<Mark>, key: &str) -> Unset
    requires few { length held.old.items ≤ 1_024 }
    requires room { vec_len held.old < vec_capacity held.old }
    ensures sets { (value : List ℕ) (seq : ℕ) → SetsBy result (record { key = key.now; value = value; seq = seq }) (map mark_in held.old.items) (map mark_in held.new.items) }
    ensures room { vec_len held.new < vec_capacity held.new }
{
    match index_to_go(held.as_slice(), key) {
        Some(index) => Unset::Replaced {
            index,
            gone: held.remove(index),
        },
        None => Unset::Added,
    }
}

// The place of the mark that goes if that key is set: the one of the key, or else, if there are as many as may be, the
// first.
fn index_to_go(marks: &[Mark], key: &str) -> Option<usize>
    requires { length marks.now ≤ 1_024 }
    ensures { MatchOption result (IsMore key.now (map mark_in marks.now)) (GoesAt key.now (map mark_in marks.now)) }
{
    match find(marks, key) {
        Some(index) => Some(index),
        None if marks.len() == MARKS => Some(0),
        None => None,
    }
}

// The place of the mark of that key.
fn find(marks: &[Mark], key: &str) -> Option<usize>
    ensures { result ≡ place_from 0 key.now (map mark_in marks.now) }
{
    for index in 0..marks.len() {
        if key == marks[index].key.as_str() {
            return Some(index);
        }
    }
    None
}
