//! The transactions in memory, the oldest first.
ghost use Rattle.std.specs.Prelude.{◌≡◌, ◌+◌, ◌<◌, ◌≤◌, [], ◌∷◌, ◌++◌, drop, length, take, MatchOption, None, OnErr, OnOk, OnSome, Some, ⊤};
ghost use Rattle.std.specs.Option.{option_map};
ghost use Rattle.std.specs.VecDeque.Iter.{deque_iter_rest};
ghost use Rattle.change_history.specs.History.{bytes_of, first_within, newest, since, trimmed, with_told, IsKept};
ghost use Rattle.change_history.specs.Tells.{TellsInOrder};

use crate::told::Told;
use std::alloc::{AllocError, Global};
use std::collections::VecDeque;
use std::collections::vec_deque::Iter;
use std::marker::Model;

/// The newest transactions of a store, each whole: those after the change of a number, the floor. If all together have
/// more bytes than a limit, the oldest go, and the floor rises.
///
/// Transactions of a batch may share a block of memory, which stays until the last of them goes. So their memory is that
/// of the limit, and at most that of one batch more.
#[derive(Drop)]
pub struct History {
    limit: u64,
    floor: u64,
    /// The bytes of all frames.
    bytes: u64,
    told: VecDeque<Told>,
}

impl Model for History {
    ghost use Rattle.std.specs.Prelude.{◌≡◌};
    ghost use Rattle.std.specs.VecDeque.{deque_capacity};
    ghost use Rattle.change_history.specs.History.{bytes_of, IsKept, Ring};

    ghost Value = { Ring };

    ghost view = { λ h. record { history = record { limit = h.limit; floor = h.floor; told = h.told.items }; capacity = deque_capacity h.told } };

    ghost invariant = { λ h. IsKept (record { limit = h.limit; floor = h.floor; told = h.told.items }) × (h.bytes ≡ bytes_of h.told.items) };
}

impl History {
    /// No transaction yet: the next one comes after the change of number `floor`. Those that it will keep have at most
    /// `limit` bytes together. It takes no memory.
    pub fn new(alloc: Global, limit: u64, floor: u64) -> History
        ensures { result.history ≡ record { limit = limit; floor = floor; told = [] } }
    {
        History {
            limit,
            floor,
            bytes: 0,
            told: VecDeque::new(alloc),
        }
    }

    /// The number of the change after which all transactions are kept.
    pub fn floor(&self) -> u64
        ensures value { result ≡ self.now.history.floor }
        ensures kept { IsKept self.now.history }
    {
        self.floor
    }

    /// The number of the last change that it knows of: that of the newest transaction, or the floor if it keeps none.
    pub fn newest(&self) -> u64
        ensures value { result ≡ newest self.now.history.floor self.now.history.told }
        ensures kept { IsKept self.now.history }
    {
        match self.told.back() {
            Some(told) => told.last,
            None => self.floor,
        }
    }

    /// How many bytes the frames of all that are kept have.
    pub fn bytes(&self) -> u64
        ensures value { result ≡ bytes_of self.now.history.told }
        ensures kept { IsKept self.now.history }
    {
        self.bytes
    }

    /// Takes memory for that many transactions more. What it keeps stays as it is.
    ///
    /// # Errors
    ///
    /// There is no memory for them.
    pub fn reserve(&mut self, more: usize) -> Result<(), AllocError>
        ensures same { self.new.history ≡ self.old.history }
        ensures room { OnOk result (length self.new.history.told + more ≤ self.new.capacity) }
        ensures more { self.old.capacity ≤ self.new.capacity }
        ensures refused { OnErr result (self.old.capacity < length self.old.history.told + more) }
    {
        self.told.reserve(more)
    }

    /// Takes one transaction more, and forgets the oldest ones that are too many: also this one, if it has too many
    /// bytes alone. It takes no memory.
    pub fn push(&mut self, told: Told)
        requires room { length self.old.history.told < self.old.capacity }
        requires larger { newest self.old.history.floor self.old.history.told < told.last }
        ensures pushed { self.new.history ≡ with_told self.old.history told }
        ensures newest { newest self.new.history.floor self.new.history.told ≡ told.last }
        ensures len { length self.new.history.told ≤ length self.old.history.told + 1 }
        ensures capacity { self.new.capacity ≡ self.old.capacity }
    {
        let bytes = told.bytes();
        if self.limit < bytes {
            self.clear(told.last);
        } else {
            self.keep_within(self.limit - bytes);
            self.add(told);
        }
    }

    /// Forgets all: the next transaction comes after the change of number `floor`. It keeps its memory.
    pub fn clear(&mut self, floor: u64)
        ensures cleared { self.new.history ≡ record { limit = self.old.history.limit; floor = floor; told = [] } }
        ensures capacity { self.new.capacity ≡ self.old.capacity }
    {
        self.told.clear();
        self.bytes = 0;
        self.floor = floor;
    }

    // Forgets the oldest, until all have at most that many bytes.
    fn keep_within(&mut self, most: u64)
        ensures limit { self.new.history.limit ≡ self.old.history.limit }
        ensures floor { self.new.history.floor ≡ (trimmed most self.old.history.floor self.old.history.told).floor }
        ensures told { self.new.history.told ≡ (trimmed most self.old.history.floor self.old.history.told).told }
        ensures capacity { self.new.capacity ≡ self.old.capacity }
    {
        while self.bytes > most {
            let Some(oldest) = self.told.pop_front() else {
                return;
            };
            self.bytes -= oldest.bytes();
            self.floor = oldest.last;
        }
    }

    // Takes one more, which finds room.
    fn add(&mut self, told: Told)
        requires room { length self.old.history.told < self.old.capacity }
        requires larger { newest self.old.history.floor self.old.history.told < told.last }
        requires fits { bytes_of self.old.history.told + length told.frames ≤ self.old.history.limit }
        ensures added { self.new.history ≡ record { limit = self.old.history.limit; floor = self.old.history.floor; told = self.old.history.told ++ told ∷ [] } }
        ensures capacity { self.new.capacity ≡ self.old.capacity }
    {
        self.bytes += told.bytes();
        self.told.push_back(told).unwrap();
    }

    /// The transactions after the change of number `from`, in order: as many of the first as have at most `most` bytes
    /// together, and one at least, if there is one. Whoever asks again from the last number that was answered gets
    /// the others.
    ///
    /// `None` if `from` is neither the floor nor the last change of one that is kept: what follows it is gone, or no
    /// transaction ends there.
    pub fn since(&self, from: u64, most: u64) -> Option<Iter<'_, Told>>
        ensures told { option_map deque_iter_rest result ≡ option_map (first_within most) (since self.now.history.floor self.now.history.told from) }
        ensures runs { OnSome result TellsInOrder }
    {
        let start = self.start(from)?;
        let count = count_within(self.told.range(start..), most);
        Some(self.told.range(start..start + count))
    }

    // The index of the first one after the change of that number.
    fn start(&self, from: u64) -> Option<usize>
        ensures start { option_map (λ start. drop start self.now.history.told) result ≡ since self.now.history.floor self.now.history.told from }
        ensures bound { MatchOption result ⊤ (λ start. start ≤ length self.now.history.told) }
    {
        if from == self.floor {
            return Some(0);
        }
        match self.told.binary_search_by_key(
            &from,
            |told: &Told| -> u64
                ensures { result ≡ told.now.last }
            { told.last },
        ) {
            Ok(at) => Some(at + 1),
            Err(_) => None,
        }
    }
}

// How many of the first ones have at most that many bytes together; one at least, if there is one.
fn count_within(mut rest: Iter<'_, Told>, most: u64) -> usize
    ensures first { take result (deque_iter_rest rest.entry) ≡ first_within most (deque_iter_rest rest.entry) }
    ensures bound { result ≤ length (deque_iter_rest rest.entry) }
{
    let Some(first) = rest.next() else {
        return 0;
    };
    let mut left = most.saturating_sub(first.bytes());
    let mut count = 1;
    for told in rest {
        let bytes = told.bytes();
        if left < bytes {
            break;
        }
        left -= bytes;
        count += 1;
    }
    count
}
