//! A map from names to values: one vector of both, in the order of the names' bytes.
//!
//! Contracts see the `entries` in that order, as a list of pairs, and the `capacity`: for how many the vector has room.
//! Finding a name takes a binary search, and changing the value of a name that is there takes no memory.
//!
//! An insertion moves the entries after it: whoever has many names sorts them first, and adds each last.
//!
//! Maps can share a `Name`, whose text is then once in memory: an entry takes 8 bytes beside its value.
//!
//! A removal can be taken back without memory: `room` is taken before it, `take` answers the entry, and `put_back` makes
//! the map what it was.
#![tactic(auto)]

mod iter;
mod map;
mod name;
mod room;

pub use iter::{Iter, Named};
pub use map::NameMap;
pub use name::Name;
pub use room::Room;
