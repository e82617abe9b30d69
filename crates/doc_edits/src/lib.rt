//! The operations of a patch, one at a time, at their places (RFC 6902, section 4): what one makes of a document, and
//! what takes it back.
//!
//! `place` adds, removes and replaces at one place, and answers what came and what went; `change_at` does below the root.
//! `Operation::apply` makes any operation, in place. What each makes of a document is defined in `specs/Edit.antt` and
//! `specs/Operation.antt`, and how its height and length change in `specs/SizeChange.antt`. From that `limits::check_limits`
//! judges whether the document is within its limits (`specs/Limits.antt`), without a walk over it.
//!
//! `perform_kept` answers what takes an operation back, and `take_step_back` does that, with no memory.
#![tactic(auto)]

mod back;
mod change;
mod elements;
mod fault;
mod index;
mod keeping;
mod kept;
pub mod laws;
pub mod limits;
mod members;
mod moving;
mod neighbour;
mod operation;
pub mod place;
mod size_change;
mod spare;

pub use back::{Back, Origin, take_step_back};
pub use change::{Change, Made, change_at};
pub use fault::{MISSING, OperationFault, Unmade};
pub use index::index_within;
pub use keeping::whole;
pub use kept::{Kept, perform_kept};
pub use operation::{After, Done, Operation, perform};
pub use size_change::{
    DocumentSize, KnownPlace, KnownSize, MovedHeight, SizeChange, ValueSize, extent_at, gone_len,
    reach_of_move, weigh,
};
pub use spare::Spare;
