//! The documents in memory: each change is made whole, or refused and nothing changes.
//!
//! `Trial::transact` is the way of every change of a store. On a `Trial` transactions are judged and made one after
//! another, each all or none (`specs/Transaction.antt`), so that a device can be written before they count. Then some of
//! them are kept, the oldest, and the others taken back, which takes no memory. `Machine::take_for_good`,
//! `take_patch_for_good` and `note` take again what a journal holds. `Machine::step` makes one change with no trial.
//!
//! Each of these equals its definition exactly, with refusals and their order: what a change makes is defined in
//! `specs/Step.antt` of `doc_changes`, and what every state keeps in its `specs/State.antt`.
#![tactic(auto)]

pub mod limits;
mod machine;
mod marking;
mod spelled;
mod transaction;

pub use doc_changes::{
    Documents, Judged, Lent, Mark, Marks, Profile, Refusal, is_valid_name, laws,
};
pub use machine::{Machine, Trial};
pub use marking::{Asked, Marking};
pub use path_eval::{Node, Nodelist};
pub use record_text::{Command, RecordFault, command_of};
pub use spelled::SpelledPatch;
pub use transaction::{Changes, Transaction};
