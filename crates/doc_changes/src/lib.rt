//! Named JSON documents and what a change makes of them: judged, made, and taken back.
//!
//! `Documents` are lent to read and to judge. `make` does a judged change on the map that keeps them, and answers the
//! `Undo` by which `unmake` takes it back without memory; `make_for_good` keeps none, and `patch_read_for_good` does
//! the same of a patch that was read already. A patch is judged and made in its document's place: only what it can have
//! changed is judged (`judged_patches`). What a change makes, and why it is refused, is defined in
//! `specs/Step.antt`; what every state keeps, in `specs/State.antt`; refusals as calls answer them, in
//! `specs/Refusals.antt`.
//!
//! `Marks` keep the last text that was set under each key, with the number of its transaction, and answer the `Unset` by
//! which they take it back (`specs/Marks.antt`).
//!
//! A schema that comes with a change is looked for among those of the last documents, which then share it, so that many
//! documents under one schema keep it once, and it is compiled once.
#![tactic(auto)]

mod checks;
mod documents;
mod judge;
mod judged;
pub mod laws;
mod lent;
pub mod limits;
mod making;
mod mark;
mod marks;
mod names;
mod offered;
mod patching;
mod refusal;
mod rules;
mod shared;
mod sharing;
mod stored;
mod undo;

pub use doc_schema::Profile;
pub use documents::Documents;
pub use judged::Judged;
pub use judged_patches::accepts_patched;
pub use lent::Lent;
pub use making::{make, make_for_good, unmake};
pub use mark::{Mark, check_mark};
pub use marks::{Marks, Unset};
pub use names::is_valid_name;
pub use patching::{patch_read, patch_read_for_good};
pub use refusal::Refusal;
pub use shared::SharedSchema;
pub use stored::Stored;
pub use undo::Undo;
