//! JSON Patch (RFC 6902): operations on a document, all or none.
//!
//! `Patch::read` answers the operations that a document spells, or the first fault. `Patch::read_unescaped` reads most
//! texts of patches sooner, with no document in between.
//!
//! A `Document` is within the limits and knows the length of its text, so no patch of it need walk over the whole.
//! `Document::apply` changes it where it is, and answers a `Reversal` that makes it what it was and takes no memory;
//! `Document::apply_for_good` keeps nothing to take it back. `Document::begin` and `Document::apply_next` make a patch
//! operation by operation, so that a caller sees the document after each. `Patch::apply` answers what the operations make of another
//! tree, which never changes.
//! All equal their definitions in `specs/Reading.antt` and `specs/Patch.antt` exactly, with refusals and their order.
//! After each operation the document is within `limits`, which are judged from what changed. What one operation makes
//! is in `doc_edits`.
//!
//! What an operation costs. `Patch::apply` takes beside it one copy of the document, and one walk over what the first
//! operation made:
//! - every operation: the names on its way, each looked up in its object; nothing of the values
//!   that it passes.
//! - `add`, `replace`: a copy of the new value, a walk over it, and one over a value that goes.
//! - `remove`: a walk over what goes, unless the operation before put it there and its length is known.
//! - `copy`: a copy of the value at `from`, a walk over it unless the operation before put it there, and one over a
//!   value that it replaces.
//! - `move`: no copy. Its text's length is carried, and its height too. The value's containers are walked over only
//!   if it goes deeper, the highest that the document may be by then is over the limit, and its height isn't known;
//!   what is found goes with it, so that the operation that takes it from there walks over nothing. A value that it
//!   replaces goes, and is walked over.
//! - `test`: a comparison up to the first difference.
//! - in an array `add`, `remove` and `move` shift all elements after the index, and in an object all members after the
//!   name, as a `Vec` does: an insertion at the front of 500,000 elements moves some 16 MB.
//! - if it can be taken back: a copy of the place's names, and the value that goes is kept, not copied. With `remove` and
//!   `move` also room for as many members or elements as the object or array has by then, which isn't touched; what goes
//!   comes back into it without memory. If the values that were copied are longer than the document, or room is kept for
//!   more than 500,000 members and elements, the whole document is copied once, and no more is kept.
#![tactic(auto)]

mod document;
pub mod examples;
mod fault;
mod held;
pub mod laws;
pub mod limits;
mod log;
mod only;
mod patch;
mod plain;
mod progress;
mod reach;
mod read;
mod spelling;
mod undo;

pub use document::{Document, Reversal};
pub use fault::PatchFault;
pub use patch::Patch;
pub use progress::Progress;
pub use reach::reach_of;
