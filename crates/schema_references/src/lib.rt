//! The schema that a reference names, anywhere in the whole schema (JSON Schema Core, sections 8.2.1, 8.2.2 and 8.2.3.1).
//!
//! `spelled_by` reads a reference: the root's identifier off its front, the escapes of its fragment (RFC 3986). `tokens_to`
//! are the tokens of the pointer that the fragment spells (RFC 6901), if it spells one, and else it is an anchor. `Whole`
//! has the anchors of all schemas. What these answer is written down in schema_rules: `Fragments`, `Pointers`, `Anchors`,
//! `References`; `laws` has what follows from there.
#![tactic(auto)]

mod anchors;
mod escapes;
mod fragments;
pub mod laws;
mod pointers;
mod references;
mod whole;

pub use pointers::{held_at, shape_at};
pub use references::{is_dangling, spelled_by, tokens_to};
pub use whole::Whole;
