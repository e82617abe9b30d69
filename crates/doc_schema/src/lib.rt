//! JSON Schema 2020-12: which documents are schemas, and which instances a schema accepts.
//!
//! `Schema::read` refuses a document by the first fault that it has as a schema: its size, the form of a value, a
//! keyword that is left out, a reference that names nothing, a loop. `Schema::trial` makes the searches for its patterns,
//! and `Trial::accepts` answers whether an instance is valid under what was read, always and without memory;
//! `Schema::source` is the document that was read. What a fault and validity are is written down in `specs/`; `laws` has that a judgement without a loop is always decided.
#![tactic(auto)]

mod defects;
mod fault;
mod judge;
pub mod laws;
pub mod limits;
mod parts;
mod patterns;
mod schema;
mod trial;

pub use fault::SchemaFault;
pub use schema::Schema;
pub use schema_rules::Profile;
pub use trial::Trial;
