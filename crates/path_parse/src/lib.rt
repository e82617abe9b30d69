//! The reader of queries (RFC 9535, sections 2.1 to 2.5).
//!
//! `Query::read` answers Ok exactly when the text spells a query in profile, which is then the only query that it
//! spells; else it says whether the text is too long, spells only what the profile leaves out, or spells no query. The
//! grammar is that of the crate `path_grammar`; `specs/View` says which of its queries a `Query` is. A query in profile
//! that a text spells is what is read (`laws`), unless memory is refused.
//!
//! `normal_text` writes the one normalized path of a location (section 2.7), `lent_normal_text` that of steps that a
//! document lends. It is defined in `specs/NormalPath`, and `specs/QueryOf` has the query of names and indexes alone
//! that leads to the place of the path. A normalized path spells that query and no other, so `Query::read` answers it
//! for a path that is not too long, and no two locations share a path (`normal_laws`).
#![tactic(auto)]

mod fault;
mod filters;
pub mod laws;
pub mod limits;
mod make;
pub mod normal_laws;
mod operands;
mod path_part;
mod read;
mod segments;
mod selectors;
mod step;
mod stop;
mod syntax;
mod text;

pub use fault::QueryFault;
pub use path_grammar::{CompareOp, LentStep};
pub use syntax::{Expr, Operand, Query, Segment, Selector, Source};
pub use text::{lent_normal_text, normal_text};
