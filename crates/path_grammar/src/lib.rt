//! The grammar of queries (RFC 9535, sections 2.1 to 2.5).
//!
//! `specs/Syntax` has all valid queries as plain data, `specs/Grammar` says which texts spell which of them, in the
//! productions of the standard and with its types of functions, and `specs/Profile` what this project leaves out.
//! Its laws are proved here (`laws`): a text that spells a query in profile spells no other, and `specs/Reading`, a
//! function from left to right for the code that reads, says the same as the grammar. The steps to what a query selects are
//! lent (`LentStep`).
#![tactic(auto)]

mod compare_op;
pub mod laws;
mod lent_step;

pub use compare_op::CompareOp;
pub use lent_step::LentStep;
