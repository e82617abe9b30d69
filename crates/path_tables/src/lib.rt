//! The plans of queries, and their evaluation by the numbers of nodes (RFC 9535, sections 2.3 and 2.5).
//!
//! `planning::plan_of` makes the plan of a query over a document (`specs/Planned` of the crate `path_plans`): each absolute
//! query of a filter is evaluated there, once. A query that may visit a node many times, or try a filter many times at one
//! value (`expensive`), goes by the numbers of nodes (`index` of the crate `path_select`): each segment visits a node once,
//! and lists again what it selected there wherever the node is listed again; what each filter says of each node is found
//! once and is in a table.
#![tactic(auto)]

mod asked;
mod asking;
mod branches;
mod by_number;
pub mod expensive;
mod filter_table;
pub mod leaf;
pub mod lists;
pub mod planning;
mod table_plan;
mod tables;
mod visits;
