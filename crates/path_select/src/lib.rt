//! Selectors without a filter, applied to a value, and lists of nodes (RFC 9535, sections 2.3 and 2.5).
//!
//! The parts of `path_eval` that ask no query: the children of a value, what names, indexes and slices select of it,
//! the values below it, comparisons and functions of filters, and lists up to `limits::NODES`. What they answer is
//! defined in `specs/Nodes`, `specs/Selectors` and `specs/Comparing`. `trail` has places that are known by their
//! numbers, in the place of locations: the children of a node have numbers that follow one another, so that what was
//! found of a node can be kept in a table at its number (`index`, `numbers`, `numbered_below`).
#![tactic(auto)]

pub mod below;
pub mod children;
pub mod compare;
pub mod gather;
pub mod index;
pub mod limits;
pub mod numbered_below;
pub mod numbers;
pub mod paths;
pub mod select;
pub mod stop;
