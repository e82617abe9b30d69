//! The words of queries (RFC 9535): blanks, names, strings, numbers and operators, each read from the front of a text
//! that is given as its characters.
//!
//! Each reader answers exactly what `Rattle.path_grammar.specs.Reading` says for its production, and None if the text
//! does not begin with that. That this reads names, strings, indexes and numbers as their productions have them, and
//! the whole as the grammar has it, are laws of `path_grammar`.
#![tactic(auto)]

pub mod characters;
pub mod integers;
pub mod names;
pub mod numbers;
pub mod operators;
mod part;
pub mod strings;

pub use part::Part;
