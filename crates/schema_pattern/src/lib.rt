//! Patterns of JSON Schema: what `pattern` and the names of `patternProperties` search texts for.
//!
//! `Pattern::read` answers whether a text is a pattern, and `Pattern::search` makes what searches for it, which takes the
//! memory: a search itself takes none. Which pattern a text is is written down in `specs/`: the syntax and
//! the meaning are those of Rust's regular expressions, as the kit's `regex_syntax` reads them, unanchored, over code
//! points.
#![tactic(auto)]

mod all;
mod fault;
mod pattern;
mod table;

pub use all::{read_patterns, searches_of};
pub use fault::PatternFault;
pub use pattern::{Pattern, Search};
pub use table::{finds_at, some_finds};
