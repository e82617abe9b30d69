//! JSON documents whose numbers are 64-bit whole numbers, read and written by `serde_json`. A `Tree` represents a pure
//! `Doc` (`view`), and every contract speaks of the `Doc` alone. `read` answers a document exactly when `serde_json`
//! reads the bytes and all numbers fit, and `text` is the compact text. Lengths, heights, equality and locations are
//! exact and take no memory. Reading the text of a document at most 127 high gives it back, so no two share a text
//! (`laws`).
#![tactic(auto)]

mod alike;
mod compact;
mod compare;
mod convert;
mod copies;
mod cursor;
mod escape;
mod fault;
mod front;
mod in_place;
pub mod laws;
mod locate;
mod measure;
mod plain;
mod put;
mod read;
mod room;
mod send;
mod strip;
mod tree;
mod write;

pub use compact::read_unescaped;
pub use cursor::MemberCursor;
pub use fault::TreeFault;
pub use put::put_quoted;
pub use room::quoted_len_within;
pub use strip::{strip_bytes, strip_quoted};
pub use tree::{Step, Tree};
