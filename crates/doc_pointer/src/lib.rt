//! JSON Pointer (RFC 6901), in its string form.
//!
//! `Pointer::read` accepts exactly the texts that the RFC calls a pointer, and answers the one list of tokens that
//! such a text writes; `Pointer::text` writes it again.
//! `Pointer::resolve` answers the value that section 4 says the tokens lead to, and takes no memory.
//! `array_index` reads a token as the RFC's array index. What these answer is written down in `specs/Text.antt` and
//! `specs/Place.antt`; `laws` has what follows from there.
#![tactic(auto)]

mod cut;
mod fault;
mod index;
pub mod laws;
mod pointer;
mod read;
mod resolve;
mod text;

pub use fault::PointerFault;
pub use index::array_index;
pub use pointer::Pointer;
pub use resolve::child_at;
