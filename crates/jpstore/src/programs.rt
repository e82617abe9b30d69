//! The programs that serve a store. Each ends at its first fault.

mod mem;
mod serve;

pub use mem::{ClosedInMemory, serve_memory};
pub use serve::serve_file;
