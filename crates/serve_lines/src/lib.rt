//! Command lines over a store: JSON lines in, one reply line to each out.
//!
//! A `Session` is given input in pieces of any size, and hands out one reply at a time; what a reply
//! says is on the device when it is handed out. `serve` does so from any reader to any writer. At
//! its end what was written is the reply lines of a session over the lines of all that was read, and
//! nothing else, and the store is the session's last. A session (`specs/Session`) knows of lines,
//! requests and accounts alone; buffers, pieces and a lack of memory in mid-stream are this crate's
//! affair. If the options ask for it, a step of a copied snapshot follows a change that was done,
//! before the change's reply is handed out. However it ends, what the session asked of the store is
//! one run of it, and so its device holds the documents at each moment (`specs/Serve`). What a
//! client may count on, from the lines that come in to the lines that go out, is `specs/Kept`.
#![tactic(auto)]

mod answer;
mod batch;
pub mod laws;
pub mod limits;
mod options;
mod progress;
mod replies;
mod serving;
mod session;
mod writing;

pub use options::Options;
pub use protocol::{Reply, ReplyRoom, ServeFault};
pub use serving::{Served, serve};
pub use session::Session;
pub use status_lines::{identity_text, send_id, status_line};
