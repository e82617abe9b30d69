//! The line that shows the status of a store, and the text of its identity.
#![tactic(auto)]

mod status;

pub use status::{id_text, identity_text, send_id, status_line};
