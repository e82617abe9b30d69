//! The lines of the protocol: what the lines of an input ask for, and the lines of replies.
//!
//! Lines are cut at line feeds alone (`specs/Lines`). A line asks for one request, or for none by one
//! number, by its bytes alone (`specs/Request`). The buffer of a line takes its memory once; of a line
//! over the limit it keeps that it is so.
//!
//! A line of changes may speak of a mark, which is set with them, and of what it must be before (`specs/Marks`).
//!
//! A reply is a document (`specs/Reply`), and its line that document's compact text with a line feed. The lines of
//! changes, snapshots, steps of copies, seals, revisions and refusals are written without memory, into room that was taken
//! once; a reply that shows values lends them from the store. The reply to a query is written node after node. If its
//! text would be over the limit, it is refused at the node that passes it.
#![tactic(auto)]

mod changes;
mod cut;
pub mod limits;
mod line;
mod mark_lines;
mod marked;
mod nodes;
mod outbox;
mod reply;
mod request;
mod room;
mod rows;
mod serve_fault;
mod several;
mod shown;
mod text;

pub use changes::{changes_line, gone_line};
pub use cut::cut_at_feed;
pub use line::Line;
pub use mark_lines::{mark_line, other_mark_line};
pub use nodes::nodes_line;
pub use outbox::Outbox;
pub use reply::Reply;
pub use request::{Request, read_request};
pub use room::ReplyRoom;
pub use serve_fault::ServeFault;
pub use shown::shown_line;
pub use text::{names_line, value_line};
