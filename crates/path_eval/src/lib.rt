//! The nodelists of queries (RFC 9535, sections 2.3 and 2.5).
//!
//! `nodes` answers exactly the nodes that a query selects in a document, each with its location and with its value,
//! which the document lends; it refuses a query exactly when a list of its evaluation has more than `limits::NODES`
//! nodes. What a query selects is defined in `specs/Evaluating` of the crate `path_plans`, when it is refused in its
//! `specs/TooMany`. `lent_nodes` answers the same nodes as a list that copies no name: a location is made only for the
//! node asked for. `normal_text` and `lent_normal_text` write locations as normalized paths, and what joins those with
//! queries is in `laws`. A node is listed as the number of its place in a trail of steps (of the crate `path_select`,
//! which also has what selects without a filter). A query is evaluated by its plan (of the crate `path_plans`), in
//! which each absolute query of a filter is replaced by what was found of it; filters are evaluated over values alone.
//! A query that may visit a node many times, or try a filter many times at one value, goes by the numbers of nodes
//! (`index` of `path_select`): each segment visits a node once, and lists again what it selected there wherever the node
//! is listed again; what each filter says of each node is found once and is in a table.
#![tactic(auto)]

mod fault;
pub mod laws;
mod listing;
mod node;
mod nodelist;
mod walk;

pub use fault::EvalFault;
pub use listing::{lent_nodes, nodes};
pub use node::{LentNode, Node};
pub use nodelist::Nodelist;
pub use path_grammar::LentStep;
pub use path_parse::{lent_normal_text, normal_text};
pub use path_select::limits;
