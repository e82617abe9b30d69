//! The newest transactions of a store: the frames of each, whole and in order, as far as all together have no more bytes
//! than a limit. What they are, and which come after a change, is defined in `specs/History.antt`.
#![tactic(auto)]

mod batch;
mod frames;
mod history;
pub mod laws;
mod part;
mod told;

pub use batch::BatchFrames;
pub use frames::Frames;
pub use history::History;
pub use told::Told;
