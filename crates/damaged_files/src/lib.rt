//! Reports on a store that may be damaged, over a device that is only read. `tell_damages` shows a line for each
//! damage (`specs/Damages.antt`), `show_salvaged` the documents that can still be read (`specs/Salvaged.antt`), and
//! `show_frames` each frame of both halves with its place (`specs/Frames.antt`). `show_documents` shows those of a machine
//! (`specs/Dump.antt`). The lines are shown whole: after any fault but one of the writer nothing was written, or in
//! `show_frames` the lines of the parts before.
#![tactic(auto)]

mod damage;
mod damages;
mod dump;
mod examined;
mod frames;
mod head;
mod parts;
mod place;
mod report;
mod salvaged;
mod showing;

pub use damage::{Damage, Lost, Refused, Span, Spot};
pub use dump::show_documents;
pub use examined::Examined;
pub use parts::show_frames;
pub use place::{Place, place_of};
pub use report::{Told, tell_damages};
pub use salvaged::{Salvaged, show_salvaged};
pub use showing::{Condition, ShowFault};
