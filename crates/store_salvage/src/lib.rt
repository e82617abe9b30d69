//! The documents that can still be read of a damaged store, in any format. `gather` has a machine take the frames among
//! bytes: each is one that is there, in the order of their places, and was taken after those before it
//! (`specs/Gathering.antt`). What is no frame, or isn't taken, is noted. A frame of a mark is passed over: documents hold
//! no marks, and no line loads one. `salvage` gathers those of the part of a device
//! that counts. `lines` are the lines by which documents are loaded again (`specs/Lines.antt`).
#![tactic(auto)]

mod loading;
mod making;
mod spare;
mod taking;

pub use loading::lines;
pub use making::{Made, salvage};
pub use spare::{Spare, spare_frames};
pub use taking::{Doubt, Gathered, Source, gather};
