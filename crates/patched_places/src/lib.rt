//! The places at which a patch changed a document: the steps to the place below which the two differ, to both ends of
//! a move, or to an element that came or went between others.
//!
//! Only what lies along these steps can have changed its validity. What a location leaves as it is says schema_changes
//! `AgreeOff`; that a patch leaves the rest so is what the calls promise.
#![tactic(auto)]

mod apart;
mod changed;
mod ends;
mod one;
mod places;
mod shift;
mod steps;

pub use changed::{changed_places, changed_steps};
pub use one::changed_by;
pub use places::{Changed, changed_at};
