//! Tests of readers, writers, files, pieces of input, lists of events and batches, which no row of a transcript has.
//! They are in a crate of their own since a crate with tests is proved twice.
#![tactic(auto)]

#[cfg(test)]
mod batches;
#[cfg(test)]
mod events;
#[cfg(test)]
mod files;
#[cfg(test)]
mod pieces;
#[cfg(test)]
mod streams;
#[cfg(test)]
mod support;
#[cfg(test)]
mod writers;
