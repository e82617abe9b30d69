//! Tests of what no line reaches: the quick readers of texts and of patches, frames and patches at their limits, frames
//! and journals of both formats, revisions that no line spells, pointers as texts, normalized paths that no document
//! has, nodelists that copy no name, calls that only other programs make, and whole lives of a disk. They are in a
//! crate of their own since a crate with tests is proved twice.
#![tactic(auto)]

#[cfg(test)]
mod calls;
#[cfg(test)]
mod compact;
#[cfg(test)]
mod formats;
#[cfg(test)]
mod frames;
#[cfg(test)]
mod lives;
#[cfg(test)]
mod members;
#[cfg(test)]
mod nodelists;
#[cfg(test)]
mod patches;
#[cfg(test)]
mod paths;
#[cfg(test)]
mod plain_patches;
#[cfg(test)]
mod pointers;
#[cfg(test)]
mod spelled_patches;
