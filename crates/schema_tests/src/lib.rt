//! Tests of schemas that no line reaches well: what each profile reads and refuses, patterns and their limits, references
//! and anchors. What an instance is judged comes from Python's `jsonschema`. They are in a crate of their own since a
//! crate with tests is proved twice.
#![tactic(auto)]

#[cfg(test)]
mod anchors;
#[cfg(test)]
mod patterns;
#[cfg(test)]
mod profiles;
#[cfg(test)]
mod references;
