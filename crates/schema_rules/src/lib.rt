//! The keywords of JSON Schema 2020-12, one at a time, without going into the schemas that they hold. The tables are in
//! `specs/`: which keyword a name is (`Keywords`), which a profile offers (`Profiles`), which values it may have
//! (`Forms`), what it asserts (`Assertions`), which schemas it asks and how it joins their answers (`Rules`), which a
//! reference names (`References`, by `Anchors` or `Pointers`; in profiles 1 and 2 `EarlierReferences`). Each function answers its table for every
//! value, also one without the keyword's form, and takes no memory.
#![tactic(auto)]

mod anchors;
mod assertion;
mod assertions;
mod choices;
mod distinct;
mod equality;
mod forms;
mod instance;
mod keyword;
mod left_out;
mod members;
mod names;
mod numbers;
mod order;
mod profile;
mod references;
mod required;
mod sizes;
mod types;

pub use anchors::anchor_of;
pub use assertion::Assertion;
pub use assertions::asserts;
pub use forms::has_form;
pub use instance::Instance;
pub use keyword::{Keyword, Shape, shape_of};
pub use left_out::is_left_out;
pub use members::{has_member, member_named};
pub use names::keyword_named;
pub use profile::Profile;
pub use references::earlier_target;
pub use sizes::{at_least, at_most};
