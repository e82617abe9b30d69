//! A command in memory.
ghost use Rattle.std.specs.Prelude.{◌↔◌, IsTrue};
ghost use Rattle.record_text.specs.Change.{AsksNone, IsSpelled, change_of};

use doc_tree::Tree;
use std::alloc::{AllocError, Global};

// The greatest number that a document holds.
const LAST_SPELLED: u64 = 0x7fff_ffff_ffff_ffff;

/// A change that a store is asked for.
#[derive(Drop)]
pub enum Command {
    /// A new document of that name, with the schema that it keeps to.
    Create {
        name: String,
        schema: Tree,
        doc: Tree,
    },
    /// Operations on the document of that name (RFC 6902), as they were spelled, and the revision that it must have, if
    /// one is asked for.
    Patch {
        name: String,
        ops: Tree,
        if_rev: Option<u64>,
    },
    /// Another schema for the document of that name.
    Schema {
        name: String,
        schema: Tree,
    },
    /// The document of that name goes.
    Delete {
        name: String,
    },
}

impl Command {
    ghost use Rattle.std.specs.Prelude.{◌≡◌, IfOk};
    ghost use Rattle.record_text.specs.Change.{change_of};

    /// A command of its own for the same change.
    pub fn copy(&self, alloc: Global) -> Result<Command, AllocError>
        ensures { IfOk result (λ copy. change_of copy ≡ change_of self.now) }
    {
        Ok(match self {
            Command::Create { name, schema, doc } => Command::Create {
                name: String::from_str(alloc, name.as_str())?,
                schema: schema.copy(alloc)?,
                doc: doc.copy(alloc)?,
            },
            Command::Patch { name, ops, if_rev } => Command::Patch {
                name: String::from_str(alloc, name.as_str())?,
                ops: ops.copy(alloc)?,
                if_rev: *if_rev,
            },
            Command::Schema { name, schema } => Command::Schema {
                name: String::from_str(alloc, name.as_str())?,
                schema: schema.copy(alloc)?,
            },
            Command::Delete { name } => Command::Delete {
                name: String::from_str(alloc, name.as_str())?,
            },
        })
    }

    /// Whether the revision that it asks for, if it asks for one, can be spelled: it is at most 2^63 - 1.
    pub(crate) fn is_spelled(&self) -> bool
        ensures { IsTrue result ↔ IsSpelled (change_of self.now) }
    {
        match self {
            Command::Patch {
                if_rev: Some(rev),
                ..
            } => *rev <= LAST_SPELLED,
            _ => true,
        }
    }

    /// Whether it asks for no revision.
    pub(crate) fn asks_none(&self) -> bool
        ensures { IsTrue result ↔ AsksNone (change_of self.now) }
    {
        match self {
            Command::Patch { if_rev, .. } => if_rev.is_none(),
            _ => true,
        }
    }
}
