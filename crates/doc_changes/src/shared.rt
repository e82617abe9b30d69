//! A schema that was read once, for all documents that are under it.
ghost use Rattle.std.specs.Prelude.{◌≡◌, IfOk};
ghost use Rattle.doc_tree.specs.TreeView.{view};

use doc_schema::Schema;
use std::alloc::{AllocError, Global};
use std::marker::Model;
use std::sync::Arc;

/// A schema as it was read, which several documents may share. Contracts see it as the tree that it keeps, and not who
/// shares it.
#[derive(Drop)]
pub struct SharedSchema {
    schema: Arc<Schema, Global>,
}

impl Model for SharedSchema {
    ghost use Rattle.std.specs.Arc.{arc_value};
    ghost use Rattle.doc_tree.specs.contracts.tree.Tree as tree;
    ghost use Rattle.doc_tree.specs.declared.tree.Tree.{Tree};

    ghost Value = { Tree };

    ghost coded = { tree.the_row.coded };

    ghost view = { λ s. arc_value s.schema };
}

impl SharedSchema {
    /// That schema, which nobody shares yet.
    pub(crate) fn new(alloc: Global, schema: Schema) -> Result<SharedSchema, AllocError>
        ensures { IfOk result (λ shared. shared ≡ schema) }
    {
        Ok(SharedSchema {
            schema: Arc::new(alloc, schema)?,
        })
    }

    /// The same schema, which is shared from now on: it takes no memory. Refused only if more share it than can be
    /// counted.
    pub(crate) fn share(&self) -> Result<SharedSchema, AllocError>
        ensures { IfOk result (λ shared. shared ≡ self.now) }
    {
        Ok(SharedSchema {
            schema: Arc::try_clone(&self.schema)?,
        })
    }

    /// The schema, to judge under.
    pub fn get(&self) -> &Schema
        ensures { result.now ≡ self.now }
    {
        &self.schema
    }
}
