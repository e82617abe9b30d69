//! Laws of the definitions. Each function does nothing: its contract is the law.
ghost use Rattle.std.specs.Prelude.{◌≡◌, Some};
ghost use Rattle.doc_tree.specs.Doc.{Doc};
ghost use Rattle.schema_graph.specs.Walks.{In};
ghost use Rattle.schema_rules.specs.EarlierReferences.{earlier_target};
ghost use Rattle.schema_rules.specs.References.{target};
ghost use Rattle.schema_rules.specs.Schemas.{schemas};

/// What a reference names is a schema in the whole one.
pub fn references_name_schemas()
    ensures { (root value schema : Doc) → target root value ≡ Some schema → In schema (schemas root) }
{}

/// A reference of an earlier profile names the same schema.
pub fn earlier_references_stay()
    ensures { (root value schema : Doc) → earlier_target root value ≡ Some schema → target root value ≡ Some schema }
{}
