//! The members of a schema that are left out.
ghost use Rattle.std.specs.Prelude.{◌≡◌};
ghost use Rattle.doc_tree.specs.TreeView.{view};
ghost use Rattle.schema_rules.specs.Forms.{is_left_out, is_draft};

use crate::keyword::Keyword;
use doc_tree::Tree;

/// Whether the member is left out, at the root of a schema or below it: a keyword that is refused, `$id` or `$schema`
/// below the root (JSON Schema Core, sections 8.1.1 and 8.2.1), or another dialect than the draft 2020-12.
pub fn is_left_out(at_root: bool, keyword: Keyword, value: &Tree) -> bool
    ensures { result ≡ is_left_out at_root keyword (view value.now) }
{
    match keyword {
        Keyword::LeftOut => true,
        Keyword::Id => !at_root,
        Keyword::Dialect => !at_root || !is_draft(value),
        _ => false,
    }
}

fn is_draft(value: &Tree) -> bool
    ensures { result ≡ is_draft (view value.now) }
{
    match value {
        Tree::Text(text) => text.as_str() == "https://json-schema.org/draft/2020-12/schema",
        _ => false,
    }
}
