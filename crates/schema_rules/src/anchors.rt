//! The anchor of a schema.
ghost use Rattle.std.specs.Prelude.{◌≡◌, option_map};
ghost use Rattle.doc_tree.specs.TreeView.{view};
ghost use Rattle.schema_rules.specs.Anchors.{anchor_of, begins_anchor, is_anchor, is_anchor_text};

use crate::references::are_name_bytes;
use doc_tree::Tree;

/// The anchor of the schema, if it has one (JSON Schema Core, section 8.2.2).
pub fn anchor_of(schema: &Tree) -> Option<&str>
    ensures { option_map (λ s. s.now) result ≡ anchor_of (view schema.now) }
{
    match schema.member("$anchor") {
        Some(Tree::Text(anchor)) => Some(anchor.as_str()),
        _ => None,
    }
}

/// Whether it is a text with the form of an anchor.
pub(crate) fn is_anchor_text(value: &Tree) -> bool
    ensures { result ≡ is_anchor_text (view value.now) }
{
    match value {
        Tree::Text(text) => is_anchor(text.as_bytes()),
        _ => false,
    }
}

fn is_anchor(bytes: &[u8]) -> bool
    ensures { result ≡ is_anchor bytes.now }
{
    match bytes.split_first() {
        Some((first, rest)) => begins_anchor(*first) && are_name_bytes(rest),
        None => false,
    }
}

fn begins_anchor(byte: u8) -> bool
    ensures { result ≡ begins_anchor byte }
{
    byte.is_ascii_alphabetic() || byte == b'_'
}
