//! The schema that a reference of profile 1 or 2 names.
ghost use Rattle.std.specs.Prelude.{◌≡◌, ◌<◌, option_map, Some, codes};
ghost use Rattle.std.specs.List.{list_all};
ghost use Rattle.doc_tree.specs.Doc.{get_member};
ghost use Rattle.doc_tree.specs.TreeView.{view};
ghost use Rattle.schema_rules.specs.Parts.{members_in};
ghost use Rattle.schema_rules.specs.EarlierReferences.{earlier_target, earlier_target_of, definition, is_name, is_name_byte, without_front};

use doc_tree::Tree;

/// The schema that a reference of profile 1 or 2 names: the root for `#`, the root's definition of that name for
/// `#/$defs/NAME` (JSON Schema Core, sections 8.2.3.1 and 8.2.4); `None` for any other, or no text.
pub fn earlier_target<'t>(root: &'t Tree, value: &Tree) -> Option<&'t Tree>
    ensures { option_map (λ t. view t.now) result ≡ earlier_target (view root.now) (view value.now) }
{
    match value {
        Tree::Text(text) => earlier_target_of(root, text.as_str()),
        _ => None,
    }
}

fn earlier_target_of<'t>(root: &'t Tree, name: &str) -> Option<&'t Tree>
    ensures { option_map (λ t. view t.now) result ≡ earlier_target_of (view root.now) name.now }
{
    if name == "#" {
        return Some(root);
    }
    definition(root, definition_name(name)?)
}

fn definition_name(name: &str) -> Option<&str>
    ensures { option_map (λ s. s.now) result ≡ without_front (codes "#/$defs/") name.now }
{
    name.strip_prefix("#/$defs/")
}

fn definition<'t>(root: &'t Tree, name: &str) -> Option<&'t Tree>
    ensures { option_map (λ t. view t.now) result ≡ definition (view root.now) (Some name.now) }
{
    if !is_name(name) {
        return None;
    }
    root.member("$defs")?.member(name)
}

fn is_name(name: &str) -> bool
    ensures { result ≡ is_name name.now }
{
    !name.is_empty() && are_name_bytes(name.as_bytes())
}

pub(crate) fn are_name_bytes(bytes: &[u8]) -> bool
    ensures { result ≡ list_all is_name_byte bytes.now }
{
    for byte in bytes {
        if !is_name_byte(*byte) {
            return false;
        }
    }
    true
}

fn is_name_byte(byte: u8) -> bool
    ensures { result ≡ is_name_byte byte }
{
    byte.is_ascii_alphanumeric() || byte == b'_' || byte == b'-' || byte == b'.'
}
