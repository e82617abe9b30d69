//! The fragment of a reference, and the text that it spells.
ghost use Rattle.std.specs.Prelude.{◌≡◌, IfOk, OnErr, is_some, option_map, string_bytes, true};
ghost use Rattle.std.specs.Str.{is_utf8};
ghost use Rattle.doc_tree.specs.TreeView.{view};
ghost use Rattle.percent_encoding.specs.Iter.{decoded_bytes};
ghost use Rattle.schema_rules.specs.Fragments.{after_hash, behind, fragment, identifier, spelled, without_hash};

use doc_tree::Tree;
use percent_encoding::{PercentDecode, percent_decode};
use std::alloc::{AllocError, Global};

/// The fragment of a reference to the whole schema, or to a part of it. `None` if it leads elsewhere.
pub(crate) fn fragment<'r>(root: &Tree, reference: &'r str) -> Option<&'r str>
    ensures { option_map (λ s. s.now) result ≡ fragment (view root.now) reference.now }
{
    match after_hash(reference) {
        Some(fragment) => Some(fragment),
        None => after_hash(behind(identifier(root), reference)?),
    }
}

fn after_hash(reference: &str) -> Option<&str>
    ensures { option_map (λ s. s.now) result ≡ after_hash reference.now }
{
    if reference.is_empty() {
        return Some(reference);
    }
    reference.strip_prefix("#")
}

// The rest of a reference that begins with the identifier.
fn behind<'r>(identifier: Option<&str>, reference: &'r str) -> Option<&'r str>
    ensures { option_map (λ s. s.now) result ≡ behind (option_map (λ s. s.now) identifier.entry) reference.now }
{
    match identifier {
        Some(identifier) => reference.strip_prefix(identifier),
        None => None,
    }
}

// The identifier of the whole schema.
fn identifier(root: &Tree) -> Option<&str>
    ensures { option_map (λ s. s.now) result ≡ identifier (view root.now) }
{
    match root.member("$id") {
        Some(Tree::Text(text)) => Some(without_hash(text.as_str())),
        _ => None,
    }
}

// Without an empty fragment at the end.
fn without_hash(identifier: &str) -> &str
    ensures { result.now ≡ without_hash identifier.now }
{
    match identifier.strip_suffix('#') {
        Some(rest) => rest,
        None => identifier,
    }
}

/// The text that a fragment spells. `None` if its bytes are no UTF-8, for which no memory is taken: an error means that
/// memory ran out for a text.
pub(crate) fn spelled(fragment: &str, alloc: Global) -> Result<Option<String>, AllocError>
    ensures found { IfOk result (λ found. option_map string_bytes found ≡ spelled fragment.now) }
    ensures memory { OnErr result (is_some (spelled fragment.now) ≡ true) }
{
    let bytes = percent_decode(fragment.as_bytes());
    if !is_text(bytes) {
        return Ok(None);
    }
    match bytes.decode_utf8(alloc) {
        Ok(text) => Ok(Some(text.into_owned(alloc)?)),
        Err(_) => Err(AllocError),
    }
}

// The most bytes of a character.
const MOST: usize = 4;

// Whether the bytes are UTF-8. Takes no memory.
fn is_text(bytes: PercentDecode<'_>) -> bool
    ensures { result ≡ is_utf8 (decoded_bytes bytes.entry) }
{
    // The bytes that came since the last whole character.
    let mut begun = [0; MOST];
    let mut len = 0;
    for byte in bytes {
        if len == MOST {
            return false;
        }
        begun[len] = byte;
        len += 1;
        if str::from_utf8(&begun[..len]).is_ok() {
            len = 0;
        }
    }
    len == 0
}
