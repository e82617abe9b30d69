//! The names that documents may have.
ghost use Rattle.std.specs.Prelude.{◌≡◌};
ghost use Rattle.std.specs.List.{list_all};
ghost use Rattle.doc_changes.specs.Names.{is_name, is_name_byte};

use crate::limits::NAME_BYTES;

/// Whether a text may name a document: it has 1 to 64 of the letters `A` to `Z` and `a` to `z`,
/// digits, `-`, `_` and `.`.
pub fn is_valid_name(name: &str) -> bool
    ensures { result ≡ is_name name.now }
{
    let bytes = name.as_bytes();
    !bytes.is_empty() && bytes.len() <= NAME_BYTES && are_name_bytes(bytes)
}

fn are_name_bytes(bytes: &[u8]) -> bool
    ensures { result ≡ list_all is_name_byte bytes.now }
{
    bytes.iter().all(|b| is_name_byte(*b))
}

fn is_name_byte(b: u8) -> bool
    ensures { result ≡ is_name_byte b }
{
    b.is_ascii_lowercase()
        || b.is_ascii_uppercase()
        || b.is_ascii_digit()
        || b == b'-'
        || b == b'_'
        || b == b'.'
}
