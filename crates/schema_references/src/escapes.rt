//! The test whether a text is a pointer. Takes no memory.
ghost use Rattle.std.specs.Prelude.{◌≡◌, is_some};
ghost use Rattle.doc_pointer.specs.Reading.{pointer_of};
ghost use Rattle.schema_references.specs.Escapes.{has_whole_escapes};

/// Whether the text is a pointer (RFC 6901). Takes no memory.
pub(crate) fn is_pointer(text: &str) -> bool
    ensures { result ≡ is_some (pointer_of text.now) }
{
    match text.strip_prefix('/') {
        Some(tokens) => has_whole_escapes(tokens.as_bytes()),
        None => text.is_empty(),
    }
}

// Whether a `0` or a `1` follows each `~`.
fn has_whole_escapes(bytes: &[u8]) -> bool
    ensures { result ≡ has_whole_escapes bytes.now }
{
    let mut in_escape = false;
    for byte in bytes {
        if in_escape && *byte != b'0' && *byte != b'1' {
            return false;
        }
        in_escape = *byte == b'~';
    }
    !in_escape
}
