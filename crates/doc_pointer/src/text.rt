//! The text of a pointer.

ghost use Rattle.std.specs.Prelude.{◌≡◌, ◌++◌, string_bytes, IfOk};
ghost use Rattle.doc_pointer.specs.Text.{escaped, pointer_text};

use crate::pointer::Pointer;
use std::alloc::{AllocError, Global};

impl Pointer {
    /// The text that writes the pointer (RFC 6901, section 3): `Pointer::read` answers the same tokens for it.
    pub fn text(&self, alloc: Global) -> Result<String, AllocError>
        ensures { IfOk result (λ s. string_bytes s ≡ pointer_text self.now) }
    {
        let mut text = String::new(alloc);
        for token in &self.tokens {
            text.push('/')?;
            text = with_token(text, token)?;
        }
        Ok(text)
    }
}

// The text with the escaped token after it.
fn with_token(text: String, token: &str) -> Result<String, AllocError>
    ensures { IfOk result (λ s. string_bytes s ≡ string_bytes text ++ escaped token.now) }
{
    let mut text = text;
    for c in token.chars() {
        if c == '~' {
            text.push_str("~0")?;
        } else if c == '/' {
            text.push_str("~1")?;
        } else {
            text.push(c)?;
        }
    }
    Ok(text)
}
