//! A pointer is a list of tokens.

ghost use Rattle.std.specs.Prelude.{◌≡◌, ℕ, List, map, string_bytes};

use std::marker::Model;

/// A JSON pointer (RFC 6901). Clauses see it as the list of its decoded tokens, each as its bytes.
#[derive(Drop)]
pub struct Pointer {
    pub(crate) tokens: Vec<String>,
}

impl Model for Pointer {
    ghost Value = { List (List ℕ) };

    ghost view = { λ p. map string_bytes p.tokens.items };
}

impl Pointer {
    /// The tokens from the root on, decoded: `/` for `~1` and `~` for `~0` (RFC 6901, section 4). The pointer to the
    /// whole document has none. Takes no memory.
    pub fn tokens(&self) -> &[String]
        ensures { map string_bytes result.now ≡ self.now }
    {
        &self.tokens
    }
}
