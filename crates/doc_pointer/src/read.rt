//! The reading of a pointer from its text.

ghost use Rattle.std.specs.Prelude.{◌≡◌, ℕ, List, string_bytes, IfOk, IfErr};
ghost use Rattle.doc_pointer.specs.Fault.{IsFaultOf, IsTokenFaultOf};
ghost use Rattle.doc_pointer.specs.Lacks.{Lacks};
ghost use Rattle.doc_pointer.specs.Text.{escaped, pointer_text, slash};

use crate::cut::{cut_at_slash, cut_at_tilde};
use crate::fault::PointerFault;
use crate::pointer::Pointer;
use refusals::numbers::POINTER;
use std::alloc::Global;

impl Pointer {
    /// The pointer that the text writes (RFC 6901, section 3).
    ///
    /// Answers `refusals::numbers::POINTER` if the text writes no pointer, and `refusals::numbers::MEMORY` if there was
    /// no memory.
    pub fn read(alloc: Global, text: &str) -> Result<Pointer, PointerFault>
        ensures ok { IfOk result (λ p. pointer_text p ≡ text.now) }
        // No other list of tokens has this text.
        ensures only { IfOk result (λ p. (ks : List (List ℕ)) → pointer_text ks ≡ text.now → ks ≡ p) }
        ensures err { IfErr result (IsFaultOf text.now) }
    {
        let mut tokens = Vec::new(alloc);
        if text.is_empty() {
            return Ok(Pointer { tokens });
        }
        let Some(mut rest) = text.strip_prefix('/') else {
            return Err(PointerFault { number: POINTER });
        };
        'parts: while let Some((part, more)) = cut_at_slash(rest) {
            tokens.push(token_of(alloc, part)?)?;
            rest = more;
        }
        tokens.push(token_of(alloc, rest)?)?;
        Ok(Pointer { tokens })
    }
}

// The token that a part writes. One pass, so that a `~` or `/` which came from an escape begins none.
fn token_of(alloc: Global, part: &str) -> Result<String, PointerFault>
    requires { Lacks slash part.now }
    ensures ok { IfOk result (λ s. escaped (string_bytes s) ≡ part.now) }
    ensures err { IfErr result (IsTokenFaultOf part.now) }
{
    let mut token = String::new(alloc);
    let mut rest = part;
    'escapes: while let Some((plain, escape)) = cut_at_tilde(rest) {
        token.push_str(plain)?;
        if let Some(after_zero) = escape.strip_prefix('0') {
            token.push('~')?;
            rest = after_zero;
        } else if let Some(after_one) = escape.strip_prefix('1') {
            token.push('/')?;
            rest = after_one;
        } else {
            return Err(PointerFault { number: POINTER });
        }
    }
    token.push_str(rest)?;
    Ok(token)
}
