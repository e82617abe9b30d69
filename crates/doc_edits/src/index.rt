//! The index that a token names in an array.

ghost use Rattle.std.specs.Prelude.{◌≡◌, ◌<◌, IfSome};
ghost use Rattle.doc_edits.specs.Edit.{index_below};

use doc_pointer::array_index;

/// The index below the bound that the token names (RFC 6901, section 4).
pub fn index_within(token: &str, bound: u64) -> Option<usize>
    ensures named { result ≡ index_below bound token.now }
    ensures below { IfSome result (λ i. i < bound) }
{
    let index = array_index(token)?;
    if index < bound {
        Some(index as usize)
    } else {
        None
    }
}
