//! The bytes that a frame may begin with.
ghost use Rattle.std.specs.Prelude.{◌↔◌, ◌≤◌, ◌≡◌, ◌/◌, ◌^◌, IsTrue, MatchOption};
ghost use Rattle.frame_search.specs.Places.{IsPlain, IsPlainBody, head_of, length_of};

use record_text::limits::BODY_LIMIT;

// One more than the highest length that format 3 states, in 3 bytes.
const LENGTHS: u32 = 1 << 24;

// The highest code of a kind.
const LAST_KIND: u32 = 3;

/// Whether the bytes begin with a head and the plain body that it states. No more of them are read than those up to the
/// first control character.
pub(crate) fn is_plain(bytes: &[u8], version: u32) -> bool
    ensures { IsTrue result ↔ IsPlain version bytes.now }
{
    let Some((first, _)) = bytes.split_first_chunk::<4>() else {
        return false;
    };
    let Some(len) = length_of(u32::from_be_bytes(*first), version) else {
        return false;
    };
    match bytes.get(head_of(version)..) {
        Some(rest) => len <= rest.len() && is_plain_body(&rest[..len]),
        None => false,
    }
}

// The length that the number in a frame's first 4 bytes states. `None` if it is over the limit, or, in format 3, the
// number states no kind.
fn length_of(stated: u32, version: u32) -> Option<usize>
    ensures { MatchOption result ((version ≡ 3 → stated / 2 ^ 24 ≤ 3) → length_of version stated ≤ 4194304 → ⊥)
        (λ len. (version ≡ 3 → stated / 2 ^ 24 ≤ 3) × (len ≡ length_of version stated) × (len ≤ 4194304)) }
{
    let mut len = stated;
    if version == 3 {
        if stated / LENGTHS > LAST_KIND {
            return None;
        }
        len = stated % LENGTHS;
    }
    let len = len as usize;
    if len > BODY_LIMIT { None } else { Some(len) }
}

// How many bytes of a frame come before its body.
fn head_of(version: u32) -> usize
    ensures { result ≡ head_of version }
{
    if version == 1 { 4 } else { 12 }
}

// Whether a body begins with a brace, and holds no control character.
fn is_plain_body(body: &[u8]) -> bool
    ensures { IsTrue result ↔ IsPlainBody body.now }
{
    body.first() == Some(&b'{') && body.iter().all(|byte| *byte >= b' ')
}
