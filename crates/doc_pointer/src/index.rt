//! The array index that a token writes.

ghost use Rattle.std.specs.Prelude.{◌≡◌, ◌≢◌, ◌<◌, ◌^◌, ℕ, decimal, MatchOption};

/// The number below 2^64 whose decimal text the token is: `0`, or a digit from 1 to 9 and further digits (RFC 6901,
/// section 4). `None` for every other token, among them `-` and the empty one. Takes no memory.
pub fn array_index(token: &str) -> Option<u64>
    ensures { MatchOption result ((i : ℕ) → i < 2 ^ 64 → decimal i ≢ token.now)
        (λ i. decimal i ≡ token.now) }
{
    let Ok(index) = token.parse::<u64>() else {
        return None;
    };
    // `parse` also reads `+1` and `01`; the number's own text is neither.
    let mut buffer = itoa::Buffer::new();
    if buffer.format(index) == token {
        Some(index)
    } else {
        None
    }
}
