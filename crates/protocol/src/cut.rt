//! Cutting bytes at line feeds.
ghost use Rattle.std.specs.Prelude.{◌≡◌, ◌==◌, ◌++◌, ◌∷◌, MatchOption, position};
ghost use Rattle.protocol.specs.Lines.{line_feed, HasNoBreak};

use memchr::memchr;

/// What comes before the first line feed, and after it.
pub fn cut_at_feed(bytes: &[u8]) -> Option<(&[u8], &[u8])>
    ensures { MatchOption result (HasNoBreak bytes.now)
        (λ parts. (bytes.now ≡ parts.0.now ++ line_feed ∷ parts.1.now) × HasNoBreak parts.0.now) }
{
    match feed_in(bytes) {
        Some(at) => Some((&bytes[..at], &bytes[at + 1..])),
        None => None,
    }
}

fn feed_in(bytes: &[u8]) -> Option<usize>
    ensures { result ≡ position (λ b. b == line_feed) bytes.now }
{
    memchr(b'\n', bytes)
}
