//! The line that is being read.
ghost use Rattle.std.specs.Prelude.{◌≡◌, ◌≤◌, ◌<◌, ◌+◌, ◌&&◌, true, false, ℕ, List, [], ◌++◌, length, IfOk, IfSome, MatchOption};
ghost use Rattle.std.specs.Vec.{vec_len, vec_capacity};
ghost use Rattle.protocol.specs.declared.limits.TheConstants.{LINE_BYTES};
ghost use Rattle.protocol.specs.Lines.{is_blank, is_blank_byte, HasNoBreak};

use crate::limits::LINE_BYTES;
use std::alloc::{AllocError, Global};

/// The bytes of a line that came until now, as far as they are within the limit. Its memory is taken once.
#[derive(Drop)]
pub struct Line {
    bytes: Vec<u8>,
    /// Bytes beyond the limit have come, and `bytes` doesn't have them.
    long: bool,
    /// No byte has come but space, tab and carriage return.
    blank: bool,
    ghost room: { LINE_BYTES ≤ vec_capacity bytes },
    ghost short: { vec_len bytes ≤ LINE_BYTES },
}

impl Line {
    ghost use Rattle.protocol.specs.LineBuffer.{Holds};

    pub fn new(alloc: Global) -> Result<Line, AllocError>
        ensures { IfOk result (λ line. Holds line []) }
    {
        Ok(Line {
            bytes: Vec::with_capacity(alloc, LINE_BYTES)?,
            long: false,
            blank: true,
        })
    }

    /// Begins the next line.
    pub fn clear(&mut self)
        ensures { Holds self.new [] }
    {
        self.bytes.clear();
        self.long = false;
        self.blank = true;
    }

    /// Takes the next bytes of the line, without memory.
    pub fn extend(&mut self, more: &[u8])
        requires { HasNoBreak more.now }
        ensures { (so_far : List ℕ) → Holds self.old so_far → Holds self.new (so_far ++ more.now) }
    {
        self.blank = is_blank_still(self.blank, more);
        if self.has_room(more.len()) {
            self.bytes.extend_from_slice(more).unwrap();
        } else {
            self.long = true;
        }
    }

    // Whether the line is within the limit with `more` bytes more.
    fn has_room(&self, more: usize) -> bool
        ensures yes { result ≡ true → (self.now.long ≡ false) × (vec_len self.now.bytes + more ≤ LINE_BYTES) }
        ensures no { result ≡ false → self.now.long ≡ false → LINE_BYTES < vec_len self.now.bytes + more }
    {
        !self.long && more <= LINE_BYTES - self.bytes.len()
    }

    /// Whether the line has no byte but space, tab and carriage return.
    pub fn is_blank(&self) -> bool
        ensures { (so_far : List ℕ) → Holds self.now so_far → result ≡ is_blank so_far }
    {
        self.blank
    }

    /// The line; `None` if it is over the limit.
    pub fn text(&self) -> Option<&[u8]>
        ensures text { (so_far : List ℕ) → Holds self.now so_far
            → MatchOption result (LINE_BYTES < length so_far) (λ text. text.now ≡ so_far) }
        ensures short { IfSome result (λ text. length text.now ≤ LINE_BYTES) }
    {
        if self.long {
            None
        } else {
            Some(self.bytes.as_slice())
        }
    }
}

// Whether a line, blank or not until now, is blank with these bytes too.
fn is_blank_still(blank: bool, more: &[u8]) -> bool
    ensures { result ≡ blank && is_blank more.now }
{
    blank && is_blank(more)
}

fn is_blank(bytes: &[u8]) -> bool
    ensures { result ≡ is_blank bytes.now }
{
    bytes.iter().all(|b| is_blank_byte(*b))
}

/// Space, tab or carriage return.
fn is_blank_byte(byte: u8) -> bool
    ensures { result ≡ is_blank_byte byte }
{
    byte == b' ' || byte == b'\t' || byte == b'\r'
}
