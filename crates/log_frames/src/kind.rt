//! The kinds of frames.

/// What a frame holds.
#[derive(Clone, Copy, Debug, Drop, PartialEq, Eq)]
pub enum Kind {
    /// The last change of its transaction.
    Last,
    /// A change that others of its transaction follow.
    More,
    /// A document of the snapshot that a log begins with.
    Kept,
    /// A mark: of that snapshot, or of the transaction that it ends.
    Noted,
}

impl Kind {
    ghost use Rattle.std.specs.Prelude.{◌≡◌, ◌<◌, MatchOption};
    ghost use Rattle.log_frames.specs.Kinds.{code_of, is_noted};

    /// Whether such a frame holds a mark, and no change.
    pub fn is_noted(self) -> bool
        ensures { result ≡ is_noted self }
    {
        matches!(self, Kind::Noted)
    }

    // The first byte of a frame of this kind.
    pub(crate) fn code(self) -> u8
        ensures { result ≡ code_of self }
    {
        match self {
            Kind::Last => 0,
            Kind::More => 1,
            Kind::Kept => 2,
            Kind::Noted => 3,
        }
    }

    // The kind whose code the byte is. `None` if it is no kind's.
    pub(crate) fn of_code(code: u8) -> Option<Kind>
        ensures { MatchOption result (3 < code) (λ kind. code_of kind ≡ code) }
    {
        match code {
            0 => Some(Kind::Last),
            1 => Some(Kind::More),
            2 => Some(Kind::Kept),
            3 => Some(Kind::Noted),
            _ => None,
        }
    }
}
