//! A place between two frames of a log, which says what may come there.
use crate::kind::Kind;

/// A place between two frames of a log, which says what may come there.
#[derive(Clone, Copy, Debug, Drop, PartialEq, Eq)]
pub enum Place {
    /// The log's beginning, and each place after a frame of its snapshot.
    Snapshot,
    /// After a whole transaction.
    Between,
    /// Within a transaction: more of its changes, or its mark, are to come.
    Within,
}

impl Place {
    ghost use Rattle.std.specs.Prelude.{◌≡◌};
    ghost use Rattle.log_frames.specs.Places.{can_end, place_after};

    /// The place after a frame of that kind. `None` if no such frame may come here: it holds a document of a snapshot,
    /// and changes came before it; or a mark, and a whole transaction came before it.
    pub fn after(self, kind: Kind) -> Option<Place>
        ensures { result ≡ place_after self kind }
    {
        match kind {
            Kind::Last => Some(Place::Between),
            Kind::More => Some(Place::Within),
            Kind::Kept => match self {
                Place::Snapshot => Some(Place::Snapshot),
                Place::Between | Place::Within => None,
            },
            Kind::Noted => match self {
                Place::Snapshot => Some(Place::Snapshot),
                Place::Between => None,
                Place::Within => Some(Place::Between),
            },
        }
    }

    /// Whether a log may end here: not within a transaction.
    pub fn can_end(self) -> bool
        ensures { result ≡ can_end self }
    {
        !matches!(self, Place::Within)
    }
}
