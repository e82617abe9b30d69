//! A damage of a store, and its text.
ghost use Rattle.std.specs.Prelude.{◌≡◌};
ghost use Rattle.damaged_files.specs.Damages.{slot_name, slot_start};

use refusals::name_of;
use std::fmt::{self, Display, Formatter};

/// A damage of a store.
#[derive(Clone, Copy, Debug, PartialEq, Eq)]
pub enum Damage {
    /// An opening would be refused by that number.
    Unopened { number: u16 },
    /// No commit is valid.
    NoCommit,
    /// The file ends before these sectors of the store.
    Missing { span: Span },
    /// The store ends before these sectors of the file.
    Surplus { span: Span },
    /// The slot of that place, from A to B', holds no valid commit: 32 sectors from that one on.
    Slot { place: u64, sector: u64 },
    /// The slot of that place is valid, but doesn't hold the last commit, as the other one of its pair does.
    OldSlot { place: u64, sector: u64 },
    /// The bytes that a commit counts in a half don't have its checksum.
    Checksum { half: u32, span: Span },
    /// Bytes from that byte of a sector on are no frame.
    Lost { byte: u64, rest: Lost },
    /// The frame at that byte of a sector isn't taken.
    Refused { byte: u64, rest: Refused },
    /// The sector isn't read.
    Unread { sector: u64 },
}

/// Sectors from one on.
#[derive(Clone, Copy, Debug, PartialEq, Eq)]
pub struct Span {
    pub sector: u64,
    pub sectors: u64,
}

/// How many bytes are no frame, and the sector of the first.
#[derive(Clone, Copy, Debug, PartialEq, Eq)]
pub struct Lost {
    pub len: usize,
    pub sector: u64,
}

/// The number by which a frame is refused, and its spot.
#[derive(Clone, Copy, Debug, PartialEq, Eq)]
pub struct Refused {
    pub number: u16,
    pub spot: Spot,
}

/// The sector of a frame, and its seq.
#[derive(Clone, Copy, Debug, PartialEq, Eq)]
pub struct Spot {
    pub sector: u64,
    pub seq: u64,
}

impl Display for Damage {
    ghost use Rattle.std.specs.Prelude.{Some};
    ghost use Rattle.damaged_files.specs.Damages.{text_of_damage};

    ghost output = { λ damage. Some (text_of_damage damage) };

    fn fmt<W: fmt::Write>(&self, f: &mut Formatter<W>) -> fmt::Result {
        match self {
            Damage::Unopened { number } => {
                let name = name_of(*number);
                write!(
                    f,
                    "{{\"damage\":\"unopened\",\"error\":\"{name}\",\"number\":{number}}}"
                )
            }
            Damage::NoCommit => f.write_str("{\"damage\":\"no-commit\"}"),
            Damage::Missing { span } => write!(f, "{{\"damage\":\"missing\",{span}}}"),
            Damage::Surplus { span } => write!(f, "{{\"damage\":\"surplus\",{span}}}"),
            Damage::Slot { place, sector } => {
                let name = slot_name(*place);
                write!(
                    f,
                    "{{\"damage\":\"slot\",\"sector\":{sector},\"sectors\":32,\"slot\":\"{name}\"}}"
                )
            }
            Damage::OldSlot { place, sector } => {
                let name = slot_name(*place);
                write!(
                    f,
                    "{{\"damage\":\"old-slot\",\"sector\":{sector},\"sectors\":32,\"slot\":\"{name}\"}}"
                )
            }
            Damage::Checksum { half, span } => {
                write!(f, "{{\"damage\":\"checksum\",\"half\":{half},{span}}}")
            }
            Damage::Lost { byte, rest } => write!(f, "{{\"byte\":{byte},{rest}}}"),
            Damage::Refused { byte, rest } => write!(f, "{{\"byte\":{byte},{rest}}}"),
            Damage::Unread { sector } => write!(f, "{{\"damage\":\"unread\",\"sector\":{sector}}}"),
        }
    }
}

impl Display for Span {
    ghost use Rattle.std.specs.Prelude.{Some};
    ghost use Rattle.damaged_files.specs.Damages.{text_of_span};

    ghost output = { λ span. Some (text_of_span span) };

    fn fmt<W: fmt::Write>(&self, f: &mut Formatter<W>) -> fmt::Result {
        let Span { sector, sectors } = self;
        write!(f, "\"sector\":{sector},\"sectors\":{sectors}")
    }
}

impl Display for Lost {
    ghost use Rattle.std.specs.Prelude.{Some};
    ghost use Rattle.damaged_files.specs.Damages.{text_of_lost};

    ghost output = { λ lost. Some (text_of_lost lost) };

    fn fmt<W: fmt::Write>(&self, f: &mut Formatter<W>) -> fmt::Result {
        let Lost { len, sector } = self;
        write!(
            f,
            "\"damage\":\"lost\",\"length\":{len},\"sector\":{sector}"
        )
    }
}

impl Display for Refused {
    ghost use Rattle.std.specs.Prelude.{Some};
    ghost use Rattle.damaged_files.specs.Damages.{text_of_refused};

    ghost output = { λ refused. Some (text_of_refused refused) };

    fn fmt<W: fmt::Write>(&self, f: &mut Formatter<W>) -> fmt::Result {
        let Refused { number, spot } = self;
        write!(f, "\"damage\":\"refused\",\"number\":{number},{spot}")
    }
}

impl Display for Spot {
    ghost use Rattle.std.specs.Prelude.{Some};
    ghost use Rattle.damaged_files.specs.Spots.{text_of_spot};

    ghost output = { λ spot. Some (text_of_spot spot) };

    fn fmt<W: fmt::Write>(&self, f: &mut Formatter<W>) -> fmt::Result {
        let Spot { sector, seq } = self;
        write!(f, "\"sector\":{sector},\"seq\":{seq}")
    }
}

// The name of a slot.
fn slot_name(place: u64) -> &'static str
    ensures { result.now ≡ slot_name place }
{
    match place {
        0 => "A",
        1 => "A'",
        2 => "B",
        _ => "B'",
    }
}

/// The first sector of a slot.
pub(crate) fn slot_start(place: u64) -> u64
    ensures { result ≡ slot_start place }
{
    place.saturating_mul(32)
}
