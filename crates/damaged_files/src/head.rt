//! The head of a frame's line, all before its command.
use crate::damage::Spot;
use log_frames::Kind;
use std::fmt::{self, Display, Formatter};
use store_parts::Check;

/// The head of a frame's line.
#[derive(Clone, Copy)]
pub struct Head {
    pub front: Front,
    pub back: Back,
    /// What the frame holds.
    pub kind: Kind,
}

/// The byte of the sector, and what is known of the bytes that the frame is among.
#[derive(Clone, Copy)]
pub struct Front {
    pub byte: u64,
    pub check: Check,
    pub counted: bool,
}

/// The half, and the frame's spot.
#[derive(Clone, Copy)]
pub struct Back {
    pub half: u32,
    pub spot: Spot,
}

impl Display for Head {
    ghost use Rattle.std.specs.Prelude.{Some};
    ghost use Rattle.damaged_files.specs.Heads.{text_of_head};

    ghost output = { λ head. Some (text_of_head head) };

    fn fmt<W: fmt::Write>(&self, f: &mut Formatter<W>) -> fmt::Result {
        let Head { front, back, kind } = self;
        let member = Member(*kind);
        write!(f, "{front},{back},\"{member}\":")
    }
}

impl Display for Front {
    ghost use Rattle.std.specs.Prelude.{Some};
    ghost use Rattle.damaged_files.specs.Heads.{text_of_front};

    ghost output = { λ front. Some (text_of_front front) };

    fn fmt<W: fmt::Write>(&self, f: &mut Formatter<W>) -> fmt::Result {
        let (byte, counted) = (self.byte, Flag(self.counted));
        let check = Word(self.check);
        write!(
            f,
            "{{\"byte\":{byte},\"check\":\"{check}\",\"counted\":{counted}"
        )
    }
}

impl Display for Back {
    ghost use Rattle.std.specs.Prelude.{Some};
    ghost use Rattle.damaged_files.specs.Heads.{text_of_back};

    ghost output = { λ back. Some (text_of_back back) };

    fn fmt<W: fmt::Write>(&self, f: &mut Formatter<W>) -> fmt::Result {
        let Back { half, spot } = self;
        write!(f, "\"half\":{half},{spot}")
    }
}

// The name under which the line has the frame's body: that of a mark is no command.
#[derive(Clone, Copy)]
struct Member(Kind);

impl Display for Member {
    ghost use Rattle.std.specs.Prelude.{Some};
    ghost use Rattle.damaged_files.specs.Heads.{member_of};

    ghost output = { λ member. Some (member_of member.0) };

    fn fmt<W: fmt::Write>(&self, f: &mut Formatter<W>) -> fmt::Result {
        match self.0 {
            Kind::Last | Kind::More | Kind::Kept => f.write_str("command"),
            Kind::Noted => f.write_str("mark"),
        }
    }
}

// A word for what is known of a checksum.
#[derive(Clone, Copy)]
struct Word(Check);

impl Display for Word {
    ghost use Rattle.std.specs.Prelude.{Some};
    ghost use Rattle.damaged_files.specs.Heads.{word_of};

    ghost output = { λ word. Some (word_of word.0) };

    fn fmt<W: fmt::Write>(&self, f: &mut Formatter<W>) -> fmt::Result {
        match self.0 {
            Check::Held => f.write_str("held"),
            Check::Failed => f.write_str("failed"),
            Check::Unknown => f.write_str("unknown"),
        }
    }
}

// A word of JSON.
#[derive(Clone, Copy)]
struct Flag(bool);

impl Display for Flag {
    ghost use Rattle.std.specs.Prelude.{Some};
    ghost use Rattle.damaged_files.specs.Heads.{bool_word};

    ghost output = { λ flag. Some (bool_word flag.0) };

    fn fmt<W: fmt::Write>(&self, f: &mut Formatter<W>) -> fmt::Result {
        if self.0 {
            f.write_str("true")
        } else {
            f.write_str("false")
        }
    }
}
