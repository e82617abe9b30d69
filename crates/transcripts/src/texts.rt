//! The text that a line spells.

use crate::script::{Choice, Row};
use std::alloc::{AllocError, Global};

/// The text of a line in a play of its row.
pub fn text_of(alloc: Global, row: &Row, turn: usize, line: &str) -> Result<String, AllocError> {
    let mut text = line.to_string(alloc)?;
    let mut left = turn;
    for choice in &row.choices {
        text = with_value(alloc, choice, left, text.as_str())?;
        left = left.checked_div(choice.values.len()).unwrap_or(0);
    }
    written_out(alloc, text.as_str())
}

/// The text with one of a choice's values in the place of its name.
fn with_value(
    alloc: Global,
    choice: &Choice,
    turn: usize,
    text: &str,
) -> Result<String, AllocError> {
    let index = turn.checked_rem(choice.values.len()).unwrap_or(0);
    let value = choice.values.get(index).copied().unwrap_or("");
    let name = choice.name;
    let mark = format!(in alloc; "%{name}%")?;
    text.replace(alloc, mark.as_str(), value)
}

/// The text with PART repeated N times for each `<<PART*N>>`.
fn written_out(alloc: Global, text: &str) -> Result<String, AllocError> {
    let mut out = String::new(alloc);
    for (index, piece) in text.split("<<").enumerate() {
        match repetition(piece) {
            Some((part, count, rest)) if index > 0 => {
                out.push_str(part.repeat(alloc, count)?.as_str())?;
                out.push_str(rest)?;
            }
            _ => out.push_str(piece)?,
        }
    }
    Ok(out)
}

/// The part, how many times it is repeated, and what comes after it.
fn repetition<'a>(piece: &'a str) -> Option<(&'a str, usize, &'a str)> {
    let (mark, rest) = piece.split_once(">>")?;
    let (part, count) = mark.rsplit_once('*')?;
    let count = count.parse::<usize>().ok()?;
    Some((part, count, rest))
}
