//! A transcript as rows of steps.

use std::alloc::{AllocError, Global};

/// A row of a transcript.
#[derive(Drop)]
pub struct Row<'a> {
    /// What it shows.
    pub name: &'a str,
    /// What it is played with.
    pub choices: Vec<Choice<'a>>,
    /// What happens, in order.
    pub steps: Vec<Step<'a>>,
}

/// A name in a row, and the texts that replace it in turn.
#[derive(Drop)]
pub struct Choice<'a> {
    pub name: &'a str,
    pub values: Vec<&'a str>,
}

/// One line of a row.
#[derive(Clone, Copy)]
pub enum Step<'a> {
    /// A word for the device.
    Word(&'a str),
    /// A command line.
    Line(&'a str),
    /// A reply that is wanted.
    Reply(&'a str),
}

impl<'a> Row<'a> {
    /// How many times the row is played: once with each choice of values.
    pub fn plays(&self) -> usize {
        let mut plays: usize = 1;
        for choice in &self.choices {
            plays = plays.saturating_mul(choice.values.len());
        }
        plays
    }
}

/// The rows of a text. What comes before the first is left out, and so are empty lines.
pub fn rows_of<'a>(alloc: Global, text: &'a str) -> Result<Vec<Row<'a>>, AllocError> {
    let mut rows: Vec<Row<'a>> = Vec::new(alloc);
    for line in text.split('\n') {
        if let Some(name) = line.strip_prefix("# ") {
            rows.push(Row {
                name,
                choices: Vec::new(alloc),
                steps: Vec::new(alloc),
            })?;
        } else if let Some(row) = rows.last_mut() {
            add_line(alloc, row, line)?;
        }
    }
    Ok(rows)
}

fn add_line<'a>(alloc: Global, row: &mut Row<'a>, line: &'a str) -> Result<(), AllocError> {
    if let Some(choice) = line.strip_prefix('@') {
        row.choices.push(choice_of(alloc, choice)?)?;
    } else if let Some(word) = line.strip_prefix('!') {
        row.steps.push(Step::Word(word))?;
    } else if let Some(reply) = line.strip_prefix("> ") {
        row.steps.push(Step::Reply(reply))?;
    } else if !line.is_empty() {
        row.steps.push(Step::Line(line))?;
    }
    Ok(())
}

fn choice_of<'a>(alloc: Global, line: &'a str) -> Result<Choice<'a>, AllocError> {
    let (name, rest) = line.split_once(' ').unwrap_or((line, ""));
    Ok(Choice {
        name,
        values: rest.split(' ').collect(alloc)?,
    })
}
