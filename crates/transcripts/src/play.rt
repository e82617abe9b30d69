//! A play of a row.

use crate::bench::Bench;
use crate::fault::Fault;
use crate::replies::agree;
use crate::script::{Row, Step};
use crate::texts::text_of;
use crate::words::act;
use std::alloc::Global;
use std::mem;

/// The reply or report, and the one that was wanted in its place.
#[derive(Drop)]
pub struct Difference {
    pub wanted: String,
    pub said: String,
}

/// A play: the bench, the lines that wait to be served, what was said since, and what is wanted.
#[derive(Drop)]
struct Playing {
    alloc: Global,
    bench: Bench,
    lines: String,
    said: String,
    wanted: String,
}

/// Plays a row with the choice of that number, and answers the first place at which it goes another way.
pub fn play(alloc: Global, row: &Row, turn: usize) -> Result<Option<Difference>, Fault> {
    let mut playing = Playing {
        alloc,
        bench: Bench::new(alloc)?,
        lines: String::new(alloc),
        said: String::new(alloc),
        wanted: String::new(alloc),
    };
    playing.play(row, turn)
}

impl Playing {
    /// Does all steps, and answers the first place at which one went another way.
    fn play(&mut self, row: &Row, turn: usize) -> Result<Option<Difference>, Fault> {
        for step in &row.steps {
            if let Some(found) = self.go_on(row, turn, *step)? {
                return Ok(Some(found));
            }
        }
        self.serve_lines()?;
        Ok(self.compare())
    }

    /// Does a step, and answers the place before it at which the row went another way.
    fn go_on(&mut self, row: &Row, turn: usize, step: Step) -> Result<Option<Difference>, Fault> {
        match step {
            Step::Reply(text) => {
                self.serve_lines()?;
                let text = text_of(self.alloc, row, turn, text)?;
                self.wanted.push_str(text.as_str())?;
                self.wanted.push('\n')?;
                Ok(None)
            }
            Step::Line(text) => {
                let text = text_of(self.alloc, row, turn, text)?;
                let found = self.compare_replies();
                self.lines.push_str(text.as_str())?;
                self.lines.push('\n')?;
                Ok(found)
            }
            Step::Word(text) => {
                let text = text_of(self.alloc, row, turn, text)?;
                self.serve_lines()?;
                let found = self.compare();
                act(self.alloc, &mut self.bench, text.as_str(), &mut self.said)?;
                Ok(found)
            }
        }
    }

    /// Serves the lines that wait.
    fn serve_lines(&mut self) -> Result<(), Fault> {
        if self.lines.is_empty() {
            return Ok(());
        }
        self.bench.serve(self.lines.as_str(), &mut self.said)?;
        self.lines = String::new(self.alloc);
        Ok(())
    }

    /// Compares before a line: if none waits, the last replies are complete.
    fn compare_replies(&mut self) -> Option<Difference> {
        if self.lines.is_empty() {
            return self.compare();
        }
        None
    }

    /// Compares what was said with what is wanted, and forgets both.
    fn compare(&mut self) -> Option<Difference> {
        let wanted = mem::replace(&mut self.wanted, String::new(self.alloc));
        let said = mem::replace(&mut self.said, String::new(self.alloc));
        if agree(wanted.as_str(), said.as_str()) {
            return None;
        }
        Some(Difference { wanted, said })
    }
}
