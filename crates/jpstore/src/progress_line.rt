//! A line on a terminal that says how far a long call is.

use file_device::Progress;
use std::io::{IsTerminal, Write};
use std::time::{Clock, Duration, Instant};

/// The seconds before the first line.
const FIRST: u64 = 1;

/// The seconds before each further line.
const LATER: u64 = 5;

/// Shows on a terminal how much of a new file is written: a line after a second, and another every five seconds. On
/// what is no terminal it shows nothing.
#[derive(Drop)]
pub struct ProgressLine<'a, C, E> {
    clock: &'a C,
    errors: E,
    is_shown: bool,
    told: Option<Instant>,
    pause: u64,
}

impl<'a, C: Clock, E: Write + IsTerminal> ProgressLine<'a, C, E> {
    /// A progress line on this stream, by this clock.
    pub fn new(clock: &'a C, errors: E) -> ProgressLine<'a, C, E> {
        let is_shown = errors.is_terminal();
        ProgressLine {
            clock,
            errors,
            is_shown,
            told: None,
            pause: FIRST,
        }
    }
}

impl<'a, C: Clock, E: Write> Progress for ProgressLine<'a, C, E> {
    fn reached(&mut self, written: u64, length: u64) {
        if !self.is_shown {
            return;
        }
        let Ok(now) = Instant::now(self.clock) else {
            return;
        };
        let told = *self.told.get_or_insert(now);
        if now.duration_since(told) < Duration::from_secs(self.pause) {
            return;
        }
        let percent = (written / (length / 100).max(1)).min(100);
        let _ = writeln!(self.errors, "jpstore: {percent}% of the file is written");
        self.told = Some(now);
        self.pause = LATER;
    }
}
